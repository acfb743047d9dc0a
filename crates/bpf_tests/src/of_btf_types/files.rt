//! Files with each byte changed to every other value, cut at every length, or with names at every offset, against the reference.

use crate::of_btf_types::checks::first_fault;
use crate::of_btf_types::examples::{BIG_ENUM64, BIG_INT, EMPTY, MEMBER, STRINGS_FIRST, TAGGED};
use crate::of_btf_types::expect::equal;
use crate::of_btf_types::{change, check_parsers, fault, file};
use btf_raw::{BtfCause, BtfFault};
use std::alloc::Global;
use std::fmt::Debug;
use std::process::Abort;

/// Checks that both parsers return what the reference does.
fn is_checked(rt: &impl Abort, alloc: Global, bytes: &[u8], case: &impl Debug) {
    let fault = first_fault(rt, alloc, bytes);
    check_parsers(rt, alloc, bytes, fault, case);
}

/// Checks it for a file with the byte at an offset changed to every value, and puts the byte back.
fn changes_are_checked(rt: &impl Abort, alloc: Global, bytes: &mut [u8], pos: usize, old: u8) {
    for value in 0..=u8::MAX {
        change(bytes, &[(pos, value)]);
        is_checked(rt, alloc, bytes, &("byte", pos, "as", value));
    }
    change(bytes, &[(pos, old)]);
}

#[test]
fn files_with_a_changed_byte_have_the_reference_result(rt: HostRuntime) {
    for file in [BIG_INT, STRINGS_FIRST, MEMBER, TAGGED, BIG_ENUM64] {
        let mut bytes = Vec::from_slice(rt.alloc(), file).expect(&rt, "ample memory");
        for (pos, old) in file.iter().enumerate() {
            changes_are_checked(&rt, rt.alloc(), &mut bytes, pos, *old);
        }
    }
}

/// String sections, with and without texts that aren't UTF-8.
const STRINGS: &[&[u8]] = &[
    b"\0\xc3\xa9\0\xe2\x82\xac\0\xf0\x9f\x98\x80b\0",
    b"\0a\xffb\0\xc3\xa9\0",
    b"\0\xe2\x82\0\x82a\0\xe2\x28\xa1c\0",
    b"\0\xed\xa0\x80d\0\xc0\x80\0\xf5\x80\x80\x80e\0",
    b"\0\xff\xff\xff\0\xff\0",
    b"\0ab\xc3\0\xa9cd\xf0\x90\x80\0",
    b"\0a text of 64 bytes and more, in which a character takes two: \xc3\xa9, and then three: \xe2\x82\xac.\0",
    b"\0a text of 64 bytes and more, in which a character lacks its end: \xe2\x82, at a place past byte 64: \xc3.\0b\0",
];

/// The file of an INT whose name begins at an offset of the strings.
fn named_int(rt: &impl Abort, alloc: Global, off: u32, strings: &[u8]) -> Vec<u8> {
    let mut record = *b"\0\0\0\0\0\0\0\x01\x04\0\0\0\x20\0\0\0";
    record[..4].copy_from_slice(&off.to_le_bytes());
    file(rt, alloc, &record, strings)
}

#[test]
fn files_with_names_at_every_offset_have_the_reference_result(rt: HostRuntime) {
    for strings in STRINGS {
        for off in 0..120_u32 {
            let bytes = named_int(&rt, rt.alloc(), off, strings);
            is_checked(&rt, rt.alloc(), &bytes, &(strings, off));
        }
    }
}

/// A file, its own header's length, and its length.
struct Whole(&'static [u8], usize, usize);

const WHOLE: &[Whole] = &[
    Whole(EMPTY, 24, 25),
    Whole(TAGGED, 24, 105),
    Whole(STRINGS_FIRST, 28, 51),
];

/// The first fault of a file that is cut to this length, by the length of its own header.
fn fault_of_cut(len: usize, header_len: usize) -> BtfFault {
    if len < 24 {
        fault(len as u64, BtfCause::ShortHeader)
    } else if len < header_len {
        fault(4, BtfCause::HeaderLength)
    } else {
        fault(len as u64, BtfCause::FileLength)
    }
}

#[test]
fn files_cut_at_every_length_have_the_reference_result(rt: HostRuntime) {
    for Whole(file, header_len, file_len) in WHOLE {
        equal(&rt, &file.len(), file_len, &"the length");
        for len in 0..file.len() {
            let fault = fault_of_cut(len, *header_len);
            let cut = &file[..len];
            check_parsers(
                &rt,
                rt.alloc(),
                cut,
                Some(fault),
                &(file_len, "cut to", len),
            );
        }
    }
}
