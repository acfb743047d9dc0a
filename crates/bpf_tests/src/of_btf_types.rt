//! Files that both parsers accept or refuse, and the tables of the accepted ones.

mod accepted;
mod checks;
mod examples;
mod expect;
mod faulty_fields;
mod faulty_frames;
mod files;
mod kinds;
mod largest;
mod memory;
mod refused;
mod tables;

use btf_raw::{BtfCause, BtfFault};
use btf_types::{Btf, BtfError, BtfView};
use checks::first_fault;
use expect::equal;
use std::alloc::{AllocError, Global};
use std::fmt::Debug;
use std::process::Abort;
use tables::is_shown;

const fn fault(pos: u64, cause: BtfCause) -> BtfFault {
    BtfFault { pos, cause }
}

/// Changes some of the bytes.
fn change(bytes: &mut [u8], edits: &[(usize, u8)]) {
    for (pos, byte) in edits {
        if let Some(old) = bytes.get_mut(*pos) {
            *old = *byte;
        }
    }
}

/// The bytes with some of them changed.
fn edited(rt: &impl Abort, alloc: Global, bytes: &[u8], edits: &[(usize, u8)]) -> Vec<u8> {
    let mut copy = Vec::from_slice(alloc, bytes).expect(rt, "ample memory");
    change(&mut copy, edits);
    copy
}

/// A length as a little-endian word.
fn len_word(bytes: &[u8]) -> [u8; 4] {
    u32::try_from(bytes.len()).unwrap_or(0).to_le_bytes()
}

/// The little-endian file of these records and strings.
fn file(rt: &impl Abort, alloc: Global, records: &[u8], strings: &[u8]) -> Vec<u8> {
    let header = b"\x9f\xeb\x01\0\x18\0\0\0\0\0\0\0";
    let mut bytes = Vec::from_slice(alloc, header).expect(rt, "ample memory");
    for part in [
        &len_word(records),
        &len_word(records),
        &len_word(strings),
        records,
        strings,
    ] {
        bytes.extend_from_slice(part).expect(rt, "ample memory");
    }
    bytes
}

/// The value of a hexadecimal digit.
fn digit(byte: u8) -> Option<u32> {
    match byte {
        b'0'..=b'9' => Some(u32::from(byte - b'0')),
        b'a'..=b'f' => Some(u32::from(byte - b'a') + 10),
        _ => None,
    }
}

/// The bytes of little-endian 32-bit words, each written as eight hexadecimal digits.
fn words(rt: &impl Abort, alloc: Global, text: &str) -> Vec<u8> {
    let mut bytes = Vec::new(alloc);
    let mut word = 0_u32;
    let mut digits = 0_u32;
    for byte in text.bytes() {
        let Some(value) = digit(byte) else {
            continue;
        };
        word = word << 4 | value;
        digits = digits.wrapping_add(1);
        if digits % 8 == 0 {
            let word = word.to_le_bytes();
            bytes.extend_from_slice(&word).expect(rt, "ample memory");
        }
    }
    bytes
}

/// What a parser returns: no fault, or the first.
fn fault_of<T: Drop>(parsed: Result<T, BtfError>) -> Result<Option<BtfFault>, AllocError> {
    match parsed {
        Ok(_) => Ok(None),
        Err(BtfError::Fault(fault)) => Ok(Some(fault)),
        Err(BtfError::Memory) => Err(AllocError),
    }
}

/// Checks that both parsers find this fault first, or none.
fn check_parsers(
    rt: &impl Abort,
    alloc: Global,
    bytes: &[u8],
    fault: Option<BtfFault>,
    case: &impl Debug,
) {
    let owned = fault_of(Btf::parse(alloc, bytes));
    equal(rt, &owned, &Ok(fault), case);
    let borrowed = fault_of(BtfView::parse(alloc, bytes));
    equal(rt, &borrowed, &Ok(fault), case);
}

/// How the bytes of a file are given.
#[derive(Clone, Copy)]
enum Source {
    /// A file, and bytes that are changed in it.
    Edited(&'static [u8], &'static [(usize, u8)]),
    /// The fields of the records of a little-endian file, in hexadecimal, and its strings. The records begin at byte 24.
    Fields(&'static str, &'static [u8]),
}

impl Source {
    fn bytes(self, rt: &impl Abort, alloc: Global) -> Vec<u8> {
        match self {
            Source::Edited(bytes, edits) => edited(rt, alloc, bytes, edits),
            Source::Fields(text, strings) => file(rt, alloc, &words(rt, alloc, text), strings),
        }
    }
}

/// What both parsers make of a file.
#[derive(Clone, Copy)]
enum Wanted {
    /// The offset and the cause of its first fault.
    Fault(u64, BtfCause),
    /// The heads and items of its table, one a line.
    Lines(&'static str),
}

/// A file, and what both parsers make of it. The reference checker finds the same fault, or none.
struct Row {
    name: &'static str,
    file: Source,
    wanted: Wanted,
}

impl Row {
    fn check(&self, rt: &impl Abort, alloc: Global, bytes: &[u8]) {
        let fault = match self.wanted {
            Wanted::Fault(pos, cause) => Some(BtfFault { pos, cause }),
            Wanted::Lines(_) => None,
        };
        equal(rt, &first_fault(rt, alloc, bytes), &fault, &self.name);
        check_parsers(rt, alloc, bytes, fault, &self.name);
        if let Wanted::Lines(lines) = self.wanted {
            is_shown(rt, alloc, Btf::parse(alloc, bytes), lines, self.name);
            is_shown(rt, alloc, BtfView::parse(alloc, bytes), lines, self.name);
        }
    }
}

fn check_all(rt: &impl Abort, alloc: Global, rows: &[Row]) {
    for row in rows {
        row.check(rt, alloc, &row.file.bytes(rt, alloc));
    }
}
