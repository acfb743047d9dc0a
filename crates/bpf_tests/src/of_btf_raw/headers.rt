//! Headers that are read, and those with a fault.

use crate::of_btf_raw::{equal, fault};
use bpf_words::Order;
use btf_raw::{BtfCause as Cause, Header, read_header};
use std::alloc::{AllocError, Global};

/// A file without types, whose string section is one NUL.
const EMPTY: &[u8] = b"\x9f\xeb\x01\0\x18\0\0\0\0\0\0\0\0\0\0\0\0\0\0\0\x01\0\0\0\0";

/// An INT in big-endian order.
const BIG_INT: &[u8] =
    b"\xeb\x9f\x01\0\0\0\0\x18\0\0\0\0\0\0\0\x10\0\0\0\x10\0\0\0\x05\0\0\0\x01\x01\0\0\0\0\0\0\x04\x01\0\0 \0int\0";

/// A 28-byte header, and the strings before the types.
const STRINGS_FIRST: &[u8] =
    b"\x9f\xeb\x01\0\x1c\0\0\0\x07\0\0\0\x10\0\0\0\0\0\0\0\x07\0\0\0\0\0\0\0\0x\0int\0\x03\0\0\0\0\0\0\x01\x04\0\0\0 \0\0\x01";

/// The file with these bytes changed.
fn edited(alloc: Global, file: &[u8], edits: &[(usize, u8)]) -> Result<Vec<u8>, AllocError> {
    let mut bytes = Vec::from_slice(alloc, file)?;
    for (pos, byte) in edits {
        if let Some(old) = bytes.get_mut(*pos) {
            *old = *byte;
        }
    }
    Ok(bytes)
}

/// A file, bytes that are changed in it, and its header.
struct Accepted(&'static str, &'static [u8], &'static [(usize, u8)], Header);

#[rattlefmt::skip]
const ACCEPTED: &[Accepted] = &[
    Accepted("no types", EMPTY, &[], Header { order: Order::Little, types_pos: 24, types_len: 0, str_pos: 24, str_len: 1 }),
    Accepted("no types, the strings first", EMPTY, &[(8, 1)], Header { order: Order::Little, types_pos: 25, types_len: 0, str_pos: 24, str_len: 1 }),
    Accepted("a big-endian file", BIG_INT, &[], Header { order: Order::Big, types_pos: 24, types_len: 16, str_pos: 40, str_len: 5 }),
    Accepted("a longer header, the strings first", STRINGS_FIRST, &[], Header { order: Order::Little, types_pos: 35, types_len: 16, str_pos: 28, str_len: 7 }),
];

/// A file, bytes that are changed in it, and the offset and cause of its first fault.
struct Refused(
    &'static str,
    &'static [u8],
    &'static [(usize, u8)],
    u64,
    Cause,
);

#[rattlefmt::skip]
static FIRST_FIELDS: &[Refused] = &[
    Refused("no file", b"", &[], 0, Cause::ShortHeader),
    Refused("23 bytes", b"\x9f\xeb\x01\0\x18\0\0\0\0\0\0\0\0\0\0\0\0\0\0\0\x01\0\0", &[], 23, Cause::ShortHeader),
    Refused("no magic", EMPTY, &[(0, 0)], 0, Cause::Magic),
    Refused("version 2", EMPTY, &[(2, 2)], 2, Cause::Version),
    Refused("version 0", EMPTY, &[(2, 0)], 2, Cause::Version),
    Refused("version before flags", EMPTY, &[(2, 2), (3, 1)], 2, Cause::Version),
    Refused("a flag", EMPTY, &[(3, 1)], 3, Cause::Flags),
    Refused("the highest flag", EMPTY, &[(3, 0x80)], 3, Cause::Flags),
    Refused("a header of 23 bytes", EMPTY, &[(4, 0x17)], 4, Cause::HeaderLength),
    Refused("a header past the file", EMPTY, &[(4, 0x1a)], 4, Cause::HeaderLength),
    Refused("a header of 65560 bytes", EMPTY, &[(6, 1)], 4, Cause::HeaderLength),
];

#[rattlefmt::skip]
static TAILS_AND_SECTIONS: &[Refused] = &[
    Refused("the first byte of the tail", STRINGS_FIRST, &[(24, 1)], 24, Cause::HeaderTail),
    Refused("a byte of the tail", STRINGS_FIRST, &[(26, 1)], 26, Cause::HeaderTail),
    Refused("two bytes of the tail", STRINGS_FIRST, &[(25, 7), (27, 1)], 25, Cause::HeaderTail),
    Refused("types past the limit", EMPTY, &[(12, 1), (15, 2)], 12, Cause::TypeLength),
    Refused("types at the limit", EMPTY, &[(15, 2), (19, 2)], 25, Cause::FileLength),
    Refused("no strings", EMPTY, &[(20, 0)], 20, Cause::StringLength),
    Refused("strings past the limit", EMPTY, &[(23, 1)], 20, Cause::StringLength),
    Refused("strings at the limit", EMPTY, &[(20, 0), (23, 1)], 25, Cause::FileLength),
    Refused("a gap before the strings", EMPTY, &[(16, 1)], 8, Cause::Sections),
    Refused("a gap before the types", EMPTY, &[(8, 4)], 8, Cause::Sections),
    Refused("strings inside the types", EMPTY, &[(12, 1)], 8, Cause::Sections),
    Refused("a header that takes the strings", EMPTY, &[(4, 0x19)], 25, Cause::FileLength),
    Refused("without the last byte", b"\x9f\xeb\x01\0\x18\0\0\0\0\0\0\0\0\0\0\0\0\0\0\0\x01\0\0\0", &[], 24, Cause::FileLength),
    Refused("a byte more", b"\x9f\xeb\x01\0\x18\0\0\0\0\0\0\0\0\0\0\0\0\0\0\0\x01\0\0\0\0\0", &[], 25, Cause::FileLength),
];

#[test]
fn headers_are_read_or_refused(rt: HostRuntime) -> Result<(), AllocError> {
    for Accepted(name, file, edits, header) in ACCEPTED {
        let bytes = edited(rt.alloc(), file, edits)?;
        equal(&rt, &read_header(&bytes), &Ok(*header), name);
    }
    for Refused(name, file, edits, pos, cause) in FIRST_FIELDS.iter().chain(TAILS_AND_SECTIONS) {
        let bytes = edited(rt.alloc(), file, edits)?;
        equal(&rt, &read_header(&bytes), &Err(fault(*pos, *cause)), name);
    }
    Ok(())
}
