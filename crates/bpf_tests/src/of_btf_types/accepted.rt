//! Worked files that both parsers accept, and the heads and items of both tables.

use crate::of_btf_types::Source::Edited;
use crate::of_btf_types::Wanted::Lines;
use crate::of_btf_types::examples::{
    BIG_ENUM64, BIG_INT, EMPTY, EMPTY_NAME, FUNC_ENTRY, LITTLE_ENUM64, LITTLE_INT, MEMBER,
    ODD_FLOAT, SHARED_NAME, SMALL_INT, STRINGS_FIRST, TAG_OF_VAR, TAGGED, TAILS, WIDE_OFFSET,
};
use crate::of_btf_types::{Row, check_all};

#[rattlefmt::skip]
static FILES: &[Row] = &[
    Row { name: "no types", file: Edited(EMPTY, &[]), wanted: Lines("") },
    Row { name: "no types, the strings first", file: Edited(EMPTY, &[(8, 1)]), wanted: Lines("") },
    Row { name: "an INT in big-endian order", file: Edited(BIG_INT, &[]), wanted: Lines("1 KInt { name: \"int\", size: 4, encoding: Signed, offset: 0, bits: 32 }\n") },
    Row { name: "an INT in little-endian order", file: Edited(LITTLE_INT, &[]), wanted: Lines("1 KInt { name: \"int\", size: 4, encoding: Signed, offset: 0, bits: 32 }\n") },
];

#[rattlefmt::skip]
static NAMES: &[Row] = &[
    Row { name: "a name that ends another", file: Edited(SHARED_NAME, &[]), wanted: Lines("1 KInt { name: \"unsigned int\", size: 4, encoding: Plain, offset: 0, bits: 32 }\n2 KInt { name: \"int\", size: 4, encoding: Signed, offset: 0, bits: 32 }\n") },
    Row { name: "a name that ends a later one", file: Edited(SHARED_NAME, &[(24, 0xa), (40, 1)]), wanted: Lines("1 KInt { name: \"int\", size: 4, encoding: Plain, offset: 0, bits: 32 }\n2 KInt { name: \"unsigned int\", size: 4, encoding: Signed, offset: 0, bits: 32 }\n") },
    Row { name: "the same names apart", file: Edited(b"\x9f\xeb\x01\0\x18\0\0\0\0\0\0\0 \0\0\0 \0\0\0\x12\0\0\0\x01\0\0\0\0\0\0\x01\x04\0\0\0 \0\0\0\x0e\0\0\0\0\0\0\x01\x04\0\0\0 \0\0\x01\0unsigned int\0int\0", &[]), wanted: Lines("1 KInt { name: \"unsigned int\", size: 4, encoding: Plain, offset: 0, bits: 32 }\n2 KInt { name: \"int\", size: 4, encoding: Signed, offset: 0, bits: 32 }\n") },
    Row { name: "the strings first", file: Edited(STRINGS_FIRST, &[]), wanted: Lines("1 KInt { name: \"int\", size: 4, encoding: Signed, offset: 0, bits: 32 }\n") },
];

#[rattlefmt::skip]
static MEMBERS: &[Row] = &[
    Row { name: "a member without width", file: Edited(MEMBER, &[]), wanted: Lines("1 KInt { name: \"int\", size: 4, encoding: Signed, offset: 0, bits: 32 }\n2 KStruct { name: \"s\", size: 4 }\n  Member { name: \"a\", target: 1, bit_offset: 0, width: 0 }\n") },
    Row { name: "a member with a width", file: Edited(MEMBER, &[(63, 3)]), wanted: Lines("1 KInt { name: \"int\", size: 4, encoding: Signed, offset: 0, bits: 32 }\n2 KStruct { name: \"s\", size: 4 }\n  Member { name: \"a\", target: 1, bit_offset: 0, width: 3 }\n") },
    Row { name: "an INT of 31 bits beside no bit-field", file: Edited(MEMBER, &[(36, 0x1f)]), wanted: Lines("1 KInt { name: \"int\", size: 4, encoding: Signed, offset: 0, bits: 31 }\n2 KStruct { name: \"s\", size: 4 }\n  Member { name: \"a\", target: 1, bit_offset: 0, width: 0 }\n") },
    Row { name: "a bit-field that ends with its record", file: Edited(MEMBER, &[(60, 0x1d), (63, 3)]), wanted: Lines("1 KInt { name: \"int\", size: 4, encoding: Signed, offset: 0, bits: 32 }\n2 KStruct { name: \"s\", size: 4 }\n  Member { name: \"a\", target: 1, bit_offset: 29, width: 3 }\n") },
];

#[rattlefmt::skip]
static TAGS: &[Row] = &[
    Row { name: "a tag of a member", file: Edited(TAGGED, &[]), wanted: Lines("1 KInt { name: \"int\", size: 4, encoding: Signed, offset: 0, bits: 32 }\n2 KStruct { name: \"s\", size: 8 }\n  Member { name: \"a\", target: 1, bit_offset: 0, width: 0 }\n  Member { name: \"b\", target: 1, bit_offset: 32, width: 0 }\n3 KDeclTag { name: \"t\", flag: false, target: 2, component: Some(1) }\n") },
    Row { name: "a tag of a STRUCT", file: Edited(TAGGED, &[(88, 0xff), (89, 0xff), (90, 0xff), (91, 0xff)]), wanted: Lines("1 KInt { name: \"int\", size: 4, encoding: Signed, offset: 0, bits: 32 }\n2 KStruct { name: \"s\", size: 8 }\n  Member { name: \"a\", target: 1, bit_offset: 0, width: 0 }\n  Member { name: \"b\", target: 1, bit_offset: 32, width: 0 }\n3 KDeclTag { name: \"t\", flag: false, target: 2, component: None }\n") },
    Row { name: "a name that ends the name of an INT", file: Edited(b"\x9f\xeb\x01\0\x18\0\0\0\0\0\0\0D\0\0\0D\0\0\0\x0b\0\0\0\x01\0\0\0\0\0\0\x01\x04\0\0\0 \0\0\x01\x05\0\0\0\x02\0\0\x04\x08\0\0\0\x07\0\0\0\x01\0\0\0\0\0\0\0\x09\0\0\0\x01\0\0\0 \0\0\0\x03\0\0\0\0\0\0\x11\x02\0\0\0\x01\0\0\0\0int\0s\0a\0b\0", &[]), wanted: Lines("1 KInt { name: \"int\", size: 4, encoding: Signed, offset: 0, bits: 32 }\n2 KStruct { name: \"s\", size: 8 }\n  Member { name: \"a\", target: 1, bit_offset: 0, width: 0 }\n  Member { name: \"b\", target: 1, bit_offset: 32, width: 0 }\n3 KDeclTag { name: \"t\", flag: false, target: 2, component: Some(1) }\n") },
    Row { name: "a name that is the section's last byte", file: Edited(EMPTY_NAME, &[]), wanted: Lines("1 KPtr { target: 0 }\n") },
];

#[rattlefmt::skip]
static ENUMS: &[Row] = &[
    Row { name: "an ENUM64 in big-endian order", file: Edited(BIG_ENUM64, &[]), wanted: Lines("1 KEnum64 { name: \"e\", signed: true, size: 8 }\n  Value64 { name: \"m\", value: 18446744073709551614 }\n") },
    Row { name: "an ENUM64 in little-endian order", file: Edited(LITTLE_ENUM64, &[]), wanted: Lines("1 KEnum64 { name: \"e\", signed: true, size: 8 }\n  Value64 { name: \"m\", value: 18446744073709551614 }\n") },
    Row { name: "a bit offset of 25 bits", file: Edited(WIDE_OFFSET, &[]), wanted: Lines("1 KStruct { name: \"\", size: 4194304 }\n  Member { name: \"\", target: 0, bit_offset: 16777216, width: 0 }\n") },
    Row { name: "a width of one bit", file: Edited(WIDE_OFFSET, &[(31, 0x84)]), wanted: Lines("1 KStruct { name: \"\", size: 4194304 }\n  Member { name: \"\", target: 0, bit_offset: 0, width: 1 }\n") },
];

#[rattlefmt::skip]
static NUMBERS: &[Row] = &[
    Row { name: "a FLOAT of 12 bytes", file: Edited(ODD_FLOAT, &[(32, 0xc)]), wanted: Lines("1 KFloat { name: \"\", size: 12 }\n") },
    Row { name: "an INT without bits", file: Edited(SMALL_INT, &[(36, 0)]), wanted: Lines("1 KInt { name: \"\", size: 1, encoding: Plain, offset: 0, bits: 0 }\n") },
    Row { name: "a tag of a VAR", file: Edited(TAG_OF_VAR, &[(52, 0xff), (53, 0xff), (54, 0xff), (55, 0xff)]), wanted: Lines("1 KVar { name: \"f\", target: 0, linkage: LStatic }\n2 KDeclTag { name: \"t\", flag: false, target: 1, component: None }\n") },
    Row { name: "an entry for a FUNC", file: Edited(FUNC_ENTRY, &[]), wanted: Lines("1 KFuncProto { target: 0 }\n2 KFunc { name: \"f\", linkage: LExtern, target: 1 }\n3 KDatasec { name: \".ksyms\", size: 0 }\n  Entry { target: 2, offset: 0, size: 0 }\n") },
];

#[rattlefmt::skip]
static SHARED_ENDS: &[Row] = &[
    Row { name: "kind_flag without members", file: Edited(b"\x9f\xeb\x01\0\x18\0\0\0\0\0\0\0\x0c\0\0\0\x0c\0\0\0\x01\0\0\0\0\0\0\0\0\0\0\x84\0\0\0\0\0", &[]), wanted: Lines("1 KStruct { name: \"\", size: 0 }\n") },
    Row { name: "a name with signs", file: Edited(b"\x9f\xeb\x01\0\x18\0\0\0\0\0\0\0\x0c\0\0\0\x0c\0\0\0\x07\0\0\0\x01\0\0\0\0\0\0\x08\0\0\0\0\0a\"\\\x01\x7f\0", &[]), wanted: Lines("1 KTypedef { name: \"a\\\"\\\\\\u{1}\\u{7f}\", target: 0 }\n") },
    Row { name: "three names that share ends", file: Edited(TAILS, &[]), wanted: Lines("1 KTypedef { name: \"dbc\", target: 0 }\n2 KTypedef { name: \"c\", target: 0 }\n3 KTypedef { name: \"abc\", target: 0 }\n") },
    Row { name: "three names in the order of first use", file: Edited(b"\x9f\xeb\x01\0\x18\0\0\0\0\0\0\0$\0\0\0$\0\0\0\x09\0\0\0\x01\0\0\0\0\0\0\x08\0\0\0\0\x07\0\0\0\0\0\0\x08\0\0\0\0\x05\0\0\0\0\0\0\x08\0\0\0\0\0dbc\0abc\0", &[]), wanted: Lines("1 KTypedef { name: \"dbc\", target: 0 }\n2 KTypedef { name: \"c\", target: 0 }\n3 KTypedef { name: \"abc\", target: 0 }\n") },
];

fn rows() -> [&'static [Row]; 7] {
    [FILES, NAMES, MEMBERS, TAGS, ENUMS, NUMBERS, SHARED_ENDS]
}

#[test]
fn worked_files_are_accepted(rt: HostRuntime) {
    for rows in rows() {
        check_all(&rt, rt.alloc(), rows);
    }
}
