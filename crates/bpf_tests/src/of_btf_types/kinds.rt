//! Records of each kind, through both tables.

use crate::of_btf_types::Source::Fields;
use crate::of_btf_types::Wanted::Lines;
use crate::of_btf_types::{Row, check_all};

#[rattlefmt::skip]
static NUMBERS_AND_ARRAYS: &[Row] = &[
    Row { name: "integers", file: Fields("00000001 01000000 00000004 01000020 00000001 01000000 00000001 00000008 00000001 01000000 00000001 02000008 00000001 01000000 00000001 04000001 00000000 01000000 00000010 00800080 00000001 01000000 00000000 00000000", b"\0a\0"), wanted: Lines("1 KInt { name: \"a\", size: 4, encoding: Signed, offset: 0, bits: 32 }\n2 KInt { name: \"a\", size: 1, encoding: Plain, offset: 0, bits: 8 }\n3 KInt { name: \"a\", size: 1, encoding: Char, offset: 0, bits: 8 }\n4 KInt { name: \"a\", size: 1, encoding: Bool, offset: 0, bits: 1 }\n5 KInt { name: \"\", size: 16, encoding: Plain, offset: 128, bits: 128 }\n6 KInt { name: \"a\", size: 0, encoding: Plain, offset: 0, bits: 0 }\n") },
    Row { name: "pointers, one to itself and one to the next", file: Fields("00000000 02000000 00000000 00000000 02000000 00000002 00000000 02000000 00000004 00000000 02000000 00000003", b"\0"), wanted: Lines("1 KPtr { target: 0 }\n2 KPtr { target: 2 }\n3 KPtr { target: 4 }\n4 KPtr { target: 3 }\n") },
    Row { name: "arrays", file: Fields("00000000 03000000 00000000 00000000 00000000 00000000 00000000 03000000 00000000 00000001 00000002 ffffffff", b"\0"), wanted: Lines("1 KArray { target: 0, index: 0, count: 0 }\n2 KArray { target: 1, index: 2, count: 4294967295 }\n") },
];

#[rattlefmt::skip]
static RECORDS: &[Row] = &[
    Row { name: "a struct with bit-fields", file: Fields("00000001 01000000 00000004 00000020 00000003 84000003 00000008 00000005 00000001 03000000 00000000 00000001 1d000003 00000007 00000001 00000020", b"\0u\0s\0b\0w\0"), wanted: Lines("1 KInt { name: \"u\", size: 4, encoding: Plain, offset: 0, bits: 32 }\n2 KStruct { name: \"s\", size: 8 }\n  Member { name: \"b\", target: 1, bit_offset: 0, width: 3 }\n  Member { name: \"\", target: 1, bit_offset: 3, width: 29 }\n  Member { name: \"w\", target: 1, bit_offset: 32, width: 0 }\n") },
    Row { name: "unions, one empty", file: Fields("00000000 05000000 00000000 00000001 05000002 00000001 00000003 00000000 00000000 00000005 00000000 00000008", b"\0u\0a\0b\0"), wanted: Lines("1 KUnion { name: \"\", size: 0 }\n2 KUnion { name: \"u\", size: 1 }\n  Member { name: \"a\", target: 0, bit_offset: 0, width: 0 }\n  Member { name: \"b\", target: 0, bit_offset: 8, width: 0 }\n") },
];

#[rattlefmt::skip]
static ENUMS: &[Row] = &[
    Row { name: "enums", file: Fields("00000001 06000002 00000004 00000003 00000000 00000005 ffffffff 00000001 86000002 00000008 00000003 7fffffff 00000000 80000000 00000000 06000000 00000000", b"\0e\0x\0y\0"), wanted: Lines("1 KEnum { name: \"e\", signed: false, size: 4 }\n  EnumValue { name: \"x\", value: 0 }\n  EnumValue { name: \"y\", value: 4294967295 }\n2 KEnum { name: \"e\", signed: true, size: 8 }\n  EnumValue { name: \"x\", value: 2147483647 }\n  EnumValue { name: \"\", value: 2147483648 }\n3 KEnum { name: \"\", signed: false, size: 0 }\n") },
    Row { name: "forward declarations", file: Fields("00000001 07000000 00000000 00000001 87000000 00000000", b"\0f\0"), wanted: Lines("1 KFwd { name: \"f\", is_union: false }\n2 KFwd { name: \"f\", is_union: true }\n") },
];

#[rattlefmt::skip]
static FUNCTIONS: &[Row] = &[
    Row { name: "a typedef and qualifiers", file: Fields("00000001 08000000 00000002 00000000 09000000 00000003 00000000 0a000000 00000004 00000000 0b000000 00000000", b"\0t\0"), wanted: Lines("1 KTypedef { name: \"t\", target: 2 }\n2 KVolatile { target: 3 }\n3 KConst { target: 4 }\n4 KRestrict { target: 0 }\n") },
    Row { name: "functions and their prototypes", file: Fields("00000000 0d000000 00000000 00000000 0d000002 00000004 00000001 00000004 00000000 00000000 00000003 0c000000 00000001 00000000 02000000 00000000 00000003 0c000001 00000002 00000005 0c000002 00000002", b"\0p\0f\0g\0"), wanted: Lines("1 KFuncProto { target: 0 }\n2 KFuncProto { target: 4 }\n  Param { name: \"p\", target: 4 }\n  Param { name: \"\", target: 0 }\n3 KFunc { name: \"f\", linkage: LStatic, target: 1 }\n4 KPtr { target: 0 }\n5 KFunc { name: \"f\", linkage: LGlobal, target: 2 }\n6 KFunc { name: \"g\", linkage: LExtern, target: 2 }\n") },
];

#[rattlefmt::skip]
static VARIABLES: &[Row] = &[
    Row { name: "variables and a section of data", file: Fields("00000001 0e000000 00000000 00000000 00000003 0e000000 00000000 00000001 00000005 0e000000 00000000 00000002 00000007 0f000002 00000010 00000001 00000000 00000008 00000003 ffffffff 00000000 0000000d 0f000000 00000000", b"\0v\0w\0x\0.data\0.bss\0"), wanted: Lines("1 KVar { name: \"v\", target: 0, linkage: LStatic }\n2 KVar { name: \"w\", target: 0, linkage: LGlobal }\n3 KVar { name: \"x\", target: 0, linkage: LExtern }\n4 KDatasec { name: \".data\", size: 16 }\n  Entry { target: 1, offset: 0, size: 8 }\n  Entry { target: 3, offset: 4294967295, size: 0 }\n5 KDatasec { name: \".bss\", size: 0 }\n") },
    Row { name: "floating point", file: Fields("00000001 10000000 00000002 00000001 10000000 00000004 00000001 10000000 00000008 00000001 10000000 0000000c 00000000 10000000 00000010", b"\0d\0"), wanted: Lines("1 KFloat { name: \"d\", size: 2 }\n2 KFloat { name: \"d\", size: 4 }\n3 KFloat { name: \"d\", size: 8 }\n4 KFloat { name: \"d\", size: 12 }\n5 KFloat { name: \"\", size: 16 }\n") },
];

#[rattlefmt::skip]
static TAGS: &[Row] = &[
    Row { name: "tags", file: Fields("00000001 08000000 00000000 00000003 11000000 00000001 ffffffff 00000003 91000000 00000001 ffffffff 00000003 12000000 00000000 00000003 92000000 00000001 00000000 0d000001 00000000 00000000 00000001 00000005 0c000000 00000006 00000003 11000000 00000007 00000000", b"\0t\0g\0f\0"), wanted: Lines("1 KTypedef { name: \"t\", target: 0 }\n2 KDeclTag { name: \"g\", flag: false, target: 1, component: None }\n3 KDeclTag { name: \"g\", flag: true, target: 1, component: None }\n4 KTypeTag { name: \"g\", flag: false, target: 0 }\n5 KTypeTag { name: \"g\", flag: true, target: 1 }\n6 KFuncProto { target: 0 }\n  Param { name: \"\", target: 1 }\n7 KFunc { name: \"f\", linkage: LStatic, target: 6 }\n8 KDeclTag { name: \"g\", flag: false, target: 7, component: Some(0) }\n") },
];

#[rattlefmt::skip]
static LARGE_ENUMS: &[Row] = &[
    Row { name: "enums of 64 bits", file: Fields("00000001 13000002 00000008 00000003 ffffffff ffffffff 00000005 00000000 00000001 00000001 93000003 00000001 00000003 ffffffff ffffffff 00000005 00000000 80000000 00000000 ffffffff 7fffffff 00000000 13000000 00000000", b"\0e\0x\0y\0"), wanted: Lines("1 KEnum64 { name: \"e\", signed: false, size: 8 }\n  Value64 { name: \"x\", value: 18446744073709551615 }\n  Value64 { name: \"y\", value: 4294967296 }\n2 KEnum64 { name: \"e\", signed: true, size: 1 }\n  Value64 { name: \"x\", value: 18446744073709551615 }\n  Value64 { name: \"y\", value: 9223372036854775808 }\n  Value64 { name: \"\", value: 9223372036854775807 }\n3 KEnum64 { name: \"\", signed: false, size: 0 }\n") },
];

#[rattlefmt::skip]
static MEMBERS: &[Row] = &[
    Row { name: "a member after 2 MB", file: Fields("00000000 04000001 00400000 00000000 00000000 01000000", b"\0"), wanted: Lines("1 KStruct { name: \"\", size: 4194304 }\n  Member { name: \"\", target: 0, bit_offset: 16777216, width: 0 }\n") },
    Row { name: "a bit-field at the start, and one that ends with its record", file: Fields("00000000 84000001 00400000 00000000 00000000 01000000 00000000 01000000 00000004 00000020 00000000 84000001 00000004 00000000 00000002 0300001d", b"\0"), wanted: Lines("1 KStruct { name: \"\", size: 4194304 }\n  Member { name: \"\", target: 0, bit_offset: 0, width: 1 }\n2 KInt { name: \"\", size: 4, encoding: Plain, offset: 0, bits: 32 }\n3 KStruct { name: \"\", size: 4 }\n  Member { name: \"\", target: 2, bit_offset: 29, width: 3 }\n") },
];

#[rattlefmt::skip]
static SECTIONS_AND_TAGS: &[Row] = &[
    Row { name: "a function in a section of data", file: Fields("00000000 0d000000 00000000 00000001 0c000000 00000001 00000003 0f000001 00000000 00000002 00000000 00000000", b"\0f\0.ksyms\0"), wanted: Lines("1 KFuncProto { target: 0 }\n2 KFunc { name: \"f\", linkage: LStatic, target: 1 }\n3 KDatasec { name: \".ksyms\", size: 0 }\n  Entry { target: 2, offset: 0, size: 0 }\n") },
    Row { name: "tags of a variable, of a struct and of its last member", file: Fields("00000001 0e000000 00000000 00000000 00000003 11000000 00000001 ffffffff 00000000 04000002 00000008 00000000 00000000 00000000 00000000 00000000 00000020 00000003 11000000 00000003 ffffffff 00000003 91000000 00000003 00000001", b"\0v\0g\0"), wanted: Lines("1 KVar { name: \"v\", target: 0, linkage: LStatic }\n2 KDeclTag { name: \"g\", flag: false, target: 1, component: None }\n3 KStruct { name: \"\", size: 8 }\n  Member { name: \"\", target: 0, bit_offset: 0, width: 0 }\n  Member { name: \"\", target: 0, bit_offset: 32, width: 0 }\n4 KDeclTag { name: \"g\", flag: false, target: 3, component: None }\n5 KDeclTag { name: \"g\", flag: true, target: 3, component: Some(1) }\n") },
];

fn rows() -> [&'static [Row]; 9] {
    [
        NUMBERS_AND_ARRAYS,
        RECORDS,
        ENUMS,
        FUNCTIONS,
        VARIABLES,
        TAGS,
        LARGE_ENUMS,
        MEMBERS,
        SECTIONS_AND_TAGS,
    ]
}

#[test]
fn records_of_each_kind_are_read(rt: HostRuntime) {
    for rows in rows() {
        check_all(&rt, rt.alloc(), rows);
    }
}
