//! Records of each kind, field by field, with their strings and their listing.

use super::KindRow;

macro_rules! row {
    ([$($word:literal),*], $strings:literal => $text:literal) => {
        KindRow { words: &[$($word),*], strings: $strings, text: $text }
    };
}

#[rattlefmt::skip]
pub(super) fn kinds() -> [&'static [KindRow]; 2] {[&[
    // integers
    row!([
        1, 0x0100_0000, 4, 0x0100_0020, 1, 0x0100_0000, 1, 8, 1, 0x0100_0000, 1, 0x0200_0008, 1,
        0x0100_0000, 1, 0x0400_0001, 0, 0x0100_0000, 0x0000_0010, 0x0080_0080, 1, 0x0100_0000, 0, 0
    ], b"\0a\0" =>
        b"[1] int \"a\" size=4 encoding=signed offset=0 bits=32\n\
        [2] int \"a\" size=1 encoding=plain offset=0 bits=8\n\
        [3] int \"a\" size=1 encoding=char offset=0 bits=8\n\
        [4] int \"a\" size=1 encoding=bool offset=0 bits=1\n\
        [5] int \"\" size=16 encoding=plain offset=128 bits=128\n\
        [6] int \"a\" size=0 encoding=plain offset=0 bits=0\n"),
    // pointers, one to itself and one to the next
    row!([
        0, 0x0200_0000, 0, 0, 0x0200_0000, 2, 0, 0x0200_0000, 4, 0, 0x0200_0000, 3
    ], b"\0" =>
        b"[1] ptr type=0\n\
        [2] ptr type=2\n\
        [3] ptr type=4\n\
        [4] ptr type=3\n"),
    // arrays
    row!([
        0, 0x0300_0000, 0, 0, 0, 0, 0, 0x0300_0000, 0, 1, 2, 0xffff_ffff
    ], b"\0" =>
        b"[1] array type=0 index=0 count=0\n\
        [2] array type=1 index=2 count=4294967295\n"),
    // a struct with bit-fields
    row!([
        1, 0x0100_0000, 4, 0x0000_0020, 3, 0x8400_0003, 8, 5, 1, 0x0300_0000, 0, 1, 0x1d00_0003, 7, 1,
        0x0000_0020
    ], b"\0u\0s\0b\0w\0" =>
        b"[1] int \"u\" size=4 encoding=plain offset=0 bits=32\n\
        [2] struct \"s\" size=8 items=3\n\
        \x20 member \"b\" type=1 offset=0 width=3\n\
        \x20 member \"\" type=1 offset=3 width=29\n\
        \x20 member \"w\" type=1 offset=32 width=0\n"),
    // unions, one empty
    row!([
        0, 0x0500_0000, 0, 1, 0x0500_0002, 1, 3, 0, 0, 5, 0, 8
    ], b"\0u\0a\0b\0" =>
        b"[1] union \"\" size=0 items=0\n\
        [2] union \"u\" size=1 items=2\n\
        \x20 member \"a\" type=0 offset=0 width=0\n\
        \x20 member \"b\" type=0 offset=8 width=0\n"),
    // enums
    row!([
        1, 0x0600_0002, 4, 3, 0, 5, 0xffff_ffff, 1, 0x8600_0002, 8, 3, 0x7fff_ffff, 0, 0x8000_0000, 0,
        0x0600_0000, 0
    ], b"\0e\0x\0y\0" =>
        b"[1] enum \"e\" unsigned size=4 items=2\n\
        \x20 value \"x\" 0\n\
        \x20 value \"y\" 4294967295\n\
        [2] enum \"e\" signed size=8 items=2\n\
        \x20 value \"x\" 2147483647\n\
        \x20 value \"\" -2147483648\n\
        [3] enum \"\" unsigned size=0 items=0\n"),
    // forward declarations
    row!([
        1, 0x0700_0000, 0, 1, 0x8700_0000, 0
    ], b"\0f\0" =>
        b"[1] fwd \"f\" struct\n\
        [2] fwd \"f\" union\n"),
    // a typedef and qualifiers
    row!([
        1, 0x0800_0000, 2, 0, 0x0900_0000, 3, 0, 0x0a00_0000, 4, 0, 0x0b00_0000, 0
    ], b"\0t\0" =>
        b"[1] typedef \"t\" type=2\n\
        [2] volatile type=3\n\
        [3] const type=4\n\
        [4] restrict type=0\n"),
    // functions and their prototypes
    row!([
        0, 0x0d00_0000, 0, 0, 0x0d00_0002, 4, 1, 4, 0, 0, 3, 0x0c00_0000, 1, 0, 0x0200_0000, 0, 3,
        0x0c00_0001, 2, 5, 0x0c00_0002, 2
    ], b"\0p\0f\0g\0" =>
        b"[1] func_proto type=0 items=0\n\
        [2] func_proto type=4 items=2\n\
        \x20 param \"p\" type=4\n\
        \x20 param \"\" type=0\n\
        [3] func \"f\" static type=1\n\
        [4] ptr type=0\n\
        [5] func \"f\" global type=2\n\
        [6] func \"g\" extern type=2\n"),
    // variables and a section of data
    row!([
        1, 0x0e00_0000, 0, 0, 3, 0x0e00_0000, 0, 1, 5, 0x0e00_0000, 0, 2, 7, 0x0f00_0002, 0x0000_0010, 1, 0,
        8, 3, 0xffff_ffff, 0, 0x0000_000d, 0x0f00_0000, 0
    ], b"\0v\0w\0x\0.data\0.bss\0" =>
        b"[1] var \"v\" static type=0\n\
        [2] var \"w\" global type=0\n\
        [3] var \"x\" extern type=0\n\
        [4] datasec \".data\" size=16 items=2\n\
        \x20 entry type=1 offset=0 size=8\n\
        \x20 entry type=3 offset=4294967295 size=0\n\
        [5] datasec \".bss\" size=0 items=0\n"),
], &[
    // floating point
    row!([
        1, 0x1000_0000, 2, 1, 0x1000_0000, 4, 1, 0x1000_0000, 8, 1, 0x1000_0000, 0x0000_000c, 0,
        0x1000_0000, 0x0000_0010
    ], b"\0d\0" =>
        b"[1] float \"d\" size=2\n\
        [2] float \"d\" size=4\n\
        [3] float \"d\" size=8\n\
        [4] float \"d\" size=12\n\
        [5] float \"\" size=16\n"),
    // tags
    row!([
        1, 0x0800_0000, 0, 3, 0x1100_0000, 1, 0xffff_ffff, 3, 0x9100_0000, 1, 0xffff_ffff, 3, 0x1200_0000,
        0, 3, 0x9200_0000, 1, 0, 0x0d00_0001, 0, 0, 1, 5, 0x0c00_0000, 6, 3, 0x1100_0000, 7, 0
    ], b"\0t\0g\0f\0" =>
        b"[1] typedef \"t\" type=0\n\
        [2] decl_tag \"g\" flag=0 type=1 component=-1\n\
        [3] decl_tag \"g\" flag=1 type=1 component=-1\n\
        [4] type_tag \"g\" flag=0 type=0\n\
        [5] type_tag \"g\" flag=1 type=1\n\
        [6] func_proto type=0 items=1\n\
        \x20 param \"\" type=1\n\
        [7] func \"f\" static type=6\n\
        [8] decl_tag \"g\" flag=0 type=7 component=0\n"),
    // enums of 64 bits
    row!([
        1, 0x1300_0002, 8, 3, 0xffff_ffff, 0xffff_ffff, 5, 0, 1, 1, 0x9300_0003, 1, 3, 0xffff_ffff,
        0xffff_ffff, 5, 0, 0x8000_0000, 0, 0xffff_ffff, 0x7fff_ffff, 0, 0x1300_0000, 0
    ], b"\0e\0x\0y\0" =>
        b"[1] enum64 \"e\" unsigned size=8 items=2\n\
        \x20 value \"x\" 18446744073709551615\n\
        \x20 value \"y\" 4294967296\n\
        [2] enum64 \"e\" signed size=1 items=3\n\
        \x20 value \"x\" -1\n\
        \x20 value \"y\" -9223372036854775808\n\
        \x20 value \"\" 9223372036854775807\n\
        [3] enum64 \"\" unsigned size=0 items=0\n"),
    // names that are quoted
    row!([
        1, 0x1000_0000, 8, 0x0000_000f, 0x1000_0000, 8
    ], b"\0a\"b\\c\x01\n\x1f \x7f\xc3\xa9!\0['\xf0\x9f\x90\x9d]\0" =>
        b"[1] float \"a\\\"b\\\\c\\x01\\x0a\\x1f \\x7f\xc3\xa9!\" size=8\n\
        [2] float \"['\xf0\x9f\x90\x9d]\" size=8\n"),
    // a name with tabs, and one that is quoted text
    row!([
        1, 0x0800_0000, 0, 5, 0x0800_0000, 0
    ], b"\0\t\x0b~\0\\x01\0" =>
        b"[1] typedef \"\\x09\\x0b~\" type=0\n\
        [2] typedef \"\\\\x01\" type=0\n"),
    // a member at 2 MB
    row!([
        0, 0x0400_0001, 0x0040_0000, 0, 0, 0x0100_0000
    ], b"\0" =>
        b"[1] struct \"\" size=4194304 items=1\n\
        \x20 member \"\" type=0 offset=16777216 width=0\n"),
    // a bit-field at the start, and one that ends with its record
    row!([
        0, 0x8400_0001, 0x0040_0000, 0, 0, 0x0100_0000, 0, 0x0100_0000, 4, 0x0000_0020, 0, 0x8400_0001, 4,
        0, 2, 0x0300_001d
    ], b"\0" =>
        b"[1] struct \"\" size=4194304 items=1\n\
        \x20 member \"\" type=0 offset=0 width=1\n\
        [2] int \"\" size=4 encoding=plain offset=0 bits=32\n\
        [3] struct \"\" size=4 items=1\n\
        \x20 member \"\" type=2 offset=29 width=3\n"),
    // a function in a section of data
    row!([
        0, 0x0d00_0000, 0, 1, 0x0c00_0000, 1, 3, 0x0f00_0001, 0, 2, 0, 0
    ], b"\0f\0.ksyms\0" =>
        b"[1] func_proto type=0 items=0\n\
        [2] func \"f\" static type=1\n\
        [3] datasec \".ksyms\" size=0 items=1\n\
        \x20 entry type=2 offset=0 size=0\n"),
    // tags on a variable, a struct and its last member
    row!([
        1, 0x0e00_0000, 0, 0, 3, 0x1100_0000, 1, 0xffff_ffff, 0, 0x0400_0002, 8, 0, 0, 0, 0, 0, 0x0000_0020,
        3, 0x1100_0000, 3, 0xffff_ffff, 3, 0x9100_0000, 3, 1
    ], b"\0v\0g\0" =>
        b"[1] var \"v\" static type=0\n\
        [2] decl_tag \"g\" flag=0 type=1 component=-1\n\
        [3] struct \"\" size=8 items=2\n\
        \x20 member \"\" type=0 offset=0 width=0\n\
        \x20 member \"\" type=0 offset=32 width=0\n\
        [4] decl_tag \"g\" flag=0 type=3 component=-1\n\
        [5] decl_tag \"g\" flag=1 type=3 component=1\n"),
]]}
