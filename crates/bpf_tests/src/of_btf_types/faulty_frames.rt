//! Faulty frames, names, type fields and sizes, with the first fault of both parsers and of the reference checker.

use crate::of_btf_types::Source::Fields;
use crate::of_btf_types::Wanted::Fault;
use crate::of_btf_types::{Row, check_all};
use btf_raw::BtfCause as Cause;

#[rattlefmt::skip]
static ROWS: [&[Row]; 8] = [&[
    Row { name: "8 bytes left", file: Fields("00000000 02000000", b"\0"), wanted: Fault(24, Cause::RecordCut) },
    Row { name: "4 bytes left after a record", file: Fields("00000001 01000000 00000004 01000020 00000000", b"\0a\0"), wanted: Fault(40, Cause::RecordCut) },
    Row { name: "bit 16 of info", file: Fields("00000000 02010000 00000000", b"\0"), wanted: Fault(28, Cause::InfoBits) },
    Row { name: "bit 29 of info", file: Fields("00000000 22000000 00000000", b"\0"), wanted: Fault(28, Cause::InfoBits) },
    Row { name: "kind 0", file: Fields("00000000 00000000 00000000", b"\0"), wanted: Fault(28, Cause::KindNumber) },
    Row { name: "kind 20", file: Fields("00000000 14000000 00000000", b"\0"), wanted: Fault(28, Cause::KindNumber) },
], &[
    Row { name: "kind 31", file: Fields("00000000 1f000000 00000000", b"\0"), wanted: Fault(28, Cause::KindNumber) },
    Row { name: "a flag of an INT", file: Fields("00000001 81000000 00000004 01000020", b"\0a\0"), wanted: Fault(28, Cause::FlagSet) },
    Row { name: "a flag of a PTR", file: Fields("00000000 82000000 00000000", b"\0"), wanted: Fault(28, Cause::FlagSet) },
    Row { name: "a flag of a FUNC", file: Fields("00000000 0d000001 00000000 00000000 00000000 00000001 8c000000 00000001", b"\0f\0"), wanted: Fault(48, Cause::FlagSet) },
    Row { name: "an item of an INT", file: Fields("00000001 01000001 00000004 01000020", b"\0a\0"), wanted: Fault(28, Cause::Vlen) },
    Row { name: "an item of a PTR", file: Fields("00000000 02000001 00000000", b"\0"), wanted: Fault(28, Cause::Vlen) },
], &[
    Row { name: "items of a FLOAT", file: Fields("00000001 1000ffff 00000008", b"\0d\0"), wanted: Fault(28, Cause::Vlen) },
    Row { name: "an INT without its word", file: Fields("00000001 01000000 00000004", b"\0a\0"), wanted: Fault(36, Cause::TailCut) },
    Row { name: "an ARRAY without its count", file: Fields("00000000 03000000 00000000 00000000 00000000", b"\0"), wanted: Fault(36, Cause::TailCut) },
    Row { name: "one of two members", file: Fields("00000000 04000002 00000000 00000000 00000000 00000000", b"\0"), wanted: Fault(36, Cause::TailCut) },
    Row { name: "a value of 64 bits without its high half", file: Fields("00000000 13000001 00000008 00000000 00000000", b"\0"), wanted: Fault(36, Cause::TailCut) },
    Row { name: "an entry without its size", file: Fields("00000001 0f000001 00000008 00000000 00000000", b"\0d\0"), wanted: Fault(36, Cause::TailCut) },
], &[
    Row { name: "a name at the strings' end", file: Fields("00000003 10000000 00000008", b"\0d\0"), wanted: Fault(24, Cause::NameRange) },
    Row { name: "the greatest name", file: Fields("ffffffff 10000000 00000008", b"\0d\0"), wanted: Fault(24, Cause::NameRange) },
    Row { name: "a member's name", file: Fields("00000000 04000001 00000000 00000003 00000000 00000000", b"\0d\0"), wanted: Fault(36, Cause::NameRange) },
    Row { name: "a value's name", file: Fields("00000000 06000001 00000004 00000002 00000000", b"\0\0"), wanted: Fault(36, Cause::NameRange) },
    Row { name: "a parameter's name", file: Fields("00000000 0d000001 00000000 00000009 00000000", b"\0"), wanted: Fault(36, Cause::NameRange) },
    Row { name: "a lone continuation", file: Fields("00000001 10000000 00000008", b"\0\x80\0"), wanted: Fault(24, Cause::NameUtf8) },
], &[
    Row { name: "a surrogate", file: Fields("00000001 10000000 00000008", b"\0\xed\xa0\x80\0"), wanted: Fault(24, Cause::NameUtf8) },
    Row { name: "a letter encoded too long", file: Fields("00000001 10000000 00000008", b"\0\xc1\x81\0"), wanted: Fault(24, Cause::NameUtf8) },
    Row { name: "a name from within a letter", file: Fields("00000002 10000000 00000008", b"\0\xc3\xa9\0"), wanted: Fault(24, Cause::NameUtf8) },
    Row { name: "a value's text", file: Fields("00000000 13000001 00000008 00000001 00000000 00000000", b"\0a\xff\0"), wanted: Fault(36, Cause::NameUtf8) },
    Row { name: "a nameless FWD", file: Fields("00000000 07000000 00000000", b"\0"), wanted: Fault(24, Cause::NameMissing) },
], &[
    Row { name: "a nameless TYPEDEF", file: Fields("00000002 08000000 00000000", b"\0a\0"), wanted: Fault(24, Cause::NameMissing) },
    Row { name: "a nameless FUNC", file: Fields("00000000 0d000001 00000000 00000000 00000000 00000000 0c000000 00000001", b"\0"), wanted: Fault(44, Cause::NameMissing) },
    Row { name: "a nameless VAR", file: Fields("00000000 0e000000 00000000 00000000", b"\0"), wanted: Fault(24, Cause::NameMissing) },
    Row { name: "a nameless DATASEC", file: Fields("00000000 0f000000 00000000", b"\0"), wanted: Fault(24, Cause::NameMissing) },
    Row { name: "a nameless DECL_TAG", file: Fields("00000000 04000001 00000004 00000000 00000000 00000000 00000000 11000000 00000001 ffffffff", b"\0"), wanted: Fault(48, Cause::NameMissing) },
    Row { name: "a nameless TYPE_TAG", file: Fields("00000000 12000000 00000000", b"\0"), wanted: Fault(24, Cause::NameMissing) },
], &[
    Row { name: "a named ARRAY", file: Fields("00000001 03000000 00000000 00000000 00000000 00000000", b"\0a\0"), wanted: Fault(24, Cause::NameUnwanted) },
    Row { name: "a named VOLATILE", file: Fields("00000001 09000000 00000000", b"\0a\0"), wanted: Fault(24, Cause::NameUnwanted) },
    Row { name: "a named CONST", file: Fields("00000001 0a000000 00000000", b"\0a\0"), wanted: Fault(24, Cause::NameUnwanted) },
    Row { name: "a named RESTRICT", file: Fields("00000001 0b000000 00000000", b"\0a\0"), wanted: Fault(24, Cause::NameUnwanted) },
    Row { name: "a named FUNC_PROTO", file: Fields("00000001 0d000000 00000000", b"\0a\0"), wanted: Fault(24, Cause::NameUnwanted) },
    Row { name: "an ARRAY's third word", file: Fields("00000000 03000000 00000001 00000000 00000000 00000000", b"\0"), wanted: Fault(32, Cause::NotZero) },
], &[
    Row { name: "a FWD's third word", file: Fields("00000001 07000000 00000001", b"\0f\0"), wanted: Fault(32, Cause::NotZero) },
    Row { name: "an ENUM of 3 bytes", file: Fields("00000000 06000001 00000003 00000000 00000000", b"\0"), wanted: Fault(32, Cause::Size) },
    Row { name: "an ENUM of no bytes", file: Fields("00000000 06000001 00000000 00000000 00000000", b"\0"), wanted: Fault(32, Cause::Size) },
    Row { name: "an ENUM64 of 16 bytes", file: Fields("00000000 13000000 00000010", b"\0"), wanted: Fault(32, Cause::Size) },
    Row { name: "a FLOAT of 3 bytes", file: Fields("00000000 10000000 00000003", b"\0"), wanted: Fault(32, Cause::Size) },
    Row { name: "a FLOAT of no bytes", file: Fields("00000000 10000000 00000000", b"\0"), wanted: Fault(32, Cause::Size) },
]];

fn rows() -> [&'static [Row]; 8] {
    ROWS
}

#[test]
fn faulty_frames_and_names_are_refused(rt: HostRuntime) {
    for rows in rows() {
        check_all(&rt, rt.alloc(), rows);
    }
}
