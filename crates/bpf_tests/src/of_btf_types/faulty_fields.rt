//! Faulty references and fields after the third, with the first fault of both parsers and of the reference checker.

use crate::of_btf_types::Source::Fields;
use crate::of_btf_types::Wanted::Fault;
use crate::of_btf_types::{Row, check_all};
use btf_raw::BtfCause as Cause;

#[rattlefmt::skip]
static ROWS: [&[Row]; 7] = [&[
    Row { name: "a TYPEDEF", file: Fields("00000001 08000000 00000002", b"\0t\0"), wanted: Fault(32, Cause::Reference) },
    Row { name: "the greatest type", file: Fields("00000000 02000000 ffffffff", b"\0"), wanted: Fault(32, Cause::Reference) },
    Row { name: "an element", file: Fields("00000000 03000000 00000000 00000002 00000000 00000000", b"\0"), wanted: Fault(36, Cause::Reference) },
    Row { name: "an index", file: Fields("00000000 03000000 00000000 00000000 00000002 00000000", b"\0"), wanted: Fault(40, Cause::Reference) },
    Row { name: "a member", file: Fields("00000000 04000001 00000000 00000000 00000002 00000000", b"\0"), wanted: Fault(40, Cause::Reference) },
    Row { name: "a parameter", file: Fields("00000000 0d000001 00000000 00000000 00000002", b"\0"), wanted: Fault(40, Cause::Reference) },
], &[
    Row { name: "what a prototype returns", file: Fields("00000000 0d000000 00000002", b"\0"), wanted: Fault(32, Cause::Reference) },
    Row { name: "an entry", file: Fields("00000001 0f000001 00000000 00000002 00000000 00000000", b"\0d\0"), wanted: Fault(36, Cause::Reference) },
    Row { name: "a FUNC", file: Fields("00000001 0c000000 00000002", b"\0f\0"), wanted: Fault(32, Cause::Reference) },
    Row { name: "a tag's target", file: Fields("00000001 11000000 00000002 00000007", b"\0g\0"), wanted: Fault(32, Cause::Reference) },
    Row { name: "a FUNC of an INT", file: Fields("00000001 01000000 00000004 01000020 00000001 0c000000 00000001", b"\0a\0"), wanted: Fault(48, Cause::TargetKind) },
    Row { name: "a FUNC of void", file: Fields("00000001 0c000000 00000000", b"\0f\0"), wanted: Fault(32, Cause::TargetKind) },
], &[
    Row { name: "an entry of an INT", file: Fields("00000001 01000000 00000004 01000020 00000001 0f000001 00000004 00000001 00000000 00000004", b"\0a\0"), wanted: Fault(52, Cause::TargetKind) },
    Row { name: "an entry of a FUNC_PROTO", file: Fields("00000000 0d000000 00000000 00000001 0f000001 00000000 00000001 00000000 00000000", b"\0d\0"), wanted: Fault(48, Cause::TargetKind) },
    Row { name: "an entry of void", file: Fields("00000001 0f000001 00000004 00000000 00000000 00000004", b"\0d\0"), wanted: Fault(36, Cause::TargetKind) },
    Row { name: "a tag of an INT", file: Fields("00000001 01000000 00000004 01000020 00000001 11000000 00000001 ffffffff", b"\0a\0"), wanted: Fault(48, Cause::TargetKind) },
    Row { name: "a tag of void", file: Fields("00000001 11000000 00000000 ffffffff", b"\0g\0"), wanted: Fault(32, Cause::TargetKind) },
    Row { name: "bit 8 of an INT's word", file: Fields("00000000 01000000 00000004 01000120", b"\0"), wanted: Fault(36, Cause::IntWord) },
], &[
    Row { name: "bit 28 of an INT's word", file: Fields("00000000 01000000 00000004 10000020", b"\0"), wanted: Fault(36, Cause::IntWord) },
    Row { name: "two encodings", file: Fields("00000000 01000000 00000004 03000020", b"\0"), wanted: Fault(36, Cause::IntWord) },
    Row { name: "encoding 8", file: Fields("00000000 01000000 00000004 08000020", b"\0"), wanted: Fault(36, Cause::IntWord) },
    Row { name: "129 bits", file: Fields("00000000 01000000 00000020 00000081", b"\0"), wanted: Fault(36, Cause::IntWord) },
    Row { name: "9 bits of a byte", file: Fields("00000000 01000000 00000001 00000009", b"\0"), wanted: Fault(36, Cause::IntWord) },
], &[
    Row { name: "33 bits of 4 bytes", file: Fields("00000000 01000000 00000004 00000021", b"\0"), wanted: Fault(36, Cause::IntWord) },
    Row { name: "a bit-field of an INT of 31 bits", file: Fields("00000000 01000000 00000004 0000001f 00000000 84000001 00000004 00000000 00000001 01000000", b"\0"), wanted: Fault(56, Cause::MemberInt) },
    Row { name: "a plain member beside a bit-field, of an INT with an offset", file: Fields("00000000 01000000 00000004 00010010 00000000 85000002 00000004 00000000 00000001 00000000 00000000 00000000 01000000", b"\0"), wanted: Fault(56, Cause::MemberInt) },
    Row { name: "a member after the end", file: Fields("00000000 04000001 00000004 00000000 00000000 00000021", b"\0"), wanted: Fault(44, Cause::MemberPlace) },
    Row { name: "one bit in no byte", file: Fields("00000000 04000001 00000000 00000000 00000000 00000001", b"\0"), wanted: Fault(44, Cause::MemberPlace) },
    Row { name: "a bit-field over the end", file: Fields("00000000 84000001 00000001 00000000 00000000 02000007", b"\0"), wanted: Fault(44, Cause::MemberPlace) },
], &[
    Row { name: "a FUNC's linkage", file: Fields("00000000 0d000001 00000000 00000000 00000000 00000001 0c000003 00000001", b"\0f\0"), wanted: Fault(48, Cause::Linkage) },
    Row { name: "a VAR's linkage", file: Fields("00000001 0e000000 00000000 00000003", b"\0v\0"), wanted: Fault(36, Cause::Linkage) },
    Row { name: "a component of a TYPEDEF", file: Fields("00000001 08000000 00000000 00000001 11000000 00000001 00000000", b"\0t\0"), wanted: Fault(48, Cause::Component) },
    Row { name: "a component of a VAR", file: Fields("00000001 0e000000 00000000 00000000 00000001 11000000 00000001 00000000", b"\0v\0"), wanted: Fault(52, Cause::Component) },
    Row { name: "component 65536 of a VAR", file: Fields("00000001 0e000000 00000000 00000000 00000001 11000000 00000001 00010000", b"\0v\0"), wanted: Fault(52, Cause::Component) },
    Row { name: "the second of one member", file: Fields("00000000 04000001 00000004 00000000 00000000 00000000 00000001 11000000 00000001 00000001", b"\0g\0"), wanted: Fault(60, Cause::Component) },
], &[
    Row { name: "component -2", file: Fields("00000000 04000001 00000004 00000000 00000000 00000000 00000001 11000000 00000001 fffffffe", b"\0g\0"), wanted: Fault(60, Cause::Component) },
    Row { name: "the second of one parameter", file: Fields("00000000 0d000001 00000000 00000000 00000000 00000001 0c000000 00000001 00000001 11000000 00000002 00000001", b"\0f\0"), wanted: Fault(68, Cause::Component) },
    Row { name: "framing comes before fields", file: Fields("00000000 02000000 00000009 00000000 00000000 00000000", b"\0"), wanted: Fault(40, Cause::KindNumber) },
    Row { name: "the first place", file: Fields("00000000 02000000 00000009 00000009 02000000 00000000", b"\0"), wanted: Fault(32, Cause::Reference) },
    Row { name: "the least of two causes of a name", file: Fields("00000001 02000000 00000000", b"\0\xff\0"), wanted: Fault(24, Cause::NameUtf8) },
    Row { name: "the least of two causes of info", file: Fields("00000000 80010000 00000000", b"\0"), wanted: Fault(28, Cause::InfoBits) },
]];

fn rows() -> [&'static [Row]; 7] {
    ROWS
}

#[test]
fn faulty_references_and_words_are_refused(rt: HostRuntime) {
    for rows in rows() {
        check_all(&rt, rt.alloc(), rows);
    }
}
