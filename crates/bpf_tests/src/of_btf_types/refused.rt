//! Worked files with a fault: the first fault of both parsers and of the reference checker, and the messages of errors.

use crate::of_btf_types::Source::Edited;
use crate::of_btf_types::Wanted::Fault;
use crate::of_btf_types::examples::{
    BAD_LINKAGE, BARE, BEYOND, BIG_INT, EMPTY, EMPTY_NAME, FUNC_ENTRY, MEMBER, NAMED_FWD,
    ODD_FLOAT, SMALL_INT, STRINGS_FIRST, TAG_OF_VAR, TAGGED,
};
use crate::of_btf_types::expect::equal;
use crate::of_btf_types::{Row, check_all, fault};
use btf_raw::BtfCause as Cause;
use btf_types::BtfError;

#[rattlefmt::skip]
static LENGTHS: &[Row] = &[
    Row { name: "no file", file: Edited(b"", &[]), wanted: Fault(0, Cause::ShortHeader) },
    Row { name: "23 bytes", file: Edited(b"\x9f\xeb\x01\0\x18\0\0\0\0\0\0\0\0\0\0\0\0\0\0\0\x01\0\0", &[]), wanted: Fault(23, Cause::ShortHeader) },
    Row { name: "without the last byte", file: Edited(b"\x9f\xeb\x01\0\x18\0\0\0\0\0\0\0\0\0\0\0\0\0\0\0\x01\0\0\0", &[]), wanted: Fault(24, Cause::FileLength) },
    Row { name: "a byte more", file: Edited(b"\x9f\xeb\x01\0\x18\0\0\0\0\0\0\0\0\0\0\0\0\0\0\0\x01\0\0\0\0\0", &[]), wanted: Fault(25, Cause::FileLength) },
    Row { name: "a gap", file: Edited(EMPTY, &[(16, 1)]), wanted: Fault(8, Cause::Sections) },
    Row { name: "a header past the file", file: Edited(EMPTY, &[(4, 0x1a)]), wanted: Fault(4, Cause::HeaderLength) },
    Row { name: "a header that takes the strings", file: Edited(EMPTY, &[(4, 0x19)]), wanted: Fault(25, Cause::FileLength) },
];

#[rattlefmt::skip]
static HEADERS: &[Row] = &[
    Row { name: "version before flags", file: Edited(EMPTY, &[(2, 2), (3, 1)]), wanted: Fault(2, Cause::Version) },
    Row { name: "another magic", file: Edited(EMPTY, &[(0, 0)]), wanted: Fault(0, Cause::Magic) },
    Row { name: "no strings", file: Edited(EMPTY, &[(20, 0)]), wanted: Fault(20, Cause::StringLength) },
    Row { name: "a flag", file: Edited(EMPTY, &[(3, 1)]), wanted: Fault(3, Cause::Flags) },
    Row { name: "types past the limit", file: Edited(EMPTY, &[(12, 1), (15, 2)]), wanted: Fault(12, Cause::TypeLength) },
    Row { name: "types at the limit", file: Edited(EMPTY, &[(15, 2)]), wanted: Fault(8, Cause::Sections) },
    Row { name: "strings past the limit", file: Edited(EMPTY, &[(23, 1)]), wanted: Fault(20, Cause::StringLength) },
    Row { name: "strings at the limit", file: Edited(EMPTY, &[(20, 0), (23, 1)]), wanted: Fault(25, Cause::FileLength) },
];

#[rattlefmt::skip]
static SECTIONS_AND_MEMBERS: &[Row] = &[
    Row { name: "a first letter", file: Edited(BIG_INT, &[(40, 1)]), wanted: Fault(40, Cause::FirstString) },
    Row { name: "a last letter", file: Edited(BIG_INT, &[(44, 1)]), wanted: Fault(44, Cause::LastString) },
    Row { name: "a tail that isn't zero", file: Edited(STRINGS_FIRST, &[(26, 1)]), wanted: Fault(26, Cause::HeaderTail) },
    Row { name: "a bit-field of an INT of 31 bits", file: Edited(MEMBER, &[(36, 0x1f), (63, 3)]), wanted: Fault(56, Cause::MemberInt) },
    Row { name: "a bit-field of an INT with an offset", file: Edited(MEMBER, &[(38, 1), (63, 3)]), wanted: Fault(56, Cause::MemberInt) },
    Row { name: "a bit-field past the end", file: Edited(MEMBER, &[(60, 0x1e), (63, 3)]), wanted: Fault(60, Cause::MemberPlace) },
];

#[rattlefmt::skip]
static REFERENCES_AND_NAMES: &[Row] = &[
    Row { name: "a type too far", file: Edited(BEYOND, &[]), wanted: Fault(32, Cause::Reference) },
    Row { name: "framing before fields", file: Edited(b"\x9f\xeb\x01\0\x18\0\0\0\0\0\0\0\x14\0\0\0\x14\0\0\0\x01\0\0\0\0\0\0\0\0\0\0\x02\x02\0\0\0\0\0\0\0\0\0\0\0\0", &[]), wanted: Fault(36, Cause::RecordCut) },
    Row { name: "component 2 of two members", file: Edited(TAGGED, &[(88, 2)]), wanted: Fault(88, Cause::Component) },
    Row { name: "component -2", file: Edited(TAGGED, &[(88, 0xfe), (89, 0xff), (90, 0xff), (91, 0xff)]), wanted: Fault(88, Cause::Component) },
    Row { name: "a name past the strings", file: Edited(EMPTY_NAME, &[(24, 5)]), wanted: Fault(24, Cause::NameRange) },
    Row { name: "a name of a PTR", file: Edited(EMPTY_NAME, &[(24, 1)]), wanted: Fault(24, Cause::NameUnwanted) },
    Row { name: "a name that isn't UTF-8", file: Edited(EMPTY_NAME, &[(24, 1), (37, 0xff)]), wanted: Fault(24, Cause::NameUtf8) },
];

#[rattlefmt::skip]
static WORDS: &[Row] = &[
    Row { name: "a FLOAT of 3 bytes", file: Edited(ODD_FLOAT, &[]), wanted: Fault(32, Cause::Size) },
    Row { name: "9 bits of a byte", file: Edited(SMALL_INT, &[]), wanted: Fault(36, Cause::IntWord) },
    Row { name: "encoding 3", file: Edited(SMALL_INT, &[(36, 8), (39, 3)]), wanted: Fault(36, Cause::IntWord) },
    Row { name: "bit 8 of an INT's word", file: Edited(SMALL_INT, &[(36, 8), (37, 1)]), wanted: Fault(36, Cause::IntWord) },
    Row { name: "kind 20", file: Edited(BARE, &[(31, 0x14)]), wanted: Fault(28, Cause::KindNumber) },
    Row { name: "bit 29 of info", file: Edited(BARE, &[(31, 0x34)]), wanted: Fault(28, Cause::InfoBits) },
    Row { name: "kind_flag of a PTR", file: Edited(BARE, &[(31, 0x82)]), wanted: Fault(28, Cause::FlagSet) },
    Row { name: "vlen of a PTR", file: Edited(BARE, &[(28, 1), (31, 2)]), wanted: Fault(28, Cause::Vlen) },
];

#[rattlefmt::skip]
static KINDS: &[Row] = &[
    Row { name: "one of two members", file: Edited(b"\x9f\xeb\x01\0\x18\0\0\0\0\0\0\0\x18\0\0\0\x18\0\0\0\x01\0\0\0\0\0\0\0\x02\0\0\x04\x04\0\0\0\0\0\0\0\0\0\0\0\0\0\0\0\0", &[]), wanted: Fault(36, Cause::TailCut) },
    Row { name: "a nameless FWD", file: Edited(b"\x9f\xeb\x01\0\x18\0\0\0\0\0\0\0\x0c\0\0\0\x0c\0\0\0\x01\0\0\0\0\0\0\0\0\0\0\x07\0\0\0\0\0", &[]), wanted: Fault(24, Cause::NameMissing) },
    Row { name: "a FWD with a third word", file: Edited(NAMED_FWD, &[]), wanted: Fault(32, Cause::NotZero) },
    Row { name: "linkage 3 of a FUNC", file: Edited(BAD_LINKAGE, &[]), wanted: Fault(28, Cause::Linkage) },
    Row { name: "a FUNC of void", file: Edited(BAD_LINKAGE, &[(28, 2)]), wanted: Fault(32, Cause::TargetKind) },
    Row { name: "linkage 3 of a VAR", file: Edited(b"\x9f\xeb\x01\0\x18\0\0\0\0\0\0\0\x10\0\0\0\x10\0\0\0\x03\0\0\0\x01\0\0\0\0\0\0\x0e\0\0\0\0\x03\0\0\0\0f\0", &[]), wanted: Fault(36, Cause::Linkage) },
    Row { name: "component 0 of a VAR", file: Edited(TAG_OF_VAR, &[]), wanted: Fault(52, Cause::Component) },
    Row { name: "component 65536 of a VAR", file: Edited(TAG_OF_VAR, &[(54, 1)]), wanted: Fault(52, Cause::Component) },
    Row { name: "an entry for a FUNC_PROTO", file: Edited(FUNC_ENTRY, &[(60, 1)]), wanted: Fault(60, Cause::TargetKind) },
    Row { name: "an entry for a type too far", file: Edited(FUNC_ENTRY, &[(60, 4)]), wanted: Fault(60, Cause::Reference) },
];

fn rows() -> [&'static [Row]; 6] {
    [
        LENGTHS,
        HEADERS,
        SECTIONS_AND_MEMBERS,
        REFERENCES_AND_NAMES,
        WORDS,
        KINDS,
    ]
}

#[test]
fn worked_files_with_a_fault_are_refused(rt: HostRuntime) {
    for rows in rows() {
        check_all(&rt, rt.alloc(), rows);
    }
}

#[test]
fn errors_have_these_strings(rt: HostRuntime) {
    let error = BtfError::from(fault(32, Cause::Reference));
    let text = format!(in rt.alloc(); "{} {}", error, BtfError::Memory).expect(&rt, "ample memory");
    equal(&rt, &text.as_str(), &"Fault Memory", &"the names");
}
