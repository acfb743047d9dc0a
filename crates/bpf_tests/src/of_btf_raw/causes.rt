//! The numbers, names and sentences of the causes.

use crate::of_btf_raw::equal;
use btf_raw::{BtfCause as Cause, BtfFault, NameCause};
use std::alloc::AllocError;

/// The causes from number 1 on, their names, and the sentences of docs/FAULTS.md.
#[rattlefmt::skip]
const CAUSES: &[(Cause, &str, &str)] = &[
    (Cause::ShortHeader, "ShortHeader", "the file has fewer than 24 bytes"),
    (Cause::Magic, "Magic", "the file does not begin with the BTF magic number in either byte order"),
    (Cause::Version, "Version", "the version is not 1"),
    (Cause::Flags, "Flags", "the flags are not 0"),
    (Cause::HeaderLength, "HeaderLength", "hdr_len is under 24, over 4,096 or over the length of the file"),
    (Cause::HeaderTail, "HeaderTail", "a byte of the header after the first 24 is not 0"),
    (Cause::TypeLength, "TypeLength", "type_len is over 33,554,432"),
    (Cause::StringLength, "StringLength", "str_len is 0 or over 16,777,216"),
    (Cause::Sections, "Sections", "the type and string sections do not follow the header one directly after the other"),
    (Cause::FileLength, "FileLength", "hdr_len, type_len and str_len do not add up to the length of the file"),
    (Cause::FirstString, "FirstString", "the first byte of the string section is not NUL"),
    (Cause::LastString, "LastString", "the last byte of the string section is not NUL"),
    (Cause::RecordCut, "RecordCut", "the type section ends inside the first three words of a record"),
    (Cause::InfoBits, "InfoBits", "an unused bit of info is set"),
    (Cause::KindNumber, "KindNumber", "the kind is 0 or over 19"),
    (Cause::FlagSet, "FlagSet", "kind_flag is set on a kind that has none"),
    (Cause::Vlen, "Vlen", "vlen is not 0 on a kind without items"),
    (Cause::TailCut, "TailCut", "the type section ends inside the data after the first three words of a record"),
    (Cause::NameRange, "NameRange", "name_off is not inside the string section"),
    (Cause::NameUtf8, "NameUtf8", "the name is not valid UTF-8"),
    (Cause::NameMissing, "NameMissing", "a type of this kind needs a name"),
    (Cause::NameUnwanted, "NameUnwanted", "a type of this kind has no name"),
    (Cause::TextsTooLong, "TextsTooLong", "never reported: the number is kept"),
    (Cause::NotZero, "NotZero", "the third word of an ARRAY or FWD is not 0"),
    (Cause::Size, "Size", "no type of this kind has this size"),
    (Cause::Reference, "Reference", "the type ID is over the number of types"),
    (Cause::TargetKind, "TargetKind", "the type that is referred to has the wrong kind"),
    (Cause::IntWord, "IntWord", "the encoding, offset and bits of the INT are not valid"),
    (Cause::MemberInt, "MemberInt", "a record with bit-fields has a member whose INT has an offset, or a width other than 8, 16, 32, 64 or 128 bits"),
    (Cause::MemberPlace, "MemberPlace", "the member ends after the end of its struct or union"),
    (Cause::Linkage, "Linkage", "the linkage is over 2"),
    (Cause::Component, "Component", "component_idx is neither -1 nor the index of a member or parameter of the tagged type"),
];

#[test]
fn causes_have_numbers_names_and_sentences(rt: HostRuntime) -> Result<(), AllocError> {
    equal(&rt, &CAUSES.len(), &32, &"how many causes");
    for (number, (cause, name, sentence)) in (1..=32_u8).zip(CAUSES) {
        let shown = format!(in rt.alloc(); "{cause}")?;
        let named = (
            cause.number(),
            cause.name(),
            shown.as_str(),
            cause.describe(),
        );
        equal(&rt, &named, &(number, *name, *name, *sentence), cause);
    }
    Ok(())
}

#[test]
fn faults_are_shown(rt: HostRuntime) -> Result<(), AllocError> {
    let fault = BtfFault {
        pos: 36,
        cause: Cause::MemberInt,
    };
    let text = format!(in rt.alloc(); "{fault}; {} {}", NameCause::Range, NameCause::Utf8)?;
    equal(&rt, &text.as_str(), &"36 MemberInt; Range Utf8", &"faults");
    Ok(())
}
