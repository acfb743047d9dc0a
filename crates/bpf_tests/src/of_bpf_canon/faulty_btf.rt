//! BTF files with their first faults: at least one for each cause that a file can have.

use btf_raw::{BtfCause, BtfFault};

/// A BTF file, and its first fault.
pub(crate) struct FaultyBtf {
    pub(crate) bytes: &'static [u8],
    pub(crate) fault: BtfFault,
}

#[rattlefmt::skip]
pub(crate) fn faulty_files() -> [&'static [FaultyBtf]; 2] {[&[
    FaultyBtf { bytes: b"", fault: BtfFault { pos: 0, cause: BtfCause::ShortHeader } },
    FaultyBtf { bytes: b"\x9f\xeb\x01\0\x18\0\0\0\0\0\0\0\0\0\0\0\0\0\0\0\x01\0\0", fault: BtfFault { pos: 23, cause: BtfCause::ShortHeader } },
    FaultyBtf { bytes: b"\0\xeb\x01\0\x18\0\0\0\0\0\0\0\0\0\0\0\0\0\0\0\x01\0\0\0\0", fault: BtfFault { pos: 0, cause: BtfCause::Magic } },
    FaultyBtf { bytes: b"\x9f\xeb\x02\x01\x18\0\0\0\0\0\0\0\0\0\0\0\0\0\0\0\x01\0\0\0\0", fault: BtfFault { pos: 2, cause: BtfCause::Version } },
    FaultyBtf { bytes: b"\x9f\xeb\x01\x01\x18\0\0\0\0\0\0\0\0\0\0\0\0\0\0\0\x01\0\0\0\0", fault: BtfFault { pos: 3, cause: BtfCause::Flags } },
    FaultyBtf { bytes: b"\x9f\xeb\x01\0\x1a\0\0\0\0\0\0\0\0\0\0\0\0\0\0\0\x01\0\0\0\0", fault: BtfFault { pos: 4, cause: BtfCause::HeaderLength } },
    FaultyBtf { bytes: b"\x9f\xeb\x01\0\x1c\0\0\0\x07\0\0\0\x10\0\0\0\0\0\0\0\x07\0\0\0\0\0\x01\0\0x\0int\0\x03\0\0\0\0\0\0\x01\x04\0\0\0 \0\0\x01", fault: BtfFault { pos: 26, cause: BtfCause::HeaderTail } },
    FaultyBtf { bytes: b"\x9f\xeb\x01\0\x18\0\0\0\0\0\0\0\0\0\0\x03\0\0\0\0\x01\0\0\0\0", fault: BtfFault { pos: 12, cause: BtfCause::TypeLength } },
    FaultyBtf { bytes: b"\x9f\xeb\x01\0\x18\0\0\0\0\0\0\0\0\0\0\0\0\0\0\0\0\0\0\0\0", fault: BtfFault { pos: 20, cause: BtfCause::StringLength } },
    FaultyBtf { bytes: b"\x9f\xeb\x01\0\x18\0\0\0\0\0\0\0\0\0\0\0\x01\0\0\0\x01\0\0\0\0", fault: BtfFault { pos: 8, cause: BtfCause::Sections } },
    FaultyBtf { bytes: b"\x9f\xeb\x01\0\x19\0\0\0\0\0\0\0\0\0\0\0\0\0\0\0\x01\0\0\0\0", fault: BtfFault { pos: 25, cause: BtfCause::FileLength } },
    FaultyBtf { bytes: b"\x9f\xeb\x01\0\x18\0\0\0\0\0\0\0\0\0\0\0\0\0\0\0\x01\0\0\0", fault: BtfFault { pos: 24, cause: BtfCause::FileLength } },
    FaultyBtf { bytes: b"\x9f\xeb\x01\0\x18\0\0\0\0\0\0\0\0\0\0\0\0\0\0\0\x01\0\0\0\0\0", fault: BtfFault { pos: 25, cause: BtfCause::FileLength } },
    FaultyBtf { bytes: b"\xeb\x9f\x01\0\0\0\0\x18\0\0\0\0\0\0\0\x10\0\0\0\x10\0\0\0\x05\0\0\0\x01\x01\0\0\0\0\0\0\x04\x01\0\0 \x01int\0", fault: BtfFault { pos: 40, cause: BtfCause::FirstString } },
    FaultyBtf { bytes: b"\xeb\x9f\x01\0\0\0\0\x18\0\0\0\0\0\0\0\x10\0\0\0\x10\0\0\0\x05\0\0\0\x01\x01\0\0\0\0\0\0\x04\x01\0\0 \0int\x01", fault: BtfFault { pos: 44, cause: BtfCause::LastString } },
    FaultyBtf { bytes: b"\x9f\xeb\x01\0\x18\0\0\0\0\0\0\0\x14\0\0\0\x14\0\0\0\x01\0\0\0\0\0\0\0\0\0\0\x02\x02\0\0\0\0\0\0\0\0\0\0\0\0", fault: BtfFault { pos: 36, cause: BtfCause::RecordCut } },
    FaultyBtf { bytes: b"\x9f\xeb\x01\0\x18\0\0\0\0\0\0\0\x0c\0\0\0\x0c\0\0\0\x01\0\0\0\0\0\0\0\0\0\04\0\0\0\0\0", fault: BtfFault { pos: 28, cause: BtfCause::InfoBits } },
    FaultyBtf { bytes: b"\x9f\xeb\x01\0\x18\0\0\0\0\0\0\0\x0c\0\0\0\x0c\0\0\0\x01\0\0\0\0\0\0\0\0\0\0\x14\0\0\0\0\0", fault: BtfFault { pos: 28, cause: BtfCause::KindNumber } },
    FaultyBtf { bytes: b"\x9f\xeb\x01\0\x18\0\0\0\0\0\0\0\x0c\0\0\0\x0c\0\0\0\x01\0\0\0\0\0\0\0\0\0\0\x82\0\0\0\0\0", fault: BtfFault { pos: 28, cause: BtfCause::FlagSet } },
], &[
    FaultyBtf { bytes: b"\x9f\xeb\x01\0\x18\0\0\0\0\0\0\0\x0c\0\0\0\x0c\0\0\0\x01\0\0\0\0\0\0\0\x01\0\0\x02\0\0\0\0\0", fault: BtfFault { pos: 28, cause: BtfCause::Vlen } },
    FaultyBtf { bytes: b"\x9f\xeb\x01\0\x18\0\0\0\0\0\0\0\x18\0\0\0\x18\0\0\0\x01\0\0\0\0\0\0\0\x02\0\0\x04\x04\0\0\0\0\0\0\0\0\0\0\0\0\0\0\0\0", fault: BtfFault { pos: 36, cause: BtfCause::TailCut } },
    FaultyBtf { bytes: b"\x9f\xeb\x01\0\x18\0\0\0\0\0\0\0\x0c\0\0\0\x0c\0\0\0\x05\0\0\0\x05\0\0\0\0\0\0\x02\0\0\0\0\0int\0", fault: BtfFault { pos: 24, cause: BtfCause::NameRange } },
    FaultyBtf { bytes: b"\x9f\xeb\x01\0\x18\0\0\0\0\0\0\0\x0c\0\0\0\x0c\0\0\0\x05\0\0\0\x01\0\0\0\0\0\0\x02\0\0\0\0\0\xffnt\0", fault: BtfFault { pos: 24, cause: BtfCause::NameUtf8 } },
    FaultyBtf { bytes: b"\x9f\xeb\x01\0\x18\0\0\0\0\0\0\0\x0c\0\0\0\x0c\0\0\0\x01\0\0\0\0\0\0\0\0\0\0\x07\0\0\0\0\0", fault: BtfFault { pos: 24, cause: BtfCause::NameMissing } },
    FaultyBtf { bytes: b"\x9f\xeb\x01\0\x18\0\0\0\0\0\0\0\x0c\0\0\0\x0c\0\0\0\x05\0\0\0\x01\0\0\0\0\0\0\x02\0\0\0\0\0int\0", fault: BtfFault { pos: 24, cause: BtfCause::NameUnwanted } },
    FaultyBtf { bytes: b"\x9f\xeb\x01\0\x18\0\0\0\0\0\0\0\x0c\0\0\0\x0c\0\0\0\x03\0\0\0\x01\0\0\0\0\0\0\x07\x01\0\0\0\0f\0", fault: BtfFault { pos: 32, cause: BtfCause::NotZero } },
    FaultyBtf { bytes: b"\x9f\xeb\x01\0\x18\0\0\0\0\0\0\0\x0c\0\0\0\x0c\0\0\0\x01\0\0\0\0\0\0\0\0\0\0\x10\x03\0\0\0\0", fault: BtfFault { pos: 32, cause: BtfCause::Size } },
    FaultyBtf { bytes: b"\x9f\xeb\x01\0\x18\0\0\0\0\0\0\0\x0c\0\0\0\x0c\0\0\0\x01\0\0\0\0\0\0\0\0\0\0\x02\x02\0\0\0\0", fault: BtfFault { pos: 32, cause: BtfCause::Reference } },
    FaultyBtf { bytes: b"\x9f\xeb\x01\0\x18\0\0\0\0\0\0\00\0\0\00\0\0\0\x0a\0\0\0\0\0\0\0\0\0\0\x0d\0\0\0\0\x01\0\0\0\x02\0\0\x0c\x01\0\0\0\x03\0\0\0\x01\0\0\x0f\0\0\0\0\x01\0\0\0\0\0\0\0\0\0\0\0\0f\0.ksyms\0", fault: BtfFault { pos: 60, cause: BtfCause::TargetKind } },
    FaultyBtf { bytes: b"\x9f\xeb\x01\0\x18\0\0\0\0\0\0\0\x10\0\0\0\x10\0\0\0\x01\0\0\0\0\0\0\0\0\0\0\x01\x01\0\0\0\x09\0\0\0\0", fault: BtfFault { pos: 36, cause: BtfCause::IntWord } },
    FaultyBtf { bytes: b"\x9f\xeb\x01\0\x18\0\0\0\0\0\0\0(\0\0\0(\0\0\0\x09\0\0\0\x01\0\0\0\0\0\0\x01\x04\0\0\0 \0\x01\x01\x05\0\0\0\x01\0\0\x84\x04\0\0\0\x07\0\0\0\x01\0\0\0\0\0\0\x03\0int\0s\0a\0", fault: BtfFault { pos: 56, cause: BtfCause::MemberInt } },
    FaultyBtf { bytes: b"\x9f\xeb\x01\0\x18\0\0\0\0\0\0\0(\0\0\0(\0\0\0\x09\0\0\0\x01\0\0\0\0\0\0\x01\x04\0\0\0 \0\0\x01\x05\0\0\0\x01\0\0\x84\x04\0\0\0\x07\0\0\0\x01\0\0\0\x1e\0\0\x03\0int\0s\0a\0", fault: BtfFault { pos: 60, cause: BtfCause::MemberPlace } },
    FaultyBtf { bytes: b"\x9f\xeb\x01\0\x18\0\0\0\0\0\0\0\x0c\0\0\0\x0c\0\0\0\x03\0\0\0\x01\0\0\0\x03\0\0\x0c\0\0\0\0\0f\0", fault: BtfFault { pos: 28, cause: BtfCause::Linkage } },
    FaultyBtf { bytes: b"\x9f\xeb\x01\0\x18\0\0\0\0\0\0\0\x10\0\0\0\x10\0\0\0\x03\0\0\0\x01\0\0\0\0\0\0\x0e\0\0\0\0\x03\0\0\0\0f\0", fault: BtfFault { pos: 36, cause: BtfCause::Linkage } },
    FaultyBtf { bytes: b"\x9f\xeb\x01\0\x18\0\0\0\0\0\0\0D\0\0\0D\0\0\0\x0d\0\0\0\x01\0\0\0\0\0\0\x01\x04\0\0\0 \0\0\x01\x05\0\0\0\x02\0\0\x04\x08\0\0\0\x07\0\0\0\x01\0\0\0\0\0\0\0\x09\0\0\0\x01\0\0\0 \0\0\0\x0b\0\0\0\0\0\0\x11\x02\0\0\0\x02\0\0\0\0int\0s\0a\0b\0t\0", fault: BtfFault { pos: 88, cause: BtfCause::Component } },
    FaultyBtf { bytes: b"\x9f\xeb\x01\0\x18\0\0\0\0\0\0\0D\0\0\0D\0\0\0\x0d\0\0\0\x01\0\0\0\0\0\0\x01\x04\0\0\0 \0\0\x01\x05\0\0\0\x02\0\0\x04\x08\0\0\0\x07\0\0\0\x01\0\0\0\0\0\0\0\x09\0\0\0\x01\0\0\0 \0\0\0\x0b\0\0\0\0\0\0\x11\x02\0\0\0\xfe\xff\xff\xff\0int\0s\0a\0b\0t\0", fault: BtfFault { pos: 88, cause: BtfCause::Component } },
    FaultyBtf { bytes: b"\x9f\xeb\x01\0\x18\0\0\0\0\0\0\0 \0\0\0 \0\0\0\x05\0\0\0\x01\0\0\0\0\0\0\x0e\0\0\0\0\0\0\0\0\x03\0\0\0\0\0\0\x11\x01\0\0\0\0\0\0\0\0f\0t\0", fault: BtfFault { pos: 52, cause: BtfCause::Component } },
]]}
