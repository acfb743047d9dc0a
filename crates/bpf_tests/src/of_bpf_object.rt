//! Sections by the layouts of btf.rst, and what is reported of them with a byte changed.

mod canonical;

use bpf_object::{ObjectCause as Cause, ObjectError, ObjectFault, check_extension};
use bpf_words::Order;

/// One function with one line and one CO-RE relocation, all of .text.
#[rattlefmt::skip]
const SECTION: [u8; 108] = *b"\x9f\xeb\x01\0\x20\0\0\0\0\0\0\0\x14\0\0\0\x14\0\0\0\x1c\0\0\0\x30\0\0\0\x1c\0\0\0\
    \x08\0\0\0\x01\0\0\0\x01\0\0\0\0\0\0\0\x01\0\0\0\
    \x10\0\0\0\x01\0\0\0\x01\0\0\0\0\0\0\0\0\0\0\0\0\0\0\0\0\0\0\0\
    \x10\0\0\0\x01\0\0\0\x01\0\0\0\0\0\0\0\x01\0\0\0\x07\0\0\0\0\0\0\0";

const STRINGS: &[u8] = b"\0.text\x000:1\0";

/// Where the section is in its file.
const START: u32 = 0x40;

/// A byte that is changed in the section, and the offset in the file and cause of the fault.
struct Refused(&'static str, usize, u8, u64, Cause);

#[rattlefmt::skip]
const REFUSED: &[Refused] = &[
    Refused("a header of 31 bytes", 4, 0x1f, 0x44, Cause::ExtensionHeaderSize),
    Refused("functions of 21 bytes", 12, 0x15, 0x48, Cause::ExtensionPart),
    Refused("lines of 12 bytes each", 52, 0x0c, 0x74, Cause::ExtensionRecordSize),
    Refused("a group of no relocations", 88, 0, 0x94, Cause::ExtensionGroup),
    Refused("a function without a line", 64, 8, 0x64, Cause::ExtensionLines),
    Refused("an access string past the strings", 100, 0x0b, 0xa4, Cause::ExtensionString),
];

#[test]
fn the_first_fault_is_reported_where_it_is(rt: HostRuntime) {
    let passed = check_extension(rt.alloc(), Order::Little, START, &SECTION, STRINGS);
    assert_eq!(rt; passed, Ok(()));
    for Refused(name, changed, byte, pos, cause) in REFUSED {
        let mut bytes = SECTION;
        if let Some(old) = bytes.get_mut(*changed) {
            *old = *byte;
        }
        let found = check_extension(rt.alloc(), Order::Little, START, &bytes, STRINGS);
        let wanted = Err(ObjectError::Fault(ObjectFault {
            pos: *pos,
            cause: *cause,
        }));
        assert_eq!(rt; found, wanted, "{name}");
    }
}

/// Two functions of .text without lines, in one group, and in two groups.
#[rattlefmt::skip]
const ONE_GROUP: [u8; 60] = *b"\x9f\xeb\x01\0\x20\0\0\0\0\0\0\0\x1c\0\0\0\x1c\0\0\0\0\0\0\0\x1c\0\0\0\0\0\0\0\
    \x08\0\0\0\x01\0\0\0\x02\0\0\0\0\0\0\0\x01\0\0\0\x08\0\0\0\x01\0\0\0";

#[rattlefmt::skip]
const TWO_GROUPS: [u8; 68] = *b"\x9f\xeb\x01\0\x20\0\0\0\0\0\0\0\x24\0\0\0\x24\0\0\0\0\0\0\0\x24\0\0\0\0\0\0\0\
    \x08\0\0\0\x01\0\0\0\x01\0\0\0\0\0\0\0\x01\0\0\0\x01\0\0\0\x01\0\0\0\x08\0\0\0\x01\0\0\0";

#[test]
fn functions_without_lines_are_of_different_sections(rt: HostRuntime) {
    let passed = check_extension(rt.alloc(), Order::Little, START, &ONE_GROUP, STRINGS);
    assert_eq!(rt; passed, Ok(()));
    let found = check_extension(rt.alloc(), Order::Little, START, &TWO_GROUPS, STRINGS);
    let wanted = Err(ObjectError::Fault(ObjectFault {
        pos: 0x74,
        cause: Cause::ExtensionGroupTwice,
    }));
    assert_eq!(rt; found, wanted);
}
