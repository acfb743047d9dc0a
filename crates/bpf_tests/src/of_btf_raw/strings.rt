//! The ends of string sections, and names at their offsets.

use crate::of_btf_raw::{equal, fault};
use btf_raw::{BtfCause, NameCause, check_strings, name_at, text_at};

/// A string section, and the offset and cause of its first fault.
const ENDS: &[(&[u8], Option<(u64, BtfCause)>)] = &[
    (b"\0", None),
    (b"\0a\0", None),
    (b"\x01a\0", Some((0, BtfCause::FirstString))),
    (b"\0a", Some((1, BtfCause::LastString))),
    (b"\x01", Some((0, BtfCause::FirstString))),
    (b"a\0b", Some((0, BtfCause::FirstString))),
];

#[test]
fn string_sections_begin_and_end_with_nul(rt: HostRuntime) {
    for (strings, wanted) in ENDS {
        assert!(rt; !strings.is_empty());
        let found = check_strings(strings).err();
        let wanted = wanted.map(|(pos, cause)| fault(pos, cause));
        equal(&rt, &found, &wanted, strings);
    }
}

/// A string section that ends with NUL, an offset, and the name there.
struct Name(&'static [u8], u32, Result<&'static str, NameCause>);

const NAMES: &[Name] = &[
    Name(b"\0a\0", 0, Ok("")),
    Name(b"\0a\0", 1, Ok("a")),
    Name(b"\0a\0", 2, Ok("")),
    Name(b"\0a\0", 3, Err(NameCause::Range)),
    Name(b"\0a\0", u32::MAX, Err(NameCause::Range)),
    Name(b"\0\xff\0", 1, Err(NameCause::Utf8)),
    Name(b"\0unsigned int\0", 10, Ok("int")),
    Name(b"\0a\xc3\xa9\0b\0", 1, Ok("a\u{e9}")),
    Name(b"\0a\xc3\xa9\0b\0", 3, Err(NameCause::Utf8)),
    Name(b"\0a\xff\0b\0", 4, Ok("b")),
];

#[test]
fn names_end_at_the_next_nul(rt: HostRuntime) {
    for Name(strings, off, wanted) in NAMES {
        assert!(rt; strings.ends_with(b"\0"));
        equal(&rt, &name_at(strings, *off), wanted, &(strings, off));
        if let Ok(name) = wanted {
            assert!(rt; (*off as usize) < strings.len());
            let text = text_at(strings, *off as usize);
            equal(&rt, &text, &name.as_bytes(), &(strings, off));
        }
    }
}
