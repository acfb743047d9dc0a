//! Strings in a string table (System V ABI, "String Table").

ghost use Rattle.std.specs.Prelude.{◌≡◌, ◌<◌, true, length};
ghost use Rattle.bpf_elf.specs.Names as spec;

use memchr::memchr;

/// The longest name of a section, in bytes.
const NAME_LIMIT: usize = 1_024;

/// Whether a string table begins and ends with a NUL, as [`string_at`] requires.
pub fn is_closed(strings: &[u8]) -> bool
    ensures { result ≡ spec.is_closed strings.now }
{
    !strings.is_empty() && strings[0] == 0 && strings[strings.len() - 1] == 0
}

/// The string at an offset of a string table, without its NUL. The table must begin and end with a
/// NUL, and the offset must be inside it.
pub fn string_at(strings: &[u8], off: usize) -> &[u8]
    requires closed { spec.is_closed strings.now ≡ true }
    requires there { off < length strings.now }
    ensures { result.now ≡ spec.string_at strings.now off }
{
    let end = off + memchr(0, &strings[off..]).unwrap();
    &strings[off..end]
}

/// Whether the name of a section is at an offset of a string table: the offset is inside, and the
/// string has at most 1,024 bytes. The table must begin and end with a NUL.
pub fn is_section_name(strings: &[u8], off: usize) -> bool
    requires { spec.is_closed strings.now ≡ true }
    ensures { result ≡ spec.is_section_name strings.now off }
{
    off < strings.len() && string_at(strings, off).len() <= NAME_LIMIT
}
