//! Which strings of a string section are UTF-8. A string runs from any offset, even inside another
//! string, to the next NUL.
//!
//! Any number of name fields may refer to the same long string. Therefore the section is checked
//! once, in linear time, and each offset then takes constant time. If all of the section is UTF-8,
//! the string at an offset is UTF-8 if and only if a character begins there. Otherwise a mark is
//! kept for each byte. The marks are made here, and read where names are checked (`references.rt`).

ghost use Rattle.std.specs.Prelude.{◌≡◌, ◌≢◌, ◌↔◌, ℕ, List, ◌<◌, length, slice_index, IfOk, IsTrue};
ghost use Rattle.std.specs.Prelude.{IsUtf8, MatchOption};
ghost use Rattle.btf_raw.specs.{Header.HasNulEnds, Names.TextAt};
ghost use Rattle.btf_types.specs.checks.Texts.{BeginsChar, AreMarks, IsNextChar};

use simdutf8::basic::from_utf8;
use std::alloc::{AllocError, Allocator};

/// Whether a character may begin with this byte, or it is NUL.
pub fn begins_char(byte: u8) -> bool
    ensures { IsTrue result ↔ BeginsChar byte }
{
    !matches!(byte, 0x80..=0xbf)
}

/// Whether the string at offset `at` is UTF-8. `next` is the next offset at which a character may
/// begin, and `rest` is whether the string at `next` is UTF-8.
fn is_utf8_with(strings: &[u8], at: usize, next: usize, rest: bool) -> bool
    requires there { at < length strings.now }
    requires next { IsNextChar strings.now at next rest }
    requires inside { slice_index strings.now at ≢ 0 → next < length strings.now }
    ensures { (text : List ℕ) → TextAt strings.now at text → (IsTrue result ↔ IsUtf8 text) }
{
    if strings[at] == 0 {
        return true;
    }
    rest && from_utf8(&strings[at..next]).is_ok()
}

/// The marks of a section, computed from its end: a string is UTF-8 if it begins with a valid
/// character and the rest of it is UTF-8.
fn marks_of<A: Allocator>(alloc: A, strings: &[u8]) -> Result<Vec<bool, A>, AllocError>
    requires { HasNulEnds strings.now }
    ensures { IfOk result (λ marks. AreMarks strings.now marks.items) }
{
    let mut marks = vec![in alloc; false; strings.len()]?;
    let mut at = strings.len();
    let mut next = strings.len();
    let mut rest = true;
    while at > 0 {
        at -= 1;
        if begins_char(strings[at]) {
            rest = is_utf8_with(strings, at, next, rest);
            next = at;
            marks[at] = rest;
        }
    }
    Ok(marks)
}

/// The marks of a section that begins and ends with NUL, or `None` if all of it is UTF-8.
///
/// # Errors
///
/// `AllocError` if memory can't be allocated. Nothing is allocated if all of the section is UTF-8,
/// otherwise one byte for each of its bytes.
pub fn marks_unless_utf8<A: Allocator>(
    alloc: A,
    strings: &[u8],
) -> Result<Option<Vec<bool, A>>, AllocError>
    requires { HasNulEnds strings.now }
    ensures { IfOk result (λ marks.
        MatchOption marks (IsUtf8 strings.now) (λ v. AreMarks strings.now v.items)) }
{
    if from_utf8(strings).is_ok() {
        Ok(None)
    } else {
        Ok(Some(marks_of(alloc, strings)?))
    }
}
