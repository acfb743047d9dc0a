//! Names of files as they are printed: nothing in them acts on a terminal or a log.
//!
//! A name may hold any character but NUL. Control characters (general category Cc) and format
//! characters (Cf, Zl and Zp), some of which change the direction of what follows, are written with a
//! backslash, and so is the backslash itself, so that each name has a text of its own.

ghost use Rattle.std.specs.Prelude.{◌≡◌, ◌<◌, ◌≤◌, ◌++◌, ◌∷◌, ℕ, List, length, true, false};
ghost use Rattle.std.specs.Prelude.{IfOk, IfSome, IsSome, MatchOption, OnOk, Some, string_bytes};
ghost use Rattle.std.specs.{Fmt.digit_glyph, Str.IsUtf8, Str.Iter.chars_rest};
ghost use Rattle.bpfcanon_object.specs.Escape as spec;

use std::alloc::{AllocError, Allocator};
use std::str::Chars;

/// A hexadecimal digit.
fn digit(n: u8) -> char
    requires { n < 16 }
    ensures { result ≡ digit_glyph false n }
{
    if n < 10 {
        char::from(b'0' + n)
    } else {
        char::from(b'a' + (n - 10))
    }
}

/// Appends a byte in two hexadecimal digits.
pub fn push_digits<A: Allocator>(out: &mut String<A>, byte: u8) -> Result<(), AllocError>
    ensures { OnOk result (string_bytes out.new ≡ string_bytes out.old ++ spec.two_digits byte) }
{
    out.push(digit(byte / 16))?;
    out.push(digit(byte % 16))
}

/// Appends a control character.
fn push_control<A: Allocator>(out: &mut String<A>, c: char) -> Result<(), AllocError>
    requires { spec.is_control c ≡ true }
    ensures { OnOk result (string_bytes out.new ≡ string_bytes out.old ++ spec.numbered c) }
{
    out.push_str("\\x")?;
    push_digits(out, c as u8)
}

/// Appends a format character.
fn push_format<A: Allocator>(out: &mut String<A>, c: char) -> Result<(), AllocError>
    ensures { OnOk result (string_bytes out.new ≡ string_bytes out.old ++ spec.numbered_format c) }
{
    let code = c as u32;
    out.push_str("\\u{")?;
    push_digits(out, (code / 0x1_0000) as u8)?;
    push_digits(out, (code % 0x1_0000 / 0x100) as u8)?;
    push_digits(out, (code % 0x1_0000 % 0x100) as u8)?;
    out.push('}')
}

/// Appends a character of a name.
fn push_char<A: Allocator>(out: &mut String<A>, c: char) -> Result<(), AllocError>
    ensures { OnOk result (string_bytes out.new ≡ string_bytes out.old ++ spec.escaped_char c) }
{
    match c {
        '\\' => out.push_str("\\\\"),
        '\n' => out.push_str("\\n"),
        '\r' => out.push_str("\\r"),
        _ if is_control(c) => push_control(out, c),
        _ if is_format(c) => push_format(out, c),
        _ => out.push(c),
    }
}

/// Whether a terminal may act on a character: the general category Cc.
fn is_control(c: char) -> bool
    ensures { result ≡ spec.is_control c }
{
    c < ' ' || ('\x7f' <= c && c < '\u{a0}')
}

/// The first and the last of each run of characters of the categories Cf, Zl and Zp.
const FORMAT_CHARACTERS: [(char, char); 21] = [
    ('\u{ad}', '\u{ad}'),
    ('\u{600}', '\u{605}'),
    ('\u{61c}', '\u{61c}'),
    ('\u{6dd}', '\u{6dd}'),
    ('\u{70f}', '\u{70f}'),
    ('\u{890}', '\u{891}'),
    ('\u{8e2}', '\u{8e2}'),
    ('\u{180e}', '\u{180e}'),
    ('\u{200b}', '\u{200f}'),
    ('\u{2028}', '\u{202e}'),
    ('\u{2060}', '\u{2064}'),
    ('\u{2066}', '\u{206f}'),
    ('\u{feff}', '\u{feff}'),
    ('\u{fff9}', '\u{fffb}'),
    ('\u{110bd}', '\u{110bd}'),
    ('\u{110cd}', '\u{110cd}'),
    ('\u{13430}', '\u{1343f}'),
    ('\u{1bca0}', '\u{1bca3}'),
    ('\u{1d173}', '\u{1d17a}'),
    ('\u{e0001}', '\u{e0001}'),
    ('\u{e0020}', '\u{e007f}'),
];

/// Whether a character may change how the text beside it is shown: the general categories Cf, Zl
/// and Zp.
fn is_format(c: char) -> bool
    ensures { result ≡ spec.is_format c }
{
    FORMAT_CHARACTERS.iter().any(|run| run.0 <= c && c <= run.1)
}

/// Whether a character isn't printed as it is.
pub fn is_hidden(c: char) -> bool
    ensures { result ≡ spec.is_hidden c }
{
    is_control(c) || is_format(c)
}

/// A name without control and format characters. It is the name itself if that has none of them and
/// no backslashes.
pub fn escaped<A: Allocator>(alloc: A, name: &str) -> Result<String<A>, AllocError>
    ensures text { IfOk result (λ text. string_bytes text ≡ spec.escaped name.now) }
    ensures shown { IfOk result (λ text. spec.IsPrintable (string_bytes text)) }
{
    let mut text = String::new(alloc);
    for c in name.chars() {
        push_char(&mut text, c)?;
    }
    Ok(text)
}

/// A name as `sha256sum` writes it at the start of a line: escaped, with a backslash before it if
/// that isn't the name itself.
pub fn marked<A: Allocator + Copy>(alloc: A, name: &str) -> Result<String<A>, AllocError>
    ensures { IfOk result (λ text. string_bytes text ≡ spec.marked name.now) }
{
    let text = escaped(alloc, name)?;
    if text.as_str() == name {
        return Ok(text);
    }
    format!(in alloc; "\\{text}")
}

/// The next hexadecimal digit.
fn digit_in(chars: &mut Chars) -> Option<u32>
    ensures all { (n : ℕ) (behind : List ℕ) → n < 16
        → chars_rest chars.old ≡ digit_glyph false n ∷ behind
        → (result ≡ Some n) × (chars_rest chars.new ≡ behind) }
    ensures digit { IfSome result (λ n. n < 16) }
    ensures shorter { length (chars_rest chars.new) ≤ length (chars_rest chars.old) }
{
    chars.next()?.to_digit(16)
}

/// The byte that the next two digits are.
fn byte_in(chars: &mut Chars) -> Option<u32>
    ensures all { (n : ℕ) (behind : List ℕ) → n < 256
        → chars_rest chars.old ≡ spec.two_digits n ++ behind
        → (result ≡ Some n) × (chars_rest chars.new ≡ behind) }
    ensures byte { IfSome result (λ n. n < 256) }
    ensures shorter { length (chars_rest chars.new) ≤ length (chars_rest chars.old) }
{
    let high = digit_in(chars)?;
    let low = digit_in(chars)?;
    Some(16 * high + low)
}

/// The character with the number that the next two digits are.
fn control_in(chars: &mut Chars) -> Option<char>
    ensures all { (c : ℕ) (behind : List ℕ) → spec.is_control c ≡ true
        → chars_rest chars.old ≡ spec.two_digits c ++ behind
        → (result ≡ Some c) × (chars_rest chars.new ≡ behind) }
    ensures shorter { length (chars_rest chars.new) ≤ length (chars_rest chars.old) }
{
    char::from_u32(byte_in(chars)?)
}

/// The character with the number that the next six digits in braces are. The caller compares the
/// braces.
fn format_in(chars: &mut Chars) -> Option<char>
    ensures all { (c : ℕ) (behind : List ℕ) → spec.is_format c ≡ true
        → chars_rest chars.old ≡ 123 ∷ (spec.six_digits c ++ (125 ∷ behind))
        → (result ≡ Some c) × (chars_rest chars.new ≡ behind) }
    ensures shorter { length (chars_rest chars.new) ≤ length (chars_rest chars.old) }
{
    let _open = chars.next()?;
    let high = byte_in(chars)?;
    let middle = byte_in(chars)?;
    let low = byte_in(chars)?;
    let _close = chars.next()?;
    char::from_u32(0x1_0000 * high + 0x100 * middle + low)
}

/// The character that is written as a backslash and the next characters.
fn escape_in(chars: &mut Chars) -> Option<char>
    ensures all { (c : ℕ) (behind : List ℕ)
        → 92 ∷ chars_rest chars.old ≡ spec.escaped_char c ++ behind
        → (result ≡ Some c) × (chars_rest chars.new ≡ behind) }
    ensures shorter { length (chars_rest chars.new) ≤ length (chars_rest chars.old) }
{
    match chars.next()? {
        '\\' => Some('\\'),
        'n' => Some('\n'),
        'r' => Some('\r'),
        'x' => control_in(chars),
        'u' => format_in(chars),
        _ => None,
    }
}

/// The next character of a name in its text.
fn char_in(chars: &mut Chars) -> Option<char>
    ensures all { (c : ℕ) (behind : List ℕ)
        → chars_rest chars.old ≡ spec.escaped_char c ++ behind
        → (result ≡ Some c) × (chars_rest chars.new ≡ behind) }
    ensures shorter { IfSome result (λ _.
        length (chars_rest chars.new) < length (chars_rest chars.old)) }
{
    match chars.next()? {
        '\\' => escape_in(chars),
        c => Some(c),
    }
}

/// The characters of a text in which some are escaped, if each escape is one.
fn parts<A: Allocator>(alloc: A, text: &str) -> Result<Option<String<A>>, AllocError>
    ensures all { IfOk result (λ found. (name : List ℕ) → IsUtf8 name
        → spec.escaped name ≡ text.now
        → MatchOption found ⊥ (λ own. string_bytes own ≡ name)) }
{
    let mut name = String::new(alloc);
    let mut chars = text.chars();
    while !chars.as_str().is_empty() {
        let Some(c) = char_in(&mut chars) else {
            return Ok(None);
        };
        name.push(c)?;
    }
    Ok(Some(name))
}

/// The only name that has this text. `None` if no name has it.
pub fn unescaped<A: Allocator + Copy>(alloc: A, text: &str) -> Result<Option<String<A>>, AllocError>
    ensures found { IfOk result (λ found. IfSome found (λ name.
        spec.escaped (string_bytes name) ≡ text.now)) }
    ensures only { IfOk result (λ found. IfSome found (λ name.
        (other : List ℕ) → IsUtf8 other → spec.escaped other ≡ text.now
        → other ≡ string_bytes name)) }
    ensures all { IfOk result (λ found. (name : List ℕ) → IsUtf8 name
        → spec.escaped name ≡ text.now → IsSome found) }
{
    let Some(name) = parts(alloc, text)? else {
        return Ok(None);
    };
    if escaped(alloc, name.as_str())?.as_str() != text {
        return Ok(None);
    }
    Ok(Some(name))
}
