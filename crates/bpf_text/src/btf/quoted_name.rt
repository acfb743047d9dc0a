//! Names in quotes. Quotes, backslashes and control characters in them are escaped.
//!
//! Names are UTF-8 and may contain any character except NUL. Escaping looks at single bytes, since
//! the bytes of a longer character are all above those that are escaped, and so a name can be cut
//! anywhere.

ghost use Rattle.std.specs.Prelude.{◌≡◌, ◌<◌};
ghost use Rattle.std.specs.{Char.digit_char, List.flat_map};
ghost use Rattle.bpf_text.specs.btf.Appending.{Appends};
ghost use Rattle.bpf_text.specs.btf.BtfText as spec;

use std::alloc::{AllocError, Allocator};

/// The hexadecimal digits.
const HEX_DIGITS: [u8; 16] = *b"0123456789abcdef";

/// Whether a byte is written unchanged after a backslash.
fn needs_backslash(byte: u8) -> bool
    ensures { result ≡ spec.needs_backslash byte }
{
    byte == b'"' || byte == b'\\'
}

/// Whether a byte is an ASCII control character.
fn is_control(byte: u8) -> bool
    ensures { result ≡ spec.is_control byte }
{
    byte < 0x20 || byte == 0x7f
}

/// The hexadecimal digit for a number below 16.
fn hex_digit(number: u8) -> u8
    requires { number < 16 }
    ensures { result ≡ digit_char number }
{
    HEX_DIGITS[usize::from(number)]
}

/// Appends a byte of a name, escaped if necessary.
fn append_byte<A: Allocator>(text: &mut Vec<u8, A>, byte: u8) -> Result<(), AllocError>
    ensures { Appends result text.old (spec.quoted_byte byte) text.new }
{
    if needs_backslash(byte) {
        text.extend_from_slice(&[b'\\', byte])
    } else if is_control(byte) {
        text.extend_from_slice(&[b'\\', b'x', hex_digit(byte / 16), hex_digit(byte % 16)])
    } else {
        text.extend_from_slice(&[byte])
    }
}

/// Appends bytes of a name as they are written between its quotes: a backslash before `"` and `\`,
/// `\x` and two lowercase hexadecimal digits for ASCII control characters, and all other bytes
/// unchanged. A name may be split at any byte: its parts, appended in order, are the same as the
/// complete name.
///
/// # Errors
///
/// `AllocError` if the vector can't grow. Its contents stay; part of the new bytes may follow them.
pub fn append_quoted_part<A: Allocator>(
    text: &mut Vec<u8, A>,
    part: &[u8],
) -> Result<(), AllocError>
    ensures { Appends result text.old (flat_map spec.quoted_byte part.now) text.new }
{
    // A run of unescaped bytes is appended at once. The current run begins here.
    let mut start = 0;
    for (at, byte) in part.iter().enumerate() {
        if needs_backslash(*byte) || is_control(*byte) {
            text.extend_from_slice(&part[start..at])?;
            append_byte(text, *byte)?;
            start = at + 1;
        }
    }
    text.extend_from_slice(&part[start..])
}
