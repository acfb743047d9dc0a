//! Strings and objects of JSON (RFC 8259), one object a line.

ghost use Rattle.std.specs.Prelude.{◌≡◌, ◌++◌, IfOk, OnOk, string_bytes};
ghost use Rattle.bpfcanon_object.specs.Escape.{IsPrintable};
ghost use Rattle.bpfcanon_object.specs.Json as spec;

use crate::escape::{is_hidden, push_digits};
use std::alloc::{AllocError, Allocator};

/// Appends a unit of UTF-16 to a JSON string.
fn push_unit<A: Allocator>(out: &mut String<A>, unit: u16) -> Result<(), AllocError>
    ensures { OnOk result (string_bytes out.new ≡ string_bytes out.old ++ spec.json_unit unit) }
{
    out.push_str("\\u")?;
    push_digits(out, (unit / 0x100) as u8)?;
    push_digits(out, (unit % 0x100) as u8)
}

/// Appends two units of UTF-16 to a JSON string.
fn push_pair<A: Allocator>(out: &mut String<A>, high: u16, low: u16) -> Result<(), AllocError>
    ensures { OnOk result (string_bytes out.new
        ≡ string_bytes out.old ++ (spec.json_unit high ++ spec.json_unit low)) }
{
    push_unit(out, high)?;
    push_unit(out, low)
}

/// Appends a character of a JSON string by its number.
fn push_numbered<A: Allocator>(out: &mut String<A>, c: char) -> Result<(), AllocError>
    ensures { OnOk result (string_bytes out.new ≡ string_bytes out.old ++ spec.json_numbered c) }
{
    let code = c as u32;
    if code < 0x1_0000 {
        return push_unit(out, code as u16);
    }
    let high = 0xd800 + (code - 0x1_0000) / 0x400;
    let low = 0xdc00 + code % 0x400;
    push_pair(out, high as u16, low as u16)
}

/// Appends a character of a JSON string (RFC 8259 section 7).
fn push_json<A: Allocator>(out: &mut String<A>, c: char) -> Result<(), AllocError>
    ensures { OnOk result (string_bytes out.new ≡ string_bytes out.old ++ spec.json_char c) }
{
    match c {
        '"' => out.push_str("\\\""),
        '\\' => out.push_str("\\\\"),
        _ if is_hidden(c) => push_numbered(out, c),
        _ => out.push(c),
    }
}

/// What is between the quotation marks of a JSON string. Control and format characters are escaped,
/// also those that JSON allows.
pub fn json_text<A: Allocator>(alloc: A, text: &str) -> Result<String<A>, AllocError>
    ensures text { IfOk result (λ s. string_bytes s ≡ spec.json_text text.now) }
    ensures shown { IfOk result (λ s. IsPrintable (string_bytes s)) }
{
    let mut json = String::new(alloc);
    for c in text.chars() {
        push_json(&mut json, c)?;
    }
    Ok(json)
}

/// The line of a JSON object for a file, with members after that of its name.
pub fn json_line<A: Allocator + Copy>(
    alloc: A,
    name: &str,
    members: &str,
) -> Result<String<A>, AllocError>
    ensures { IfOk result (λ line. string_bytes line ≡ spec.json_line name.now members.now) }
{
    let name = json_text(alloc, name)?;
    format!(in alloc; "{{\"file\":\"{name}\",{members}}}\n")
}
