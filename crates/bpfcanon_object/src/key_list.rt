//! `key --check`: the files of a list of keys, as `sha256sum -c` compares them.

ghost use Rattle.std.specs.Prelude.{◌≡◌, ◌≢◌, ◌++◌, [], ◌∷◌, if◌then◌else◌, ℕ, List, Bool, not};
ghost use Rattle.std.specs.Prelude.{IfErr, IfOk, IfSome, IsSome, MatchOption, codes, length, slice_index};
ghost use Rattle.std.specs.{Prelude.string_bytes, Str.IsUtf8, Str.bytes_eq};
ghost use Rattle.hex.specs.Hex.{IsBytes, encode_lower};
ghost use Rattle.bpfcanon_object.specs.Answers.{IsComparedRow, IsRefused, IsRowAnswer};
ghost use Rattle.bpfcanon_object.specs.Answers.{IsUnreadRowAnswer};
ghost use Rattle.bpfcanon_object.specs.declared.answer.Status.TheVariants.{No};
ghost use Rattle.bpfcanon_object.specs.Escape.{escaped};
ghost use Rattle.bpfcanon_object.specs.KeyLines as spec;

use crate::answer::{Answer, Status, refused_answer, trouble_answer};
use crate::desk::Stop;
use crate::escape::{marked, unescaped};
use crate::key::{Key, key_line};
use bpf_object::{ObjectError, ObjectFault, object_key};
use hex::FromHex;
use std::alloc::{AllocError, Allocator, Global};

/// A line of a list of keys.
#[derive(Debug, Drop)]
pub struct Row<A: Allocator = Global> {
    /// The key.
    pub key: Key,
    /// The name of the file.
    pub name: String<A>,
}

/// Whether a line begins with a backslash, and what is behind it.
fn split_mark(line: &str) -> (bool, &str)
    ensures all { (plain : Bool) (rest : List ℕ) → slice_index rest 0 ≢ 92
        → line.now ≡ (if plain then [] else codes "\\") ++ rest
        → (result.0 ≡ not plain) × (result.1.now ≡ rest) }
{
    match line.strip_prefix('\\') {
        Some(rest) => (true, rest),
        None => (false, line),
    }
}

/// The digits of the key and the text of the name in a line, and whether the text is escaped.
fn split_line(line: &str) -> Option<(&str, bool, &str)>
    ensures all { (key name : List ℕ) → IsBytes key → length key ≡ 32
        → spec.key_line key name ≡ line.now ++ 10 ∷ []
        → MatchOption result ⊥ (λ (digits, is_escaped, text).
        (digits.now ≡ encode_lower key)
        × ((is_escaped ≡ not (bytes_eq (escaped name) name)) × (text.now ≡ escaped name))) }
{
    let (is_escaped, rest) = split_mark(line);
    let (digits, text) = rest.split_once(' ')?;
    Some((digits, is_escaped, text.strip_prefix(' ')?))
}

/// The name that is written as a text, if there is one.
fn name_of<A: Allocator + Copy>(
    alloc: A,
    is_escaped: bool,
    text: &str,
) -> Result<Option<String<A>>, AllocError>
    ensures all { IfOk result (λ found. (name : List ℕ) → IsUtf8 name
        → is_escaped ≡ not (bytes_eq (escaped name) name) → text.now ≡ escaped name
        → MatchOption found ⊥ (λ own. string_bytes own ≡ name)) }
{
    if is_escaped {
        return unescaped(alloc, text);
    }
    Ok(Some(String::from_str(alloc, text)?))
}

/// The row of a line without its newline. `None` if `key` writes no such line.
pub fn read_row<A: Allocator + Copy>(alloc: A, line: &str) -> Result<Option<Row<A>>, AllocError>
    ensures found { IfOk result (λ found. IfSome found (λ row.
        spec.key_line row.key (string_bytes row.name) ≡ line.now ++ 10 ∷ [])) }
    ensures only { IfOk result (λ found. IfSome found (λ row.
        (key name : List ℕ) → IsBytes key → length key ≡ 32 → IsUtf8 name
        → spec.key_line key name ≡ line.now ++ 10 ∷ []
        → (key ≡ row.key) × (name ≡ string_bytes row.name))) }
    ensures all { IfOk result (λ found. (key name : List ℕ) → IsBytes key → length key ≡ 32
        → IsUtf8 name → spec.key_line key name ≡ line.now ++ 10 ∷ [] → IsSome found) }
{
    let Some((digits, is_escaped, text)) = split_line(line) else {
        return Ok(None);
    };
    let Ok(key) = Key::from_hex(digits) else {
        return Ok(None);
    };
    let Some(name) = name_of(alloc, is_escaped, text)? else {
        return Ok(None);
    };
    let again = key_line(alloc, key, name.as_str())?;
    let given = format!(in alloc; "{line}\n")?;
    if again.as_str() != given.as_str() {
        return Ok(None);
    }
    Ok(Some(Row { key, name }))
}

/// The answer for a file that is refused.
fn refused_row<A: Allocator + Copy>(
    alloc: A,
    name: &str,
    bytes: &[u8],
    fault: ObjectFault,
) -> Result<Answer<A>, AllocError>
    ensures { IfOk result (IsRefused No name.now fault (spec.row_line name.now (codes "FAILED"))) }
{
    let text = marked(alloc, name)?;
    let mut answer = refused_answer(alloc, Status::No, name, bytes, fault)?;
    answer.lines = format!(in alloc; "{text}: FAILED\n")?;
    Ok(answer)
}

/// The answer for a file that has a key.
fn compared_row<A: Allocator + Copy>(
    alloc: A,
    name: &str,
    is_right: bool,
) -> Result<Answer<A>, AllocError>
    ensures { IfOk result (IsComparedRow name.now is_right) }
{
    let text = marked(alloc, name)?;
    let (status, word) = if is_right {
        (Status::Yes, "OK")
    } else {
        (Status::No, "FAILED")
    };
    let line = format!(in alloc; "{text}: {word}\n")?;
    Ok(Answer::of_lines(alloc, status, line))
}

/// The answer for the bytes of a file: its name, and whether it has the key of its row. What is
/// refused has no key.
///
/// # Errors
///
/// `Memory` if memory can't be allocated.
pub fn row_answer<A: Allocator + Copy>(
    alloc: A,
    name: &str,
    wanted: Key,
    bytes: &[u8],
) -> Result<Answer<A>, Stop>
    ensures answer { IfOk result (IsRowAnswer name.now wanted bytes.now) }
    ensures stop { IfErr result (λ stop. stop ≡ Stop.Memory) }
{
    match object_key(alloc, bytes) {
        Ok(key) => Ok(compared_row(alloc, name, key == wanted)?),
        Err(ObjectError::Fault(fault)) => Ok(refused_row(alloc, name, bytes, fault)?),
        Err(ObjectError::Memory) => Err(Stop::Memory),
    }
}

/// The answer for a file that can't be read, and why.
pub fn unread_row_answer<A: Allocator + Copy>(
    alloc: A,
    name: &str,
    why: &str,
) -> Result<Answer<A>, AllocError>
    ensures { IfOk result (IsUnreadRowAnswer name.now why.now) }
{
    let text = marked(alloc, name)?;
    let mut answer = trouble_answer(alloc, name, why)?;
    answer.lines = format!(in alloc; "{text}: FAILED open or read\n")?;
    Ok(answer)
}
