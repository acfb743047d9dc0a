//! `key`: the key of each file, as a line of `sha256sum`.

ghost use Rattle.std.specs.Prelude.{◌≡◌, IfErr, IfOk, string_bytes};
ghost use Rattle.bpfcanon_object.specs.Answers.{IsKeyAnswer};
ghost use Rattle.bpfcanon_object.specs.KeyLines as spec;

use crate::answer::{Answer, Status, refused_answer};
use crate::desk::Stop;
use crate::escape::escaped;
use bpf_object::{ObjectError, object_key};
use std::alloc::{AllocError, Allocator};

/// A key: the SHA-256 of a canonical file.
pub type Key = [u8; 32];

/// The line of a key: 64 hexadecimal digits, two blanks and the name. A backslash is before it if
/// something in the name is escaped.
pub fn key_line<A: Allocator + Copy>(
    alloc: A,
    key: Key,
    name: &str,
) -> Result<String<A>, AllocError>
    ensures { IfOk result (λ line. string_bytes line ≡ spec.key_line key name.now) }
{
    let digits = hex::encode(alloc, key)?;
    let text = escaped(alloc, name)?;
    let mark = if text.as_str() == name { "" } else { "\\" };
    format!(in alloc; "{mark}{digits}  {text}\n")
}

/// The answer for the bytes of a file: its key, or its fault.
///
/// # Errors
///
/// `Memory` if memory can't be allocated.
pub fn key_answer<A: Allocator + Copy>(
    alloc: A,
    name: &str,
    bytes: &[u8],
) -> Result<Answer<A>, Stop>
    ensures answer { IfOk result (IsKeyAnswer name.now bytes.now) }
    ensures stop { IfErr result (λ stop. stop ≡ Stop.Memory) }
{
    match object_key(alloc, bytes) {
        Ok(key) => {
            let line = key_line(alloc, key, name)?;
            Ok(Answer::of_lines(alloc, Status::Yes, line))
        }
        Err(ObjectError::Fault(fault)) => Ok(refused_answer(
            alloc,
            Status::No,
            name,
            bytes,
            fault,
        )?),
        Err(ObjectError::Memory) => Err(Stop::Memory),
    }
}
