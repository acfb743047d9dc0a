//! `canon`: the canonical file of a file.

ghost use Rattle.std.specs.Prelude.{◌≡◌, IfErr, IfOk};
ghost use Rattle.bpfcanon_object.specs.Answers.{IsCanonAnswer};

use crate::answer::{Answer, Status, refused_answer};
use crate::desk::Stop;
use bpf_object::{ObjectError, canon_object};
use std::alloc::Allocator;

/// The canonical file for the bytes of a file, or the answer for its fault.
///
/// # Errors
///
/// `Memory` if memory can't be allocated.
pub fn canon_answer<A: Allocator + Copy>(
    alloc: A,
    name: &str,
    bytes: &[u8],
) -> Result<Result<Vec<u8, A>, Answer<A>>, Stop>
    ensures answer { IfOk result (IsCanonAnswer name.now bytes.now) }
    ensures stop { IfErr result (λ stop. stop ≡ Stop.Memory) }
{
    match canon_object(alloc, bytes) {
        Ok(canonical) => Ok(Ok(canonical)),
        Err(ObjectError::Fault(fault)) => Ok(Err(refused_answer(
            alloc,
            Status::No,
            name,
            bytes,
            fault,
        )?)),
        Err(ObjectError::Memory) => Err(Stop::Memory),
    }
}
