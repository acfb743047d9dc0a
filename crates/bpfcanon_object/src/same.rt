//! `same`: whether two files hold the same.

ghost use Rattle.std.specs.Prelude.{◌≡◌, IfErr, IfOk};
ghost use Rattle.bpfcanon_object.specs.Answers.{IsComparison, IsSameAnswer};

use crate::answer::{Answer, Status, refused_answer};
use crate::desk::Stop;
use bpf_object::{SameError, same_objects};
use std::alloc::{AllocError, Allocator};

/// The answer for two files that are accepted.
fn comparison<A: Allocator + Copy>(alloc: A, is_same: bool) -> Result<Answer<A>, AllocError>
    ensures { IfOk result (IsComparison is_same) }
{
    let (status, line) = if is_same {
        (Status::Yes, "same\n")
    } else {
        (Status::No, "different\n")
    };
    Ok(Answer::of_lines(alloc, status, String::from_str(alloc, line)?))
}

/// The answer for the names and the bytes of two files: whether they hold the same, or the fault of
/// the first one that is refused.
///
/// # Errors
///
/// `Memory` if memory can't be allocated.
pub fn same_answer<A: Allocator + Copy>(
    alloc: A,
    name: &str,
    file: &[u8],
    other_name: &str,
    other: &[u8],
) -> Result<Answer<A>, Stop>
    ensures answer { IfOk result (IsSameAnswer name.now file.now other_name.now other.now) }
    ensures stop { IfErr result (λ stop. stop ≡ Stop.Memory) }
{
    match same_objects(alloc, file, other) {
        Ok(is_same) => Ok(comparison(alloc, is_same)?),
        Err(SameError::First(fault)) => Ok(refused_answer(
            alloc,
            Status::Trouble,
            name,
            file,
            fault,
        )?),
        Err(SameError::Second(fault)) => Ok(refused_answer(
            alloc,
            Status::Trouble,
            other_name,
            other,
            fault,
        )?),
        Err(SameError::Memory) => Err(Stop::Memory),
    }
}
