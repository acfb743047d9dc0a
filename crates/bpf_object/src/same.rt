//! The comparison of two object files, by their canonical files.

ghost use Rattle.std.specs.Prelude.{◌≡◌, IfOk, IfErr};
ghost use Rattle.bpf_object.specs.SameObjects as spec;
ghost use Rattle.bpf_object.specs.SameObjects.{ComparesObjects, NamesObjectSide};

use crate::canon::canon_object;
use crate::fault::{ObjectError, ObjectFault};
use bpf_canon::SideError;
use std::alloc::Allocator;

/// Why two object files couldn't be compared.
pub type SameError = SideError<ObjectFault>;

/// The error of a comparison for that of its first file.
fn on_first(error: ObjectError) -> SameError
    ensures { result ≡ spec.on_first error }
{
    match error {
        ObjectError::Fault(fault) => SideError::First(fault),
        ObjectError::Memory => SideError::Memory,
    }
}

/// The error of a comparison for that of its second file.
fn on_second(error: ObjectError) -> SameError
    ensures { result ≡ spec.on_second error }
{
    match error {
        ObjectError::Fault(fault) => SideError::Second(fault),
        ObjectError::Memory => SideError::Memory,
    }
}

/// Whether two BPF object files hold the same parts, which is whether their canonical files are
/// equal (docs/OBJECTS.md).
///
/// # Errors
///
/// `First` with the fault of the first file, or `Second` with that of the second one, if the first
/// has none. `Memory` if memory can't be allocated.
pub fn same_objects<A: Allocator + Copy>(alloc: A, a: &[u8], b: &[u8]) -> Result<bool, SameError>
    ensures same { IfOk result (ComparesObjects a.now b.now) }
    ensures fault { IfErr result (NamesObjectSide a.now b.now) }
{
    let first = match canon_object(alloc, a) {
        Ok(canon) => canon,
        Err(error) => return Err(on_first(error)),
    };
    let second = match canon_object(alloc, b) {
        Ok(canon) => canon,
        Err(error) => return Err(on_second(error)),
    };
    Ok(first.as_slice() == second.as_slice())
}
