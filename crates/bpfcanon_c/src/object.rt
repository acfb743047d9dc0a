//! The calls on object files.

ghost use Rattle.std.specs.Prelude.{◌≡◌};
ghost use Rattle.sha2.specs.Sha256.{sha256};
ghost use Rattle.bpf_object.specs.Canonical.{canonical};
ghost use Rattle.bpfcanon_c.specs.Objects as spec;
ghost use Rattle.bpfcanon_c.specs.Objects.{AnswersObject, AnswersObjectCheck, AnswersSameObjects};
ghost use Rattle.bpfcanon_c.specs.ObjectCauses.{object_cause_number};

use crate::answer::{Answer, Ending, FaultCode, compared, put, report};
use bpf_object::{ObjectCause, ObjectError, ObjectFault, canon_object, object_key, same_objects};
use std::alloc::Global;

/// The number of a cause. Those of the ELF file have 100 more than there, and a fault of .BTF by itself
/// has the number that it has there.
fn cause_number(cause: ObjectCause) -> u32
    ensures { result ≡ object_cause_number cause }
{
    match cause {
        ObjectCause::Elf(cause) => 100 + cause as u32,
        ObjectCause::Types(cause) => u32::from(cause.number()),
        ObjectCause::TypesTooLarge => 135,
        ObjectCause::TypesOrder => 136,
        ObjectCause::TypesLayout => 137,
        ObjectCause::TypesName => 138,
        ObjectCause::TypesSection => 139,
        ObjectCause::TypesFlag => 140,
        ObjectCause::ExtensionWithoutTypes => 141,
        ObjectCause::ExtensionCut => 142,
        ObjectCause::ExtensionMagic => 143,
        ObjectCause::ExtensionVersion => 144,
        ObjectCause::ExtensionFlags => 145,
        ObjectCause::ExtensionHeaderSize => 146,
        ObjectCause::ExtensionPart => 147,
        ObjectCause::ExtensionRecordSize => 148,
        ObjectCause::ExtensionGroup => 149,
        ObjectCause::ExtensionString => 150,
        ObjectCause::ExtensionLines => 151,
        ObjectCause::ResultTooLarge => 152,
        ObjectCause::ExtensionGroupTwice => 155,
        ObjectCause::FunctionLines => 156,
        ObjectCause::TypesNameTaken => 157,
    }
}

/// A fault of an object file by its numbers.
fn object_code(fault: ObjectFault) -> FaultCode
    ensures { result ≡ spec.code_of_object fault }
{
    FaultCode {
        cause: cause_number(fault.cause),
        pos: fault.pos,
        line: 0,
    }
}

/// The fault is in the only input.
impl From<ObjectError> for Ending {
    ghost from_gives = { λ error ending. ending ≡ spec.object_end error };

    fn from(error: ObjectError) -> Ending {
        match error {
            ObjectError::Fault(fault) => Ending::First(object_code(fault)),
            ObjectError::Memory => Ending::Memory,
        }
    }
}

/// Writes the canonical file of a BPF object file (docs/OBJECTS.md) at the start of `out`. It may be
/// longer than the file.
///
/// # Errors
///
/// Status 2 with the first fault of the file, its offset in bytes from the start of `bytes`; 4 if
/// memory runs out; 5 with the length of the output if `out` is shorter. `out` is then unchanged.
#[unsafe(no_mangle)]
pub extern "C" fn bpfcanon_proved_object_canon(
    alloc: Global,
    bytes: &[u8],
    out: &mut [u8],
) -> Answer
    ensures { AnswersObject canonical bytes.now out.old out.new result }
{
    report(match canon_object(alloc, bytes) {
        Ok(canon) => put(&canon, out),
        Err(error) => Ending::from(error),
    })
}

/// Writes the key of an object file, the SHA-256 of its canonical file, at the start of `out`. It has
/// 32 bytes.
///
/// # Errors
///
/// Those of `bpfcanon_proved_object_canon`.
#[unsafe(no_mangle)]
pub extern "C" fn bpfcanon_proved_object_key(alloc: Global, bytes: &[u8], out: &mut [u8]) -> Answer
    ensures { AnswersObject (λ x. sha256 (canonical x)) bytes.now out.old out.new result }
{
    report(match object_key(alloc, bytes) {
        Ok(key) => put(&key, out),
        Err(error) => Ending::from(error),
    })
}

/// Checks that an object file has a canonical file: status 0 if it has one.
///
/// # Errors
///
/// Status 2 with the first fault of the file, its offset in bytes from the start of `bytes`; 4 if
/// memory runs out.
#[unsafe(no_mangle)]
pub extern "C" fn bpfcanon_proved_object_check(alloc: Global, bytes: &[u8]) -> Answer
    ensures { AnswersObjectCheck bytes.now result }
{
    report(match canon_object(alloc, bytes) {
        Ok(_) => Ending::Accepted,
        Err(error) => Ending::from(error),
    })
}

/// Whether two object files hold the same parts: status 0 if they do, and 1 if they don't.
///
/// # Errors
///
/// Status 2 with the first fault of `first`; 3 with that of `second` if `first` has none; 4 if
/// memory runs out. Offsets are in bytes from the start of that file.
#[unsafe(no_mangle)]
pub extern "C" fn bpfcanon_proved_object_same(alloc: Global, first: &[u8], second: &[u8]) -> Answer
    ensures { AnswersSameObjects first.now second.now result }
{
    report(compared(same_objects(alloc, first, second), object_code))
}
