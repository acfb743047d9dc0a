//! What `check` reports of code: an offset in a section, and why.

ghost use Rattle.std.specs.Prelude.{◌≡◌, IfOk, string_bytes};
ghost use Rattle.bpfcanon_object.specs.Findings as spec;

use crate::linux::Addition;
use bpf_insn::{Group, SlotCause};
use std::alloc::{AllocError, Allocator};

/// The release that an addition needs, and its name.
pub fn release_text<A: Allocator + Copy>(
    alloc: A,
    addition: Addition,
) -> Result<String<A>, AllocError>
    ensures { IfOk result (λ text. string_bytes text ≡ spec.release_text addition) }
{
    let name = addition.name();
    let linux = addition.linux().text(alloc)?;
    format!(in alloc; "needs Linux {linux}: {name}")
}

/// The version of LLVM's instruction set that an addition needs, and its name.
fn version_text<A: Allocator>(alloc: A, addition: Addition) -> Result<String<A>, AllocError>
    ensures { IfOk result (λ text. string_bytes text ≡ spec.version_text addition) }
{
    let name = addition.name();
    let cpu = addition.cpu().name();
    format!(in alloc; "needs -mcpu={cpu}: {name}")
}

/// Why code is reported.
#[derive(Clone, Copy, Debug, PartialEq, Eq)]
pub enum Reason {
    /// There is no instruction.
    Fault(SlotCause),
    /// The instruction is in this group, which the target lacks.
    Outside(Group),
    /// The instruction needs a later release of Linux than the target, or isn't in RFC 9669.
    Release(Addition),
    /// The instruction needs a later version of LLVM's instruction set than the target.
    Version(Addition),
}

impl Reason {
    /// The name of the cause. That of an instruction outside the target is `Target`.
    pub fn name(self) -> &'static str
        ensures { result.now ≡ spec.reason_name self }
    {
        match self {
            Reason::Fault(cause) => cause.name(),
            Reason::Outside(_) => "Target",
            Reason::Release(_) => "Target",
            Reason::Version(_) => "Target",
        }
    }

    /// The sentence of the cause, or what the target lacks.
    pub fn text<A: Allocator + Copy>(self, alloc: A) -> Result<String<A>, AllocError>
        ensures { IfOk result (λ text. string_bytes text ≡ spec.reason_text self) }
    {
        match self {
            Reason::Fault(cause) => String::from_str(alloc, cause.describe()),
            Reason::Outside(group) => format!(in alloc; "the target lacks {group}"),
            Reason::Release(addition) => release_text(alloc, addition),
            Reason::Version(addition) => version_text(alloc, addition),
        }
    }
}

/// What is reported of a section of code.
#[derive(Clone, Copy, Debug, PartialEq, Eq)]
pub struct Finding {
    /// The offset, in bytes from the start of the section.
    pub pos: u64,
    /// Why it is reported.
    pub reason: Reason,
}
