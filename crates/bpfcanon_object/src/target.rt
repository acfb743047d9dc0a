//! The target of `check`: conformance groups (RFC 9669 section 2.4), a release of Linux or a version
//! of LLVM's instruction set, and what is reported of code that isn't in it.

ghost use Rattle.std.specs.Prelude.{◌≡◌};
ghost use Rattle.bpfcanon_object.specs.Code.{IsFound};
ghost use Rattle.bpfcanon_object.specs.Target as spec;

use crate::finding::{Finding, Reason};
use crate::items::{Need, read_item};
use crate::linux::{Cpu, Linux};
use bpf_insn::{GroupSet, Order};

/// What runs code.
#[derive(Clone, Copy, Debug, PartialEq, Eq)]
pub enum Target {
    /// Something with these conformance groups.
    Groups(GroupSet),
    /// A release of Linux.
    Release(Linux),
    /// Something with a version of LLVM's instruction set.
    Version(Cpu),
}

impl Target {
    /// Whether it has what an instruction needs.
    fn has(self, need: Need) -> bool
        ensures { result ≡ spec.has self need }
    {
        match self {
            Target::Groups(groups) => match need.group {
                Some(group) => groups.has(group),
                None => false,
            },
            Target::Release(linux) => need.addition.linux().is_until(linux),
            Target::Version(cpu) => need.addition.cpu().number() <= cpu.number(),
        }
    }

    /// What it lacks for an instruction.
    fn lacking(self, need: Need) -> Reason
        ensures { result ≡ spec.lacking self need }
    {
        match self {
            Target::Groups(_) => match need.group {
                Some(group) => Reason::Outside(group),
                None => Reason::Release(need.addition),
            },
            Target::Release(_) => Reason::Release(need.addition),
            Target::Version(_) => Reason::Version(need.addition),
        }
    }
}

/// What is reported of an instruction at an offset, if it isn't in the target.
fn outside_at(target: Option<Target>, pos: u64, need: Need) -> Option<Finding>
    ensures { result ≡ spec.outside_at target pos need }
{
    let target = target?;
    if target.has(need) {
        return None;
    }
    let reason = target.lacking(need);
    Some(Finding { pos, reason })
}

/// The first of two findings.
fn first_of(found: Option<Finding>, other: Option<Finding>) -> Option<Finding>
    ensures { result ≡ spec.first_of found other }
{
    match found {
        Some(found) => Some(found),
        None => other,
    }
}

/// What is reported of instructions, if anything is: their fault, or the first one that isn't in the
/// target.
pub fn found_by_item(order: Order, target: Option<Target>, bytes: &[u8]) -> Option<Finding>
    ensures { IsFound order target bytes.now result }
{
    let mut outside = None;
    let mut pos = 0;
    while pos < bytes.len() {
        match read_item(order, &bytes[pos..]) {
            Ok(read) => {
                let (need, len) = read;
                outside = first_of(outside, outside_at(target, pos as u64, need));
                pos += len;
            }
            Err(fault) => {
                let fault = fault.moved_by(pos as u64);
                let reason = Reason::Fault(fault.cause);
                let pos = fault.pos;
                return Some(Finding { pos, reason });
            }
        }
    }
    outside
}
