//! The conformance groups of an input, without a list of its instructions.
//!
//! The opcode determines an instruction's group, except for byte swaps, whose group also depends on
//! the immediate (RFC 9669 section 2.4). Once the group of an opcode has been added, further
//! instructions with that opcode are only validated, not decoded.

ghost use Rattle.std.specs.Prelude.{◌≡◌, ◌<◌, ◌≤◌, List, length, IfErr, IfOk, IsOk};
ghost use Rattle.bpf_insn.specs.declared.{group.Group.Group, insn.Insn.Insn};
ghost use Rattle.bpf_insn.specs.{Faults.IsInsnFault, Groups.AreGroupsOf, Encoding.InsnFile};
ghost use Rattle.bpf_insn.specs.FileSteps.{AddsInsnAt, AreSettled, HasGroupsBefore, IsFaultAt};
ghost use Rattle.bpf_insn.specs.FileSteps as spec;

use crate::decode::{len_at, read_at};
use crate::whole_insns::begins_plainly;
use crate::{GroupSet, Insn, Order, SlotFault, group_of};

/// Whether all instructions with the opcode of this one are in its group. That is so except for
/// byte swaps, whose group also depends on the immediate.
fn opcode_has_group(insn: Insn) -> bool
    ensures { result ≡ spec.opcode_has_group insn }
{
    !matches!(insn, Insn::Swap { .. })
}

/// The groups that were found, and which opcodes are settled: an opcode is settled if it determines
/// the group and the set has that group.
#[derive(Drop)]
struct FoundGroups {
    set: GroupSet,
    settled: [bool; 256],
}

impl FoundGroups {
    /// Decodes the instruction at offset `pos`, adds its group and returns its length in bytes.
    #[inline(never)]
    fn read_at(&mut self, order: Order, bytes: &[u8], pos: usize) -> Result<usize, SlotFault>
        requires pos { pos < length bytes.now }
        requires settled { AreSettled self.old.settled self.old.set }
        ensures found { IfOk result (λ len.
            AddsInsnAt order bytes.now pos self.old.set self.new.set len) }
        ensures settled { AreSettled self.new.settled self.new.set }
        ensures fault { IfErr result (IsFaultAt order bytes.now pos) }
    {
        let (insn, len) = read_at(order, bytes, pos)?;
        self.set.add(group_of(insn));
        self.settled[bytes[pos] as usize] = opcode_has_group(insn);
        Ok(len)
    }

    /// The end of the longest run from `pos` on of plain instructions with settled opcodes. The set
    /// already has their groups. Most instructions are in such runs, and a separate loop for them
    /// is the fastest.
    #[inline(always)]
    fn plain_end(&self, order: Order, bytes: &[u8], pos: usize) -> usize
        requires pos { pos ≤ length bytes.now }
        requires groups { HasGroupsBefore order bytes.now pos self.now.set }
        requires settled { AreSettled self.now.settled self.now.set }
        ensures forward { pos ≤ result }
        ensures groups { HasGroupsBefore order bytes.now result self.now.set }
    {
        let mut end = pos;
        while end < bytes.len()
            && self.settled[bytes[end] as usize]
            && begins_plainly(order, &bytes[end..])
        {
            end += 8;
        }
        end
    }

    /// Adds the group of the instruction at offset `pos`, and returns its length in bytes.
    #[tactic(auto, using(crate::proofs::OpcodeGroups::already_there_if))]
    #[inline(always)]
    fn add_at(&mut self, order: Order, bytes: &[u8], pos: usize) -> Result<usize, SlotFault>
        requires pos { pos < length bytes.now }
        requires settled { AreSettled self.old.settled self.old.set }
        ensures found { IfOk result (λ len.
            AddsInsnAt order bytes.now pos self.old.set self.new.set len) }
        ensures settled { AreSettled self.new.settled self.new.set }
        ensures fault { IfErr result (IsFaultAt order bytes.now pos) }
    {
        if self.settled[bytes[pos] as usize] {
            len_at(order, bytes, pos)
        } else {
            self.read_at(order, bytes, pos)
        }
    }
}

/// The conformance groups of a concatenation of instructions (RFC 9669 section 2.4), as
/// [`groups_of`] returns them for the list. This call allocates nothing.
///
/// # Errors
///
/// If the input isn't a concatenation of instructions, the fault of the bytes after the longest
/// sequence of instructions at its start. The offset is in bytes from the start of the input.
///
/// [`groups_of`]: crate::groups_of
#[tactic(auto, using(crate::proofs::FileGroups::group_steps))]
pub fn groups_in(order: Order, bytes: &[u8]) -> Result<GroupSet, SlotFault>
    ensures found { IfOk result (AreGroupsOf order bytes.now) }
    ensures all { (l : List Insn) → InsnFile order bytes.now l → IsOk result }
    ensures fault { IfErr result (IsInsnFault order bytes.now) }
{
    let mut found = FoundGroups {
        set: GroupSet::default(),
        settled: [false; 256],
    };
    let mut pos = 0;
    while pos < bytes.len() {
        let next = pos + found.add_at(order, bytes, pos)?;
        pos = found.plain_end(order, bytes, next);
    }
    Ok(found.set)
}
