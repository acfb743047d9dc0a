//! `insn-read`, `insn-groups` and `btf-check`: replies to one file.

ghost use Rattle.std.specs.Prelude.{◌≡◌, ◌≤◌, length, IfOk};
ghost use Rattle.bpf_insn.specs.Groups.{holds};
ghost use Rattle.bpfcanon.specs.declared.verb.Verb.TheVariants.{BtfCheck, InsnGroups, InsnRead};
ghost use Rattle.bpfcanon.specs.commands.BtfReply as btf_spec;
ghost use Rattle.bpfcanon.specs.commands.BtfReply.{IsBtfCheckReply};
ghost use Rattle.bpfcanon.specs.commands.Pieces.{IsOutput};
ghost use Rattle.bpfcanon.specs.commands.Reply as spec;
ghost use Rattle.bpfcanon.specs.commands.Reply.{IsGroupsReply, IsReadReply, limit_of};

use crate::outcome::Outcome;
use bpf_insn::{Group, GroupSet, Order, groups_in};
use bpf_text::read_listing_bytes;
use btf_types::CheckedFile;
use itoa::Buffer;
use std::alloc::{AllocError, Allocator};

/// The reply of `insn-read`: the instructions of a listing, encoded in the byte order `to`.
#[tactic(auto, using(crate::proofs::CommandsLemmas::Replies::insn_replies))]
pub fn insn_read_reply<A: Allocator>(
    alloc: A,
    to: Order,
    input: &[u8],
) -> Result<Vec<u8, A>, Outcome>
    requires { length input.now ≤ limit_of InsnRead }
    ensures { IsOutput (IsReadReply (limit_of InsnRead) to input.now) result }
{
    Ok(read_listing_bytes(alloc, to, input)?)
}

/// The names of the groups in a set, one per line.
fn group_lines<A: Allocator>(alloc: A, set: GroupSet) -> Result<Vec<u8, A>, AllocError>
    ensures { IfOk result (λ lines. lines.items ≡ spec.group_lines (holds set)) }
{
    let mut lines = Vec::new(alloc);
    for group in Group::ALL {
        if set.has(group) {
            lines.extend_from_slice(group.name().as_bytes())?;
            lines.push(b'\n')?;
        }
    }
    Ok(lines)
}

/// The reply of `insn-groups`.
#[tactic(auto, using(crate::proofs::CommandsLemmas::Replies::insn_replies))]
pub fn insn_groups_reply<A: Allocator>(
    alloc: A,
    order: Order,
    input: &[u8],
) -> Result<Vec<u8, A>, Outcome>
    requires { length input.now ≤ limit_of InsnGroups }
    ensures { IsOutput (IsGroupsReply (limit_of InsnGroups) order input.now) result }
{
    let groups = groups_in(order, input)?;
    Ok(group_lines(alloc, groups)?)
}

/// The line for a valid file, with its number of types.
fn count_line<A: Allocator>(alloc: A, count: u32) -> Result<Vec<u8, A>, AllocError>
    ensures { IfOk result (λ line. line.items ≡ btf_spec.count_line count) }
{
    let mut buffer = Buffer::new();
    let mut line = Vec::from_slice(alloc, b"ok ")?;
    line.extend_from_slice(buffer.format(count).as_bytes())?;
    line.extend_from_slice(b" types\n")?;
    Ok(line)
}

/// The reply of `btf-check`. `void` is not counted.
#[tactic(auto, using(crate::proofs::CommandsLemmas::Replies::btf_replies))]
pub fn btf_check_reply<A: Allocator + Copy>(alloc: A, input: &[u8]) -> Result<Vec<u8, A>, Outcome>
    requires { length input.now ≤ limit_of BtfCheck }
    ensures { IsOutput (IsBtfCheckReply (limit_of BtfCheck) input.now) result }
{
    let file = CheckedFile::check(alloc, input)?;
    Ok(count_line(alloc, file.count())?)
}
