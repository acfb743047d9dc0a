//! `insn-same` and `btf-same`: whether two files have the same instructions or types.
//!
//! The command has one input, which contains both files; `--split` is the length of the first. The
//! limit of the input is twice that of one file, and the two may divide it in any way. `same_insns`
//! and `same_btf` of `bpf_canon` compare them; here the side that a fault is on becomes an outcome,
//! for the line that reports it.

ghost use Rattle.std.specs.Prelude.{◌≡◌, ◌<◌, ◌≤◌, drop, length, take, IfSome, IsNone};
ghost use Rattle.bpfcanon.specs.declared.verb.Verb.TheVariants.{BtfSame, InsnSame};
ghost use Rattle.bpfcanon.specs.commands.{BtfReply.IsBtfSameReply, Pieces.IsVerdict};
ghost use Rattle.bpfcanon.specs.commands.Reply.{IsSameReply, limit_of};

use crate::job::Job;
use crate::outcome::Outcome;
use bpf_canon::{same_btf, same_insns};
use std::alloc::Allocator;

/// Splits an input after its first `split` bytes. `None` if the input is shorter.
fn two_files(input: &[u8], split: u64) -> Option<(&[u8], &[u8])>
    ensures files { IfSome result (λ files. (split ≤ length input.now)
        × (files.0.now ≡ take split input.now) × (files.1.now ≡ drop split input.now)) }
    ensures beyond { IsNone result → length input.now < split }
{
    input.split_at_checked(split as usize)
}

/// The answer of `insn-same`. The byte orders of the two files are independent.
#[tactic(auto, using(crate::proofs::CommandsLemmas::Replies::insn_same_replies))]
pub fn same_insn_files<A: Allocator + Copy>(
    alloc: A,
    job: Job,
    input: &[u8],
) -> Result<bool, Outcome>
    requires { length input.now ≤ limit_of InsnSame }
    ensures { IsVerdict
        (IsSameReply (limit_of InsnSame) job.order job.other job.split input.now) result }
{
    let (first, second) = two_files(input, job.split).ok_or(Outcome::SplitBeyond)?;
    Ok(same_insns(alloc, job.order, first, job.other, second)?)
}

/// The answer of `btf-same`. The magic in each header shows the byte order of the file.
#[tactic(auto, using(crate::proofs::CommandsLemmas::Replies::btf_same_replies))]
pub fn same_btf_files<A: Allocator + Copy>(
    alloc: A,
    split: u64,
    input: &[u8],
) -> Result<bool, Outcome>
    requires { length input.now ≤ limit_of BtfSame }
    ensures { IsVerdict (IsBtfSameReply (limit_of BtfSame) split input.now) result }
{
    let (first, second) = two_files(input, split).ok_or(Outcome::SplitBeyond)?;
    Ok(same_btf(alloc, first, second)?)
}
