//! Runs a job from a source to a sink.
//!
//! `insn-canon` and `btf-canon` are engines of `bpf_canon`, which read the source and write to the
//! sink themselves. For each other command the complete input is read here first, so a fault, or an
//! input that is too long, leaves the output empty.

ghost use Rattle.std.specs.Prelude.{◌≡◌, ◌<◌, ◌≤◌, length, false, IfErr, IfOk};
ghost use Rattle.bpfcanon.specs.Devices.{Change, IsUnused, sink_change, source_change};
ghost use Rattle.bpfcanon.specs.{JobEnds.EndsJob, commands.Pieces.Answers, commands.Pieces.IsInput};
ghost use Rattle.bpfcanon.specs.commands.Reply.{has_engine, limit_of};

use crate::commands::btf_show::put_btf_show;
use crate::commands::insn_show::put_insn_show;
use crate::commands::one_file::{btf_check_reply, insn_groups_reply, insn_read_reply};
use crate::commands::reply::{put_reply, put_verdict};
use crate::commands::two_files::{same_btf_files, same_insn_files};
use crate::job::Job;
use crate::outcome::Outcome;
use crate::verb::Verb;
use bpf_canon::{ByteSink, ByteSource, read_all, run_btf, run_insns};
use std::alloc::Allocator;

/// Reads the complete input of a command that has no engine.
///
/// # Errors
///
/// `TooLong` if the input is longer than the limit of the command, `ReadFailed` if a read fails,
/// and `Memory` if memory runs out. The job then ends before anything is written.
fn read_input<A: Allocator, S: ByteSource>(
    alloc: A,
    job: Job,
    source: &mut S,
) -> Result<Vec<u8, A>, Outcome>
    requires whole { has_engine job.verb ≡ false }
    requires source { S.failures source.old < u64.MAX }
    ensures input { IfOk result (λ input.
        IsInput job (source_change S.ByteSource source.old source.new) input.items) }
    ensures stopped { IfErr result (λ outcome. (sink : Change) → IsUnused sink
        → EndsJob job (source_change S.ByteSource source.old source.new) sink outcome) }
{
    Ok(read_all(alloc, source, job.verb.limit())?)
}

/// Writes the reply to a complete input.
fn answer<A: Allocator + Copy, W: ByteSink>(
    alloc: A,
    job: Job,
    input: &[u8],
    sink: &mut W,
) -> Outcome
    requires whole { has_engine job.verb ≡ false }
    requires within { length input.now ≤ limit_of job.verb }
    requires sink { W.failures sink.old < u64.MAX }
    ensures { Answers job input.now (sink_change W.ByteSink sink.old sink.new) result }
{
    match job.verb {
        Verb::InsnShow => put_insn_show(alloc, job, input, sink),
        Verb::InsnRead => put_reply(insn_read_reply(alloc, job.to, input), sink),
        Verb::InsnGroups => put_reply(insn_groups_reply(alloc, job.order, input), sink),
        Verb::InsnSame => put_verdict(same_insn_files(alloc, job, input), sink),
        Verb::BtfShow => put_btf_show(alloc, job, input, sink),
        Verb::BtfCheck => put_reply(btf_check_reply(alloc, input), sink),
        Verb::BtfSame => put_verdict(same_btf_files(alloc, job.split, input), sink),
        Verb::InsnCanon | Verb::BtfCanon => unreachable!(),
    }
}

/// Runs a job from a source to a sink, and returns how it ended.
///
/// If the outcome is a fault, `TooLong` or `SplitBeyond`, only `insn-canon` may have written
/// output. On `ReadFailed`, `WriteFailed` and `Memory` the output may be incomplete. Offsets in
/// faults are in bytes from the start of that file.
///
/// Before the call, each device must have failed fewer than `u64::MAX` times.
pub fn run_job<A: Allocator + Copy, S: ByteSource, W: ByteSink>(
    alloc: A,
    job: Job,
    source: &mut S,
    sink: &mut W,
) -> Outcome
    requires source { S.failures source.old < u64.MAX }
    requires sink { W.failures sink.old < u64.MAX }
    ensures { EndsJob job (source_change S.ByteSource source.old source.new)
        (sink_change W.ByteSink sink.old sink.new) result }
{
    match job.verb {
        Verb::InsnCanon => match run_insns(alloc, source, sink, job.order, job.to) {
            Ok(_) => Outcome::Done,
            Err(error) => Outcome::of_stop(error.cause, Outcome::Fault),
        },
        Verb::BtfCanon => match run_btf(alloc, source, sink, job.to) {
            Ok(_) => Outcome::Done,
            Err(error) => Outcome::of_stop(error.cause, Outcome::BtfFault),
        },
        _ => match read_input(alloc, job, source) {
            Ok(input) => answer(alloc, job, input.as_slice(), sink),
            Err(outcome) => outcome,
        },
    }
}
