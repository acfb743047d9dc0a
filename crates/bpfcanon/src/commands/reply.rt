//! Replies: output that is completed in memory before it is written.

ghost use Rattle.std.specs.Prelude.{◌<◌, ℕ, List};
ghost use Rattle.bpfcanon.specs.{declared.job.Job.Job, Devices.sink_change};
ghost use Rattle.bpfcanon.specs.commands.Pieces.{Answers, IsOutput, IsVerdict};
ghost use Rattle.bpfcanon.specs.commands.Reply.{IsReply};

use crate::outcome::Outcome;
use bpf_canon::{ByteSink, put_all};
use std::alloc::Allocator;

/// Writes an output. The outcome is `outcome`, unless a write fails.
fn put_output<W: ByteSink>(sink: &mut W, output: &[u8], outcome: Outcome) -> Outcome
    requires { W.failures sink.old < u64.MAX }
    ensures { (job : Job) (input : List ℕ) → IsReply job.verb job input outcome output.now
        → Answers job input (sink_change W.ByteSink sink.old sink.new) result }
{
    match put_all(sink, output) {
        Ok(()) => outcome,
        Err(_) => Outcome::WriteFailed,
    }
}

/// Writes the output of a command, or nothing if the command ends without output.
pub fn put_reply<A: Allocator, W: ByteSink>(
    reply: Result<Vec<u8, A>, Outcome>,
    sink: &mut W,
) -> Outcome
    requires { W.failures sink.old < u64.MAX }
    ensures { (job : Job) (input : List ℕ) → IsOutput (IsReply job.verb job input) reply
        → Answers job input (sink_change W.ByteSink sink.old sink.new) result }
{
    match reply {
        Ok(output) => put_output(sink, output.as_slice(), Outcome::Done),
        Err(outcome) => outcome,
    }
}

/// Writes `same` or `different`, if two files are valid.
pub fn put_verdict<W: ByteSink>(same: Result<bool, Outcome>, sink: &mut W) -> Outcome
    requires { W.failures sink.old < u64.MAX }
    ensures { (job : Job) (input : List ℕ) → IsVerdict (IsReply job.verb job input) same
        → Answers job input (sink_change W.ByteSink sink.old sink.new) result }
{
    match same {
        Ok(true) => put_output(sink, b"same\n", Outcome::Done),
        Ok(false) => put_output(sink, b"different\n", Outcome::Different),
        Err(outcome) => outcome,
    }
}
