//! Runs a command line.

ghost use Rattle.std.specs.Prelude.{◌<◌, length, map, string_bytes};
ghost use Rattle.bpfcanon.specs.Devices.{sink_change, source_change};
ghost use Rattle.bpfcanon.specs.Ends.{Ends, EndsWith};

use crate::line::parse::{LineError, parse_line};
use crate::outcome::{Outcome, report_outcome};
use crate::run::run_job;
use bpf_canon::{ByteSink, ByteSource};
use std::alloc::Global;

/// Runs a command line with a source and an output sink.
fn run_line<S: ByteSource, W: ByteSink>(
    alloc: Global,
    words: &[String],
    source: &mut S,
    sink: &mut W,
) -> Outcome
    requires words { 0 < length words.now }
    requires source { S.failures source.old < u64.MAX }
    requires sink { W.failures sink.old < u64.MAX }
    ensures { Ends (map string_bytes words.now) (source_change S.ByteSource source.old source.new)
        (sink_change W.ByteSink sink.old sink.new) result }
{
    match parse_line(alloc, words) {
        Ok(job) => run_job(alloc, job, source, sink),
        Err(LineError::Usage) => Outcome::Usage,
        Err(LineError::Memory) => Outcome::Memory,
    }
}

/// Runs a command line with a source, an output sink and a fault sink, and returns the program's
/// exit status. The first argument is the program's name and is required.
///
/// | Status | When | Line on the fault sink |
/// |---|---|---|
/// | 0 | success, or two files are the same | none |
/// | 1 | two files are different | none |
/// | 1 | the input has a fault | `fault POS CAUSE`; after `first: ` or `second: ` for two files |
/// | 1 | a listing has a fault | `fault line N CAUSE` |
/// | 1 | the input is longer than the limit of the command | `too long` |
/// | 1 | `--split` is greater than the length of the input | `split beyond input` |
/// | 2 | the command line isn't valid, or asks for help | `usage: ..` |
/// | 3 | a device failed, or memory ran out | `read failed`, `write failed` or `no memory` |
///
/// If the input has a fault or is too long, or the split is beyond it, only `insn-canon` may have
/// written output. Failed writes to the fault sink change nothing else.
///
/// Before the call, each device must have failed fewer than `u64::MAX` times.
pub fn command<S: ByteSource, W: ByteSink, E: ByteSink>(
    alloc: Global,
    words: &[String],
    source: &mut S,
    sink: &mut W,
    faults: &mut E,
) -> u8
    requires words { 0 < length words.now }
    requires source { S.failures source.old < u64.MAX }
    requires sink { W.failures sink.old < u64.MAX }
    requires faults { E.failures faults.old < u64.MAX }
    ensures { EndsWith (map string_bytes words.now)
        (source_change S.ByteSource source.old source.new)
        (sink_change W.ByteSink sink.old sink.new)
        (sink_change E.ByteSink faults.old faults.new) result }
{
    let outcome = run_line(alloc, words, source, sink);
    let status = outcome.status();
    report_outcome(faults, outcome);
    status
}
