//! Reads, lists and normalises eBPF instructions and BTF, from standard input to standard output.

#![tactic(auto)]

ghost use Rattle.std.specs.Prelude.{◌≡◌, ◌<◌, ◌++◌, codes, length, map, string_bytes};
ghost use Rattle.std.specs.Process.{exit_status};
ghost use Rattle.bpfcanon.specs.Devices.{sink_change, source_change};
ghost use Rattle.bpfcanon.specs.{Outcome.TookLine, Outcome.newline, Ends.EndsWith};

mod command;
mod commands;
mod job;
mod line;
mod outcome;
mod run;
#[cfg(test)]
mod tests;
mod verb;

use crate::outcome::report_line;
use bpf_canon::{ByteSink, ByteSource, ReaderSource, WriterSink};
use std::alloc::Global;
use std::env;
use std::process::ExitCode;

/// Reports a missing argument vector: the line `no words`, and status 3.
fn no_words<E: ByteSink>(faults: &mut E) -> ExitCode
    requires { E.failures faults.old < u64.MAX }
    ensures line { TookLine (sink_change E.ByteSink faults.old faults.new) (codes "no words"
        ++ newline) }
    ensures status { exit_status result ≡ 3 }
{
    report_line(faults, b"no words\n");
    ExitCode::from(3)
}

/// Runs a command line, and returns the exit status of the process.
fn run_words<S: ByteSource, W: ByteSink, E: ByteSink>(
    alloc: Global,
    words: &[String],
    source: &mut S,
    sink: &mut W,
    faults: &mut E,
) -> ExitCode
    requires words { 0 < length words.now }
    requires source { S.failures source.old < u64.MAX }
    requires sink { W.failures sink.old < u64.MAX }
    requires faults { E.failures faults.old < u64.MAX }
    ensures { EndsWith (map string_bytes words.now)
        (source_change S.ByteSource source.old source.new)
        (sink_change W.ByteSink sink.old sink.new)
        (sink_change E.ByteSink faults.old faults.new) (exit_status result) }
{
    ExitCode::from(command::command(alloc, words, source, sink, faults))
}

/// Runs the command line of the process. If the argument vector is empty, can't be read, or can't
/// be stored because memory ran out, writes the line `no words` to standard error and exits with
/// status 3.
fn main(rt: HostRuntime) -> ExitCode {
    let alloc = rt.alloc();
    let mut faults = WriterSink::new(rt.stderr());
    let words = match env::args(&rt).map(|args| args.collect::<Vec<String>>(alloc)) {
        Ok(Ok(words)) if !words.is_empty() => words,
        _ => return no_words(&mut faults),
    };
    let mut source = ReaderSource::new(rt.stdin());
    let mut sink = WriterSink::new(rt.stdout());
    run_words(alloc, words.as_slice(), &mut source, &mut sink, &mut faults)
}
