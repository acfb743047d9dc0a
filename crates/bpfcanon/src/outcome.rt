//! How a command ends: its status, and the line that it reports on the fault sink.

ghost use Rattle.std.specs.{Prelude.◌≡◌, Prelude.◌<◌, List.flat_map};
ghost use Rattle.bpfcanon.specs.{Devices.sink_change, JobEnds.IsEndOfStop};
ghost use Rattle.bpfcanon.specs.Outcome.{TookLine, fault_line, report_of, status_of};

use bpf_canon::{ByteSink, RunCause, put_all};
use bpf_insn::SlotFault;
use bpf_text::LineFault;
use btf_raw::BtfFault;
use itoa::Buffer;

/// How a command ends.
#[derive(Clone, Copy, Debug, PartialEq, Eq)]
pub enum Outcome {
    /// The output is complete, or two files are the same.
    Done,
    /// Two files are different.
    Different,
    /// The instructions of the input have a fault: its byte offset and cause.
    Fault(SlotFault),
    /// The listing has a faulty line: its number, counted from 1, and the cause.
    FaultyLine(LineFault),
    /// The first of two files has a fault.
    First(SlotFault),
    /// The second of two files has a fault, and the first has none.
    Second(SlotFault),
    /// The input isn't valid BTF: the byte offset and cause of its fault.
    BtfFault(BtfFault),
    /// The first of two BTF files has a fault.
    FirstBtf(BtfFault),
    /// The second of two BTF files has a fault, and the first has none.
    SecondBtf(BtfFault),
    /// The input is longer than the limit of the command.
    TooLong,
    /// `--split` is greater than the length of the input.
    SplitBeyond,
    /// The command line isn't valid, or it asks for help.
    Usage,
    /// A read failed.
    ReadFailed,
    /// A write failed.
    WriteFailed,
    /// Out of memory.
    Memory,
}

impl Outcome {
    /// The outcome of a job whose engine stopped early. `fault` wraps a fault of the input.
    pub fn of_stop<F, M: FnOnce(F) -> Outcome + Drop>(cause: RunCause<F>, fault: M) -> Outcome
        requires { M.IsAlwaysCallable fault }
        ensures { IsEndOfStop (M.post fault) cause result }
    {
        match cause {
            RunCause::Fault(found) => fault(found),
            RunCause::TooLong => Outcome::TooLong,
            RunCause::ReadFailed => Outcome::ReadFailed,
            RunCause::WriteFailed => Outcome::WriteFailed,
            RunCause::Memory => Outcome::Memory,
        }
    }

    /// The exit status of the program: 0, 1, 2 or 3.
    pub fn status(self) -> u8
        ensures { result ≡ status_of self }
    {
        match self {
            Outcome::Done => 0,
            Outcome::Usage => 2,
            Outcome::ReadFailed | Outcome::WriteFailed | Outcome::Memory => 3,
            _ => 1,
        }
    }
}

/// Writes the parts of a line in order, until a write fails.
fn report_parts<E: ByteSink>(faults: &mut E, parts: &[&[u8]])
    requires { E.failures faults.old < u64.MAX }
    ensures { TookLine (sink_change E.ByteSink faults.old faults.new) (flat_map (λ p.
        p.now) parts.now) }
{
    for part in parts {
        if put_all(faults, part).is_err() {
            return;
        }
    }
}

/// Writes a line, until a write fails.
#[tactic(auto, using(crate::proofs::OutcomeLemmas::took_line))]
pub fn report_line<E: ByteSink>(faults: &mut E, line: &[u8])
    requires { E.failures faults.old < u64.MAX }
    ensures { TookLine (sink_change E.ByteSink faults.old faults.new) line.now }
{
    let _ = put_all(faults, line);
}

/// Writes the line of a fault: how it starts, a byte offset or the number of a line, and the name
/// of the cause.
fn report_fault<E: ByteSink>(
    faults: &mut E,
    start: &'static [u8],
    position: u64,
    cause: &'static str,
)
    requires { E.failures faults.old < u64.MAX }
    ensures { TookLine (sink_change E.ByteSink faults.old faults.new)
        (fault_line start.now position cause.now) }
{
    let mut buffer = Buffer::new();
    let digits = buffer.format(position).as_bytes();
    let parts: [&[u8]; 5] = [start, digits, b" ", cause.as_bytes(), b"\n"];
    report_parts(faults, parts.as_slice());
}

/// Writes the line of an outcome, if it has one. It allocates nothing, so that it can report that
/// memory ran out. If a write fails, the rest of the line is left out.
#[cold]
#[inline(never)]
pub fn report_outcome<E: ByteSink>(faults: &mut E, outcome: Outcome)
    requires { E.failures faults.old < u64.MAX }
    ensures { TookLine (sink_change E.ByteSink faults.old faults.new) (report_of outcome) }
{
    match outcome {
        Outcome::Done | Outcome::Different => {}
        Outcome::Fault(f) => report_fault(faults, b"fault ", f.pos, f.cause.name()),
        Outcome::FaultyLine(f) => report_fault(faults, b"fault line ", f.line, f.cause.name()),
        Outcome::First(f) => report_fault(faults, b"first: fault ", f.pos, f.cause.name()),
        Outcome::Second(f) => report_fault(faults, b"second: fault ", f.pos, f.cause.name()),
        Outcome::BtfFault(f) => report_fault(faults, b"fault ", f.pos, f.cause.name()),
        Outcome::FirstBtf(f) => report_fault(faults, b"first: fault ", f.pos, f.cause.name()),
        Outcome::SecondBtf(f) => report_fault(faults, b"second: fault ", f.pos, f.cause.name()),
        Outcome::TooLong => report_line(faults, b"too long\n"),
        Outcome::SplitBeyond => report_line(faults, b"split beyond input\n"),
        Outcome::Usage => report_line(
            faults,
            b"usage: bpfcanon COMMAND [--order little|big] [--to little|big] [--other little|big] [--split N]\n",
        ),
        Outcome::ReadFailed => report_line(faults, b"read failed\n"),
        Outcome::WriteFailed => report_line(faults, b"write failed\n"),
        Outcome::Memory => report_line(faults, b"no memory\n"),
    }
}
