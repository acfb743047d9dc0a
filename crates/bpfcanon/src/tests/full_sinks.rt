//! Sinks that run out of memory: the vector of one is in an arena that has one free byte more each time.

use super::arena::arena;
use super::btf_files::{INT, UNKNOWN_TYPE};
use super::devices::{Sample, samples};
use super::expect::{holds, is_answer, is_failure};
use super::runner::{Pace, Ran, Row, status_of, steady};
use std::alloc::{AllocError, Global};
use std::process::Abort;
use std::test::Fail;

/// The most free bytes of a sink: more than any message and any output of a sample needs.
const MOST_CAPACITY: usize = 512;

/// Runs a command line whose sinks have this many free bytes. They accept one byte at a time, so their vectors grow more than once.
fn run_into(
    alloc: Global,
    line: &str,
    input: &[u8],
    (capacity, fault_capacity): (usize, usize),
) -> Result<Ran, AllocError> {
    let bump = arena(alloc, MOST_CAPACITY, capacity)?;
    let fault_bump = arena(alloc, MOST_CAPACITY, fault_capacity)?;
    let mut output = Vec::new(&bump);
    let mut faults = Vec::new(&fault_bump);
    let pace = Pace {
        read: 4096,
        ..steady(1)
    };
    let status = status_of(alloc, (line, input), pace, &mut output, &mut faults)?;
    Ok(Ran {
        status,
        output: Vec::from_slice(alloc, &output)?,
        faults: Vec::from_slice(alloc, &faults)?,
    })
}

/// Whether a sink has received the whole output of a sample, or a prefix of it and the command says so.
fn is_right(ran: &Ran, sample: &Sample) -> bool {
    let taken = ran.output.len();
    if taken == sample.output.len() {
        return is_answer(ran, 0, sample.output, b"");
    }
    is_failure(ran, b"write failed\n", sample.output, taken)
}

/// A sink without enough memory has received a prefix of the output, and with more memory no less of it.
fn check_sink(rt: &impl Abort, alloc: Global, sample: &Sample) -> Result<(), AllocError> {
    let mut before = 0;
    for capacity in 0..=MOST_CAPACITY {
        let ran = run_into(alloc, sample.line, sample.input, (capacity, MOST_CAPACITY))?;
        let taken = ran.output.len();
        let is_right = is_right(&ran, sample) && before <= taken && taken <= capacity;
        holds(rt, is_right, (sample.line, capacity));
        before = taken;
    }
    holds(rt, before == sample.output.len(), (sample.line, before));
    Ok(())
}

/// Checks the sink of each sample.
fn check_samples(rt: &impl Abort, alloc: Global, rows: &[Sample]) -> Result<(), AllocError> {
    for sample in rows {
        check_sink(rt, alloc, sample)?;
    }
    Ok(())
}

#[test]
fn the_output_sink_runs_out_of_memory(rt: HostRuntime) -> Result<(), Fail> {
    for rows in samples() {
        check_samples(&rt, rt.alloc(), rows)?;
    }
    Ok(())
}

/// Messages: a fault after some output, a BTF fault, a split, and a command line that is refused.
#[rattlefmt::skip]
static REPORTS: [Row; 4] = [
    Row { name: "a fault", line: "insn-canon", input: b"\x95\0\0\0\0\0\0\0\x04\x10\0\0\x05\0\0\0", status: 1, output: b"\x95\0\0\0\0\0\0\0", fault: "fault 9 Src\n" },
    Row { name: "a fault of BTF", line: "btf-check", input: UNKNOWN_TYPE, status: 1, output: b"", fault: "fault 32 Reference\n" },
    Row { name: "a split", line: "btf-same --split 46", input: INT, status: 1, output: b"", fault: "split beyond input\n" },
    Row { name: "a refused line", line: "insn-canon --order middle", input: b"", status: 2, output: b"", fault: "usage: bpfcanon COMMAND [--order little|big] [--to little|big] [--other little|big] [--split N]\n" },
];

/// A fault sink without enough memory has received a prefix of the message, and changes nothing else.
fn check_fault_sink(rt: &impl Abort, alloc: Global, row: &Row) -> Result<(), AllocError> {
    let fault = row.fault.as_bytes();
    let mut before = 0;
    for capacity in 0..=MOST_CAPACITY {
        let ran = run_into(alloc, row.line, row.input, (MOST_CAPACITY, capacity))?;
        let taken = ran.faults.len().min(fault.len());
        let is_right = is_answer(&ran, row.status, row.output, &fault[..taken]);
        holds(
            rt,
            is_right && before <= taken && taken <= capacity,
            (row.name, capacity),
        );
        before = taken;
    }
    holds(rt, before == fault.len(), (row.name, before));
    Ok(())
}

#[test]
fn the_fault_sink_runs_out_of_memory(rt: HostRuntime) -> Result<(), Fail> {
    for row in &REPORTS {
        check_fault_sink(&rt, rt.alloc(), row)?;
    }
    // without memory for output or for the message that says so
    let ran = run_into(rt.alloc(), "insn-canon", b"\x95\0\0\0\0\0\0\0", (0, 0))?;
    holds(&rt, is_answer(&ran, 3, b"", b""), ("no room", 0));
    Ok(())
}
