//! Devices that fail at each of their calls in turn, for a line of each command.

use super::btf_files::{BIG_INT, INT, NO_TYPES, STRUCT, STRUCT_TEXT};
use super::expect::{holds, is_answer, is_failure};
use super::runner::{Pace, Ran, run, steady};
use std::alloc::{AllocError, Global};
use std::process::Abort;
use std::test::Fail;

/// A command line that succeeds, its input and its output.
#[derive(Clone, Copy)]
pub struct Sample {
    pub line: &'static str,
    pub input: &'static [u8],
    pub output: &'static [u8],
}

/// A line of each command, and another with the other byte order if the command accepts `--to`.
#[rattlefmt::skip]
pub fn samples() -> [&'static [Sample]; 2] {[&[
    Sample { line: "insn-canon", input: b"\x37\x01\x01\0\x03\0\0\0\xdb\x21\xf8\xff\xf1\0\0\0\x95\0\0\0\0\0\0\0", output: b"\x37\x01\x01\0\x03\0\0\0\xdb\x21\xf8\xff\xf1\0\0\0\x95\0\0\0\0\0\0\0" },
    Sample { line: "insn-canon --order big", input: b"\xbf\x12\0\0\0\0\0\0", output: b"\xbf\x21\0\0\0\0\0\0" },
    Sample { line: "insn-show", input: b"\x37\x01\x01\0\x03\0\0\0\xdb\x21\xf8\xff\xf1\0\0\0\x95\0\0\0\0\0\0\0", output: b"sdiv r1, 3\ncmpxchg [r1-8], r2\nexit\n" },
    Sample { line: "insn-show --order big", input: b"\xbf\x12\0\0\0\0\0\0", output: b"mov r1, r2\n" },
    Sample { line: "insn-read", input: b"sdiv r1, 3\ncmpxchg [r1-8], r2\nexit\n", output: b"\x37\x01\x01\0\x03\0\0\0\xdb\x21\xf8\xff\xf1\0\0\0\x95\0\0\0\0\0\0\0" },
    Sample { line: "insn-groups", input: b"\x37\x01\x01\0\x03\0\0\0\xdb\x21\xf8\xff\xf1\0\0\0\x95\0\0\0\0\0\0\0", output: b"base32\natomic32\natomic64\ndivmul32\ndivmul64\n" },
], &[
    Sample { line: "insn-same --split 0", input: b"", output: b"same\n" },
    Sample { line: "btf-canon", input: BIG_INT, output: INT },
    Sample { line: "btf-canon --to big", input: INT, output: BIG_INT },
    Sample { line: "btf-show", input: STRUCT, output: STRUCT_TEXT },
    Sample { line: "btf-check", input: NO_TYPES, output: b"ok 0 types\n" },
    Sample { line: "btf-same --split 25", input: b"\x9f\xeb\x01\0\x18\0\0\0\0\0\0\0\0\0\0\0\0\0\0\0\x01\0\0\0\0\x9f\xeb\x01\0\x18\0\0\0\0\0\0\0\0\0\0\0\0\0\0\0\x01\0\0\0\0", output: b"same\n" },
]]}

/// A device that fails.
#[derive(Clone, Copy)]
enum Device {
    Source,
    Sink,
}

/// How often a command calls a device that moves one byte at a time. One more read finds the end.
fn calls(sample: Sample, device: Device) -> usize {
    match device {
        Device::Source => sample.input.len().saturating_add(1),
        Device::Sink => sample.output.len(),
    }
}

/// How much of the output is written if so many calls of a device succeed, which moves one byte at a time.
fn written_after(sample: Sample, device: Device, calls: usize) -> usize {
    match device {
        Device::Sink => calls,
        // the 8-byte instructions that were read
        Device::Source if sample.line.starts_with("insn-canon") => calls / 8 * 8,
        Device::Source => 0,
    }
}

/// Whether a command failed after so many calls of a device that succeeded, or was complete.
fn is_right(ran: &Ran, sample: Sample, device: Device, done: usize) -> bool {
    if done == calls(sample, device) {
        return is_answer(ran, 0, sample.output, b"");
    }
    let fault: &[u8] = match device {
        Device::Source => b"read failed\n",
        Device::Sink => b"write failed\n",
    };
    is_failure(
        ran,
        fault,
        sample.output,
        written_after(sample, device, done),
    )
}

/// Lets a device fail at each of its calls, and at the one after the last.
fn check_device(
    rt: &impl Abort,
    alloc: Global,
    sample: Sample,
    device: Device,
) -> Result<(), AllocError> {
    for done in 0..=calls(sample, device) {
        let fuse = Some((done as u64).saturating_add(1));
        let pace = match device {
            Device::Source => Pace {
                read_fuse: fuse,
                ..steady(1)
            },
            Device::Sink => Pace {
                write_fuse: fuse,
                ..steady(1)
            },
        };
        let ran = run(alloc, sample.line, sample.input, pace)?;
        holds(
            rt,
            is_right(&ran, sample, device, done),
            (sample.line, done),
        );
    }
    Ok(())
}

/// Lets each device of each sample fail.
fn check_samples(rt: &impl Abort, alloc: Global, rows: &[Sample]) -> Result<(), AllocError> {
    for sample in rows {
        check_device(rt, alloc, *sample, Device::Source)?;
        check_device(rt, alloc, *sample, Device::Sink)?;
    }
    Ok(())
}

#[test]
fn each_read_and_each_write_fails(rt: HostRuntime) -> Result<(), Fail> {
    for rows in samples() {
        check_samples(&rt, rt.alloc(), rows)?;
    }
    Ok(())
}

// A fault sink that fails receives a prefix of its message, and changes nothing else.
#[test]
fn the_fault_sink_fails(rt: HostRuntime) -> Result<(), Fail> {
    let input = b"\x95\0\0\0\0\0\0\0\x04\x10\0\0\x05\0\0\0";
    let line = b"fault 9 Src\n";
    for taken in 0..line.len() {
        let pace = Pace {
            fault_fuse: Some((taken as u64).saturating_add(1)),
            ..steady(1)
        };
        let ran = run(rt.alloc(), "insn-canon", input, pace)?;
        let is_right = is_answer(&ran, 1, b"\x95\0\0\0\0\0\0\0", &line[..taken]);
        holds(&rt, is_right, ("the fault sink", taken));
    }
    Ok(())
}

/// A read that fails, the second one, and what is reported.
#[derive(Clone, Copy)]
struct SecondRead {
    input: &'static [u8],
    piece: usize,
    status: u8,
    fault: &'static [u8],
}

/// A fault in a complete slot is reported before a failed read, and a truncated end is not.
#[rattlefmt::skip]
static SECOND_READS: [SecondRead; 3] = [
    SecondRead { input: b"\x95\0\0\0\0\0\0\0\x04\x10\0\0\x05\0\0\0", piece: 16, status: 1, fault: b"fault 9 Src\n" },
    SecondRead { input: b"\x95\0\0\0\0\0\0\0\x04\x10\0\0\x05\0\0\0", piece: 8, status: 3, fault: b"read failed\n" },
    SecondRead { input: b"\x18\x01\0\0\x88\x77\x66\x55", piece: 8, status: 3, fault: b"read failed\n" },
];

#[test]
fn faults_come_before_failed_reads(rt: HostRuntime) -> Result<(), Fail> {
    for read in SECOND_READS {
        let pace = Pace {
            read_fuse: Some(2),
            ..steady(read.piece)
        };
        let ran = run(rt.alloc(), "insn-canon", read.input, pace)?;
        let is_right = ran.status == read.status && ran.faults.as_slice() == read.fault;
        holds(&rt, is_right, ("the second read", read.piece));
    }
    Ok(())
}
