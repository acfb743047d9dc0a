//! The engine on instructions over devices that move pieces, and fail.

use super::expect::{equal, equal_bytes};
use super::fused_devices::{FusedDevices, Ran, front_of, stopped};
use super::samples::{EXIT, FAULT_OF_FAULTY, FAULTY, InsnFile};
use bpf_canon::{ReaderSource, RunCause, RunError, WriterSink, run_insns};
use bpf_insn::{Order, SlotFault};
use std::alloc::Global;
use std::process::Abort;

/// Runs a file in pieces, and compares.
fn run_file(rt: &impl Abort, alloc: Global, file: &InsnFile, piece: usize) {
    let written = file.canonical.len() as u64;
    let ended = match file.fault {
        None => Ok(written),
        Some((pos, cause)) => stopped(RunCause::Fault(SlotFault { pos, cause }), written),
    };
    let devices = FusedDevices::sound(file.bytes, piece);
    let orders = (file.order, Order::Little);
    devices.check_insns(rt, alloc, orders, ended, file.canonical, &file.bytes);
}

/// Runs a file in pieces of several lengths.
pub(crate) fn run_in_pieces(rt: &impl Abort, alloc: Global, file: &InsnFile) {
    for piece in [1usize, 3, 8, 5000] {
        run_file(rt, alloc, file, piece);
    }
}

const LITTLE_MOVE32: &[u8] = b"\xb4\x01\0\0\x07\0\0\0";

const BIG_MOVE32: &[u8] = b"\xb4\x10\0\0\0\0\0\x07";

const TWO_EXITS: &[u8] = b"\x95\0\0\0\0\0\0\0\x95\0\0\0\0\0\0\0";

/// The first slot of a wide load.
const HALF: &[u8] = b"\x18\x01\0\0\x88\x77\x66\x55";

/// A run from little-endian byte order, how it ends, and what the sink has received by then.
struct RunRow {
    name: &'static str,
    to: Order,
    devices: FusedDevices<'static>,
    ended: Ran<SlotFault>,
    taken: &'static [u8],
}

#[rattlefmt::skip]
static RUNS: [RunRow; 10] = [
    RunRow { name: "written in big-endian order", to: Order::Big, devices: FusedDevices { bytes: LITTLE_MOVE32, read_piece: 5, read_fuse: None, write_piece: 5, write_fuse: None }, ended: Ok(8), taken: BIG_MOVE32 },
    RunRow { name: "a sink that fails at its third byte", to: Order::Little, devices: FusedDevices { bytes: EXIT, read_piece: 16, read_fuse: None, write_piece: 1, write_fuse: Some(3) }, ended: Err(RunError { cause: RunCause::WriteFailed, written: 2 }), taken: b"\x95\0" },
    RunRow { name: "a source that fails after an instruction", to: Order::Little, devices: FusedDevices { bytes: TWO_EXITS, read_piece: 8, read_fuse: Some(2), write_piece: 16, write_fuse: None }, ended: Err(RunError { cause: RunCause::ReadFailed, written: 8 }), taken: EXIT },
    RunRow { name: "a source that fails at once", to: Order::Little, devices: FusedDevices { bytes: TWO_EXITS, read_piece: 8, read_fuse: Some(1), write_piece: 16, write_fuse: None }, ended: Err(RunError { cause: RunCause::ReadFailed, written: 0 }), taken: b"" },
    RunRow { name: "a fault before a failed read", to: Order::Little, devices: FusedDevices { bytes: FAULTY, read_piece: 16, read_fuse: Some(2), write_piece: 16, write_fuse: None }, ended: Err(RunError { cause: RunCause::Fault(FAULT_OF_FAULTY), written: 8 }), taken: EXIT },
    RunRow { name: "a failed read before the faulty slot", to: Order::Little, devices: FusedDevices { bytes: FAULTY, read_piece: 8, read_fuse: Some(2), write_piece: 16, write_fuse: None }, ended: Err(RunError { cause: RunCause::ReadFailed, written: 8 }), taken: EXIT },
    RunRow { name: "half a wide load before a failed read", to: Order::Little, devices: FusedDevices { bytes: HALF, read_piece: 8, read_fuse: Some(2), write_piece: 16, write_fuse: None }, ended: Err(RunError { cause: RunCause::ReadFailed, written: 0 }), taken: b"" },
    RunRow { name: "a fuse beyond the last read", to: Order::Little, devices: FusedDevices { bytes: TWO_EXITS, read_piece: 16, read_fuse: Some(3), write_piece: 16, write_fuse: None }, ended: Ok(16), taken: TWO_EXITS },
    RunRow { name: "a sink that fails at the instruction before a fault", to: Order::Little, devices: FusedDevices { bytes: FAULTY, read_piece: 16, read_fuse: None, write_piece: 16, write_fuse: Some(1) }, ended: Err(RunError { cause: RunCause::WriteFailed, written: 0 }), taken: b"" },
    RunRow { name: "a fuse beyond the last write", to: Order::Little, devices: FusedDevices { bytes: TWO_EXITS, read_piece: 16, read_fuse: None, write_piece: 16, write_fuse: Some(2) }, ended: Ok(16), taken: TWO_EXITS },
];

#[test]
fn devices_that_fail_stop_the_engine(rt: HostRuntime) {
    for row in &RUNS {
        let orders = (Order::Little, row.to);
        let devices = row.devices;
        devices.check_insns(&rt, rt.alloc(), orders, row.ended, row.taken, &row.name);
    }
}

/// A file whose run makes this number of reads and of writes, if no device fails. An instruction is 8 bytes long.
struct Calls {
    bytes: &'static [u8],
    canonical: &'static [u8],
    order: Order,
    read_piece: usize,
    reads: u64,
    write_piece: usize,
    writes: u64,
}

#[rattlefmt::skip]
static CALLS: [Calls; 2] = [
    Calls { bytes: b"\x95\0\0\0\0\0\0\0\x95\0\0\0\0\0\0\0\x95\0\0\0\0\0\0\0", canonical: b"\x95\0\0\0\0\0\0\0\x95\0\0\0\0\0\0\0\x95\0\0\0\0\0\0\0", order: Order::Little, read_piece: 5, reads: 6, write_piece: 1, writes: 24 },
    Calls { bytes: b"\xbf\x12\0\0\0\0\0\0", canonical: b"\xbf\x21\0\0\0\0\0\0", order: Order::Big, read_piece: 1, reads: 9, write_piece: 1, writes: 8 },
];

/// Runs the file with these fuses of the source and the sink, and compares. What is written before the end is the front of the
/// canonical bytes.
fn run_fused(
    rt: &impl Abort,
    alloc: Global,
    row: &Calls,
    (read_fuse, write_fuse): (Option<u64>, Option<u64>),
    ended: Ran<SlotFault>,
) {
    let devices = FusedDevices {
        bytes: row.bytes,
        read_piece: row.read_piece,
        read_fuse,
        write_piece: row.write_piece,
        write_fuse,
    };
    let orders = (row.order, Order::Little);
    let taken = front_of(row.canonical, &ended);
    devices.check_insns(rt, alloc, orders, ended, taken, &(read_fuse, write_fuse));
}

#[test]
fn each_failed_read_or_write_stops_the_engine(rt: HostRuntime) {
    for row in &CALLS {
        let len = row.bytes.len() as u64;
        for fuse in 1..=row.reads {
            let read = fuse.saturating_sub(1).saturating_mul(row.read_piece as u64);
            let whole = read.min(len) / 8 * 8;
            let wanted = stopped(RunCause::ReadFailed, whole);
            run_fused(&rt, rt.alloc(), row, (Some(fuse), None), wanted);
        }
        for fuse in 1..=row.writes {
            let wanted = stopped(RunCause::WriteFailed, fuse.saturating_sub(1));
            run_fused(&rt, rt.alloc(), row, (None, Some(fuse)), wanted);
        }
        let beyond = (
            Some(row.reads.saturating_add(1)),
            Some(row.writes.saturating_add(1)),
        );
        run_fused(&rt, rt.alloc(), row, beyond, Ok(len));
    }
}

#[test]
fn runs_over_readers_and_writers(rt: HostRuntime) {
    let mut source = ReaderSource::new(FAULTY);
    let mut out = Vec::new(rt.alloc());
    let mut sink = WriterSink::new(&mut out);
    let order = Order::Little;
    let ran = run_insns(rt.alloc(), &mut source, &mut sink, order, order);
    let faulty = stopped(RunCause::Fault(FAULT_OF_FAULTY), 8);
    equal(&rt, &ran, &faulty, &"a run");
    equal_bytes(&rt, out.as_slice(), EXIT, &"a run");
}
