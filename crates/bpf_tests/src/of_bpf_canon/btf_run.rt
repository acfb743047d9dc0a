//! The engine on BTF over devices that move pieces, are about as long as the limit, and fail.

ghost use Rattle.std.specs.Prelude.{None, ℕ, List};

use super::btf_files::{BIG_INT, BtfFile, FAULTY, INT};
use super::expect::{equal, equal_bytes};
use super::fused_devices::{FusedDevices, Ran, front_of, stopped};
use super::limit::Counter;
use bpf_canon::{ByteSource, DeviceFailed, ReaderSource, RunCause, RunError, WriterSink, run_btf};
use bpf_words::Order;
use btf_raw::{BtfCause, BtfFault};
use std::alloc::Global;
use std::process::Abort;

const FAULT_OF_FAULTY: BtfFault = BtfFault {
    pos: 32,
    cause: BtfCause::Reference,
};

const SHORT_HEADER: BtfFault = BtfFault {
    pos: 0,
    cause: BtfCause::ShortHeader,
};

const MAGIC: BtfFault = BtfFault {
    pos: 0,
    cause: BtfCause::Magic,
};

/// The first 20 bytes of `INT`.
const INT_FRONT: &[u8] = b"\x9f\xeb\x01\0\x18\0\0\0\0\0\0\0\x10\0\0\0\x10\0\0\0";

/// Runs a file in pieces, and compares.
fn run_file(rt: &impl Abort, alloc: Global, file: &BtfFile, piece: usize) {
    let ended = Ok(file.canonical.len() as u64);
    let devices = FusedDevices::sound(file.bytes, piece);
    devices.check_btf(rt, alloc, Order::Little, ended, file.canonical, &file.name);
}

/// Runs a file in pieces of several lengths.
pub(crate) fn run_in_pieces(rt: &impl Abort, alloc: Global, file: &BtfFile) {
    for piece in [1usize, 3, 8, 5000] {
        run_file(rt, alloc, file, piece);
    }
}

/// A run, how it ends, and what the sink has received by then.
struct RunRow {
    name: &'static str,
    to: Order,
    devices: FusedDevices<'static>,
    ended: Ran<BtfFault>,
    taken: &'static [u8],
}

#[rattlefmt::skip]
static RUNS: [RunRow; 11] = [
    RunRow { name: "a little-endian file written in big-endian order", to: Order::Big, devices: FusedDevices { bytes: INT, read_piece: 7, read_fuse: None, write_piece: 7, write_fuse: None }, ended: Ok(45), taken: BIG_INT },
    RunRow { name: "a big-endian file written in its own order", to: Order::Big, devices: FusedDevices { bytes: BIG_INT, read_piece: 7, read_fuse: None, write_piece: 7, write_fuse: None }, ended: Ok(45), taken: BIG_INT },
    RunRow { name: "a sink that fails at its third write", to: Order::Little, devices: FusedDevices { bytes: BIG_INT, read_piece: 16, read_fuse: None, write_piece: 10, write_fuse: Some(3) }, ended: Err(RunError { cause: RunCause::WriteFailed, written: 20 }), taken: INT_FRONT },
    RunRow { name: "a sink that fails at once", to: Order::Little, devices: FusedDevices { bytes: BIG_INT, read_piece: 16, read_fuse: None, write_piece: 45, write_fuse: Some(1) }, ended: Err(RunError { cause: RunCause::WriteFailed, written: 0 }), taken: b"" },
    RunRow { name: "a fuse beyond the last write", to: Order::Little, devices: FusedDevices { bytes: BIG_INT, read_piece: 16, read_fuse: None, write_piece: 45, write_fuse: Some(2) }, ended: Ok(45), taken: INT },
    RunRow { name: "a source that fails at once", to: Order::Little, devices: FusedDevices { bytes: BIG_INT, read_piece: 45, read_fuse: Some(1), write_piece: 10, write_fuse: None }, ended: Err(RunError { cause: RunCause::ReadFailed, written: 0 }), taken: b"" },
    RunRow { name: "a fuse beyond the last read", to: Order::Little, devices: FusedDevices { bytes: BIG_INT, read_piece: 45, read_fuse: Some(3), write_piece: 10, write_fuse: None }, ended: Ok(45), taken: INT },
    RunRow { name: "a failed read, and a fault in what was read", to: Order::Little, devices: FusedDevices { bytes: FAULTY, read_piece: 37, read_fuse: Some(2), write_piece: 10, write_fuse: None }, ended: Err(RunError { cause: RunCause::ReadFailed, written: 0 }), taken: b"" },
    RunRow { name: "a fault where the source has ended", to: Order::Little, devices: FusedDevices { bytes: FAULTY, read_piece: 37, read_fuse: Some(3), write_piece: 10, write_fuse: None }, ended: Err(RunError { cause: RunCause::Fault(FAULT_OF_FAULTY), written: 0 }), taken: b"" },
    RunRow { name: "a fault before a write that would fail", to: Order::Little, devices: FusedDevices { bytes: FAULTY, read_piece: 16, read_fuse: None, write_piece: 10, write_fuse: Some(1) }, ended: Err(RunError { cause: RunCause::Fault(FAULT_OF_FAULTY), written: 0 }), taken: b"" },
    RunRow { name: "an empty input", to: Order::Little, devices: FusedDevices { bytes: b"", read_piece: 16, read_fuse: None, write_piece: 1, write_fuse: Some(1) }, ended: Err(RunError { cause: RunCause::Fault(SHORT_HEADER), written: 0 }), taken: b"" },
];

#[test]
fn devices_that_fail_stop_the_engine_on_btf(rt: HostRuntime) {
    for row in &RUNS {
        let devices = row.devices;
        devices.check_btf(&rt, rt.alloc(), row.to, row.ended, row.taken, &row.name);
    }
}

/// Runs a file of 45 bytes with these fuses of the source and the sink, and compares. What is written before the end is the front of
/// the canonical bytes.
fn run_fused(
    rt: &impl Abort,
    alloc: Global,
    fuses: (Option<u64>, Option<u64>),
    ended: Ran<BtfFault>,
) {
    let devices = FusedDevices {
        bytes: BIG_INT,
        read_piece: 5,
        read_fuse: fuses.0,
        write_piece: 1,
        write_fuse: fuses.1,
    };
    let taken = front_of(INT, &ended);
    devices.check_btf(rt, alloc, Order::Little, ended, taken, &fuses);
}

#[test]
fn each_failed_read_or_write_stops_the_engine_on_btf(rt: HostRuntime) {
    // Nine pieces and the end are read, and each byte is written.
    for fuse in 1..=10u64 {
        let wanted = stopped(RunCause::ReadFailed, 0);
        run_fused(&rt, rt.alloc(), (Some(fuse), None), wanted);
    }
    for fuse in 1..=45u64 {
        let wanted = stopped(RunCause::WriteFailed, fuse - 1);
        run_fused(&rt, rt.alloc(), (None, Some(fuse)), wanted);
    }
    run_fused(&rt, rt.alloc(), (Some(11), Some(46)), Ok(45));
}

/// Gives this number of zero bytes, of which `u64::MAX` never end.
#[derive(Drop)]
struct Zeros {
    left: u64,
}

impl ByteSource for Zeros {
    ghost remaining = { λ _. None };

    ghost failures = { λ _. 0 };

    fn read(&mut self, buffer: &mut [u8]) -> Result<usize, DeviceFailed> {
        let given = self.left.min(buffer.len() as u64);
        self.left = self.left.saturating_sub(given);
        buffer.fill(0);
        Ok(buffer.len().min(given as usize))
    }
}

#[test]
fn inputs_longer_than_any_btf_are_too_long(rt: HostRuntime) {
    for (left, cause) in [
        (50_335_744, RunCause::Fault(MAGIC)),
        (50_335_745, RunCause::TooLong),
        (u64::MAX, RunCause::TooLong),
    ] {
        let mut source = Zeros { left };
        let mut sink = Counter { taken: 0 };
        let ran = run_btf(rt.alloc(), &mut source, &mut sink, Order::Little);
        equal(&rt, &ran, &stopped(cause, 0), &left);
        equal(&rt, &sink.taken, &0, &left);
    }
}

#[test]
fn runs_btf_over_readers_and_writers(rt: HostRuntime) {
    let mut source = ReaderSource::new(BIG_INT);
    let mut out = Vec::new(rt.alloc());
    let mut sink = WriterSink::new(&mut out);
    let ran = run_btf(rt.alloc(), &mut source, &mut sink, Order::Little);
    equal(&rt, &ran, &Ok(45), &"a run");
    equal_bytes(&rt, out.as_slice(), INT, &"a run");
}
