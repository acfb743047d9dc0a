//! The devices of a run of an engine, over memory.

use super::expect::{equal, equal_bytes};
use bpf_canon::{MemSink, MemSource, RunCause, RunError, run_btf, run_insns};
use bpf_insn::{Order, SlotFault};
use btf_raw::BtfFault;
use std::alloc::Global;
use std::fmt::Debug;
use std::process::Abort;

/// How a run ends: with the number of bytes that it has written, or with why it stopped.
pub(crate) type Ran<F> = Result<u64, RunError<F>>;

/// A run that stops.
pub(crate) fn stopped<F>(cause: RunCause<F>, written: u64) -> Ran<F> {
    Err(RunError { cause, written })
}

/// How many bytes a run wrote, by how it ended.
pub(crate) fn written_by<F>(ended: &Ran<F>) -> u64 {
    match ended {
        Ok(written) => *written,
        Err(stop) => stop.written,
    }
}

/// The front of these bytes that a run wrote.
pub(crate) fn front_of<'a, F>(bytes: &'a [u8], ended: &Ran<F>) -> &'a [u8] {
    bytes.get(..written_by(ended) as usize).unwrap_or(&[])
}

/// A source over bytes, and a sink that stores all, each in pieces. The call of either that its fuse
/// counts, from 1, fails. Each piece has a byte at least.
#[derive(Clone, Copy)]
pub(crate) struct FusedDevices<'a> {
    pub(crate) bytes: &'a [u8],
    pub(crate) read_piece: usize,
    pub(crate) read_fuse: Option<u64>,
    pub(crate) write_piece: usize,
    pub(crate) write_fuse: Option<u64>,
}

impl<'a> FusedDevices<'a> {
    /// Devices that don't fail.
    pub(crate) fn sound(bytes: &'a [u8], piece: usize) -> FusedDevices<'a> {
        FusedDevices {
            bytes,
            read_piece: piece,
            read_fuse: None,
            write_piece: piece,
            write_fuse: None,
        }
    }

    /// Runs the engine on instructions, and compares how it ends and what the sink has received by then.
    pub(crate) fn check_insns(
        self,
        rt: &impl Abort,
        alloc: Global,
        (order, to): (Order, Order),
        ended: Ran<SlotFault>,
        taken: &[u8],
        case: &impl Debug,
    ) {
        let mut source = MemSource::new(self.bytes, self.read_piece.max(1), self.read_fuse);
        let mut out = Vec::new(alloc);
        let mut sink = MemSink::new(&mut out, self.write_piece.max(1), self.write_fuse);
        let ran = run_insns(alloc, &mut source, &mut sink, order, to);
        equal(rt, &ran, &ended, case);
        equal_bytes(rt, out.as_slice(), taken, case);
    }

    /// Runs the engine on BTF, and compares likewise.
    pub(crate) fn check_btf(
        self,
        rt: &impl Abort,
        alloc: Global,
        to: Order,
        ended: Ran<BtfFault>,
        taken: &[u8],
        case: &impl Debug,
    ) {
        let mut source = MemSource::new(self.bytes, self.read_piece.max(1), self.read_fuse);
        let mut out = Vec::new(alloc);
        let mut sink = MemSink::new(&mut out, self.write_piece.max(1), self.write_fuse);
        let ran = run_btf(alloc, &mut source, &mut sink, to);
        equal(rt, &ran, &ended, case);
        equal_bytes(rt, out.as_slice(), taken, case);
    }
}
