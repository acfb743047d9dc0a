//! In-memory devices, which read and write in pieces and fail from a chosen call on.

ghost use Rattle.std.specs.Prelude.{◌≡◌, ◌≢◌, ◌<◌, ◌-◌, ◌↔◌, Some, length, min, option_map};
ghost use Rattle.std.specs.Prelude.{IsErr, IsOk, IfOk};
ghost use Rattle.std.specs.Io.{ReadsAtMost, WritesAtMost};
ghost use Rattle.std.specs.Io.KnownBytes.{ReadConsumes, WriteAppends};
ghost use Rattle.bpf_canon.specs.device.Device.{CountsFailure};

use crate::device::{ByteSink, ByteSource, DeviceFailed};
use std::alloc::{Allocator, Global};
use std::fmt;

/// One call fewer that still succeeds, if not all do.
fn one_fewer(good_calls: Option<u64>) -> Option<u64>
    ensures { result ≡ option_map (λ n. n - 1) good_calls }
{
    good_calls.map(|n| n.saturating_sub(1))
}

/// A source over a slice, which returns at most one piece per read.
#[derive(Debug, Drop)]
pub struct MemSource<'a> {
    rest: &'a [u8],
    piece: usize,
    /// The number of reads that still succeed, if not all do.
    good_reads: Option<u64>,
    failed_reads: u64,
    ghost positive: { 0 < piece },
}

impl<'a> MemSource<'a> {
    ghost use Rattle.bpf_canon.specs.device.Memory.{source_bytes, source_failures, source_pace};
    ghost use Rattle.bpf_canon.specs.device.Memory.{new_pace};

    /// Creates a source that returns `piece` bytes per read, which must be more than 0, and fewer
    /// only if the buffer or the rest is shorter. Every read from number `fuse` on, counted from 1,
    /// fails; with `None` no read fails.
    pub fn new(bytes: &'a [u8], piece: usize, fuse: Option<u64>) -> MemSource<'a>
        requires { 0 < piece }
        ensures pace { source_pace result ≡ new_pace piece fuse }
        ensures bytes { source_bytes result ≡ bytes.entry.now }
        ensures healthy { source_failures result ≡ 0 }
    {
        MemSource {
            rest: bytes,
            piece,
            good_reads: one_fewer(fuse),
            failed_reads: 0,
        }
    }
}

impl ByteSource for MemSource<'_> {
    ghost use Rattle.bpf_canon.specs.device.Memory.{source_bytes, source_failures, source_pace};
    ghost use Rattle.bpf_canon.specs.device.Memory.{next_pace};

    ghost remaining = { λ s. Some (source_bytes s) };

    ghost failures = { λ s. source_failures s };

    fn read(&mut self, buffer: &mut [u8]) -> Result<usize, DeviceFailed>
        requires { source_failures self.old < u64.MAX }
        ensures bound { ReadsAtMost result buffer.new }
        ensures bytes { ReadConsumes (Some (source_bytes self.old))
            (Some (source_bytes self.new)) result buffer.new }
        ensures count { CountsFailure (source_failures self.old) (source_failures self.new) result }

        ensures fails { IsErr result ↔ ((source_pace self.old).good_calls ≡ Some 0) }
        ensures amount { IfOk result (λ n. n
            ≡ min (source_pace self.old).piece (min (length buffer.old)
            (length (source_bytes self.old)))) }
        ensures pace { source_pace self.new ≡ next_pace (source_pace self.old) }
    {
        if self.good_reads == Some(0) {
            self.failed_reads += 1;
            return Err(DeviceFailed);
        }
        self.good_reads = one_fewer(self.good_reads);
        let n = self.piece.min(buffer.len()).min(self.rest.len());
        buffer[..n].copy_from_slice(&self.rest[..n]);
        self.rest = &self.rest[n..];
        Ok(n)
    }
}

/// A sink that appends to a vector, at most one piece per write.
#[derive(Drop)]
pub struct MemSink<'a, A: Allocator = Global> {
    out: &'a mut Vec<u8, A>,
    piece: usize,
    /// The number of writes that still succeed, if not all do.
    good_writes: Option<u64>,
    failed_writes: u64,
    ghost positive: { 0 < piece },
}

impl<'a, A: Allocator> MemSink<'a, A> {
    ghost use Rattle.bpf_canon.specs.device.Memory.{sink_bytes, sink_failures, sink_pace, new_pace};

    /// Creates a sink that accepts `piece` bytes per write, which must be more than 0, and fewer
    /// only if fewer are offered. Every write from number `fuse` on, counted from 1, fails, and so
    /// does a write for which the vector can't grow; with `None` only the latter.
    pub fn new(out: &'a mut Vec<u8, A>, piece: usize, fuse: Option<u64>) -> MemSink<'a, A>
        requires { 0 < piece }
        ensures pace { sink_pace result ≡ new_pace piece fuse }
        ensures bytes { sink_bytes result ≡ out.entry.now.items }
        ensures healthy { sink_failures result ≡ 0 }
    {
        MemSink {
            out,
            piece,
            good_writes: one_fewer(fuse),
            failed_writes: 0,
        }
    }
}

impl<A: Allocator> ByteSink for MemSink<'_, A> {
    ghost use Rattle.bpf_canon.specs.device.Memory.{HasCapacity, next_pace};
    ghost use Rattle.bpf_canon.specs.device.Memory.{sink_bytes, sink_failures, sink_pace};

    ghost contents = { λ s. Some (sink_bytes s) };

    ghost failures = { λ s. sink_failures s };

    fn write(&mut self, bytes: &[u8]) -> Result<usize, DeviceFailed>
        requires { sink_failures self.old < u64.MAX }
        ensures bound { WritesAtMost result bytes.now }
        ensures progress { IfOk result (λ n. 0 < length bytes.now → 0 < n) }
        ensures bytes { WriteAppends (Some (sink_bytes self.old))
            (Some (sink_bytes self.new)) result bytes.now }
        ensures count { CountsFailure (sink_failures self.old) (sink_failures self.new) result }

        // A write before number `fuse` fails only if the vector has to grow and can't.
        ensures fails { (sink_pace self.old).good_calls ≡ Some 0 → IsErr result }
        ensures succeeds { (sink_pace self.old).good_calls ≢ Some 0
            → HasCapacity self.old (min (sink_pace self.old).piece (length bytes.now))
            → IsOk result }
        ensures amount { IfOk result (λ n. n ≡ min (sink_pace self.old).piece (length bytes.now)) }
        ensures pace { sink_pace self.new ≡ next_pace (sink_pace self.old) }
    {
        let is_valid = self.good_writes != Some(0);
        self.good_writes = one_fewer(self.good_writes);
        let n = self.piece.min(bytes.len());
        if is_valid && self.out.extend_from_slice(&bytes[..n]).is_ok() {
            return Ok(n);
        }
        self.failed_writes += 1;
        Err(DeviceFailed)
    }
}

/// The number of bytes in the vector, and of writes that failed.
impl<A: Allocator> fmt::Debug for MemSink<'_, A> {
    fn fmt<W: fmt::Write>(&self, f: &mut fmt::Formatter<W>) -> fmt::Result {
        f.debug_struct("MemSink")
            .field("len", &self.out.len())
            .field("failed_writes", &self.failed_writes)
            .finish_non_exhaustive()
    }
}
