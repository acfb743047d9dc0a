//! Instructions from a source to a sink.

ghost use Rattle.std.specs.Prelude.{◌≡◌, ◌<◌, ◌≤◌, ◌+◌, length, IfOk, IfErr, IsNone, OnOk};
ghost use Rattle.std.specs.Io.KnownBytes.{Appends};
ghost use Rattle.bpf_canon.specs.Engine.{PutStops, devices, counts_read, counts_write};
ghost use Rattle.bpf_canon.specs.insn.{Run.RanWhole, Run.Stops, Passed.Passed, Passed.PassStops};

use crate::device::{ByteSink, ByteSource, DeviceFailed, put_all};
use crate::engine::{RunCause, RunError, stopped, stopped_writing};
use crate::insn::feed::InsnFeed;
use bpf_insn::{InsnError, Order, SlotFault};
use std::alloc::Allocator;

/// The largest input of instructions, in bytes, that [`run_insns`] accepts: 64 MiB.
pub const INSN_LIMIT: u64 = 67_108_864;

/// Reads instructions in one byte order until the source ends, writes each in another as soon as it
/// is complete (RFC 9669 section 3), and returns the number of bytes written. Each read has a
/// buffer of 4,096 bytes, and the input isn't kept in memory. Before the call, each device must
/// have failed fewer than `u64::MAX` times.
///
/// # Errors
///
/// In each error, `written` is the number of bytes that the sink accepted.
///
/// - `Fault` if the input isn't a valid sequence of instructions: its first fault, with the offset
///   in bytes from the start of the input. A fault in a complete slot has precedence over
///   `ReadFailed` and `TooLong`; `Truncated` is returned only after the source has ended.
/// - `TooLong` if the source has more than [`INSN_LIMIT`] bytes.
/// - `ReadFailed` if a read failed, and `WriteFailed` if a write failed.
/// - `Memory` if an allocation failed.
///
/// On `Fault`, `TooLong` and `ReadFailed` the sink has accepted each complete instruction before
/// the fault, or before the end of the input that was read within the limit. On `WriteFailed` and
/// `Memory` it has accepted a prefix of these bytes.
pub fn run_insns<A: Allocator, S: ByteSource, W: ByteSink>(
    alloc: A,
    source: &mut S,
    sink: &mut W,
    order: Order,
    to: Order,
) -> Result<u64, RunError<SlotFault>>
    requires source { S.failures source.old < u64.MAX }
    requires sink { W.failures sink.old < u64.MAX }

    ensures ok { IfOk result (RanWhole (devices (S.remaining source.old) (S.remaining source.new)
        (W.contents sink.old) (W.contents sink.new)) order to) }
    ensures err { IfErr result (λ e.
        Stops (devices (S.remaining source.old) (S.remaining source.new) (W.contents sink.old)
        (W.contents sink.new)) order to e.written e.cause) }

    // Every device failure is reported, and nothing else is reported as one.
    ensures healthy { OnOk result ((S.failures source.new ≡ S.failures source.old)
        × (W.failures sink.new ≡ W.failures sink.old)) }
    ensures reads { IfErr result (λ e. S.failures source.new
        ≡ S.failures source.old + counts_read e.cause) }
    ensures writes { IfErr result (λ e. W.failures sink.new
        ≡ W.failures sink.old + counts_write e.cause) }
{
    let mut feed = InsnFeed::new(order, to);
    let mut out = Vec::new(alloc);
    let mut buffer = [0u8; 4096];
    let mut written = 0;
    'reads: loop {
        let n = match source.read(&mut buffer) {
            Ok(0) => break,
            Ok(n) => n,
            Err(DeviceFailed) => return Err(stopped(RunCause::ReadFailed, written)),
        };
        let within = n.min((INSN_LIMIT - feed.fed()) as usize);
        match pass_on(&mut feed, &buffer[..within], &mut out, sink) {
            Ok(more) => written += more,
            Err(stop) => return Err(stopped(stop.cause, written + stop.written)),
        }
        if within < n {
            return Err(stopped(RunCause::TooLong, written));
        }
    }
    match feed.finish() {
        Ok(_) => Ok(written),
        Err(fault) => Err(stopped(RunCause::Fault(fault), written)),
    }
}

/// Writes all the bytes, and returns their number.
fn put_whole<W: ByteSink>(sink: &mut W, bytes: &[u8]) -> Result<u64, RunError<SlotFault>>
    requires { W.failures sink.old < u64.MAX }
    ensures ok { IfOk result (λ n. (n ≡ length bytes.now)
        × Appends (W.contents sink.old) (W.contents sink.new) bytes.now) }
    ensures err { IfErr result (PutStops (W.contents sink.old) (W.contents sink.new) bytes.now) }
    ensures healthy { OnOk result (W.failures sink.new ≡ W.failures sink.old) }
    ensures count { IfErr result (λ e. W.failures sink.new ≡ W.failures sink.old + 1) }
{
    put_all(sink, bytes).map_err(stopped_writing)?;
    Ok(bytes.len() as u64)
}

/// Feeds a piece, and writes the instructions that are now complete. The vector is reused for each
/// piece.
fn pass_on<A: Allocator, W: ByteSink>(
    feed: &mut InsnFeed,
    piece: &[u8],
    out: &mut Vec<u8, A>,
    sink: &mut W,
) -> Result<u64, RunError<SlotFault>>
    requires fits { feed.old.fed + length piece.now ≤ u64.MAX }
    requires sound { IsNone feed.old.fault }
    requires healthy { W.failures sink.old < u64.MAX }
    ensures ok { IfOk result (Passed feed.old feed.new piece.now (W.contents sink.old)
        (W.contents sink.new)) }
    ensures err { IfErr result (λ e.
        PassStops feed.old feed.new piece.now (W.contents sink.old)
        (W.contents sink.new) e.written e.cause) }
    ensures fed { OnOk result (feed.new.fed ≡ feed.old.fed + length piece.now) }
    ensures healthy { OnOk result (W.failures sink.new ≡ W.failures sink.old) }
    ensures count { IfErr result (λ e. W.failures sink.new
        ≡ W.failures sink.old + counts_write e.cause) }
{
    out.clear();
    match feed.feed(piece, out) {
        Ok(()) => put_whole(sink, out.as_slice()),
        Err(InsnError::Fault(fault)) => {
            let written = put_whole(sink, out.as_slice())?;
            Err(stopped(RunCause::Fault(fault), written))
        }
        Err(InsnError::Memory) => Err(stopped(RunCause::Memory, 0)),
    }
}
