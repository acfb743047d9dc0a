//! BTF from a source to a sink.
//!
//! Unlike instructions, BTF can't be written while it is read: whether it is valid, and the new
//! offset of its first name, may depend on its last byte. So the entire input is kept.

ghost use Rattle.std.specs.Prelude.{◌≡◌, ◌<◌, ◌+◌, IfOk, IfErr, OnOk};
ghost use Rattle.bpf_canon.specs.Engine.{devices, counts_read, counts_write};
ghost use Rattle.bpf_canon.specs.btf.RunBtf.{RanBtf, StopsBtf, cause_of_btf, cause_of_read};

use crate::btf::canon::recode_btf;
use crate::device::{ByteSink, ByteSource, ReadError, put_all, read_all};
use crate::engine::{RunCause, RunError, stopped, stopped_writing};
use bpf_words::Order;
use btf_raw::{BtfFault, HEADER_LIMIT, STRINGS_LIMIT, TYPES_LIMIT};
use btf_types::BtfError;
use std::alloc::Allocator;

/// The largest BTF input, in bytes, that [`run_btf`] accepts: the largest header, type section and
/// string section that a valid file can contain.
pub const BTF_LIMIT: u64 = (HEADER_LIMIT + TYPES_LIMIT + STRINGS_LIMIT) as u64;

/// Reads a BTF file until the source ends, writes its canonical bytes in the byte order `to`
/// (btf.rst section 2), and returns the number of bytes written. Each read has a buffer of 4,096
/// bytes, each write offers all the remaining bytes, and the entire input is kept in memory. Before
/// the call, each device must have failed fewer than `u64::MAX` times.
///
/// # Errors
///
/// In each error, `written` is the number of bytes that the sink accepted.
///
/// - `ReadFailed` if a read failed, and `TooLong` if the source has more than [`BTF_LIMIT`] bytes.
///   Both have precedence over `Fault`.
/// - `Fault` with the first fault of the input and its offset in bytes from the start of the input;
///   the input is checked only after the source has ended.
/// - `WriteFailed` if a write failed.
/// - `Memory` if an allocation failed.
///
/// On `WriteFailed` the sink has accepted a prefix of the canonical bytes; on any other error it
/// has accepted nothing.
pub fn run_btf<A: Allocator + Copy, S: ByteSource, W: ByteSink>(
    alloc: A,
    source: &mut S,
    sink: &mut W,
    to: Order,
) -> Result<u64, RunError<BtfFault>>
    requires source { S.failures source.old < u64.MAX }
    requires sink { W.failures sink.old < u64.MAX }

    ensures ok { IfOk result (RanBtf (devices (S.remaining source.old) (S.remaining source.new)
        (W.contents sink.old) (W.contents sink.new)) to) }
    ensures err { IfErr result (λ e.
        StopsBtf (devices (S.remaining source.old) (S.remaining source.new) (W.contents sink.old)
        (W.contents sink.new)) to e.written e.cause) }

    // Every device failure is reported, and nothing else is reported as one.
    ensures healthy { OnOk result ((S.failures source.new ≡ S.failures source.old)
        × (W.failures sink.new ≡ W.failures sink.old)) }
    ensures reads { IfErr result (λ e. S.failures source.new
        ≡ S.failures source.old + counts_read e.cause) }
    ensures writes { IfErr result (λ e. W.failures sink.new
        ≡ W.failures sink.old + counts_write e.cause) }
{
    let bytes = read_all(alloc, source, BTF_LIMIT).map_err(stopped_reading)?;
    let canon = recode_btf(alloc, to, &bytes).map_err(stopped_checking)?;
    put_all(sink, canon.as_slice()).map_err(stopped_writing)?;
    Ok(canon.len() as u64)
}

/// The error if the source couldn't be read to its end. Nothing has been written.
fn stopped_reading(error: ReadError) -> RunError<BtfFault>
    ensures cause { result.cause ≡ cause_of_read error }
    ensures written { result.written ≡ 0 }
{
    let cause = match error {
        ReadError::TooLong => RunCause::TooLong,
        ReadError::ReadFailed => RunCause::ReadFailed,
        ReadError::Memory => RunCause::Memory,
    };
    stopped(cause, 0)
}

/// The error if the input isn't valid BTF. Nothing has been written.
fn stopped_checking(error: BtfError) -> RunError<BtfFault>
    ensures cause { result.cause ≡ cause_of_btf error }
    ensures written { result.written ≡ 0 }
{
    let cause = match error {
        BtfError::Fault(fault) => RunCause::Fault(fault),
        BtfError::Memory => RunCause::Memory,
    };
    stopped(cause, 0)
}
