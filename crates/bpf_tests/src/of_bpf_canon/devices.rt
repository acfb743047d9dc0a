//! Devices over memory and over readers and writers, and the texts of the errors.

ghost use Rattle.std.specs.Prelude.{◌<◌};
ghost use Rattle.bpf_canon.specs.device.Memory.{source_failures};

use super::expect::{equal, equal_bytes, holds};
use bpf_canon::{
    ByteSink, ByteSource, DeviceFailed, MemSink, MemSource, ReadError, ReaderSource, RunCause,
    RunError, SideError, WriterSink, put_all, read_all, run_insns,
};
use bpf_insn::{Order, SlotCause, SlotFault};
use std::alloc::Global;
use std::fmt::Display;
use std::process::Abort;

/// Compares the texts of errors with these names.
fn show<E: Display>(rt: &impl Abort, alloc: Global, rows: &[(E, &'static str)]) {
    for (error, name) in rows {
        let text = format!(in alloc; "{error}").expect(rt, "ample memory");
        equal_bytes(rt, text.as_bytes(), name.as_bytes(), name);
    }
}

static READ_ERRORS: [(ReadError, &str); 3] = [
    (ReadError::TooLong, "TooLong"),
    (ReadError::ReadFailed, "ReadFailed"),
    (ReadError::Memory, "Memory"),
];

static SIDE_ERRORS: [(SideError<u8>, &str); 3] = [
    (SideError::First(0), "First"),
    (SideError::Second(0), "Second"),
    (SideError::Memory, "Memory"),
];

static CAUSES: [(RunCause<u8>, &str); 5] = [
    (RunCause::Fault(0), "Fault"),
    (RunCause::TooLong, "TooLong"),
    (RunCause::ReadFailed, "ReadFailed"),
    (RunCause::WriteFailed, "WriteFailed"),
    (RunCause::Memory, "Memory"),
];

/// An error of a run shows its cause alone.
#[rattlefmt::skip]
static RUN_ERRORS: [(RunError<u8>, &str); 5] = [
    (RunError { cause: RunCause::Fault(0), written: 8 }, "Fault"),
    (RunError { cause: RunCause::TooLong, written: 8 }, "TooLong"),
    (RunError { cause: RunCause::ReadFailed, written: 8 }, "ReadFailed"),
    (RunError { cause: RunCause::WriteFailed, written: 8 }, "WriteFailed"),
    (RunError { cause: RunCause::Memory, written: 8 }, "Memory"),
];

#[test]
fn errors_show_their_names(rt: HostRuntime) {
    show(&rt, rt.alloc(), &[(DeviceFailed, "DeviceFailed")]);
    show(&rt, rt.alloc(), &READ_ERRORS);
    show(&rt, rt.alloc(), &SIDE_ERRORS);
    show(&rt, rt.alloc(), &CAUSES);
    show(&rt, rt.alloc(), &RUN_ERRORS);
}

/// An input, the piece and the fuse of its source, the limit, and why reading stops if it does.
struct Reading {
    bytes: &'static [u8],
    piece: usize,
    fuse: Option<u64>,
    limit: u64,
    stop: Option<ReadError>,
}

#[rattlefmt::skip]
static READINGS: [Reading; 9] = [
    Reading { bytes: b"\x37\x01\x01\0\x03\0\0\0\xdb\x21\xf8\xff\xf1\0\0\0\x95\0\0\0\0\0\0\0", piece: 1, fuse: None, limit: 67_108_864, stop: None },
    Reading { bytes: b"abcdefgh", piece: 3, fuse: None, limit: 8, stop: None },
    Reading { bytes: b"abcdefgh", piece: 1, fuse: None, limit: u64::MAX, stop: None },
    Reading { bytes: b"abcdefgh", piece: 5000, fuse: None, limit: 8, stop: None },
    Reading { bytes: b"", piece: 1, fuse: None, limit: 0, stop: None },
    Reading { bytes: b"abcdefgh", piece: 3, fuse: None, limit: 7, stop: Some(ReadError::TooLong) },
    Reading { bytes: b"abcdefgh", piece: 3, fuse: Some(1), limit: 8, stop: Some(ReadError::ReadFailed) },
    Reading { bytes: b"abcdefgh", piece: 3, fuse: Some(4), limit: 8, stop: Some(ReadError::ReadFailed) },
    Reading { bytes: b"abcdefgh", piece: 3, fuse: Some(5), limit: 8, stop: None },
];

/// Whether a source is read to its end, with these bytes, or reading stops for this reason.
fn is_read<S: ByteSource>(
    alloc: Global,
    source: &mut S,
    limit: u64,
    wanted: Result<&[u8], ReadError>,
) -> bool
    requires { S.failures source.old < u64.MAX }
{
    match read_all(alloc, source, limit) {
        Ok(read) => wanted == Ok(read.as_slice()),
        Err(error) => wanted == Err(error),
    }
}

/// Whether an input is read as the row says.
fn is_row_read(alloc: Global, row: &Reading) -> bool {
    if row.piece == 0 {
        return false;
    }
    let mut source = MemSource::new(row.bytes, row.piece, row.fuse);
    let wanted = match row.stop {
        Some(stop) => Err(stop),
        None => Ok(row.bytes),
    };
    is_read(alloc, &mut source, row.limit, wanted)
}

#[test]
fn inputs_within_the_limit_are_read_to_their_end(rt: HostRuntime) {
    for row in &READINGS {
        let is_right = is_row_read(rt.alloc(), row);
        holds(&rt, is_right, &(row.piece, row.fuse, row.limit));
    }
}

#[test]
fn a_source_returns_pieces_until_its_fuse(rt: HostRuntime) {
    let mut source = MemSource::new(b"abcdefgh", 3, Some(3));
    let (mut short, mut long) = ([0u8; 2], [0u8; 16]);
    let reads = [
        source.read(&mut short),
        source.read(&mut long),
        source.read(&mut long),
        source.read(&mut long),
    ];
    let failed = Err(DeviceFailed);
    let wanted = [Ok(2), Ok(3), failed, failed];
    equal(&rt, &reads, &wanted, &"a piece a read, until the fuse");
    equal_bytes(&rt, &short, b"ab", &"a short buffer");
    equal_bytes(&rt, &long[..3], b"cde", &"a piece");
}

/// The piece and the fuse of a sink, how writing three bytes ends, and what the sink received.
struct Writing {
    piece: usize,
    fuse: Option<u64>,
    ended: Result<(), u64>,
    taken: &'static [u8],
}

#[rattlefmt::skip]
static WRITINGS: [Writing; 5] = [
    Writing { piece: 1, fuse: Some(3), ended: Err(2), taken: b"ab" },
    Writing { piece: 2, fuse: Some(2), ended: Err(2), taken: b"ab" },
    Writing { piece: 2, fuse: Some(1), ended: Err(0), taken: b"" },
    Writing { piece: 2, fuse: Some(3), ended: Ok(()), taken: b"abc" },
    Writing { piece: 9, fuse: None, ended: Ok(()), taken: b"abc" },
];

/// Whether three bytes are written as the row says.
fn is_written(alloc: Global, row: &Writing) -> bool {
    if row.piece == 0 {
        return false;
    }
    let mut out = Vec::new(alloc);
    let mut sink = MemSink::new(&mut out, row.piece, row.fuse);
    let ended = put_all(&mut sink, b"abc");
    ended == row.ended && out.as_slice() == row.taken
}

#[test]
fn a_sink_accepts_a_prefix_until_its_fuse(rt: HostRuntime) {
    for row in &WRITINGS {
        let is_right = is_written(rt.alloc(), row);
        holds(&rt, is_right, &(row.piece, row.fuse));
    }
}

#[test]
fn readers_are_sources(rt: HostRuntime) {
    let mut source = ReaderSource::new(b"abc".as_slice());
    let is_right = is_read(rt.alloc(), &mut source, 3, Ok(b"abc"));
    holds(&rt, is_right, &"a reader");
}

#[test]
fn writers_are_sinks(rt: HostRuntime) {
    let mut out = Vec::new(rt.alloc());
    let mut sink = WriterSink::new(&mut out);
    let is_empty = matches!(sink.write(b""), Ok(0));
    let is_put = matches!(put_all(&mut sink, b"abc"), Ok(()));
    equal_bytes(&rt, out.as_slice(), b"abc", &(is_empty, is_put));
    holds(&rt, is_empty && is_put, &"an empty write, and another");
}

/// Whether the last 904 of 5,000 bytes are left in a source.
fn has_904_left(alloc: Global, source: &mut MemSource<'_>) -> bool
    requires { source_failures source.old < u64.MAX }
{
    is_read(alloc, source, 5000, Ok(&[0; 904]))
}

#[test]
fn each_read_offers_4096_bytes(rt: HostRuntime) {
    let mut source = MemSource::new(&[0; 5000], 5000, None);
    let read = read_all(rt.alloc(), &mut source, 0);
    let is_right = matches!(read, Err(ReadError::TooLong)) && has_904_left(rt.alloc(), &mut source);
    holds(&rt, is_right, &"a read");
}

/// No instruction has the opcode 0, so the engine stops after its first read.
#[test]
fn an_engine_offers_4096_bytes(rt: HostRuntime) {
    let mut source = MemSource::new(&[0; 5000], 5000, None);
    let mut out = Vec::new(rt.alloc());
    let mut sink = MemSink::new(&mut out, 1, None);
    let order = Order::Little;
    let ran = run_insns(rt.alloc(), &mut source, &mut sink, order, order);
    let opcode = SlotFault {
        pos: 0,
        cause: SlotCause::Opcode,
    };
    let stop = RunError {
        cause: RunCause::Fault(opcode),
        written: 0,
    };
    let is_right = ran == Err(stop) && has_904_left(rt.alloc(), &mut source);
    holds(&rt, is_right, &"a run");
}
