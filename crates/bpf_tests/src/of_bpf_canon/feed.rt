//! Instructions in pieces.

use super::expect::{equal, equal_bytes};
use super::samples::{EXIT, FAULT_OF_FAULTY, FAULTY, InsnFile, WIDE};
use bpf_canon::InsnFeed;
use bpf_insn::{InsnError, Order, SlotCause, SlotFault};
use std::alloc::Global;
use std::process::Abort;

/// Feeds a short piece, and returns the fault if there is one.
fn feed_piece(
    rt: &impl Abort,
    feed: &mut InsnFeed,
    piece: &[u8],
    out: &mut Vec<u8>,
) -> Option<SlotFault> {
    assert!(rt; feed.fed() <= 1000 && piece.len() <= 1000);
    match feed.feed(piece, out) {
        Ok(()) => None,
        Err(InsnError::Fault(fault)) => Some(fault),
        Err(InsnError::Memory) => panic!(rt; "memory is ample"),
    }
}

/// A piece, the fault that is reported for it, all that was written by then, and the counts of the feed.
struct Piece {
    bytes: &'static [u8],
    fault: Option<SlotFault>,
    written: &'static [u8],
    held: usize,
    fed: u64,
    count: u64,
}

/// The pieces of a little-endian stream, and how it ends.
struct Stream {
    name: &'static str,
    to: Order,
    pieces: &'static [Piece],
    end: Result<u64, SlotFault>,
}

const BIG_MOVES: &[u8] = b"\xbf\x12\0\0\0\0\0\0\xb4\x10\0\0\0\0\0\x07";

const FAULTY_WIDE: SlotFault = SlotFault {
    pos: 1,
    cause: SlotCause::Src,
};

#[rattlefmt::skip]
static IN_TWO_PIECES: &[Stream] = &[
    Stream { name: "a wide load in two pieces", to: Order::Little, pieces: &[Piece { bytes: b"\x18\x01\0\0\x88\x77\x66\x55\0", fault: None, written: b"", held: 9, fed: 9, count: 0 }, Piece { bytes: b"\0\0\0\x44\x33\x22\x11", fault: None, written: WIDE, held: 0, fed: 16, count: 1 }], end: Ok(1) },
    Stream { name: "two instructions in the other order", to: Order::Big, pieces: &[Piece { bytes: b"\xbf\x21\0\0\0\0\0\0", fault: None, written: b"\xbf\x12\0\0\0\0\0\0", held: 0, fed: 8, count: 1 }, Piece { bytes: b"\xb4\x01\0\0\x07\0\0\0", fault: None, written: BIG_MOVES, held: 0, fed: 16, count: 2 }], end: Ok(2) },
    Stream { name: "a fault in the second piece, which every later piece reports", to: Order::Little, pieces: &[Piece { bytes: b"\x95\0\0\0\0\0\0\0\x04\x10\0\0\x05\0\0", fault: None, written: EXIT, held: 7, fed: 15, count: 1 }, Piece { bytes: b"\0", fault: Some(FAULT_OF_FAULTY), written: EXIT, held: 0, fed: 16, count: 1 }, Piece { bytes: EXIT, fault: Some(FAULT_OF_FAULTY), written: EXIT, held: 0, fed: 16, count: 1 }, Piece { bytes: b"", fault: Some(FAULT_OF_FAULTY), written: EXIT, held: 0, fed: 16, count: 1 }], end: Err(FAULT_OF_FAULTY) },
];

#[rattlefmt::skip]
static IN_ONE_PIECE: &[Stream] = &[
    Stream { name: "an instruction before a fault in the same piece", to: Order::Little, pieces: &[Piece { bytes: FAULTY, fault: Some(FAULT_OF_FAULTY), written: EXIT, held: 0, fed: 16, count: 1 }], end: Err(FAULT_OF_FAULTY) },
    Stream { name: "a faulty first slot, which does not wait for the second", to: Order::Little, pieces: &[Piece { bytes: b"\x18\x71\0\0\0\0\0\0", fault: Some(FAULTY_WIDE), written: b"", held: 0, fed: 8, count: 0 }], end: Err(FAULTY_WIDE) },
    Stream { name: "an empty piece", to: Order::Little, pieces: &[Piece { bytes: b"", fault: None, written: b"", held: 0, fed: 0, count: 0 }], end: Ok(0) },
];

#[rattlefmt::skip]
static WIDE_LOADS: &[Stream] = &[
    Stream { name: "a wide load cut in its first slot", to: Order::Little, pieces: &[Piece { bytes: b"\x18\x01\0\0\x88\x77\x66", fault: None, written: b"", held: 7, fed: 7, count: 0 }], end: Err(SlotFault { pos: 0, cause: SlotCause::Truncated }) },
    Stream { name: "a wide load cut after its first slot", to: Order::Little, pieces: &[Piece { bytes: b"\x18\x01\0\0\x88\x77\x66\x55", fault: None, written: b"", held: 8, fed: 8, count: 0 }], end: Err(SlotFault { pos: 8, cause: SlotCause::Truncated }) },
    Stream { name: "a wide load cut in its second slot", to: Order::Little, pieces: &[Piece { bytes: b"\x18\x01\0\0\x88\x77\x66\x55\0\0\0\0", fault: None, written: b"", held: 12, fed: 12, count: 0 }], end: Err(SlotFault { pos: 8, cause: SlotCause::Truncated }) },
    Stream { name: "a whole wide load", to: Order::Little, pieces: &[Piece { bytes: WIDE, fault: None, written: WIDE, held: 0, fed: 16, count: 1 }], end: Ok(1) },
];

fn streams() -> [&'static [Stream]; 3] {
    [IN_TWO_PIECES, IN_ONE_PIECE, WIDE_LOADS]
}

/// Feeds the pieces of a stream, and compares after each.
fn check_stream(rt: &impl Abort, alloc: Global, stream: &Stream) {
    let mut feed = InsnFeed::new(Order::Little, stream.to);
    let mut out = Vec::new(alloc);
    for piece in stream.pieces {
        let fault = feed_piece(rt, &mut feed, piece.bytes, &mut out);
        equal(rt, &fault, &piece.fault, &stream.name);
        equal_bytes(rt, out.as_slice(), piece.written, &stream.name);
        let counts = (feed.held(), feed.fed(), feed.count());
        equal(
            rt,
            &counts,
            &(piece.held, piece.fed, piece.count),
            &stream.name,
        );
    }
    equal(rt, &feed.finish(), &stream.end, &stream.name);
}

fn check_streams(rt: &impl Abort, alloc: Global, streams: &[Stream]) {
    for stream in streams {
        check_stream(rt, alloc, stream);
    }
}

#[test]
fn complete_instructions_are_written_at_once_and_faults_stay(rt: HostRuntime) {
    for streams in streams() {
        check_streams(&rt, rt.alloc(), streams);
    }
}

/// Feeds a file in two pieces, and compares.
fn cut_in_two(rt: &impl Abort, alloc: Global, file: &InsnFile, at: usize) {
    let (first, second) = file
        .bytes
        .split_at_checked(at)
        .expect(rt, "a place in the bytes");
    let mut feed = InsnFeed::new(file.order, Order::Little);
    let mut out = Vec::new(alloc);
    let early = feed_piece(rt, &mut feed, first, &mut out);
    let late = feed_piece(rt, &mut feed, second, &mut out);
    let fault = feed.finish().err();
    let stays = (early.is_none() || early == late) && (late.is_none() || late == fault);
    let found = (stays, fault);
    equal(rt, &found, &(true, file.slot_fault()), &(file.bytes, at));
    equal_bytes(rt, out.as_slice(), file.canonical, &(file.bytes, at));
}

/// Feeds a file in two pieces, cut anywhere. The output is the same.
pub(crate) fn cut_anywhere(rt: &impl Abort, alloc: Global, file: &InsnFile) {
    for at in 0..=file.bytes.len() {
        cut_in_two(rt, alloc, file, at);
    }
}
