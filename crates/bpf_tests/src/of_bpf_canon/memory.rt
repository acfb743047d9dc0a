//! Each growth fails in turn where no command and no function of C shows it: in the writers, over a table of the user's own,
//! `canon_insns`, `canon_btf`, a feed whose output grows piece by piece, and sinks that grow.
//!
//! The BTF has 26 types with 28 names, more than are sorted in place.

use super::arena::{ArenaCall, Outcome, Tally, sunk, whole_if};
use super::btf_files::{BIG_INT, LOOSE_INT};
use super::compiled_types::{flow_table_big, flow_table_little};
use super::expect::{equal, holds};
use super::own_table::Counting;
use bpf_canon::{
    InsnFeed, MemSink, MemSource, canon_btf, canon_insns, run_btf, run_insns, write_btf,
    write_insns,
};
use bpf_insn::{Insn, InsnError, Order, SlotCause, SlotFault};
use btf_types::{BtfError, BtfView};
use bumpalo::Bump;
use std::alloc::{AllocError, Allocator, Global};
use std::process::Abort;

/// An exit seven times.
const EXITS: &[u8; 56] =
    b"\x95\0\0\0\0\0\0\0\x95\0\0\0\0\0\0\0\x95\0\0\0\0\0\0\0\x95\0\0\0\0\0\0\0\x95\0\0\0\0\0\0\0\x95\0\0\0\0\0\0\0\x95\0\0\0\0\0\0\0";

/// The fault of exits without their last four bytes: the seventh begins at 48.
const CUT: SlotFault = SlotFault {
    pos: 48,
    cause: SlotCause::Truncated,
};

/// How many bytes the canonical bytes of the BTF have: a header of 24, records of 540, and names of 187.
const CANONICAL_LEN: usize = 751;

fn write_exits(bump: &Bump<Global>) -> Outcome {
    match write_insns(bump, Order::Little, &[Insn::Exit; 7]) {
        Ok(written) => whole_if(written.as_slice() == EXITS.as_slice()),
        Err(AllocError) => Outcome::Refused(0),
    }
}

fn write_types(bump: &Bump<Global>, view: &BtfView<'_>, big: &[u8]) -> Outcome {
    let table = Counting::new(view);
    match write_btf(bump, Order::Big, &table) {
        Ok(bytes) => whole_if(bytes.as_slice() == big),
        // The calls of the table that were made show how far the writer came.
        Err(AllocError) => Outcome::Refused(table.calls()),
    }
}

fn canon_exits(bump: &Bump<Global>, file: &[u8], answer: Result<&[u8], SlotFault>) -> Outcome {
    match canon_insns(bump, Order::Big, file) {
        Ok(bytes) => whole_if(answer == Ok(bytes.as_slice())),
        Err(InsnError::Fault(fault)) => whole_if(answer == Err(fault)),
        Err(InsnError::Memory) => Outcome::Refused(0),
    }
}

fn canon_types(bump: &Bump<Global>) -> Outcome {
    match canon_btf(bump, flow_table_big()) {
        // The contract says which bytes these are.
        Ok(bytes) => whole_if(bytes.len() == CANONICAL_LEN),
        Err(BtfError::Fault(_)) => Outcome::Wrong,
        Err(BtfError::Memory) => Outcome::Refused(0),
    }
}

/// Feeds exits in 14-byte pieces. It returns the number of bytes that were fed before a growth failed.
fn feed_pieces<A: Allocator>(out: &mut Vec<u8, A>) -> Option<usize> {
    let mut feed = InsnFeed::new(Order::Little, Order::Little);
    let mut at = 0_usize;
    for piece in EXITS.chunks(14) {
        let had = out.len();
        if feed.fed() != at as u64 || at > 56 || piece.len() > 14 {
            return None;
        }
        match feed.feed(piece, out) {
            Ok(()) => at += piece.len(),
            Err(InsnError::Memory) => {
                // Nothing has changed, and an empty piece needs no memory.
                let is_same = (out.len(), feed.held(), feed.fed()) == (had, at % 8, at as u64);
                return (is_same && feed.feed(b"", out).is_ok()).then_some(at);
            }
            Err(InsnError::Fault(_)) => return None,
        }
    }
    Some(at)
}

/// The vector grows for the first piece, and for later ones.
fn fed(bump: &Bump<Global>) -> Outcome {
    let mut out = Vec::new(bump);
    match feed_pieces(&mut out) {
        Some(at) if out.len() == at / 8 * 8 && EXITS.starts_with(&out) => {
            if at < 56 {
                Outcome::Refused(at)
            } else {
                Outcome::Whole
            }
        }
        _ => Outcome::Wrong,
    }
}

/// A growth of the sink's vector that fails is a failed write, the first growth and each later one.
fn sink_exits(alloc: Global, bump: &Bump<Global>) -> Outcome {
    let mut source = MemSource::new(EXITS, 24, None);
    let mut out = Vec::new(bump);
    let mut sink = MemSink::new(&mut out, 5, None);
    let ran = run_insns(alloc, &mut source, &mut sink, Order::Little, Order::Little);
    sunk(&ran, &out, EXITS)
}

/// Likewise for BTF.
fn sink_types(alloc: Global, bump: &Bump<Global>) -> Outcome {
    let mut source = MemSource::new(LOOSE_INT, 5, None);
    let mut out = Vec::new(bump);
    let mut sink = MemSink::new(&mut out, 5, None);
    let ran = run_btf(alloc, &mut source, &mut sink, Order::Big);
    sunk(&ran, &out, BIG_INT)
}

/// A call that allocates.
#[derive(Clone, Copy)]
enum Call<'a> {
    WriteInsns,
    /// The types, and what is written for them with ample memory.
    WriteTypes(&'a BtfView<'a>, &'a [u8]),
    CanonInsns,
    CanonCutInsns,
    CanonTypes,
    Feed,
    SinkInsns,
    SinkTypes,
}

impl ArenaCall for Call<'_> {
    fn outcome(&self, alloc: Global, bump: &Bump<Global>) -> Outcome {
        match self {
            Call::WriteInsns => write_exits(bump),
            Call::WriteTypes(view, big) => write_types(bump, view, big),
            Call::CanonInsns => canon_exits(bump, EXITS, Ok(EXITS)),
            Call::CanonCutInsns => canon_exits(bump, &EXITS[..52], Err(CUT)),
            Call::CanonTypes => canon_types(bump),
            Call::Feed => fed(bump),
            Call::SinkInsns => sink_exits(alloc, bump),
            Call::SinkTypes => sink_types(alloc, bump),
        }
    }
}

/// Checks that at least so many arenas are too small for a call, and that its growths fail at so many points or more. An arena is too
/// small if it can't hold the bytes that the call writes.
fn check(rt: &impl Abort, alloc: Global, call: Call<'_>, refused: usize, points: usize) {
    let tally = Tally::of(rt, alloc, &call);
    holds(rt, tally.is_right(refused, points), &(refused, tally));
}

#[test]
fn each_growth_is_refused(rt: HostRuntime) {
    let alloc = rt.alloc();
    let view = BtfView::parse(alloc, flow_table_little()).expect(&rt, "a table");
    let big = write_btf(alloc, Order::Big, &view).expect(&rt, "ample memory");
    let little = canon_btf(alloc, flow_table_big()).expect(&rt, "canonical bytes");
    let lens = (little.len(), big.len());
    equal(&rt, &lens, &(CANONICAL_LEN, CANONICAL_LEN), &"the lengths");
    check(&rt, alloc, Call::WriteInsns, 56, 1);
    check(&rt, alloc, Call::WriteTypes(&view, &big), CANONICAL_LEN, 4);
    check(&rt, alloc, Call::CanonInsns, 56, 1);
    check(&rt, alloc, Call::CanonCutInsns, 48, 1);
    check(&rt, alloc, Call::CanonTypes, CANONICAL_LEN, 1);
    check(&rt, alloc, Call::Feed, 56, 3);
    check(&rt, alloc, Call::SinkInsns, 56, 3);
    check(&rt, alloc, Call::SinkTypes, 45, 3);
}
