//! Canonical bytes and comparison of instruction files.

use super::expect::{equal, returns};
use super::feed::cut_anywhere;
use super::run::run_in_pieces;
use super::samples::{EXIT, InsnFile, insn_files};
use bpf_canon::{SideError, canon_insns, recode_insns, same_insns, write_insns};
use bpf_insn::{Insn, InsnError, Order, SlotCause, SlotFault, decode_insns};
use std::alloc::Global;
use std::process::Abort;

/// Recodes a file, given with its order, into another order.
fn check_recoded(rt: &impl Abort, alloc: Global, file: (Order, &[u8]), to: Order, wanted: &[u8]) {
    let recoded = recode_insns(alloc, file.0, to, file.1);
    returns(rt, recoded, Ok(wanted), &(file, to));
}

/// Recodes a file without a fault from each order into each, given what is written for it in big-endian order.
fn check_orders(rt: &impl Abort, alloc: Global, file: &InsnFile, big: &[u8]) {
    let same = same_insns(alloc, Order::Big, big, file.order, file.bytes);
    equal(rt, &same, &Ok(true), &file.bytes);
    let little = file.canonical;
    check_recoded(rt, alloc, (Order::Little, little), Order::Little, little);
    check_recoded(rt, alloc, (Order::Little, little), Order::Big, big);
    check_recoded(rt, alloc, (Order::Big, big), Order::Little, little);
    check_recoded(rt, alloc, (Order::Big, big), Order::Big, big);
}

/// Writes the instructions of a file in its own order and in both, and recodes what is written.
fn check_written(rt: &impl Abort, alloc: Global, file: &InsnFile, insns: &[Insn]) {
    let own = write_insns(alloc, file.order, insns);
    returns(rt, own, Ok(file.bytes), &file.bytes);
    let little = write_insns(alloc, Order::Little, insns);
    returns(rt, little, Ok(file.canonical), &file.bytes);
    let big = write_insns(alloc, Order::Big, insns).expect(rt, "ample memory");
    check_orders(rt, alloc, file, &big);
}

/// The canonical bytes of a file are returned, or its fault is.
fn check_answers(rt: &impl Abort, alloc: Global, file: &InsnFile) {
    let canon = canon_insns(alloc, file.order, file.bytes);
    returns(rt, canon, file.answer(), &file.bytes);
    let recoded = recode_insns(alloc, file.order, Order::Little, file.bytes);
    returns(rt, recoded, file.answer(), &file.bytes);
    match decode_insns(alloc, file.order, file.bytes) {
        Ok(insns) => check_written(rt, alloc, file, &insns),
        Err(error) => {
            equal(rt, &Err(error), &file.answer(), &file.bytes);
            let big = recode_insns(alloc, file.order, Order::Big, file.bytes);
            returns(rt, big, file.answer(), &file.bytes);
        }
    }
}

/// Checks files, as a whole and in pieces.
fn check_files(rt: &impl Abort, alloc: Global, files: &[InsnFile]) {
    for file in files {
        check_answers(rt, alloc, file);
        cut_anywhere(rt, alloc, file);
        run_in_pieces(rt, alloc, file);
    }
}

#[test]
fn files_have_their_canonical_bytes_or_their_first_fault(rt: HostRuntime) {
    for files in insn_files() {
        check_files(&rt, rt.alloc(), files);
    }
}

#[test]
fn instructions_are_written_at_once(rt: HostRuntime) {
    let written = write_insns(rt.alloc(), Order::Big, &[Insn::Exit; 2]);
    let wanted = b"\x95\0\0\0\0\0\0\0\x95\0\0\0\0\0\0\0";
    returns(&rt, written, Ok(wanted), &"two exits");
}

/// Two files, the first in this order and the second in little-endian order, and whether their instructions are equal.
struct Comparison {
    order: Order,
    first: &'static [u8],
    second: &'static [u8],
    answer: Result<bool, SideError<SlotFault>>,
}

const BIG_MOVE: &[u8] = b"\xbf\x12\0\0\0\0\0\0";

const LITTLE_MOVE: &[u8] = b"\xbf\x21\0\0\0\0\0\0";

const FAULTY_MOVE: &[u8] = b"\xbf\x2b\0\0\0\0\0\0";

const FAULT: SlotFault = SlotFault {
    pos: 1,
    cause: SlotCause::Dst,
};

#[rattlefmt::skip]
static COMPARISONS: [Comparison; 8] = [
    Comparison { order: Order::Big, first: BIG_MOVE, second: LITTLE_MOVE, answer: Ok(true) },
    Comparison { order: Order::Little, first: BIG_MOVE, second: LITTLE_MOVE, answer: Ok(false) },
    Comparison { order: Order::Little, first: b"", second: b"", answer: Ok(true) },
    Comparison { order: Order::Little, first: EXIT, second: b"", answer: Ok(false) },
    Comparison { order: Order::Little, first: EXIT, second: EXIT, answer: Ok(true) },
    Comparison { order: Order::Little, first: EXIT, second: FAULTY_MOVE, answer: Err(SideError::Second(FAULT)) },
    Comparison { order: Order::Little, first: FAULTY_MOVE, second: EXIT, answer: Err(SideError::First(FAULT)) },
    Comparison { order: Order::Little, first: FAULTY_MOVE, second: b"\0", answer: Err(SideError::First(FAULT)) },
];

#[test]
fn files_are_the_same_if_their_instructions_are(rt: HostRuntime) {
    for row in &COMPARISONS {
        let same = same_insns(rt.alloc(), row.order, row.first, Order::Little, row.second);
        equal(&rt, &same, &row.answer, &(row.first, row.second));
    }
}
