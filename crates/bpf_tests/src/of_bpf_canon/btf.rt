//! Canonical bytes and comparison of BTF files.

use super::btf_files::{
    BIG_INT, BIT_FIELD, BtfFile, EMPTY, ENUM, FAULTY, INT, LOOSE_INT, STRINGS_FIRST, WIDE_OFFSET,
    worked_files,
};
use super::btf_run::run_in_pieces;
use super::compiled_types::{flow_table_big, flow_table_little};
use super::expect::{equal, holds, is_bytes, returns};
use super::faulty_btf::{FaultyBtf, faulty_files};
use super::fused_devices::{FusedDevices, stopped};
use super::own_table::Counting;
use bpf_canon::{RunCause, SideError, canon_btf, recode_btf, same_btf, write_btf};
use bpf_words::Order;
use btf_raw::{BtfCause, BtfFault};
use btf_types::{Btf, BtfError, BtfView};
use std::alloc::Global;
use std::process::Abort;

/// Whether an owned table of a file is written as these bytes.
fn is_owned(alloc: Global, order: Order, file: &[u8], bytes: &[u8]) -> bool {
    match Btf::parse(alloc, file) {
        Ok(table) => is_bytes(write_btf(alloc, order, &table), bytes),
        Err(_) => false,
    }
}

/// Whether a borrowed table of a file is written as these bytes, and one of a user.
fn is_borrowed(alloc: Global, order: Order, file: &[u8], bytes: &[u8]) -> bool {
    match BtfView::parse(alloc, file) {
        Ok(table) => {
            is_bytes(write_btf(alloc, order, &table), bytes)
                && is_bytes(write_btf(alloc, order, &Counting::new(&table)), bytes)
        }
        Err(_) => false,
    }
}

/// Checks what is written for a file in an order: by `recode_btf`, and from an owned table, a borrowed one and one of a user.
pub(crate) fn check_written(
    rt: &impl Abort,
    alloc: Global,
    order: Order,
    file: &[u8],
    bytes: &[u8],
) {
    returns(rt, recode_btf(alloc, order, file), Ok(bytes), &order);
    let is_same = is_owned(alloc, order, file, bytes) && is_borrowed(alloc, order, file, bytes);
    holds(rt, is_same, &("the ways to write a file", order, bytes));
}

/// Checks the canonical bytes of a file, by each call.
fn check_canonical(rt: &impl Abort, alloc: Global, file: &[u8], canonical: &[u8]) {
    let canon = canon_btf(alloc, file);
    returns(rt, canon, Ok(canonical), &"canonical bytes");
    check_written(rt, alloc, Order::Little, file, canonical);
}

/// Checks what is written for a file in big-endian order. It is as long as the canonical bytes, and holds the same records.
fn check_big(rt: &impl Abort, alloc: Global, file: &[u8], big: &[u8], canonical: &[u8]) {
    check_written(rt, alloc, Order::Big, file, big);
    check_canonical(rt, alloc, big, canonical);
    equal(rt, &big.len(), &canonical.len(), &"the length");
    let same = same_btf(alloc, file, big);
    equal(rt, &same, &Ok(true), &"a file in the other order");
}

/// Writes a file in both orders. The canonical bytes are no longer than the file, and are their own canonical bytes.
pub(crate) fn check_file(rt: &impl Abort, alloc: Global, file: &[u8], canonical: &[u8]) {
    holds(rt, canonical.len() <= file.len(), &"the length");
    check_canonical(rt, alloc, file, canonical);
    check_canonical(rt, alloc, canonical, canonical);
    let big = recode_btf(alloc, Order::Big, file).expect(rt, "the other order");
    check_big(rt, alloc, file, &big, canonical);
}

/// Writes files in both orders, and runs the engine on them.
fn check_files(rt: &impl Abort, alloc: Global, files: &[BtfFile]) {
    for file in files {
        check_file(rt, alloc, file.bytes, file.canonical);
        run_in_pieces(rt, alloc, file);
    }
}

#[test]
fn files_have_one_canonical_form_from_every_table_in_both_orders(rt: HostRuntime) {
    for files in worked_files() {
        check_files(&rt, rt.alloc(), files);
    }
}

/// Files, and what is written for them in big-endian order.
#[rattlefmt::skip]
static BIG: [(&[u8], &[u8]); 3] = [(BIG_INT, BIG_INT), (INT, BIG_INT), (ENUM, ENUM)];

#[test]
fn files_are_written_in_big_endian_order(rt: HostRuntime) {
    for (file, big) in &BIG {
        check_written(&rt, rt.alloc(), Order::Big, file, big);
    }
}

/// Two files, and whether their records are equal.
struct Comparison {
    first: &'static [u8],
    second: &'static [u8],
    answer: Result<bool, SideError<BtfFault>>,
}

const FAULT_OF_FAULTY: BtfFault = BtfFault {
    pos: 32,
    cause: BtfCause::Reference,
};

#[rattlefmt::skip]
static COMPARISONS: [Comparison; 9] = [
    Comparison { first: EMPTY, second: STRINGS_FIRST, answer: Ok(true) },
    Comparison { first: WIDE_OFFSET, second: BIT_FIELD, answer: Ok(false) },
    Comparison { first: WIDE_OFFSET, second: WIDE_OFFSET, answer: Ok(true) },
    Comparison { first: BIG_INT, second: LOOSE_INT, answer: Ok(true) },
    Comparison { first: BIG_INT, second: ENUM, answer: Ok(false) },
    Comparison { first: INT, second: INT, answer: Ok(true) },
    Comparison { first: BIG_INT, second: FAULTY, answer: Err(SideError::Second(FAULT_OF_FAULTY)) },
    Comparison { first: FAULTY, second: BIG_INT, answer: Err(SideError::First(FAULT_OF_FAULTY)) },
    Comparison { first: FAULTY, second: b"", answer: Err(SideError::First(FAULT_OF_FAULTY)) },
];

fn comparisons() -> &'static [Comparison] {
    &COMPARISONS
}

#[test]
fn a_compiled_file_is_the_same_in_both_orders(rt: HostRuntime) {
    let same = same_btf(rt.alloc(), flow_table_big(), flow_table_little());
    equal(&rt, &same, &Ok(true), &"the compiled files");
}

#[test]
fn btf_files_are_the_same_if_their_types_are(rt: HostRuntime) {
    for row in comparisons() {
        let same = same_btf(rt.alloc(), row.first, row.second);
        equal(&rt, &same, &row.answer, &(row.first, row.second));
    }
}

/// A comparison reports the fault of a faulty file on either side.
fn check_compared(rt: &impl Abort, alloc: Global, bytes: &[u8], fault: BtfFault) {
    for (first, second, side) in [
        (bytes, INT, SideError::First(fault)),
        (INT, bytes, SideError::Second(fault)),
        (bytes, bytes, SideError::First(fault)),
    ] {
        let same = same_btf(alloc, first, second);
        equal(rt, &same, &Err(side), &"a comparison");
    }
}

/// Canonical bytes, comparison, and the engine report the first fault.
pub(crate) fn check_refused(rt: &impl Abort, alloc: Global, bytes: &[u8], fault: BtfFault) {
    let error = BtfError::Fault(fault);
    returns(rt, canon_btf(alloc, bytes), Err(error), &"canonical bytes");
    check_compared(rt, alloc, bytes, fault);
    let ended = stopped(RunCause::Fault(fault), 0);
    let devices = FusedDevices::sound(bytes, 7);
    devices.check_btf(rt, alloc, Order::Little, ended, b"", &"a run");
}

fn check_all_refused(rt: &impl Abort, alloc: Global, files: &[FaultyBtf]) {
    for file in files {
        check_refused(rt, alloc, file.bytes, file.fault);
    }
}

#[test]
fn faulty_files_are_refused_with_their_first_fault(rt: HostRuntime) {
    for files in faulty_files() {
        check_all_refused(&rt, rt.alloc(), files);
    }
}
