//! The conformance groups or the faults of files, from their bytes and from their instructions.

use super::holds;
use super::rows::in_order;
use bpf_insn::{
    Group, GroupSet, Insn, InsnError, Order, SlotCause, SlotFault, decode_insns, groups_in,
    groups_of,
};
use std::alloc::{AllocError, Global};
use std::process::Abort;
use std::test::Fail;

/// The number of exits with which a file begins, the little-endian bytes of the instructions after them, and the groups of the file
/// (RFC 9669 section 2.4) or its fault.
#[derive(Clone, Copy)]
struct FileRow {
    what: &'static str,
    exits: usize,
    insns: &'static [&'static [u8]],
    answer: Result<&'static [Group], SlotFault>,
}

macro_rules! row {
    ($what:literal: $($insn:literal),* => $($group:ident),*) => { row!(0, $what: $($insn),* => $($group),*) };
    ($exits:literal, $what:literal: $($insn:literal),* => $($group:ident),*) => {
        FileRow { what: $what, exits: $exits, insns: &[$($insn),*], answer: Ok(&[$(Group::$group),*]) }
    };
}

macro_rules! faulty {
    ($what:literal: $($insn:literal),* => $pos:literal, $cause:ident) => { faulty!(0, $what: $($insn),* => $pos, $cause) };
    ($exits:literal, $what:literal: $($insn:literal),* => $pos:literal, $cause:ident) => {
        FileRow {
            what: $what,
            exits: $exits,
            insns: &[$($insn),*],
            answer: Err(SlotFault { pos: $pos, cause: SlotCause::$cause }),
        }
    };
}

#[rattlefmt::skip]
static BASE32: &[FileRow] = &[
    row!("no instructions":  => ),
    row!("mov32 r1, r4": b"\xbc\x41\0\0\0\0\0\0" => Base32),
    row!("a move of 8 bits to 32": b"\xbc\x21\x08\0\0\0\0\0" => Base32),
    row!("neg32 r1": b"\x84\x01\0\0\0\0\0\0" => Base32),
    row!("exit": b"\x95\0\0\0\0\0\0\0" => Base32),
    row!("a jump": b"\x05\0\x02\0\0\0\0\0" => Base32),
    row!("a long jump": b"\x06\0\0\0\x02\0\0\0" => Base32),
    row!("a branch of 32 bits": b"\x16\x01\x02\0\x07\0\0\0" => Base32),
    row!("the three kinds of call": b"\x85\0\0\0\x01\0\0\0", b"\x85\x10\0\0\x01\0\0\0", b"\x85\x20\x01\0\x01\0\0\0" => Base32),
    row!("loads and stores up to a word": b"\x61\x21\x04\0\0\0\0\0", b"\x6a\x01\x04\0\x07\0\0\0", b"\x73\x21\x04\0\0\0\0\0" => Base32),
    row!("swaps of 16 and 32 bits": b"\xd4\x01\0\0\x10\0\0\0", b"\xdc\x01\0\0\x20\0\0\0", b"\xd7\x01\0\0\x20\0\0\0" => Base32),
];

#[rattlefmt::skip]
static BASE64: &[FileRow] = &[
    row!("mov r1, r2": b"\xbf\x21\0\0\0\0\0\0" => Base32, Base64),
    row!("a move of 32 bits to 64": b"\xbf\x21\x20\0\0\0\0\0" => Base32, Base64),
    row!("a branch of 64 bits": b"\x1d\x21\x02\0\0\0\0\0" => Base32, Base64),
    row!("a load of 8 bytes": b"\x79\x21\x04\0\0\0\0\0" => Base32, Base64),
    row!("a load that extends the sign": b"\x91\x21\x04\0\0\0\0\0" => Base32, Base64),
    row!("a wide load": b"\x18\x01\0\0\x88\x77\x66\x55\0\0\0\0\x44\x33\x22\x11" => Base32, Base64),
    row!("le64 after le16": b"\xd4\x01\0\0\x10\0\0\0", b"\xd4\x01\0\0\x40\0\0\0" => Base32, Base64),
    row!("be64 after be32": b"\xdc\x01\0\0\x20\0\0\0", b"\xdc\x01\0\0\x40\0\0\0" => Base32, Base64),
    row!("swap64 after swap16": b"\xd7\x01\0\0\x10\0\0\0", b"\xd7\x01\0\0\x40\0\0\0" => Base32, Base64),
];

#[rattlefmt::skip]
static OTHER_GROUPS: &[FileRow] = &[
    row!("atomic_add32 [r1+0], r4": b"\xc3\x41\0\0\0\0\0\0" => Atomic32),
    row!("atomic_add [r0-2], r1": b"\xdb\x10\xfe\xff\0\0\0\0" => Atomic32, Atomic64),
    row!("mul32 r1, r4": b"\x2c\x41\0\0\0\0\0\0" => Divmul32),
    row!("sdiv32 and smod32": b"\x34\x01\x01\0\x03\0\0\0", b"\x9c\x21\x01\0\0\0\0\0" => Divmul32),
    row!("mul r10, r9": b"\x2f\x9a\0\0\0\0\0\0" => Divmul32, Divmul64),
    row!("smod r1, 3": b"\x97\x01\x01\0\x03\0\0\0" => Divmul32, Divmul64),
    row!("ldabsb 4": b"\x30\0\0\0\x04\0\0\0" => Packet),
    row!("ldindh r3, 4": b"\x48\x30\0\0\x04\0\0\0" => Packet),
];

#[rattlefmt::skip]
static MIXED: &[FileRow] = &[
    row!("a signed division, an exchange and an exit": b"\x37\x01\x01\0\x03\0\0\0", b"\xdb\x21\xf8\xff\xf1\0\0\0", b"\x95\0\0\0\0\0\0\0" => Base32, Atomic32, Atomic64, Divmul32, Divmul64),
    row!("all groups": b"\xdb\x21\xf8\xff\xf1\0\0\0", b"\x48\x30\0\0\x04\0\0\0", b"\x2f\x9a\0\0\0\0\0\0", b"\xbf\x21\0\0\0\0\0\0" => Base32, Base64, Atomic32, Atomic64, Divmul32, Divmul64, Packet),
];

#[rattlefmt::skip]
static FAULTY: &[FileRow] = &[
    faulty!("a source of an immediate": b"\x04\x10\0\0\x05\0\0\0" => 1, Src),
    faulty!("a byte after an exit": b"\x95\0\0\0\0\0\0\0", b"\x95" => 8, Truncated),
    faulty!("a wide load's first slot after an exit": b"\x95\0\0\0\0\0\0\0", b"\x18\x01\0\0\0\0\0\0" => 16, Truncated),
    faulty!("an opcode after a wide load": b"\x18\x01\0\0\0\0\0\0\0\0\0\0\0\0\0\0", b"\xff\0\0\0\0\0\0\0" => 16, Opcode),
    faulty!("a destination after an exit": b"\x95\0\0\0\0\0\0\0", b"\x07\x0b\0\0\0\0\0\0" => 9, Dst),
    faulty!("a source after an exit": b"\x95\0\0\0\0\0\0\0", b"\x04\x10\0\0\x05\0\0\0" => 9, Src),
    faulty!("an offset after an exit": b"\x95\0\0\0\0\0\0\0", b"\x07\x01\x01\0\0\0\0\0" => 10, Offset),
    faulty!("an immediate after an exit": b"\x95\0\0\0\0\0\0\0", b"\xd4\x01\0\0\x08\0\0\0" => 12, Imm),
    faulty!("an exit with an immediate after an exit": b"\x95\0\0\0\0\0\0\0", b"\x95\0\0\0\x01\0\0\0" => 12, Imm),
    faulty!("a reserved word after an exit": b"\x95\0\0\0\0\0\0\0", b"\x18\x01\0\0\0\0\0\0\0\0\0\x01\0\0\0\0" => 16, Reserved),
    faulty!("a next immediate after an exit": b"\x95\0\0\0\0\0\0\0", b"\x18\x11\0\0\x03\0\0\0\0\0\0\0\x01\0\0\0" => 20, NextImm),
    faulty!("the first of two": b"\x95\0\0\0\x01\0\0\0", b"\xff\0\0\0\0\0\0\0" => 4, Imm),
];

/// Files of 4 MiB. The program decodes the largest in `tests/process/limits.py`.
#[rattlefmt::skip]
static LARGE: [FileRow; 3] = [
    row!(524_288, "exits only":  => Base32),
    row!(524_287, "a packet load at the end": b"\x48\x30\0\0\x04\0\0\0" => Base32, Packet),
    faulty!(524_287, "half of a wide load at the end": b"\x18\x01\0\0\0\0\0\0" => 4_194_304, Truncated),
];

/// The tables of groups, each named here only: a function that names a table is proved with all of it.
fn files() -> [&'static [FileRow]; 4] {
    [BASE32, BASE64, OTHER_GROUPS, MIXED]
}

/// The bytes of some exits, which are the same in both byte orders.
fn exits(alloc: Global, count: usize) -> Result<Vec<u8>, AllocError> {
    let mut bytes = Vec::new(alloc);
    for _ in 0..count {
        bytes.extend_from_slice(b"\x95\0\0\0\0\0\0\0")?;
    }
    Ok(bytes)
}

/// The bytes of a row in a byte order.
fn file_of(alloc: Global, order: Order, row: &FileRow) -> Result<Vec<u8>, AllocError> {
    let mut bytes = exits(alloc, row.exits)?;
    for insn in row.insns {
        bytes.extend_from_slice(&in_order(alloc, order, insn)?)?;
    }
    Ok(bytes)
}

/// Whether a set has these groups and no other.
fn has_all(set: GroupSet, groups: &[Group]) -> bool {
    for group in Group::ALL {
        if set.has(group) != groups.contains(&group) {
            return false;
        }
    }
    true
}

#[test]
fn sets_are_made_of_groups(rt: HostRuntime) {
    let groups: &[Group] = &[Group::Packet, Group::Base64];
    let set = GroupSet::from(groups);
    let mut listed = set.into_iter();
    let is_listed = listed.next() == Some(Group::Base32)
        && listed.next() == Some(Group::Base64)
        && listed.next() == Some(Group::Packet)
        && listed.next().is_none();
    let sizes = (set.len(), set.is_empty(), GroupSet::default().is_empty());
    assert!(rt; is_listed && sizes == (3, false, true));
}

/// Whether a call on a file returns what the row says.
fn is_answer(found: Result<GroupSet, SlotFault>, row: &FileRow) -> bool {
    match (found, row.answer) {
        (Ok(set), Ok(groups)) => has_all(set, groups),
        (Err(fault), Err(wanted)) => fault == wanted,
        _ => false,
    }
}

/// Whether the instructions of a file begin with its exits, and are as many and of the groups that the row says.
fn is_list(insns: &[Insn], row: &FileRow) -> bool {
    for insn in insns.iter().take(row.exits) {
        if *insn != Insn::Exit {
            return false;
        }
    }
    insns.len() == row.exits.saturating_add(row.insns.len()) && is_answer(Ok(groups_of(insns)), row)
}

/// Whether the instructions of a file are decoded as the row says, or its fault is found.
fn is_decoded(alloc: Global, order: Order, bytes: &[u8], row: &FileRow) -> bool {
    match decode_insns(alloc, order, bytes) {
        Ok(insns) => is_list(&insns, row),
        Err(InsnError::Fault(fault)) => is_answer(Err(fault), row),
        Err(InsnError::Memory) => false,
    }
}

/// Checks a file in a byte order.
fn check_file(
    rt: &impl Abort,
    alloc: Global,
    order: Order,
    row: &FileRow,
) -> Result<(), AllocError> {
    let bytes = file_of(alloc, order, row)?;
    let is_found = is_answer(groups_in(order, &bytes), row);
    holds(
        rt,
        is_found && is_decoded(alloc, order, &bytes, row),
        order,
        row.what,
    );
    Ok(())
}

/// Checks files in both byte orders.
fn check_files(rt: &impl Abort, alloc: Global, rows: &[FileRow]) -> Result<(), AllocError> {
    for row in rows {
        check_file(rt, alloc, Order::Little, row)?;
        check_file(rt, alloc, Order::Big, row)?;
    }
    Ok(())
}

#[test]
fn groups_of_files_are_found_in_both_orders(rt: HostRuntime) -> Result<(), Fail> {
    for rows in files() {
        check_files(&rt, rt.alloc(), rows)?;
    }
    Ok(())
}

#[test]
fn faults_of_files_count_from_the_first_byte(rt: HostRuntime) -> Result<(), Fail> {
    check_files(&rt, rt.alloc(), FAULTY)?;
    Ok(())
}

#[test]
fn large_files_are_decoded(rt: HostRuntime) -> Result<(), Fail> {
    for row in &LARGE {
        check_file(&rt, rt.alloc(), Order::Little, row)?;
    }
    Ok(())
}
