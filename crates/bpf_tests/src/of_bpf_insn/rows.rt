//! What each call returns: for the bytes of every form of instruction, for faulty bytes, and for files.

use super::holds;
use super::texts::shows;
use bpf_insn::{
    Group, Insn, InsnError, InsnFront, Order, Reg, SlotCause, SlotFault, decode_insns, group_of,
    insn_bytes, insn_front, insn_len, read_insn,
};
use std::alloc::{AllocError, Global};
use std::process::Abort;
use std::test::Fail;

/// The little-endian bytes of an instruction, what `Debug` shows of it, and its group; or faulty bytes, what is wrong with them,
/// and their first fault. A static can't hold a register, whose number has a bound.
#[derive(Clone, Copy)]
pub(super) struct Row {
    what: &'static str,
    little: &'static [u8],
    answer: Result<Group, SlotFault>,
}

/// Rows in pieces, as a proof takes longer for the same rows in one: the time of a piece is the square of its number of strings.
type Table = [&'static [Row]; 8];

macro_rules! row {
    ($little:literal => $insn:literal, $group:ident) => {
        Row { what: $insn, little: $little, answer: Ok(Group::$group) }
    };
}

mod arithmetic;
mod faults;
mod jumps;
mod load_store;

/// The same bytes in the other order: the halves of the register byte and the bytes of each number are exchanged.
pub(super) fn in_order(alloc: Global, order: Order, little: &[u8]) -> Result<Vec<u8>, AllocError> {
    let mut bytes = little.to_vec(alloc)?;
    if order == Order::Little {
        return Ok(bytes);
    }
    if let Some(registers) = bytes.get_mut(1) {
        *registers = registers.rotate_left(4);
    }
    for (start, end) in [(2, 4), (4, 8), (8, 12), (12, 16)] {
        if end <= bytes.len() {
            bytes[start..end].reverse();
        }
    }
    Ok(bytes)
}

/// Whether `Debug` shows an instruction as this text.
fn is_shown(alloc: Global, insn: Insn, text: &str) -> Result<bool, AllocError> {
    let shown = format!(in alloc; "{insn:?}")?;
    Ok(shown.as_str() == text)
}

/// Whether an instruction has these bytes, and only zeros after them.
fn is_encoded(order: Order, insn: Insn, bytes: &[u8]) -> bool {
    let (encoded, len) = insn_bytes(order, insn);
    &encoded[..len] == bytes && encoded[len..] == [0; 16][len..]
}

/// Whether each call returns this instruction, of this group, for these bytes.
fn is_read(
    alloc: Global,
    order: Order,
    bytes: &[u8],
    (text, group): (&str, Group),
) -> Result<bool, AllocError> {
    let Ok(found) = read_insn(order, bytes) else {
        return Ok(false);
    };
    let (insn, len) = found;
    let has_len = len == bytes.len() && insn_len(order, bytes) == Ok(len);
    let is_encoded = is_encoded(order, insn, bytes) && group_of(insn) == group;
    Ok(has_len && is_encoded && is_shown(alloc, insn, text)?)
}

/// Whether both calls find this fault in these bytes.
fn has_fault(order: Order, bytes: &[u8], fault: SlotFault) -> bool {
    read_insn(order, bytes).err() == Some(fault) && insn_len(order, bytes) == Err(fault)
}

/// Whether each call returns what the row says of these bytes.
fn is_right(alloc: Global, order: Order, bytes: &[u8], row: &Row) -> Result<bool, AllocError> {
    match row.answer {
        Ok(group) => is_read(alloc, order, bytes, (row.what, group)),
        Err(fault) => Ok(has_fault(order, bytes, fault)),
    }
}

/// Checks rows in a byte order.
fn check_rows(
    rt: &impl Abort,
    alloc: Global,
    order: Order,
    rows: &[Row],
) -> Result<(), AllocError> {
    for row in rows {
        let bytes = in_order(alloc, order, row.little)?;
        holds(rt, is_right(alloc, order, &bytes, row)?, order, row.what);
    }
    Ok(())
}

/// Checks the rows of a table in both orders.
fn check_table(rt: &impl Abort, alloc: Global, table: &Table) -> Result<(), AllocError> {
    for rows in table {
        check_rows(rt, alloc, Order::Little, rows)?;
        check_rows(rt, alloc, Order::Big, rows)?;
    }
    Ok(())
}

#[test]
fn instructions_and_faults_are_found_in_both_orders(rt: HostRuntime) -> Result<(), Fail> {
    for table in [
        arithmetic::arithmetic(),
        jumps::jumps(),
        load_store::load_store(),
        faults::first_fields(),
        faults::middle_fields(),
        faults::last_fields(),
    ] {
        check_table(&rt, rt.alloc(), &table)?;
    }
    Ok(())
}

/// The bytes of one instruction in both orders, and the instruction by its `Debug` text.
#[derive(Clone, Copy)]
struct OrderRow {
    little: &'static [u8],
    big: &'static [u8],
    insn: &'static str,
}

#[rattlefmt::skip]
static ORDERS: [OrderRow; 7] = [
    OrderRow { little: b"\x95\0\0\0\0\0\0\0", big: b"\x95\0\0\0\0\0\0\0", insn: "Exit" },
    OrderRow { little: b"\xbf\x21\0\0\0\0\0\0", big: b"\xbf\x12\0\0\0\0\0\0", insn: "Alu { width: W64, op: Mov, dst: Reg { number: 1 }, arg: Reg(Reg { number: 2 }) }" },
    OrderRow { little: b"\xb7\0\0\0\xfe\xff\xff\xff", big: b"\xb7\0\0\0\xff\xff\xff\xfe", insn: "Alu { width: W64, op: Mov, dst: Reg { number: 0 }, arg: Imm(-2) }" },
    OrderRow { little: b"\xb4\x01\0\0\x07\0\0\0", big: b"\xb4\x10\0\0\0\0\0\x07", insn: "Alu { width: W32, op: Mov, dst: Reg { number: 1 }, arg: Imm(7) }" },
    OrderRow { little: b"\xdb\x21\xf8\xff\xf1\0\0\0", big: b"\xdb\x12\xff\xf8\0\0\0\xf1", insn: "Atomic { width: W64, op: Cmpxchg, dst: Reg { number: 1 }, src: Reg { number: 2 }, off: -8 }" },
    OrderRow { little: b"\x18\x01\0\0\x88\x77\x66\x55\0\0\0\0\x44\x33\x22\x11", big: b"\x18\x10\0\0\x55\x66\x77\x88\0\0\0\0\x11\x22\x33\x44", insn: "Wide { dst: Reg { number: 1 }, what: Number(1234605616436508552) }" },
    OrderRow { little: b"\x18\x31\0\0\x03\0\0\0\0\0\0\0\x01\0\0\0", big: b"\x18\x13\0\0\0\0\0\x03\0\0\0\0\0\0\0\x01", insn: "Wide { dst: Reg { number: 1 }, what: VarAddr(3, 1) }" },
];

/// Whether the bytes of a row in this order are decoded to one instruction, which `Debug` shows as its text.
fn is_one_insn(
    alloc: Global,
    order: Order,
    bytes: &[u8],
    row: &OrderRow,
) -> Result<bool, AllocError> {
    let is_turned = in_order(alloc, order, row.little)?.as_slice() == bytes;
    let Ok(insns) = decode_insns(alloc, order, bytes) else {
        return Ok(false);
    };
    match insns.first() {
        Some(insn) if is_turned && insns.len() == 1 => is_shown(alloc, *insn, row.insn),
        _ => Ok(false),
    }
}

#[test]
fn files_of_one_instruction_are_decoded_in_both_orders(rt: HostRuntime) -> Result<(), Fail> {
    for row in &ORDERS {
        let is_right = is_one_insn(rt.alloc(), Order::Little, row.little, row)?;
        holds(&rt, is_right, Order::Little, row.insn);
        let is_right = is_one_insn(rt.alloc(), Order::Big, row.big, row)?;
        holds(&rt, is_right, Order::Big, row.insn);
    }
    Ok(())
}

/// A signed division, an exchange, an exit and a wide load.
const FILE: &[u8; 40] = b"\
    \x37\x01\x01\0\x03\0\0\0\xdb\x21\xf8\xff\xf1\0\0\0\x95\0\0\0\0\0\0\0\
    \x18\x01\0\0\x88\x77\x66\x55\0\0\0\0\x44\x33\x22\x11";

/// The instructions in the first bytes of the file as `Debug` shows them, if the last one is complete.
fn whole_insns(len: usize) -> Option<&'static str> {
    match len {
        0 => Some("[]"),
        8 => Some("[Alu { width: W64, op: Sdiv, dst: Reg { number: 1 }, arg: Imm(3) }]"),
        16 => Some(
            "[Alu { width: W64, op: Sdiv, dst: Reg { number: 1 }, arg: Imm(3) }, \
            Atomic { width: W64, op: Cmpxchg, dst: Reg { number: 1 }, src: Reg { number: 2 }, off: -8 }]",
        ),
        24 => Some(
            "[Alu { width: W64, op: Sdiv, dst: Reg { number: 1 }, arg: Imm(3) }, \
            Atomic { width: W64, op: Cmpxchg, dst: Reg { number: 1 }, src: Reg { number: 2 }, off: -8 }, Exit]",
        ),
        40 => Some(
            "[Alu { width: W64, op: Sdiv, dst: Reg { number: 1 }, arg: Imm(3) }, \
            Atomic { width: W64, op: Cmpxchg, dst: Reg { number: 1 }, src: Reg { number: 2 }, off: -8 }, Exit, \
            Wide { dst: Reg { number: 1 }, what: Number(1234605616436508552) }]",
        ),
        _ => None,
    }
}

/// The first `len` bytes of the file: the length and the number of their complete instructions, and where they are cut.
fn front_of(len: usize) -> InsnFront {
    let (whole, count) = match len {
        40 => (40, 4),
        24..=39 => (24, 3),
        _ => (len / 8 * 8, len as u64 / 8),
    };
    let truncated = SlotFault {
        pos: if len < 32 { 0 } else { 8 },
        cause: SlotCause::Truncated,
    };
    InsnFront {
        len: whole,
        count,
        stop: if len == whole { None } else { Some(truncated) },
    }
}

/// Whether the instructions of a file are those that `Debug` shows as this text.
fn are_shown(alloc: Global, insns: &[Insn], text: Option<&str>) -> Result<bool, AllocError> {
    let shown = format!(in alloc; "{insns:?}")?;
    Ok(text == Some(shown.as_str()))
}

/// Whether the first bytes of the file are decoded, or refused as truncated in their last slot.
fn is_cut_right(alloc: Global, bytes: &[u8]) -> Result<bool, AllocError> {
    let len = bytes.len();
    let text = whole_insns(len);
    match decode_insns(alloc, Order::Little, bytes) {
        Ok(insns) => are_shown(alloc, &insns, text),
        Err(InsnError::Fault(fault)) => {
            let is_last = fault.pos == (len - len % 8) as u64;
            Ok(text.is_none() && is_last && fault.cause == SlotCause::Truncated)
        }
        Err(InsnError::Memory) => Ok(false),
    }
}

#[test]
fn a_file_that_is_cut_anywhere_is_decoded_or_refused(rt: HostRuntime) -> Result<(), Fail> {
    for len in 0..=FILE.len() {
        let is_found = insn_front(Order::Little, &FILE[..len]) == front_of(len);
        let is_cut_right = is_cut_right(rt.alloc(), &FILE[..len])?;
        assert!(rt; is_found && is_cut_right, "{len}");
    }
    Ok(())
}

#[test]
fn registers_have_the_numbers_up_to_ten(rt: HostRuntime) {
    for number in 0..=u8::MAX {
        let is_right = match Reg::new(number) {
            Some(register) => register.number() == number && number <= 10,
            None => number > 10,
        };
        assert!(rt; is_right, "{number}");
    }
}

/// The causes by their numbers, their names, and their sentences.
#[rattlefmt::skip]
const CAUSES: [(SlotCause, &str, &str); 8] = [
    (SlotCause::Truncated, "Truncated", "the input ends inside an instruction"),
    (SlotCause::Opcode, "Opcode", "no instruction has this opcode"),
    (SlotCause::Dst, "Dst", "no instruction with this opcode has this destination register"),
    (SlotCause::Src, "Src", "no instruction with this opcode has this source register"),
    (SlotCause::Offset, "Offset", "no instruction with this opcode and these registers has this offset"),
    (SlotCause::Imm, "Imm", "no instruction with this opcode, these registers and this offset has this immediate"),
    (SlotCause::Reserved, "Reserved", "the second slot of a wide load has an opcode, a register or an offset that is not zero"),
    (SlotCause::NextImm, "NextImm", "the immediate of the second slot is not zero, and this kind of wide load has one number only"),
];

/// Whether a cause has this number, this name and this sentence, and its name is shown.
fn has_strings(
    alloc: Global,
    cause: SlotCause,
    number: usize,
    name: &str,
    sentence: &str,
) -> Result<bool, AllocError> {
    let is_found = cause.name() == name && cause.describe() == sentence;
    Ok(usize::from(cause.number()) == number && is_found && shows(alloc, &cause, name)?)
}

#[test]
fn causes_have_these_strings(rt: HostRuntime) -> Result<(), Fail> {
    for (index, (cause, name, sentence)) in CAUSES.iter().enumerate() {
        let has_strings = has_strings(rt.alloc(), *cause, index + 1, name, sentence)?;
        assert!(rt; has_strings, "{name}");
    }
    Ok(())
}
