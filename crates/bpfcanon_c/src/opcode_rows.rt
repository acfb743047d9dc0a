//! Records made from slots, without decoding the instruction.
//!
//! In the records of most instructions, the registers, the offset and the immediate are those of
//! the slot, and the opcode determines the other fields, which are looked up in a table here. To
//! decode a slot takes several `match`es on its form, whose branches are mispredicted on most
//! instructions. The record of a wide load is made from its two slots.
//!
//! Nothing is validated here: the slots are those of an instruction. The records of other
//! instructions are made in `insn_rows.rt`. The prover compares each of the 256 entries of the
//! table with the one that the form of its opcode needs.

ghost use Rattle.std.specs.Prelude.{◌≡◌, ◌↔◌, IfSome, IsTrue};
ghost use Rattle.bpfcanon_c.specs.OpcodeRows as spec;

use crate::insn_rows::{InsnRow, bare_row};
use bpf_insn::Slot;

/// The opcode of wide loads (RFC 9669 section 5.4).
pub const WIDE: u8 = 0x18;

/// The fields that an opcode determines in the records of its instructions, and which of these
/// instructions have such a record.
#[derive(Clone, Copy)]
pub struct OpcodeRow {
    /// This field and the next four are those of [`InsnRow`].
    form: u8,
    op: u8,
    bits: u8,
    by_reg: u8,
    group: u16,
    /// Whether the src field may have any value; if not, it has to be 0.
    any_src: bool,
    /// Likewise for the offset field.
    any_off: bool,
}

// The groups in these records, as the bits of `InsnRow::group`.
const BASE32: u16 = 1;

const BASE64: u16 = 2;

const DIVMUL32: u16 = 16;

const DIVMUL64: u16 = 32;

const PACKET: u16 = 64;

/// An entry of the table, its fields in order. If the last two are left out, src and offset may
/// have any value.
macro_rules! row {
    ($form:expr, $op:expr, $bits:expr, $by_reg:expr, $group:expr) => {
        row!($form, $op, $bits, $by_reg, $group, true, true)
    };
    ($form:expr, $op:expr, $bits:expr, $by_reg:expr, $group:expr, $any_src:expr, $any_off:expr) => {
        Some(OpcodeRow {
            form: $form,
            op: $op,
            bits: $bits,
            by_reg: $by_reg,
            group: $group,
            any_src: $any_src,
            any_off: $any_off,
        })
    };
}

/// An arithmetic class (RFC 9669 section 4.1): for each code its entries with an immediate and with
/// a register. Those of division, remainder and moves are for offset 0: with another offset these
/// are signed, or extend the sign. Byte swaps have no entry.
#[rattlefmt::skip]
macro_rules! arithmetic {
    ($bits:expr, $base:expr, $divmul:expr) => {
        [
            row!(1, 0x0, $bits, 0, $base), row!(1, 0x0, $bits, 1, $base),
            row!(1, 0x1, $bits, 0, $base), row!(1, 0x1, $bits, 1, $base),
            row!(1, 0x2, $bits, 0, $divmul), row!(1, 0x2, $bits, 1, $divmul),
            row!(1, 0x3, $bits, 0, $divmul, true, false),
            row!(1, 0x3, $bits, 1, $divmul, true, false),
            row!(1, 0x4, $bits, 0, $base), row!(1, 0x4, $bits, 1, $base),
            row!(1, 0x5, $bits, 0, $base), row!(1, 0x5, $bits, 1, $base),
            row!(1, 0x6, $bits, 0, $base), row!(1, 0x6, $bits, 1, $base),
            row!(1, 0x7, $bits, 0, $base), row!(1, 0x7, $bits, 1, $base),
            row!(3, 0, $bits, 0, $base), None,
            row!(1, 0x9, $bits, 0, $divmul, true, false),
            row!(1, 0x9, $bits, 1, $divmul, true, false),
            row!(1, 0xa, $bits, 0, $base), row!(1, 0xa, $bits, 1, $base),
            row!(1, 0xb, $bits, 0, $base, true, false),
            row!(1, 0xb, $bits, 1, $base, true, false),
            row!(1, 0xc, $bits, 0, $base), row!(1, 0xc, $bits, 1, $base),
            None, None, None, None, None, None,
        ]
    };
}

/// A jump class (RFC 9669 section 4.3): for each code its entries with an immediate and with a
/// register.
#[rattlefmt::skip]
macro_rules! jumps {
    ($bits:expr, $base:expr, $jump:expr, $call:expr, $exit:expr) => {
        [
            $jump, None,
            row!(7, 0x1, $bits, 0, $base), row!(7, 0x1, $bits, 1, $base),
            row!(7, 0x2, $bits, 0, $base), row!(7, 0x2, $bits, 1, $base),
            row!(7, 0x3, $bits, 0, $base), row!(7, 0x3, $bits, 1, $base),
            row!(7, 0x4, $bits, 0, $base), row!(7, 0x4, $bits, 1, $base),
            row!(7, 0x5, $bits, 0, $base), row!(7, 0x5, $bits, 1, $base),
            row!(7, 0x6, $bits, 0, $base), row!(7, 0x6, $bits, 1, $base),
            row!(7, 0x7, $bits, 0, $base), row!(7, 0x7, $bits, 1, $base),
            $call, None, $exit, None,
            row!(7, 0xa, $bits, 0, $base), row!(7, 0xa, $bits, 1, $base),
            row!(7, 0xb, $bits, 0, $base), row!(7, 0xb, $bits, 1, $base),
            row!(7, 0xc, $bits, 0, $base), row!(7, 0xc, $bits, 1, $base),
            row!(7, 0xd, $bits, 0, $base), row!(7, 0xd, $bits, 1, $base),
            None, None, None, None,
        ]
    };
}

/// The entry of each opcode: a row for each class, with an entry for each value of the five high
/// bits. Classes 0 to 3 are in order of mode and size.
#[rattlefmt::skip]
static ROWS: [[Option<OpcodeRow>; 32]; 8] = [
    // Loads from packet data (RFC 9669 section 5.5); wide loads have no entry.
    [
        None, None, None, None,
        row!(18, 0, 32, 0, PACKET), row!(18, 0, 16, 0, PACKET), row!(18, 0, 8, 0, PACKET), None,
        row!(19, 0, 32, 0, PACKET), row!(19, 0, 16, 0, PACKET), row!(19, 0, 8, 0, PACKET), None,
        None, None, None, None, None, None, None, None, None, None, None, None,
        None, None, None, None, None, None, None, None,
    ],
    // Loads, zero-extending and sign-extending (RFC 9669 sections 5.1 and 5.2).
    [
        None, None, None, None, None, None, None, None, None, None, None, None,
        row!(12, 0, 32, 0, BASE32), row!(12, 0, 16, 0, BASE32),
        row!(12, 0, 8, 0, BASE32), row!(12, 0, 64, 0, BASE64),
        row!(13, 0, 32, 0, BASE64), row!(13, 0, 16, 0, BASE64), row!(13, 0, 8, 0, BASE64), None,
        None, None, None, None, None, None, None, None, None, None, None, None,
    ],
    // Stores of immediates (RFC 9669 section 5.1).
    [
        None, None, None, None, None, None, None, None, None, None, None, None,
        row!(14, 0, 32, 0, BASE32), row!(14, 0, 16, 0, BASE32),
        row!(14, 0, 8, 0, BASE32), row!(14, 0, 64, 0, BASE64),
        None, None, None, None, None, None, None, None, None, None, None, None,
        None, None, None, None,
    ],
    // Stores of registers (RFC 9669 section 5.1); atomic operations have no entry.
    [
        None, None, None, None, None, None, None, None, None, None, None, None,
        row!(15, 0, 32, 0, BASE32), row!(15, 0, 16, 0, BASE32),
        row!(15, 0, 8, 0, BASE32), row!(15, 0, 64, 0, BASE64),
        None, None, None, None, None, None, None, None, None, None, None, None,
        None, None, None, None,
    ],
    arithmetic!(32, BASE32, DIVMUL32),
    // Calls of helpers have src 0; the other calls have no entry.
    jumps!(64, BASE64, row!(5, 0, 0, 0, BASE32), row!(8, 0, 0, 0, BASE32, false, true),
        row!(11, 0, 0, 0, BASE32)),
    jumps!(32, BASE32, row!(6, 0, 0, 0, BASE32), None, None),
    arithmetic!(64, BASE64, DIVMUL64),
];

/// The entry of an opcode. `None` if no instruction has this opcode, or if the records of its
/// instructions don't have the fields of the slot.
#[inline(always)]
pub fn opcode_row(opcode: u8) -> Option<OpcodeRow>
    ensures { IfSome result (spec.MakesRows opcode) }
{
    ROWS[(opcode % 8) as usize][(opcode / 8) as usize]
}

/// Whether [`slot_row`] makes the record of the instruction with this slot.
#[inline(always)]
pub fn allows(row: OpcodeRow, slot: Slot) -> bool
    ensures { IsTrue result ↔ spec.Allows row slot }
{
    (row.any_src || slot.src == 0) && (row.any_off || slot.off == 0)
}

/// The record with the registers, the offset and the immediate of the slot, and the fields that its
/// opcode determines.
#[inline(always)]
pub fn slot_row(pos: u64, slot: Slot, row: OpcodeRow) -> InsnRow
    ensures { result ≡ spec.slot_row pos slot row }
{
    InsnRow {
        op: row.op,
        bits: row.bits,
        dst: slot.dst,
        src: slot.src,
        by_reg: row.by_reg,
        off: slot.off,
        group: row.group,
        imm: slot.imm,
        pos,
        ..bare_row(row.form)
    }
}

/// The record of the wide load with this first slot and the immediate of the second one.
#[inline(always)]
pub fn wide_row(pos: u64, slot: Slot, next_imm: i32) -> InsnRow
    ensures { result ≡ spec.wide_row pos slot next_imm }
{
    InsnRow {
        op: slot.src,
        bits: 64,
        dst: slot.dst,
        len: 16,
        group: BASE64,
        imm: slot.imm,
        next_imm,
        pos,
        ..bare_row(17)
    }
}
