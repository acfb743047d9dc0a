//! Recognising plain instructions with two table lookups.
//!
//! In a plain instruction, each field after the opcode is either 0 or free, and registers are at
//! most r10. Its slot can therefore be checked in one step, as a 64-bit number: one table contains
//! the bits that must be 0 for each opcode, another one the number of registers above r10 for each
//! register byte. Not plain are wide loads, byte swaps, atomic operations, arithmetic operations
//! with an offset, and calls other than those of helpers by static ID.
//!
//! Most instructions are plain, and this check makes no value and has no branch for each field. The
//! prover compares both tables with their definitions. A slot that isn't plain may still be an
//! instruction, which `read.rt` finds out.

ghost use Rattle.std.specs.Prelude.{◌≡◌, IsTrue};
ghost use Rattle.bpf_words.specs.Slots.{AreFields, Fields, encoded};
ghost use Rattle.bpf_insn.specs.Plain.{IsPlain, registers_above, zero_bits_at};

use crate::Order;

/// An opcode without plain instructions. Bit 0 of a slot is set before the check, so this mask
/// rejects every slot.
const NONE: u64 = 1;

/// The destination and the source are free; all other bits after the opcode must be 0. The masks
/// below likewise name the free fields.
const REG: u64 = 0xffff_ffff_ffff_0000;

/// The destination, the source and the offset.
const REG_OFF: u64 = 0xffff_ffff_0000_0000;

/// Only the offset.
const OFF: u64 = 0xffff_ffff_0000_ff00;

/// Only the immediate.
const ID: u64 = 0x0000_0000_ffff_ff00;

/// None of the fields after the opcode.
const EXIT: u64 = 0xffff_ffff_ffff_ff00;

/// The entries of a table by opcode, from those of each class in order of the five high bits. Both
/// arithmetic classes have the same.
macro_rules! by_opcode {
    (
        ld: [$($ld:expr),*], ldx: [$($ldx:expr),*], st: [$($st:expr),*], stx: [$($stx:expr),*],
        alu: [$($alu:expr),*], jmp: [$($jmp:expr),*], jmp32: [$($jmp32:expr),*]
    ) => {
        [$($ld, $ldx, $st, $stx, $alu, $jmp, $jmp32, $alu),*]
    };
}

/// The bits that must be 0 for each opcode: a list for each class, in the order of `FORMS` in
/// `form.rt`. The arguments depend on the byte order, since they leave dst or src free: `imm` dst
/// and the immediate, `imm_off` these and the offset, `dst` only dst, and `src_imm` src and the
/// immediate.
macro_rules! zeros_by_class {
    (imm: $imm:expr, imm_off: $imm_off:expr, dst: $dst:expr, src_imm: $src_imm:expr) => {
        by_opcode!(
            // Wide loads, and loads from packet data.
            ld: [
                NONE, NONE, NONE, NONE, ID, ID, ID, NONE, $src_imm, $src_imm, $src_imm, NONE,
                NONE, NONE, NONE, NONE, NONE, NONE, NONE, NONE, NONE, NONE, NONE, NONE,
                NONE, NONE, NONE, NONE, NONE, NONE, NONE, NONE
            ],
            // Loads, zero-extending and sign-extending.
            ldx: [
                NONE, NONE, NONE, NONE, NONE, NONE, NONE, NONE, NONE, NONE, NONE, NONE,
                REG_OFF, REG_OFF, REG_OFF, REG_OFF, REG_OFF, REG_OFF, REG_OFF, NONE,
                NONE, NONE, NONE, NONE, NONE, NONE, NONE, NONE, NONE, NONE, NONE, NONE
            ],
            // Stores of immediates.
            st: [
                NONE, NONE, NONE, NONE, NONE, NONE, NONE, NONE, NONE, NONE, NONE, NONE,
                $imm_off, $imm_off, $imm_off, $imm_off,
                NONE, NONE, NONE, NONE, NONE, NONE, NONE, NONE, NONE, NONE, NONE, NONE,
                NONE, NONE, NONE, NONE
            ],
            // Stores of registers, and atomic operations.
            stx: [
                NONE, NONE, NONE, NONE, NONE, NONE, NONE, NONE, NONE, NONE, NONE, NONE,
                REG_OFF, REG_OFF, REG_OFF, REG_OFF,
                NONE, NONE, NONE, NONE, NONE, NONE, NONE, NONE, NONE, NONE, NONE, NONE,
                NONE, NONE, NONE, NONE
            ],
            // Eight codes with an immediate and with a register, NEG, four more, and byte swaps.
            alu: [
                $imm, REG, $imm, REG, $imm, REG, $imm, REG,
                $imm, REG, $imm, REG, $imm, REG, $imm, REG,
                $dst, NONE,
                $imm, REG, $imm, REG, $imm, REG, $imm, REG,
                NONE, NONE, NONE, NONE, NONE, NONE
            ],
            // JA, seven codes with an immediate and with a register, CALL, EXIT, and four more.
            jmp: [
                OFF, NONE,
                $imm_off, REG_OFF, $imm_off, REG_OFF, $imm_off, REG_OFF, $imm_off, REG_OFF,
                $imm_off, REG_OFF, $imm_off, REG_OFF, $imm_off, REG_OFF,
                ID, NONE, EXIT, NONE,
                $imm_off, REG_OFF, $imm_off, REG_OFF, $imm_off, REG_OFF, $imm_off, REG_OFF,
                NONE, NONE, NONE, NONE
            ],
            // Likewise with 32-bit operands, and without CALL and EXIT.
            jmp32: [
                ID, NONE,
                $imm_off, REG_OFF, $imm_off, REG_OFF, $imm_off, REG_OFF, $imm_off, REG_OFF,
                $imm_off, REG_OFF, $imm_off, REG_OFF, $imm_off, REG_OFF,
                NONE, NONE, NONE, NONE,
                $imm_off, REG_OFF, $imm_off, REG_OFF, $imm_off, REG_OFF, $imm_off, REG_OFF,
                NONE, NONE, NONE, NONE
            ]
        )
    };
}

/// The table of little-endian files, whose register byte has dst in its low half.
#[rattlefmt::skip]
static ZERO_LITTLE: [u64; 256] = zeros_by_class!(
    imm: 0x0000_0000_ffff_f000, imm_off: 0x0000_0000_0000_f000,
    dst: 0xffff_ffff_ffff_f000, src_imm: 0x0000_0000_ffff_0f00
);

/// The table of big-endian files, whose register byte has dst in its high half.
#[rattlefmt::skip]
static ZERO_BIG: [u64; 256] = zeros_by_class!(
    imm: 0x0000_0000_ffff_0f00, imm_off: 0x0000_0000_0000_0f00,
    dst: 0xffff_ffff_ffff_0f00, src_imm: 0x0000_0000_ffff_f000
);

/// The bits that must be 0 in a slot with this opcode.
#[inline(always)]
fn zero_bits(order: Order, opcode: u8) -> u64
    ensures { result ≡ zero_bits_at order opcode }
{
    match order {
        Order::Little => ZERO_LITTLE[opcode as usize],
        Order::Big => ZERO_BIG[opcode as usize],
    }
}

/// A row for each high half of a register byte: one value for the 11 low halves up to 10, another
/// one for the 5 above.
macro_rules! by_registers {
    ($($low:literal $high:literal),*) => {
        [$(
            $low, $low, $low, $low, $low, $low, $low, $low, $low, $low, $low,
            $high, $high, $high, $high, $high,
        )*]
    };
}

/// The number of registers above 10 in each register byte.
static ABOVE: [u64; 256] = by_registers!(
    0 1, 0 1, 0 1, 0 1, 0 1, 0 1, 0 1, 0 1, 0 1, 0 1, 0 1,
    1 2, 1 2, 1 2, 1 2, 1 2
);

/// The number of registers above 10 in a register byte.
#[inline(always)]
fn registers_above_ten(registers: u8) -> u64
    ensures { result ≡ registers_above registers }
{
    ABOVE[registers as usize]
}

/// Whether 8 bytes are a plain instruction. `false` for any other instruction, valid or not.
#[inline(always)]
pub(crate) fn is_plain(order: Order, bytes: &[u8; 8]) -> bool
    ensures { IsTrue result
        → (slot : Fields) × (AreFields slot × ((bytes.now ≡ encoded order slot) × IsPlain slot)) }
{
    let word = u64::from_le_bytes(*bytes) | 1;
    let set = word & zero_bits(order, bytes[0]);
    (set | registers_above_ten(bytes[1])) == 0
}
