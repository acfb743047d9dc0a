//! The call that encodes records of a fixed size as instructions.
//!
//! A record is encoded before it is checked. Any record has an encoding of some kind, and
//! `read_insn` of `bpf_insn` decides whether these bytes are an instruction, whose record has to be
//! the given one. So no rule for a field is stated twice. Which field of a record is wrong isn't
//! reported: the standard gives records no order of fields.

ghost use Rattle.std.specs.Prelude.{◌≡◌, ◌<◌, ◌-◌, ◌++◌, length, replicate};
ghost use Rattle.std.specs.Prelude.{Decides, MatchOption, MatchResult};
ghost use Rattle.bpf_words.specs.declared.Order.TheVariants.{Little};
ghost use Rattle.bpf_insn.specs.{declared.insn.Insn.Insn, Table.IsInsn, Encoding.encoding};
ghost use Rattle.bpfcanon_c.specs.InsnEncoding as enc;
ghost use Rattle.bpfcanon_c.specs.InsnSteps.{SayInsns};
ghost use Rattle.bpfcanon_c.specs.RawEncoding as spec;

use crate::answer::{Answer, Ending, FaultCode, order_from, report};
use crate::insn_rows::{InsnRow, form_row};
use bpf_insn::{Insn, Order, Slot, read_insn};
use bpf_words::slot_bytes;

/// The size field of an opcode (RFC 9669 section 5) for this number of bits. It is that of 64 bits,
/// 3, for any other number than 8, 16 and 32.
fn size_code(bits: u8) -> u8
    ensures is { result ≡ spec.size_code bits }
    ensures few { result < 4 }
{
    match bits {
        8 => 2,
        16 => 1,
        32 => 0,
        _ => 3,
    }
}

/// The opcode of a record. If the record says no instruction, it is some opcode.
fn raw_opcode(form: u8, op: u8, bits: u8, by_reg: u8) -> u8
    ensures { result ≡ spec.raw_opcode form op bits by_reg }
{
    let alu = if bits == 64 { 7 } else { 4 };
    let branch = if bits == 64 { 5 } else { 6 };
    let size = 8 * size_code(bits);
    match form {
        1 => 16 * (op % 16) + 8 * (by_reg % 2) + alu,
        2 => 0xb8 + alu,
        3 => 0x80 + alu,
        4 => op,
        5 => 0x05,
        6 => 0x06,
        7 => 16 * (op % 16) + 8 * (by_reg % 2) + branch,
        8 | 9 | 10 => 0x85,
        11 => 0x95,
        12 => 0x61 + size,
        13 => 0x81 + size,
        14 => 0x62 + size,
        15 => 0x63 + size,
        16 => 0xc3 + size,
        17 => 0x18,
        18 => 0x20 + size,
        _ => 0x40 + size,
    }
}

/// The first slot of a record. If the record says no instruction, it is some slot.
fn raw_slot(row: InsnRow) -> Slot
    ensures { result ≡ spec.raw_fields row }
{
    let src = match row.form {
        9 => 1,
        10 => 2,
        17 => row.op,
        _ => row.src,
    };
    let off = match row.form {
        1 => i16::from(row.op / 16),
        2 => i16::from(row.from),
        _ => row.off,
    };
    let imm = match row.form {
        4 => i32::from(row.bits),
        16 => i32::from(row.op),
        _ => row.imm,
    };
    Slot {
        opcode: raw_opcode(row.form, row.op, row.bits, row.by_reg),
        dst: row.dst % 16,
        src: src % 16,
        off,
        imm,
    }
}

/// Whether the first seven fields of two records are equal.
fn same_parts(a: InsnRow, b: InsnRow) -> bool
    ensures { Decides result (enc.SameParts a b) }
{
    a.form == b.form
        && a.op == b.op
        && a.bits == b.bits
        && a.from == b.from
        && a.dst == b.dst
        && a.src == b.src
        && a.by_reg == b.by_reg
}

/// Whether the offsets and immediates of two records are equal.
fn same_numbers(a: InsnRow, b: InsnRow) -> bool
    ensures { Decides result (enc.SameNumbers a b) }
{
    a.off == b.off && a.imm == b.imm && a.next_imm == b.next_imm
}

/// The encoding of a record in the byte order `to` and its length in bytes, 8 or 16. If the record
/// says no instruction, the bytes are some slots, and may be those of an instruction that other
/// records say.
#[tactic(auto, using(crate::proofs::InsnEncoding::raw_is))]
fn raw_bytes(to: Order, row: InsnRow) -> ([u8; 16], usize)
    ensures encoded { result.0 ≡ spec.raw_bytes to row ++ replicate (16 - result.1) 0 }
    ensures len { result.1 ≡ length (spec.raw_bytes to row) }
{
    let mut bytes = [0; 16];
    bytes[..8].copy_from_slice(&slot_bytes(to, raw_slot(row)));
    if row.form == 17 {
        let second = Slot {
            opcode: 0,
            dst: 0,
            src: 0,
            off: 0,
            imm: row.next_imm,
        };
        bytes[8..].copy_from_slice(&slot_bytes(to, second));
        (bytes, 16)
    } else {
        (bytes, 8)
    }
}

/// The instruction that a record says, and its length in bytes; `None` if the record says none.
fn insn_of(row: InsnRow) -> Option<(Insn, usize)>
    ensures { MatchOption result ((i : Insn) → IsInsn i → ¬ enc.SaysInsn row i)
        (λ r. IsInsn r.0 × enc.SaysInsn row r.0 × (r.1 ≡ length (encoding Little r.0))) }
{
    let (bytes, len) = raw_bytes(Order::Little, row);
    let Ok(read) = read_insn(Order::Little, &bytes[..len]) else {
        return None;
    };
    let form = form_row(read.0);
    if same_parts(row, form) && same_numbers(row, form) {
        Some(read)
    } else {
        None
    }
}

/// The length in bytes of the instructions that records say.
///
/// # Errors
///
/// The index of the first record that says no instruction.
fn encoded_len(rows: &[InsnRow]) -> Result<usize, usize>
    ensures { MatchResult result (SayInsns rows.now) (enc.IsNoInsnAt rows.now) }
{
    let mut total = 0;
    for k in 0..rows.len() {
        let Some(said) = insn_of(rows[k]) else {
            return Err(k);
        };
        total += said.1;
    }
    Ok(total)
}

/// Encodes the instructions that records say (RFC 9669 section 3) in the byte order `to` at the
/// start of `out`. The fields `len`, `group`, `zero` and `pos` aren't read. Room of 16 bytes for
/// each record is always enough. It allocates nothing.
///
/// # Errors
///
/// Status 6 if `to` is neither 0 nor 1; 2 with the index of the first record that says no
/// instruction; 5 with the length of the output if `out` is shorter. `out` is then unchanged.
#[unsafe(no_mangle)]
pub extern "C" fn bpfcanon_proved_insn_encode(to: u32, rows: &[InsnRow], out: &mut [u8]) -> Answer
    ensures { enc.AnswersEncode to rows.now out.old out.new result }
{
    report(match order_from(to) {
        Some(to) => encoded_in(to, rows, out),
        None => Ending::Order,
    })
}

/// The instructions of records in a byte order.
fn encoded_in(to: Order, rows: &[InsnRow], out: &mut [u8]) -> Ending
    ensures { enc.EndsEncodeIn to rows.now out.old out.new result }
{
    match encoded_len(rows) {
        Ok(len) if out.len() < len => Ending::Room(len),
        Ok(len) => {
            let (front, _) = out.split_at_mut(len);
            put_insns(to, rows, front);
            Ending::Written(len)
        }
        Err(k) => Ending::First(FaultCode {
            cause: 0,
            pos: k as u64,
            line: 0,
        }),
    }
}

/// Writes the instructions that records say, which are as long as `out`.
fn put_insns(to: Order, rows: &[InsnRow], out: &mut [u8])
    requires { SayInsns rows.now (length out.old) }
    ensures { enc.IsEncoded to rows.now out.new }
{
    let mut at = 0;
    for k in 0..rows.len() {
        let (bytes, len) = raw_bytes(to, rows[k]);
        out[at..at + len].copy_from_slice(&bytes[..len]);
        at += len;
    }
}
