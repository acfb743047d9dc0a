//! The call that decodes instructions into records of a fixed size.

ghost use Rattle.std.specs.Prelude.{length, MatchResult};
ghost use Rattle.bpf_insn.specs.{declared.insn.Insn.Insn, Faults.BeginsWith, Faults.IsInsnFault};
ghost use Rattle.bpfcanon_c.specs.{InsnSteps.HasInsns, InsnSteps.HasPut, Outputs.IsInsnCode};
ghost use Rattle.bpfcanon_c.specs.InsnDecoding.{AnswersDecode, EndsRows, IsDecoded};

use crate::answer::{Answer, Ending, order_from, report, slot_code};
use crate::insn_rows::{InsnRow, row_at};
use crate::opcode_rows::{WIDE, allows, opcode_row, slot_row, wide_row};
use bpf_insn::{Order, SlotFault, insn_front, read_insn};
use bpf_words::slot_of;

/// Decodes the instructions of a file (RFC 9669 section 3), which is in the byte order `order`,
/// into records at the start of `out`. Room for one record for each 8 bytes is always enough. It
/// allocates nothing.
///
/// # Errors
///
/// Status 6 if `order` is neither 0 nor 1; 2 with the first fault of the file, its offset in bytes
/// from the start of `bytes`; 5 with the number of records if `out` has fewer. `out` is then
/// unchanged.
#[unsafe(no_mangle)]
pub extern "C" fn bpfcanon_proved_insn_decode(
    order: u32,
    bytes: &[u8],
    out: &mut [InsnRow],
) -> Answer
    ensures { AnswersDecode order bytes.now out.old out.new result }
{
    report(match order_from(order) {
        Some(order) => decoded_in(order, bytes, out),
        None => Ending::Order,
    })
}

/// The records of a file in a byte order.
fn decoded_in(order: Order, bytes: &[u8], out: &mut [InsnRow]) -> Ending
    ensures { EndsRows (IsDecoded order bytes.now) (IsInsnCode order bytes.now)
        out.old out.new result }
{
    match insn_count(order, bytes) {
        Ok(count) if out.len() < count => Ending::Room(count),
        Ok(count) => {
            let (front, _) = out.split_at_mut(count);
            put_rows(order, bytes, front);
            Ending::Written(count)
        }
        Err(fault) => Ending::First(slot_code(fault)),
    }
}

/// The number of instructions of a file.
///
/// # Errors
///
/// The first fault of the file, with its offset in bytes from the start of `bytes`.
fn insn_count(order: Order, bytes: &[u8]) -> Result<usize, SlotFault>
    ensures { MatchResult result (HasInsns order bytes.now) (IsInsnFault order bytes.now) }
{
    let front = insn_front(order, bytes);
    match front.stop {
        None => Ok(front.count as usize),
        Some(fault) => Err(fault.moved_by(front.len as u64)),
    }
}

/// Writes the records of a file, which has as many instructions as `out` has records.
fn put_rows(order: Order, bytes: &[u8], out: &mut [InsnRow])
    requires { HasInsns order bytes.now (length out.old) }
    ensures { IsDecoded order bytes.now out.new }
{
    let mut pos = 0;
    for k in 0..out.len() {
        pos += put_row(order, &bytes[pos..], pos as u64, &mut out[k]);
    }
}

/// Writes the record of the instruction at the start of the bytes, which are at offset `pos` of the
/// file, and returns the length of the instruction in bytes. Each field is written where it stays:
/// a record that is returned is copied, and the copy waits until all fields are stored.
#[inline(always)]
fn put_row(order: Order, bytes: &[u8], pos: u64, out: &mut InsnRow) -> usize
    requires { (i : Insn) × BeginsWith order i bytes.now }
    ensures { HasPut order bytes.now pos out.new result }
{
    let Some((first, rest)) = bytes.split_first_chunk::<8>() else {
        unreachable!()
    };
    let slot = slot_of(order, first);
    match opcode_row(slot.opcode) {
        Some(row) if allows(row, slot) => {
            *out = slot_row(pos, slot, row);
            8
        }
        _ if slot.opcode == WIDE => {
            let Some((second, _)) = rest.split_first_chunk::<8>() else {
                unreachable!()
            };
            *out = wide_row(pos, slot, slot_of(order, second).imm);
            16
        }
        _ => put_other(order, bytes, pos, out),
    }
}

/// Likewise for any instruction, which is decoded. It isn't inlined, so that the loop over the
/// instructions stays small.
#[inline(never)]
fn put_other(order: Order, bytes: &[u8], pos: u64, out: &mut InsnRow) -> usize
    requires { (i : Insn) × BeginsWith order i bytes.now }
    ensures { HasPut order bytes.now pos out.new result }
{
    let Ok(read) = read_insn(order, bytes) else {
        unreachable!()
    };
    *out = row_at(pos, read.0);
    read.1
}
