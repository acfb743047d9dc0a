//! The instructions of code: those of RFC 9669, and newer ones.

ghost use Rattle.std.specs.Prelude.{◌≡◌, IfErr, IfOk, IfSome, None, length};
ghost use Rattle.bpf_insn.specs.Faults.{IsSlotFault};
ghost use Rattle.bpf_words.specs.Slots.{Fields};
ghost use Rattle.bpfcanon_object.specs.declared.linux.Addition as addition;
ghost use Rattle.bpfcanon_object.specs.Items as spec;
ghost use Rattle.bpfcanon_object.specs.Items.Item.{newer};
ghost use Rattle.bpfcanon_object.specs.Items.{Begins, IsLatest, IsNewer, Item};

use crate::linux::{Addition, addition_of};
use bpf_insn::{Group, Order, Slot, SlotFault, group_of, read_insn};
use bpf_words::slot_of;

/// What a target has to have for an instruction.
#[derive(Clone, Copy, Debug, PartialEq, Eq)]
pub struct Need {
    /// Its conformance group, if it is in RFC 9669.
    pub group: Option<Group>,
    /// The addition that it is in.
    pub addition: Addition,
}

/// Whether both registers are ones that exist.
fn has_registers(slot: Slot) -> bool
    ensures { result ≡ spec.has_registers slot }
{
    slot.dst <= 10 && slot.src <= 10
}

/// The addition of an instruction that isn't in RFC 9669.
fn newer_of(slot: Slot) -> Option<Addition>
    ensures found { IfSome result (λ a. IsNewer a slot) }
    ensures none { result ≡ None → (a : addition.Addition) → ¬ IsNewer a slot }
{
    match slot.opcode {
        0xe5 if slot.dst == 0 && slot.src == 0 && slot.imm == 0 => Some(Addition::MayGoto),
        0xbf if has_registers(slot) && slot.off == 1 && (slot.imm == 1 || slot.imm == 0x1_0000) => {
            Some(Addition::AddrSpaceCast)
        }
        0xc3 | 0xcb | 0xd3 | 0xdb if has_registers(slot) => match slot.imm {
            0x100 => Some(Addition::LoadAcquire),
            0x110 => Some(Addition::StoreRelease),
            _ => None,
        },
        _ => None,
    }
}

/// The addition of the instruction at the start of the bytes, if it isn't in RFC 9669.
fn newer_at(order: Order, bytes: &[u8]) -> Option<Addition>
    ensures found { IfSome result (λ a. (f : Fields) × Begins order (newer a f) bytes.now) }
    ensures none { result ≡ None
        → (a : addition.Addition) (f : Fields) → ¬ Begins order (newer a f) bytes.now }
{
    match bytes.split_first_chunk::<8>() {
        Some((first, _)) => newer_of(slot_of(order, first)),
        None => None,
    }
}

/// What a target has to have for the instruction at the start of the bytes, and its length.
///
/// # Errors
///
/// The fault of [`read_insn`], if the bytes begin with no newer instruction either.
pub fn read_item(order: Order, bytes: &[u8]) -> Result<(Need, usize), SlotFault>
    ensures found { IfOk result (λ r. (item : Item) × (Begins order item bytes.now
        × (r.0 ≡ spec.need_of item × r.1 ≡ length (spec.item_bytes order item)))) }
    ensures fault { IfErr result (IsSlotFault order bytes.now) }
    ensures none { IfErr result (λ _. (item : Item) → ¬ Begins order item bytes.now) }
{
    match read_insn(order, bytes) {
        Ok(read) => {
            let (insn, len) = read;
            let need = Need {
                group: Some(group_of(insn)),
                addition: addition_of(insn),
            };
            Ok((need, len))
        }
        Err(fault) => match newer_at(order, bytes) {
            Some(addition) => Ok((
                Need {
                    group: None,
                    addition,
                },
                8,
            )),
            None => Err(fault),
        },
    }
}

/// The addition of the latest release, of the instructions of code up to its first fault, and of
/// an earlier one.
pub fn latest_in(order: Order, before: Addition, bytes: &[u8]) -> Addition
    ensures { IsLatest order before bytes.now result }
{
    let mut latest = before;
    let mut pos = 0;
    while pos < bytes.len() {
        let Ok(read) = read_item(order, &bytes[pos..]) else {
            return latest;
        };
        let (need, len) = read;
        latest = latest.later(need.addition);
        pos += len;
    }
    latest
}
