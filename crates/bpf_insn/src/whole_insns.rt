//! Validating the complete instructions at the start of a buffer, without making a list of them.
//!
//! Most instructions are plain, so runs of plain instructions are validated in a separate loop that
//! does nothing else. Nothing is written here: a caller that recodes or decodes the instructions
//! does so in a second pass, in which none of them can be faulty.

ghost use Rattle.std.specs.Prelude.{◌≡◌, ◌<◌, ◌/◌, List, Some, None, length, IfSome, IsTrue};
ghost use Rattle.bpf_insn.specs.{declared.fault.SlotFault.SlotFault, declared.insn.Insn.Insn};
ghost use Rattle.bpf_insn.specs.{FileSteps.ReadsTo, Fronts.IsInsnFront, Faults.IsInsnFault};
ghost use Rattle.bpf_insn.specs.{Faults.BeginsWith, Encoding.InsnFile, Encoding.encoding};

use crate::plain::is_plain;
use crate::read::other_len;
use crate::{Order, SlotFault};

/// The complete instructions at the start of a buffer, and why they end there.
#[derive(Clone, Copy, Debug, PartialEq, Eq, Hash)]
pub struct InsnFront {
    /// The length of these instructions, in bytes.
    pub len: usize,
    /// The number of these instructions.
    pub count: u64,
    /// The fault of the bytes after them, with an offset relative to `len`. `None` if there are no
    /// such bytes.
    pub stop: Option<SlotFault>,
}

/// Whether the bytes begin with a plain instruction, which has a single slot.
#[inline(always)]
pub(crate) fn begins_plainly(order: Order, bytes: &[u8]) -> bool
    ensures { IsTrue result
        → (i : Insn) × (BeginsWith order i bytes.now × (length (encoding order i) ≡ 8)) }
{
    match bytes.split_first_chunk::<8>() {
        Some((first, _)) => is_plain(order, first),
        None => false,
    }
}

/// The length in bytes of the plain instructions at the start of a buffer; each has 8 bytes.
#[tactic(auto, using(crate::proofs::FrontSteps::reads_none))]
#[inline(always)]
fn plain_len(order: Order, bytes: &[u8]) -> usize
    ensures { ReadsTo order bytes.now result (result / 8) }
{
    let mut len = 0;
    'slots: while begins_plainly(order, &bytes[len..]) {
        len += 8;
    }
    len
}

/// The longest sequence of complete instructions at the start of `bytes` (RFC 9669 section 3). It
/// never fails: the fault of the bytes after them is in `stop`.
#[tactic(auto, using(crate::proofs::FrontSteps::front_ends))]
pub fn insn_front(order: Order, bytes: &[u8]) -> InsnFront
    ensures front { IsInsnFront order bytes.now result }
    ensures stop { IfSome result.stop (λ f. result.len < length bytes.now) }
{
    let mut len = plain_len(order, bytes);
    let mut count = len as u64 / 8;
    while len < bytes.len() {
        match other_len(order, &bytes[len..]) {
            Ok(size) => {
                let plain = plain_len(order, &bytes[len + size..]);
                len += size + plain;
                count += 1 + plain as u64 / 8;
            }
            Err(fault) => {
                let stop = Some(fault);
                return InsnFront { len, count, stop };
            }
        }
    }
    let stop = None;
    InsnFront { len, count, stop }
}

/// The first fault of an instruction file, with its offset in bytes from the start of the file, or
/// `None` if the file is valid (RFC 9669 section 3).
pub fn first_fault(order: Order, bytes: &[u8]) -> Option<SlotFault>
    ensures file { result ≡ None → (l : List Insn) × InsnFile order bytes.now l }
    ensures fault { (f : SlotFault) → result ≡ Some f → IsInsnFault order bytes.now f }
{
    let front = insn_front(order, bytes);
    Some(front.stop?.moved_by(front.len as u64))
}
