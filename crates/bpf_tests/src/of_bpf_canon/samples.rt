//! Instruction files with their canonical bytes or their faults (RFC 9669 sections 3 to 5).

use super::compiled_programs::{
    HASH_WORDS_BIG, HASH_WORDS_LITTLE, PACKET_FILTER_BIG, PACKET_FILTER_LITTLE,
};
use bpf_insn::{InsnError, Order, SlotCause, SlotFault};

/// An instruction file, the canonical bytes of the instructions before its fault, and the offset and cause of the fault if
/// it has one.
pub(crate) struct InsnFile {
    pub(crate) order: Order,
    pub(crate) bytes: &'static [u8],
    pub(crate) canonical: &'static [u8],
    pub(crate) fault: Option<(u64, SlotCause)>,
}

impl InsnFile {
    /// The canonical bytes of the file, or its fault.
    pub(crate) fn answer(&self) -> Result<&'static [u8], InsnError> {
        match self.fault {
            Some((pos, cause)) => Err(InsnError::Fault(SlotFault { pos, cause })),
            None => Ok(self.canonical),
        }
    }

    /// The fault of the file.
    pub(crate) fn slot_fault(&self) -> Option<SlotFault> {
        match self.fault {
            Some((pos, cause)) => Some(SlotFault { pos, cause }),
            None => None,
        }
    }
}

pub(crate) const EXIT: &[u8] = b"\x95\0\0\0\0\0\0\0";

/// A wide load in little-endian order.
pub(crate) const WIDE: &[u8] = b"\x18\x01\0\0\x88\x77\x66\x55\0\0\0\0\x44\x33\x22\x11";

/// An exit, and an instruction whose source register is unused and not zero.
pub(crate) const FAULTY: &[u8] = b"\x95\0\0\0\0\0\0\0\x04\x10\0\0\x05\0\0\0";

pub(crate) const FAULT_OF_FAULTY: SlotFault = SlotFault {
    pos: 9,
    cause: SlotCause::Src,
};

/// Files without a fault, and then files with one.
#[rattlefmt::skip]
pub(crate) fn insn_files() -> [&'static [InsnFile]; 5] {[&[
    InsnFile { order: Order::Little, bytes: b"", canonical: b"", fault: None },
    InsnFile { order: Order::Little, bytes: EXIT, canonical: EXIT, fault: None },
    InsnFile { order: Order::Big, bytes: b"\xbf\x12\0\0\0\0\0\0", canonical: b"\xbf\x21\0\0\0\0\0\0", fault: None },
    InsnFile { order: Order::Big, bytes: b"\xb7\0\0\0\xff\xff\xff\xfe", canonical: b"\xb7\0\0\0\xfe\xff\xff\xff", fault: None },
    InsnFile { order: Order::Big, bytes: b"\x18\x10\0\0\x55\x66\x77\x88\0\0\0\0\x11\x22\x33\x44", canonical: WIDE, fault: None },
    InsnFile { order: Order::Little, bytes: b"\x37\x01\x01\0\x03\0\0\0", canonical: b"\x37\x01\x01\0\x03\0\0\0", fault: None },
    InsnFile { order: Order::Little, bytes: b"\xdb\x21\xf8\xff\xf1\0\0\0", canonical: b"\xdb\x21\xf8\xff\xf1\0\0\0", fault: None },
    InsnFile { order: Order::Little, bytes: b"\xb4\x01\0\0\x07\0\0\0", canonical: b"\xb4\x01\0\0\x07\0\0\0", fault: None },
    InsnFile { order: Order::Little, bytes: b"\x48\x30\0\0\x04\0\0\0", canonical: b"\x48\x30\0\0\x04\0\0\0", fault: None },
    InsnFile { order: Order::Little, bytes: b"\xd7\x01\0\0\x20\0\0\0", canonical: b"\xd7\x01\0\0\x20\0\0\0", fault: None },
], &[
    InsnFile { order: Order::Little, bytes: b"\xd7\x01\0\0\x40\0\0\0", canonical: b"\xd7\x01\0\0\x40\0\0\0", fault: None },
    InsnFile { order: Order::Little, bytes: b"\x85\x20\x05\0\x07\0\0\0", canonical: b"\x85\x20\x05\0\x07\0\0\0", fault: None },
    InsnFile { order: Order::Big, bytes: b"\x18\x13\0\0\0\0\0\x03\0\0\0\0\0\0\0\x01", canonical: b"\x18\x31\0\0\x03\0\0\0\0\0\0\0\x01\0\0\0", fault: None },
    InsnFile { order: Order::Little, bytes: b"\x91\x12\x04\0\0\0\0\0", canonical: b"\x91\x12\x04\0\0\0\0\0", fault: None },
    InsnFile { order: Order::Little, bytes: WIDE, canonical: WIDE, fault: None },
    InsnFile { order: Order::Little, bytes: b"\xbf\x21\0\0\0\0\0\0", canonical: b"\xbf\x21\0\0\0\0\0\0", fault: None },
    InsnFile { order: Order::Little, bytes: b"\xb7\0\0\0\xfe\xff\xff\xff", canonical: b"\xb7\0\0\0\xfe\xff\xff\xff", fault: None },
    InsnFile { order: Order::Big, bytes: b"\xb4\x10\0\0\0\0\0\x07", canonical: b"\xb4\x01\0\0\x07\0\0\0", fault: None },
], &[
    InsnFile { order: Order::Little, bytes: b"\x05\0\0\0\0\0\0\0", canonical: b"\x05\0\0\0\0\0\0\0", fault: None },
    InsnFile { order: Order::Little, bytes: b"\xbf\x12\x08\0\0\0\0\0", canonical: b"\xbf\x12\x08\0\0\0\0\0", fault: None },
    InsnFile { order: Order::Little, bytes: b"\x18\x31\0\0\x03\0\0\0\0\0\0\0\x01\0\0\0", canonical: b"\x18\x31\0\0\x03\0\0\0\0\0\0\0\x01\0\0\0", fault: None },
    InsnFile { order: Order::Little, bytes: b"\x37\x01\x01\0\x03\0\0\0\xdb\x21\xf8\xff\xf1\0\0\0\x95\0\0\0\0\0\0\0", canonical: b"\x37\x01\x01\0\x03\0\0\0\xdb\x21\xf8\xff\xf1\0\0\0\x95\0\0\0\0\0\0\0", fault: None },
    InsnFile { order: Order::Little, bytes: b"\xb7\x01\0\0\x10\0\0\0\x95\0\0\0\0\0\0\0", canonical: b"\xb7\x01\0\0\x10\0\0\0\x95\0\0\0\0\0\0\0", fault: None },
    InsnFile { order: Order::Little, bytes: b"\x61\x21\0\0\0\0\0\0", canonical: b"\x61\x21\0\0\0\0\0\0", fault: None },
    InsnFile { order: Order::Little, bytes: b"\x05\0\x05\0\0\0\0\0", canonical: b"\x05\0\x05\0\0\0\0\0", fault: None },
    InsnFile { order: Order::Little, bytes: b"\xb4\x03\0\0\0\0\0\x80", canonical: b"\xb4\x03\0\0\0\0\0\x80", fault: None },
    InsnFile { order: Order::Little, bytes: b"\x18\x01\0\0\xff\xff\xff\xff\0\0\0\0\xff\xff\xff\xff", canonical: b"\x18\x01\0\0\xff\xff\xff\xff\0\0\0\0\xff\xff\xff\xff", fault: None },
], &[
    InsnFile { order: Order::Little, bytes: b"\x95\0\0\0\0\0\0\0\x95\0\0\0\0\0\0\0", canonical: b"\x95\0\0\0\0\0\0\0\x95\0\0\0\0\0\0\0", fault: None },
    InsnFile { order: Order::Big, bytes: PACKET_FILTER_BIG, canonical: PACKET_FILTER_LITTLE, fault: None },
    InsnFile { order: Order::Little, bytes: PACKET_FILTER_LITTLE, canonical: PACKET_FILTER_LITTLE, fault: None },
    InsnFile { order: Order::Big, bytes: HASH_WORDS_BIG, canonical: HASH_WORDS_LITTLE, fault: None },
    InsnFile { order: Order::Little, bytes: HASH_WORDS_LITTLE, canonical: HASH_WORDS_LITTLE, fault: None },
    InsnFile { order: Order::Little, bytes: b"\x18\x01\0\0\x88\x77\x66\x55", canonical: b"", fault: Some((8, SlotCause::Truncated)) },
    InsnFile { order: Order::Little, bytes: b"\xbf\x2b\0\0\0\0\0\0", canonical: b"", fault: Some((1, SlotCause::Dst)) },
    InsnFile { order: Order::Little, bytes: b"\x04\x10\0\0\x05\0\0\0", canonical: b"", fault: Some((1, SlotCause::Src)) },
    InsnFile { order: Order::Little, bytes: b"\x37\x01\x02\0\x03\0\0\0", canonical: b"", fault: Some((2, SlotCause::Offset)) },
    InsnFile { order: Order::Little, bytes: b"\xdb\x21\xf8\xff\xf0\0\0\0", canonical: b"", fault: Some((4, SlotCause::Imm)) },
    InsnFile { order: Order::Little, bytes: b"\x95\x11\0\0\0\0\0\0", canonical: b"", fault: Some((1, SlotCause::Dst)) },
], &[
    InsnFile { order: Order::Little, bytes: b"\x95\0\0", canonical: b"", fault: Some((0, SlotCause::Truncated)) },
    InsnFile { order: Order::Little, bytes: b"\xbc\x12\x20\0\0\0\0\0", canonical: b"", fault: Some((2, SlotCause::Offset)) },
    InsnFile { order: Order::Little, bytes: b"\xd7\x01\0\0\x08\0\0\0", canonical: b"", fault: Some((4, SlotCause::Imm)) },
    InsnFile { order: Order::Little, bytes: b"\xdf\0\0\0\0\0\0\0", canonical: b"", fault: Some((0, SlotCause::Opcode)) },
    InsnFile { order: Order::Little, bytes: b"\x8d\0\0\0\0\0\0\0", canonical: b"", fault: Some((0, SlotCause::Opcode)) },
    InsnFile { order: Order::Little, bytes: b"\xff\0\0\0\0\0\0\0", canonical: b"", fault: Some((0, SlotCause::Opcode)) },
    InsnFile { order: Order::Little, bytes: b"\xd3\0\0\0\0\0\0\0", canonical: b"", fault: Some((0, SlotCause::Opcode)) },
    InsnFile { order: Order::Little, bytes: b"\x99\0\0\0\0\0\0\0", canonical: b"", fault: Some((0, SlotCause::Opcode)) },
    InsnFile { order: Order::Little, bytes: b"\x18\x01\0\0\x88\x77\x66\x55\0\0\0\0", canonical: b"", fault: Some((8, SlotCause::Truncated)) },
    InsnFile { order: Order::Little, bytes: b"\x18\x01\0\0\x88\x77\x66", canonical: b"", fault: Some((0, SlotCause::Truncated)) },
    InsnFile { order: Order::Little, bytes: b"\x85\x10\x05\0\x07\0\0\0", canonical: b"", fault: Some((2, SlotCause::Offset)) },
    InsnFile { order: Order::Little, bytes: b"\x85\x30\x05\0\x07\0\0\0", canonical: b"", fault: Some((1, SlotCause::Src)) },
    InsnFile { order: Order::Little, bytes: b"\x18\x11\0\0\x03\0\0\0\0\0\0\0\x01\0\0\0", canonical: b"", fault: Some((12, SlotCause::NextImm)) },
    InsnFile { order: Order::Little, bytes: b"\x18\x11\0\0\x03\0\0\0\x01\0\0\0\x01\0\0\0", canonical: b"", fault: Some((8, SlotCause::Reserved)) },
    InsnFile { order: Order::Little, bytes: b"\x18\x71\0\0\0\0\0\0", canonical: b"", fault: Some((1, SlotCause::Src)) },
    InsnFile { order: Order::Little, bytes: FAULTY, canonical: EXIT, fault: Some((9, SlotCause::Src)) },
]]}
