//! The slot of an instruction: its five fields, and their 8 bytes in either byte order (RFC 9669
//! section 3).
//!
//! The byte orders differ in three places: the registers change sides in their byte, and the bytes
//! of the offset and those of the immediate are reversed. This is `jeq r1, 241, -8`, whose dst is 1
//! and whose src is 0, and below it the same slot swapped, as a big-endian file has it:
//!
//! ```text
//! byte            0        1           2        4             8
//!                 | opcode | registers | offset | imm         |
//! little-endian   | 15     | 01        | f8 ff  | f1 00 00 00 |
//! big-endian      | 15     | 10        | ff f8  | 00 00 00 f1 |
//! ```
//!
//! A wide load has two slots. Its number is in their two immediates, the low half first in both
//! byte orders; the other fields of the second slot are 0. This is `lddw r1, 0x1122334455667788`:
//!
//! ```text
//! byte            0    1    2       4             8    9    10      12            16
//!                 | op | r. | off.  | imm         | op | r. | off.  | next_imm    |
//! little-endian   | 18 | 01 | 00 00 | 88 77 66 55 | 00 | 00 | 00 00 | 44 33 22 11 |
//! big-endian      | 18 | 10 | 00 00 | 55 66 77 88 | 00 | 00 | 00 00 | 11 22 33 44 |
//! ```
//!
//! Any 8 bytes are a slot, so reading one can't fail. Which values the fields of an instruction may
//! have is checked in `bpf_insn`, which calls an instruction like the first one plain: each of its
//! fields is either 0 or free.

ghost use Rattle.std.specs.Prelude.{◌≡◌, ◌≢◌, ◌+◌, ◌*◌, ◌/◌, ◌%◌, ℕ, List};
ghost use Rattle.bpf_words.specs.declared.Order.{Order};
ghost use Rattle.bpf_words.specs.Slots.{AreFields, AreSlots, Fields, encoded};

use crate::Order;
use byteorder::{BigEndian, ByteOrder, LittleEndian};
use std::marker::Model;

/// The five fields of the 8 bytes of a basic instruction (RFC 9669 section 3).
///
/// ```text
/// byte   0         1               2        4                8
///        | opcode  | dst and src   | offset | imm            |
/// ```
///
/// The register byte has `src` in its high half and `dst` in its low half in little-endian
/// files, and vice versa in big-endian files.
#[derive(Clone, Copy, Debug, PartialEq, Eq, Hash)]
pub struct Slot {
    /// The operation.
    pub opcode: u8,
    /// The destination register's field, 0 to 15.
    pub dst: u8,
    /// The source register's field, 0 to 15.
    pub src: u8,
    /// The signed offset.
    pub off: i16,
    /// The signed immediate.
    pub imm: i32,
}

impl Model for Slot {
    ghost use Rattle.std.specs.Prelude.{◌<◌};
    ghost use Rattle.bpf_words.specs.Slots.{Fields};

    ghost Value = { Fields };

    ghost view = { λ s.
        record { opcode = s.opcode; dst = s.dst; src = s.src; off = s.off; imm = s.imm } };

    ghost invariant = { λ s. (s.dst < 16) × (s.src < 16) };

    ghost inverse = { λ f.
        record { opcode = f.opcode; dst = f.dst; src = f.src; off = f.off; imm = f.imm } };
}

/// Returns the slot that 8 bytes encode (RFC 9669 section 3). Any 8 bytes encode one.
pub fn slot_of(order: Order, bytes: &[u8; 8]) -> Slot
    ensures encoded { bytes.now ≡ encoded order result }
    ensures in_range { AreFields result }
{
    match order {
        Order::Little => Slot {
            opcode: bytes[0],
            dst: bytes[1] % 16,
            src: bytes[1] / 16,
            off: LittleEndian::read_i16(&bytes[2..4]),
            imm: LittleEndian::read_i32(&bytes[4..8]),
        },
        Order::Big => Slot {
            opcode: bytes[0],
            dst: bytes[1] / 16,
            src: bytes[1] % 16,
            off: BigEndian::read_i16(&bytes[2..4]),
            imm: BigEndian::read_i32(&bytes[4..8]),
        },
    }
}

/// Returns the 8 bytes of a slot (RFC 9669 section 3).
pub fn slot_bytes(order: Order, slot: Slot) -> [u8; 8]
    ensures encoded { result ≡ encoded order slot }
    ensures in_range { AreFields slot }
{
    let mut bytes = [0; 8];
    bytes[0] = slot.opcode;
    match order {
        Order::Little => {
            bytes[1] = 16 * slot.src + slot.dst;
            LittleEndian::write_i16(&mut bytes[2..4], slot.off);
            LittleEndian::write_i32(&mut bytes[4..8], slot.imm);
        }
        Order::Big => {
            bytes[1] = 16 * slot.dst + slot.src;
            BigEndian::write_i16(&mut bytes[2..4], slot.off);
            BigEndian::write_i32(&mut bytes[4..8], slot.imm);
        }
    }
    bytes
}

/// The low byte of each halfword except the lowest one.
const LOW_BYTES: u64 = 0x00ff_00ff_00ff_0000;

/// Rewrites the slots in the other byte order, in place. If fewer than 8 bytes are left after the
/// last slot, these stay as they are.
///
/// The loop has no branch for what a slot contains, so compilers vectorise it.
pub fn swap_slots(bytes: &mut [u8])
    ensures { (order to : Order) (slots : List Fields) (rest : List ℕ) → order ≢ to
        → AreSlots order bytes.old slots rest → AreSlots to bytes.new slots rest }
{
    let mut pos = 0;
    'slots: while let Some(slot) = bytes[pos..].first_chunk::<8>() {
        let other = swapped(slot);
        bytes[pos..pos + 8].copy_from_slice(&other);
        pos += 8;
    }
}

/// Returns the 8 bytes of a slot in the other byte order (RFC 9669 section 3). The halves of the
/// register byte, the two bytes of the offset and the four bytes of the immediate are reversed.
///
/// The slot is loaded as one 64-bit number, and its parts are moved by masks and shifts:
///
/// ```text
/// bit  0        8          12         16       32                   64
///      | opcode | register | register | offset | imm                |
///                                     | half-  | half-    | half-   |
///                                     | word   | word     | word    |
/// ```
///
/// This lets the compiler vectorise a loop over slots; byte-by-byte code is not vectorised.
#[inline(always)]
pub fn swapped(slot: &[u8; 8]) -> [u8; 8]
    ensures { (order to : Order) → order ≢ to → (slot_fields : Fields) × (AreFields slot_fields
        × ((slot.now ≡ encoded order slot_fields) × (result ≡ encoded to slot_fields))) }
{
    let word = u64::from_le_bytes(*slot);
    let opcode = word % 0x100;
    let registers = word / 0x100 % 0x10 * 0x1000 + word / 0x1000 % 0x10 * 0x100;
    let halfwords = swap_halfwords(word);
    let offset = halfwords % 0x1_0000_0000;
    let imm = halfwords / 0x1_0000_0000 % 0x1_0000 * 0x1_0000_0000_0000
        + halfwords / 0x1_0000_0000_0000 * 0x1_0000_0000;
    (opcode + registers + offset + imm).to_le_bytes()
}

/// The three upper halfwords, each with its two bytes exchanged, and 0 for the lowest one.
#[inline(always)]
#[tactic(auto, using(crate::proofs::SwappedBytes::halfwords_swapped))]
fn swap_halfwords(word: u64) -> u64
    ensures { result ≡ word / 0x1_0000 % 0x100 * 0x100_0000 + word / 0x100_0000 % 0x100 * 0x1_0000
        + word / 0x1_0000_0000 % 0x100 * 0x100_0000_0000
        + word / 0x100_0000_0000 % 0x100 * 0x1_0000_0000
        + word / 0x1_0000_0000_0000 % 0x100 * 0x100_0000_0000_0000
        + word / 0x100_0000_0000_0000 % 0x100 * 0x1_0000_0000_0000 }
{
    let low_bytes = word & LOW_BYTES;
    let high_bytes = word / 0x100 & LOW_BYTES;
    low_bytes * 0x100 + high_bytes
}
