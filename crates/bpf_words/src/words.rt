//! 16- and 32-bit words, read from a slice and appended to a vector.
//!
//! They are in the lowest crate because BTF consists of them, and because the second slot of a wide
//! load is read as two of them. There are none of 64 bits: both formats store the halves of such a
//! number as two words.
//!
//! That a word is inside the slice is a premise of the call. Readers check the length of a header
//! or of a record once, and need no result for each word that they then read.

ghost use Rattle.std.specs.Prelude.{◌≡◌, ◌+◌, ◌≤◌, ◌++◌, length, slice_range, OnOk, OnErr};
ghost use Rattle.std.specs.List.{flat_map};
ghost use Rattle.bpf_words.specs.Words.{word16, word16_at, word32, word32_at};

use crate::Order;
use byteorder::{BigEndian, ByteOrder, LittleEndian};
use std::alloc::{AllocError, Allocator};

/// Returns the 16-bit word whose first byte is at `pos` of `bytes` (btf.rst section 2).
///
/// Both bytes must be inside the slice.
pub fn get16(order: Order, bytes: &[u8], pos: usize) -> u16
    requires { pos + 2 ≤ length bytes.now }
    ensures encoded { slice_range bytes.now pos (pos + 2) ≡ word16 order result }
    ensures value { result ≡ word16_at order bytes.now pos }
{
    let word = &bytes[pos..pos + 2];
    match order {
        Order::Little => LittleEndian::read_u16(word),
        Order::Big => BigEndian::read_u16(word),
    }
}

/// Returns the 32-bit word whose first byte is at `pos` of `bytes` (btf.rst section 2).
///
/// All four bytes must be inside the slice.
pub fn get32(order: Order, bytes: &[u8], pos: usize) -> u32
    requires { pos + 4 ≤ length bytes.now }
    ensures encoded { slice_range bytes.now pos (pos + 4) ≡ word32 order result }
    ensures value { result ≡ word32_at order bytes.now pos }
{
    let word = &bytes[pos..pos + 4];
    match order {
        Order::Little => LittleEndian::read_u32(word),
        Order::Big => BigEndian::read_u32(word),
    }
}

/// Appends the two bytes of a 16-bit word in the byte order `order` (btf.rst section 2).
///
/// # Errors
///
/// `AllocError` if the vector couldn't grow; it is then unchanged.
pub fn push16<A: Allocator>(
    out: &mut Vec<u8, A>,
    order: Order,
    value: u16,
) -> Result<(), AllocError>
    ensures ok { OnOk result (out.new.items ≡ out.old.items ++ word16 order value) }
    ensures err { OnErr result (out.new.items ≡ out.old.items) }
{
    let mut word = [0; 2];
    match order {
        Order::Little => LittleEndian::write_u16(&mut word, value),
        Order::Big => BigEndian::write_u16(&mut word, value),
    }
    out.extend_from_slice(&word)
}

/// Appends the four bytes of a 32-bit word in the byte order `order` (btf.rst section 2).
///
/// # Errors
///
/// `AllocError` if the vector couldn't grow; it is then unchanged.
pub fn push32<A: Allocator>(
    out: &mut Vec<u8, A>,
    order: Order,
    value: u32,
) -> Result<(), AllocError>
    ensures ok { OnOk result (out.new.items ≡ out.old.items ++ word32 order value) }
    ensures err { OnErr result (out.new.items ≡ out.old.items) }
{
    let mut word = [0; 4];
    match order {
        Order::Little => LittleEndian::write_u32(&mut word, value),
        Order::Big => BigEndian::write_u32(&mut word, value),
    }
    out.extend_from_slice(&word)
}

/// Appends the bytes of up to six 32-bit words in the byte order `order`, with one reservation
/// (btf.rst section 2).
///
/// # Errors
///
/// `AllocError` if the vector couldn't grow; it is then unchanged.
#[inline(always)]
pub fn push_words<A: Allocator>(
    out: &mut Vec<u8, A>,
    order: Order,
    words: &[u32],
) -> Result<(), AllocError>
    requires { length words.now ≤ 6 }
    ensures ok { OnOk result (out.new.items ≡ out.old.items ++ flat_map (word32 order) words.now) }
    ensures err { OnErr result (out.new.items ≡ out.old.items) }
{
    let mut buffer = [0; 24];
    let bytes = &mut buffer[..4 * words.len()];
    match order {
        Order::Little => LittleEndian::write_u32_into(words, bytes),
        Order::Big => BigEndian::write_u32_into(words, bytes),
    }
    out.extend_from_slice(bytes)
}
