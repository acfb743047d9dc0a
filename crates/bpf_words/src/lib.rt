//! 16- and 32-bit words in both byte orders, and the 8-byte slots that eBPF instructions consist
//! of (RFC 9669 section 3; btf.rst section 2).

#![tactic(auto)]

pub mod laws;
mod order_name;
mod slot;
mod words;

pub use order_name::ParseOrderError;
pub use slot::{Slot, slot_bytes, slot_of, swap_slots, swapped};
pub use words::{get16, get32, push_words, push16, push32};

/// The byte order of a file: whether the least significant byte of a word is its first or its last.
///
/// An instruction file doesn't record its byte order, so the caller states it (RFC 9669 section 3).
/// The magic of a BTF file records it (btf.rst section 2).
#[derive(Clone, Copy, Debug, PartialEq, Eq, PartialOrd, Ord, Hash)]
pub enum Order {
    /// The least significant byte comes first.
    Little,
    /// The most significant byte comes first.
    Big,
}
