//! Listings of instructions: writing and reading them.

pub mod fault;
pub mod laws;
pub(crate) mod listing_bytes;
pub(crate) mod make;
pub(crate) mod mnemonic;
pub(crate) mod mnemonic_hash;
pub(crate) mod number;
pub(crate) mod operand_fields;
pub(crate) mod read;
pub(crate) mod read_operand;
pub(crate) mod token;
pub(crate) mod write;
