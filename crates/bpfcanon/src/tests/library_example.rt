//! The libraries as a program calls them. `docs/API.md` names this file.

use bpf_canon::{INSN_LIMIT, InsnFeed, Order, write_btf};
use bpf_insn::InsnError;
use bpf_text::{ListError, listing, read_listing};
use btf_types::{BtfError, BtfView, Item};
use std::alloc::Global;
use thiserror::Error;

/// The names of the members of all structs and unions of a BTF file, a line each.
pub fn member_names(alloc: Global, file: &[u8]) -> Result<String, BtfError> {
    let types = BtfView::parse(alloc, file)?;
    let mut names = String::new(alloc);
    for (id, _) in &types {
        for item in types.items(id) {
            if let Item::Member { name, .. } = item {
                names.push_str(name)?;
                names.push('\n')?;
            }
        }
    }
    Ok(names)
}

/// The canonical bytes of a BTF file, in big-endian order.
pub fn canonical_for_big_endian(alloc: Global, file: &[u8]) -> Result<Vec<u8>, BtfError> {
    let types = BtfView::parse(alloc, file)?;
    Ok(write_btf(alloc, Order::Big, &types)?)
}

/// A listing with one instruction a line, without comments, and with each number in decimal.
pub fn tidy_listing(alloc: Global, text: &[u8]) -> Result<Vec<u8>, ListError> {
    let insns = read_listing(alloc, text)?;
    Ok(listing(alloc, &insns)?)
}

/// Why a stream gave no canonical bytes.
#[derive(Debug, Drop, Error)]
pub enum StreamError {
    #[error("{0}")]
    Insns(#[from] InsnError),
    #[error("too long")]
    TooLong,
}

/// The canonical bytes of big-endian instructions that are read in pieces.
pub fn canonical_stream(alloc: Global, pieces: &[&[u8]]) -> Result<Vec<u8>, StreamError> {
    let mut feed = InsnFeed::new(Order::Big, Order::Little);
    let mut canonical = Vec::new(alloc);
    for piece in pieces {
        feed.feed(piece, &mut canonical)?;
        if feed.fed() > INSN_LIMIT {
            return Err(StreamError::TooLong);
        }
    }
    feed.finish().map_err(InsnError::Fault)?;
    Ok(canonical)
}
