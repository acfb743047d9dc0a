//! Arenas with a given number of free bytes.

use bumpalo::Bump;
use std::alloc::{AllocError, Global};

/// An arena of `most` bytes of which `capacity` are free: the others are allocated first.
pub fn arena(alloc: Global, most: usize, capacity: usize) -> Result<Bump<Global>, AllocError> {
    let bump = Bump::try_with_capacity(alloc, most)?;
    bump.set_allocation_limit(Some(bump.allocated_bytes()));
    let taken = bump.chunk_capacity().saturating_sub(capacity);
    bump.try_alloc_slice_fill_clone(taken, 0u8)?;
    Ok(bump)
}
