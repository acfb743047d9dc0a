//! The offsets of a table's records (btf.rst section 2.2), and those of the ends of its long
//! strings. Both are in one vector, since a table uses only one allocator: a vector owns its
//! allocator, and that of a view need not be `Clone`.
//!
//! Records have different lengths and are asked for by ID, so the offset of each is kept, and
//! nothing else of it. 4 bytes are enough: the type section has at most 2^25 bytes, and the string
//! section 2^24.

ghost use Rattle.std.specs.Prelude.{◌≡◌, ◌<◌, ◌≤◌, ◌^◌, IfOk, MatchResult, length};
ghost use Rattle.btf_raw.specs.Header.{HasNulEnds};
ghost use Rattle.btf_types.specs.tables.{TableInvariant.IsFramed, StringEnds.AreLongEnds};
ghost use Rattle.btf_types.specs.tables.Tables.{FailsFraming, FaultInside};

use crate::error::BtfError;
use crate::tables::push_long_ends;
use bpf_words::Order;
use btf_raw::next_head;
use std::alloc::{AllocError, Allocator};
use std::marker::Model;

/// Returns the offset of each record, in bytes from the start of the section.
///
/// # Errors
///
/// `Fault` with the first fault of the framing, whose offset counts bytes from the start of the
/// section. `Memory` if memory can't be allocated.
#[tactic(auto, using(crate::proofs::CheckLemmas::FramingSteps::first_framing_fault))]
pub fn record_offsets<A: Allocator>(
    alloc: A,
    order: Order,
    types: &[u8],
) -> Result<Vec<u32, A>, BtfError>
    requires { length types.now ≤ 2 ^ 25 }
    ensures inside { FaultInside (length types.now) result }
    ensures cases { MatchResult result (λ offsets. IsFramed order types.now offsets.items) (λ e.
        FailsFraming order types.now e) }
{
    let mut offsets = Vec::new(alloc);
    let mut pos = 0;
    while pos < types.len() {
        let head = next_head(order, types, pos)?;
        offsets.push(pos as u32)?;
        pos = head.next;
    }
    Ok(offsets)
}

/// The offsets of records in the type section, and of the ends of long strings in the string
/// section, in bytes from the start of each section.
#[derive(Drop)]
pub struct KeptOffsets<A: Allocator> {
    /// The offsets of the records, followed by the ends of the long strings.
    index: Vec<u32, A>,
    /// The number of records.
    count: usize,
}

impl<A: Allocator> Model for KeptOffsets<A> {
    ghost use Rattle.std.specs.Prelude.{◌≤◌, length, take, drop};
    ghost use Rattle.btf_types.specs.tables.TableOffsets.{TableOffsets};

    ghost Value = { TableOffsets };

    ghost view = { λ p.
        record { records = take p.count p.index.items; ends = drop p.count p.index.items } };

    ghost invariant = { λ p. p.count ≤ length p.index.items };
}

impl<A: Allocator> KeptOffsets<A> {
    /// Keeps these offsets of records, and finds the ends of the long strings.
    pub fn new(records: Vec<u32, A>, strings: &[u8]) -> Result<KeptOffsets<A>, AllocError>
        requires nuls { HasNulEnds strings.now }
        requires capacity { length strings.now < 2 ^ 32 }
        ensures records { IfOk result (λ p. p.records ≡ records.items) }
        ensures ends { IfOk result (λ p. AreLongEnds strings.now p.ends) }
    {
        let count = records.len();
        let mut index = records;
        push_long_ends(&mut index, strings)?;
        Ok(KeptOffsets { index, count })
    }

    /// The offsets of the records, in order.
    pub fn records(&self) -> &[u32]
        ensures { result.now ≡ self.now.records }
    {
        &self.index[..self.count]
    }

    /// The offsets of the ends of the long strings, ascending.
    pub fn ends(&self) -> &[u32]
        ensures { result.now ≡ self.now.ends }
    {
        &self.index[self.count..]
    }
}
