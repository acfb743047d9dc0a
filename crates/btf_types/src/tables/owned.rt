//! A table that owns its bytes.
//!
//! It is a copy of the two sections, and not of decoded values. So it reads records by the same
//! code as a view, its names need no allocations of their own, and names that share their bytes in
//! the file still share them.

ghost use Rattle.std.specs.Prelude.{◌≡◌, MatchResult};
ghost use Rattle.btf_types.specs.{Denotes.Denotes, tables.Tables.Fails};
ghost use Rattle.btf_types.specs.tables.{TableWords.numbered, Windows.items_of};

use crate::error::BtfError;
use crate::tables::{
    BtfView, FileSections, Items, KeepsSections, KeptOffsets, Records, SectionTable, TypeTable,
};
use crate::values::Head;
use bpf_words::Order;
use std::alloc::{Allocator, Global};
use std::fmt;
use std::marker::Model;

/// The types of a BTF file (btf.rst section 2), independent of the file's lifetime.
///
/// It keeps a copy of the two sections and the offset of each record. Names are therefore stored as
/// often as in the file, and share the bytes that they share there.
#[derive(Drop)]
pub struct Btf<A: Allocator = Global> {
    order: Order,
    types: Vec<u8, A>,
    strings: Vec<u8, A>,
    offsets: KeptOffsets<A>,
}

impl<A: Allocator> Model for Btf<A> {
    ghost use Rattle.btf_types.specs.tables.TableOffsets as placed;

    ghost Value = { placed.TypeRecords };

    ghost view = { λ t. placed.placed_records t.order t.types.items t.strings.items t.offsets };

    ghost invariant = { λ t. placed.IsPlacedTable t.order t.types.items t.strings.items t.offsets };
}

impl<A: Allocator + Clone> Btf<A> {
    /// Reads and checks a complete BTF file (btf.rst section 2), and copies its two sections.
    ///
    /// # Errors
    ///
    /// Those of [`BtfView::parse`].
    pub fn parse(alloc: A, bytes: &[u8]) -> Result<Btf<A>, BtfError>
        ensures { MatchResult result (λ v. Denotes bytes.now v) (λ e. Fails bytes.now e) }
    {
        let view = BtfView::parse(alloc.clone()?, bytes)?;
        let types = Vec::from_slice(alloc.clone()?, view.types)?;
        let strings = Vec::from_slice(alloc, view.strings)?;
        let BtfView { order, offsets, .. } = view;
        Ok(Btf {
            order,
            types,
            strings,
            offsets,
        })
    }
}

impl<A: Allocator> Btf<A> {
    /// An iterator over the records in order, like [`BtfView::records`].
    pub fn records(&self) -> Records<'_>
        ensures { result ≡ numbered 1 self.now }
    {
        self.table().records()
    }

    /// An iterator over the items of the type with the ID `id`, like [`BtfView::items`].
    pub fn items(&self, id: u32) -> Items<'_>
        ensures { result ≡ items_of self.now id }
    {
        self.table().items(id)
    }
}

impl<A: Allocator> KeepsSections for Btf<A> {
    ghost denoted = { λ t. t };

    fn table(&self) -> SectionTable<'_> {
        let file = FileSections::new(
            self.order,
            &self.types,
            &self.strings,
            self.offsets.records(),
        );
        SectionTable::new(file, self.offsets.ends())
    }
}

/// Iterates over the records, like [`Btf::records`].
impl<'t, A: Allocator> IntoIterator for &'t Btf<A> {
    type Item = (u32, Head<'t>);

    type IntoIter = Records<'t>;

    ghost into_iter_gives = { λ table records. records ≡ numbered 1 table.now };

    fn into_iter(self) -> Records<'t> {
        self.records()
    }
}

/// Shows the number of records.
impl<A: Allocator> fmt::Debug for Btf<A> {
    fn fmt<W: fmt::Write>(&self, f: &mut fmt::Formatter<W>) -> fmt::Result {
        f.debug_struct("Btf")
            .field("count", &self.count())
            .finish_non_exhaustive()
    }
}
