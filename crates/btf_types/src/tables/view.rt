//! A table that borrows the file it was read from: a checked file (`checked_file.rt`) with the ends
//! of its long strings, by which names are read. The owned table is a copy of it.

ghost use Rattle.std.specs.Prelude.{◌≡◌, ◌<◌, ◌≤◌, Some, MatchResult, length, slice_get};
ghost use Rattle.btf_types.specs.{Denotes.Denotes, tables.Windows.items_of};
ghost use Rattle.btf_types.specs.Values.{head_value, item_value};
ghost use Rattle.btf_types.specs.tables.TableWords.{numbered, record_at};
ghost use Rattle.btf_types.specs.tables.Tables.{Fails};

use crate::error::BtfError;
use crate::reading::{head_of, item_of};
use crate::tables::{
    CheckedFile, FileSections, Items, KeepsSections, KeptOffsets, Records, SectionTable, TypeTable,
};
use crate::values::{Head, Item};
use bpf_words::Order;
use std::alloc::{Allocator, Global};
use std::fmt;
use std::marker::Model;

/// The types of a BTF file (btf.rst section 2), decoded from the file's own bytes when they are
/// asked for.
///
/// It borrows the file and keeps the offset of each record. No name is copied.
///
/// ```text
/// byte    0        hdr_len                hdr_len + type_len       length of the file
///         | header | type section         | string section         |
///         |        | record | record | .. | NUL | string NUL | ..  |
///
/// word    0          1      2      3          4            5        6          7      8
/// STRUCT  | name_off | info | size | name_off | type       | offset | name_off | type | offset |
///         | as in each record      | item 0                         | item 1                   |
/// ARRAY   | name_off | info | 0    | type     | index_type | nelems |
/// INT     | name_off | info | size | encoding |
/// ```
///
/// Either section may be the first one. A record consists of 32-bit words. The first three are
/// those of each kind, and the third one is a size, a type or 0. The kind and vlen, which are in
/// info, determine what follows: more fields of the record, or its items.
///
/// Offsets have different starts. type_off and str_off of the header count from hdr_len. The
/// offsets of records that are kept here count from the start of the type section, and name_off
/// counts from the start of the string section. The offset of a fault counts from the start of the
/// file.
#[derive(Drop)]
pub struct BtfView<'a, A: Allocator = Global> {
    pub(crate) order: Order,
    pub(crate) types: &'a [u8],
    pub(crate) strings: &'a [u8],
    pub(crate) offsets: KeptOffsets<A>,
}

impl<'a, A: Allocator> Model for BtfView<'a, A> {
    ghost use Rattle.btf_types.specs.tables.TableOffsets as placed;

    ghost Value = { placed.TypeRecords };

    ghost view = { λ t. placed.placed_records t.order t.types.now t.strings.now t.offsets };

    ghost invariant = { λ t. placed.IsPlacedTable t.order t.types.now t.strings.now t.offsets };
}

#[tactic(auto, using(crate::proofs::TableLemmas::TableReads::placed))]
impl<'a, A: Allocator> BtfView<'a, A> {
    /// Reads and checks a complete BTF file (btf.rst section 2). No name is copied: the table
    /// borrows `bytes`, and keeps the offset of each record.
    ///
    /// # Errors
    ///
    /// Those of [`CheckedFile::check`].
    pub fn parse(alloc: A, bytes: &'a [u8]) -> Result<BtfView<'a, A>, BtfError>
        ensures { MatchResult result (λ v. Denotes bytes.now v) (λ e. Fails bytes.now e) }
    {
        let CheckedFile {
            order,
            types,
            strings,
            offsets,
        } = CheckedFile::check(alloc, bytes)?;
        Ok(BtfView {
            order,
            types,
            strings,
            offsets: KeptOffsets::new(offsets, strings)?,
        })
    }

    /// An iterator over the records in order, each as its ID, from 1 to [`TypeTable::count`], and
    /// its head.
    pub fn records(&self) -> Records<'_>
        ensures { result ≡ numbered 1 self.now }
    {
        self.table().records()
    }

    /// An iterator over the items of the type with the ID `id`, in order. Void (ID 0), and an ID
    /// above [`TypeTable::count`], have none.
    pub fn items(&self, id: u32) -> Items<'_>
        ensures { result ≡ items_of self.now id }
    {
        self.table().items(id)
    }

    /// The head of the record with the ID `id`, which is 1 to [`crate::TypeTable::count`]. Unlike
    /// that of [`crate::TypeTable::head`], its name borrows the file and may outlive the view.
    pub fn file_head(&self, id: u32) -> Head<'a>
        requires first { 0 < id }
        requires last { id ≤ length self.now }
        ensures { head_value result ≡ (record_at self.now id).head }
    {
        let file = FileSections::new(self.order, self.types, self.strings, self.offsets.records());
        let this = file.record(id);
        head_of(self.strings, self.offsets.ends(), &this)
    }

    /// Item `k` (from 0) of the record with the ID `id`, which is 1 to
    /// [`crate::TypeTable::count`]; `k` is less than [`crate::TypeTable::item_count`]. Unlike that
    /// of [`crate::TypeTable::item`], its name borrows the file and may outlive the view.
    pub fn file_item(&self, id: u32, k: u32) -> Item<'a>
        requires first { 0 < id }
        requires last { id ≤ length self.now }
        requires inside { k < length (record_at self.now id).items }
        ensures { slice_get (record_at self.now id).items k ≡ Some (item_value result) }
    {
        let file = FileSections::new(self.order, self.types, self.strings, self.offsets.records());
        let this = file.record(id);
        item_of(self.strings, self.offsets.ends(), &this, k as usize)
    }
}

impl<'a, A: Allocator> KeepsSections for BtfView<'a, A> {
    ghost denoted = { λ t. t };

    fn table(&self) -> SectionTable<'_> {
        let file = FileSections::new(self.order, self.types, self.strings, self.offsets.records());
        SectionTable::new(file, self.offsets.ends())
    }
}

/// Iterates over the records, like [`BtfView::records`].
impl<'t, A: Allocator> IntoIterator for &'t BtfView<'_, A> {
    type Item = (u32, Head<'t>);

    type IntoIter = Records<'t>;

    ghost into_iter_gives = { λ table records. records ≡ numbered 1 table.now };

    fn into_iter(self) -> Records<'t> {
        self.records()
    }
}

/// Shows the number of records.
impl<A: Allocator> fmt::Debug for BtfView<'_, A> {
    fn fmt<W: fmt::Write>(&self, f: &mut fmt::Formatter<W>) -> fmt::Result {
        f.debug_struct("BtfView")
            .field("count", &self.count())
            .finish_non_exhaustive()
    }
}
