//! A table of types that borrows the two sections of a file (btf.rst section 2). Records are
//! decoded from the sections when they are asked for. A table that keeps its sections implements
//! [`crate::TypeTable`] by it.
//!
//! So a view, an owned table and references to them have one implementation, and the iterators over
//! records and items need no type parameter. Nothing that was decoded is kept: asking twice decodes
//! twice. But no call depends on the length of a name, since its end is found by `string_ends.rt`
//! and its UTF-8 was checked before.

ghost use Rattle.std.specs.Prelude.{◌≡◌, ◌<◌, ◌≤◌, Some, length, slice_get, List, IfSome, IsSome};
ghost use Rattle.btf_types.specs.Values.{head_value, item_value, TypeRecord};
ghost use Rattle.btf_types.specs.{Valid.IsValid, Sections.records_in, tables.Windows.items_of};
ghost use Rattle.btf_types.specs.tables.{TableWords.record_at, TableWords.numbered};
ghost use Rattle.btf_types.specs.tables.StringEnds.{AreLongEnds};

use crate::reading::{head_of, item_count_of, item_of};
use crate::tables::{FileSections, Items, Records, TypeTable};
use crate::values::{Head, Item};
use std::marker::Model;

/// The types in two borrowed sections.
#[derive(Drop)]
pub struct SectionTable<'a> {
    file: FileSections<'a>,
    /// The ends of the long strings, in bytes from the start of the string section, ascending.
    ends: &'a [u32],
}

impl<'a> Model for SectionTable<'a> {
    ghost use Rattle.std.specs.Prelude.{List};
    ghost use Rattle.btf_types.specs.Values.{TypeRecord};
    ghost use Rattle.btf_types.specs.{Sections.records_in, tables.StringEnds.AreLongEnds};

    ghost Value = { List TypeRecord };

    ghost view = { λ t. records_in t.file };

    ghost invariant = { λ t. AreLongEnds t.file.strings t.ends.now };
}

#[tactic(auto, using(crate::proofs::TableLemmas::TableReads::placed))]
impl<'a> SectionTable<'a> {
    /// The table of these sections. `ends` are the ends of their long strings.
    pub fn new(file: FileSections<'a>, ends: &'a [u32]) -> SectionTable<'a>
        requires { AreLongEnds file.strings ends.now }
        ensures { result ≡ records_in file.entry }
    {
        SectionTable { file, ends }
    }

    /// The number of records.
    pub fn count(&self) -> u32
        ensures count { result ≡ length self.now }
        ensures valid { IsValid self.now }
    {
        self.file.count()
    }

    /// The head of the record with the ID `id`, counted from 1.
    pub fn head(&self, id: u32) -> Head<'a>
        requires first { 0 < id }
        requires last { id ≤ length self.now }
        ensures { head_value result ≡ (record_at self.now id).head }
    {
        head_of(self.file.strings(), self.ends, &self.file.record(id))
    }

    /// The number of items of the record with the ID `id`, counted from 1.
    pub fn item_count(&self, id: u32) -> u32
        requires first { 0 < id }
        requires last { id ≤ length self.now }
        ensures { result ≡ length (record_at self.now id).items }
    {
        item_count_of(&self.file.record(id))
    }

    /// Item `k` (from 0) of the record with the ID `id`, counted from 1.
    pub fn item(&self, id: u32, k: u32) -> Item<'a>
        requires first { 0 < id }
        requires last { id ≤ length self.now }
        requires inside { k < length (record_at self.now id).items }
        ensures { slice_get (record_at self.now id).items k ≡ Some (item_value result) }
    {
        let this = self.file.record(id);
        item_of(self.file.strings(), self.ends, &this, k as usize)
    }

    /// The borrowed sections.
    pub fn into_sections(self) -> FileSections<'a>
        ensures { self.entry ≡ records_in result }
    {
        self.file
    }

    /// An iterator over the records in order, each as its ID, from 1, and its head.
    #[tactic(auto, using(crate::proofs::TableLemmas::WindowSteps::all_records))]
    pub fn records(self) -> Records<'a>
        ensures { result ≡ numbered 1 self.entry }
    {
        let left = 0..self.count();
        Records { table: self, left }
    }

    /// An iterator over the items of the type with the ID `id`; empty if the table lacks this
    /// record.
    #[tactic(auto, using(crate::proofs::TableLemmas::WindowSteps::window_whole))]
    pub fn items(self, id: u32) -> Items<'a>
        ensures { result ≡ items_of self.entry id }
    {
        let end = if id == 0 || id > self.count() {
            0
        } else {
            self.item_count(id)
        };
        Items {
            table: self,
            id,
            left: 0..end,
        }
    }
}

/// A table that keeps the two sections of a file.
pub trait KeepsSections {
    ghost denoted: { Self → List TypeRecord };

    /// A table that borrows the kept sections.
    fn table(&self) -> SectionTable<'_>
        ensures { result ≡ denoted self.now };
}

/// A reference to a table keeps what the table keeps.
impl<T: KeepsSections> KeepsSections for &T {
    ghost denoted = { λ t. T.denoted t.now };

    fn table(&self) -> SectionTable<'_> {
        (**self).table()
    }
}

impl<T: KeepsSections> TypeTable for T {
    ghost meaning = { T.denoted };

    fn count(&self) -> u32 {
        self.table().count()
    }

    fn head(&self, id: u32) -> Head<'_> {
        self.table().head(id)
    }

    fn item_count(&self, id: u32) -> u32 {
        self.table().item_count(id)
    }

    fn item(&self, id: u32, k: u32) -> Item<'_> {
        self.table().item(id, k)
    }

    fn sections(&self) -> Option<FileSections<'_>>
        ensures kept { IsSome result }
        ensures sections { IfSome result (λ kept. T.denoted self.now ≡ records_in kept) }
    {
        Some(self.table().into_sections())
    }
}
