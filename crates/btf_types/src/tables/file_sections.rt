//! The two sections of a checked file, borrowed with the offsets of its records.
//!
//! Each reader of the words of a file takes this one value. By its invariant the sections have no
//! faults, so no contract of a reader has to repeat that. All parts are borrowed for one lifetime,
//! the shortest of theirs (docs/DECISIONS.md).

ghost use Rattle.std.specs.Prelude.{◌≡◌, ◌-◌, ◌<◌, ◌≤◌, Some, length, slice_get};
ghost use Rattle.btf_raw.specs.Frames.{section_of};
ghost use Rattle.btf_types.specs.{Reading.record_of, Sections.words_at, Sections.records_in};
ghost use Rattle.btf_types.specs.tables.{TableInvariant.IsTable, TableInvariant.IsChecked};
ghost use Rattle.btf_types.specs.tables.{TableWords.record_at, OffsetWords.ReadsRecord};

use crate::record_words::Record;
use bpf_words::Order;
use std::marker::Model;

/// The type section and the string section of a BTF file without faults (btf.rst section 2),
/// borrowed from a table or from a [`crate::CheckedFile`].
#[derive(Clone, Debug, Drop)]
pub struct FileSections<'t> {
    order: Order,
    types: &'t [u8],
    strings: &'t [u8],
    /// The offset of each record, in bytes from the start of `types`, in order of IDs from 1.
    offsets: &'t [u32],
}

impl<'t> Model for FileSections<'t> {
    ghost use Rattle.btf_types.specs.Sections.{SectionWords, words_at};
    ghost use Rattle.btf_types.specs.tables.TableInvariant.{IsChecked};

    ghost Value = { SectionWords };

    ghost view = { λ s. words_at s.order s.types.now s.strings.now s.offsets.now };

    ghost invariant = { λ s. IsChecked s.order s.types.now s.strings.now s.offsets.now };
}

impl<'t> FileSections<'t> {
    /// The sections of a checked file. `offsets` are the offsets of its records.
    pub(crate) fn new(
        order: Order,
        types: &'t [u8],
        strings: &'t [u8],
        offsets: &'t [u32],
    ) -> FileSections<'t>
        requires { IsChecked order types.now strings.now offsets.now }
        ensures { result ≡ words_at order types.now strings.now offsets.now }
    {
        FileSections {
            order,
            types,
            strings,
            offsets,
        }
    }

    /// The byte order of the file.
    pub fn order(&self) -> Order
        ensures is { result ≡ self.now.order }
        ensures table { IsTable self.now }
    {
        self.order
    }

    /// The number of records, which is also the largest ID.
    pub fn count(&self) -> u32
        ensures count { result ≡ length self.now.frames }
        ensures table { IsTable self.now }
    {
        self.offsets.len() as u32
    }

    /// The record with the ID `id`, which is 1 to [`FileSections::count`].
    #[inline(always)]
    pub fn record(&self, id: u32) -> Record<'t>
        requires first { 0 < id }
        requires last { id ≤ length self.now.frames }
        ensures reads { ReadsRecord self.now.strings result }
        ensures frame { slice_get self.now.frames (id - 1) ≡ Some result }
        ensures is { record_at (records_in self.now) id ≡ record_of self.now.strings result }
    {
        let pos = self.offsets[id as usize - 1] as usize;
        Record::at(self.order, self.types, pos)
    }

    /// The bytes of the type section: those of its records, in the byte order of the file.
    pub fn types(&self) -> &'t [u8]
        ensures section { result.now ≡ section_of self.now.order self.now.frames }
        ensures table { IsTable self.now }
    {
        self.types
    }

    /// The bytes of the string section.
    pub fn strings(&self) -> &'t [u8]
        ensures is { result.now ≡ self.now.strings }
        ensures table { IsTable self.now }
    {
        self.strings
    }
}
