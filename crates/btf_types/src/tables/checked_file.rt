//! A BTF file that has been checked, and the call that checks it.
//!
//! Each phase of the checks relies on those before it: the header says where the sections are,
//! framing finds the records, and the checks of fields read other records. Checks below this file
//! know only their own section, so the offset of a fault is moved to the file here.
//!
//! To check a file, or to rewrite its words, nothing else is needed. Names are read through a table
//! (`view.rt`), which also keeps the ends of long strings.

ghost use Rattle.std.specs.Prelude.{◌≡◌, MatchResult, length};
ghost use Rattle.btf_types.specs.Denotes.{HoldsSections};
ghost use Rattle.btf_types.specs.tables.Tables as tables;

use crate::checks::fields::check_fields;
use crate::error::BtfError;
use crate::tables::{FileSections, record_offsets};
use bpf_words::Order;
use btf_raw::{check_strings, read_header};
use std::alloc::{Allocator, Global};
use std::fmt;
use std::marker::Model;

/// A BTF file without faults (btf.rst section 2).
///
/// It borrows the bytes of the file, and owns the offset of each record: 4 bytes for each.
#[derive(Drop)]
pub struct CheckedFile<'a, A: Allocator = Global> {
    pub(crate) order: Order,
    pub(crate) types: &'a [u8],
    pub(crate) strings: &'a [u8],
    /// The offset of each record, in bytes from the start of `types`, in order of IDs from 1.
    pub(crate) offsets: Vec<u32, A>,
}

impl<'a, A: Allocator> Model for CheckedFile<'a, A> {
    ghost use Rattle.btf_types.specs.Sections.{SectionWords, words_at};
    ghost use Rattle.btf_types.specs.tables.TableInvariant.{IsChecked};

    ghost Value = { SectionWords };

    ghost view = { λ f. words_at f.order f.types.now f.strings.now f.offsets.items };

    ghost invariant = { λ f. IsChecked f.order f.types.now f.strings.now f.offsets.items };
}

/// Converts the offset of an error from a section that begins at `base` to an offset in the file.
fn moved(base: usize, error: BtfError) -> BtfError
    requires { tables.MayMove base error }
    ensures { result ≡ tables.moved base error }
{
    match error {
        BtfError::Fault(fault) => BtfError::Fault(fault.moved_by(base as u64)),
        BtfError::Memory => BtfError::Memory,
    }
}

impl<'a, A: Allocator> CheckedFile<'a, A> {
    /// Checks a complete BTF file (btf.rst section 2). It keeps the offset of each record, and
    /// copies nothing.
    ///
    /// # Errors
    ///
    /// `Fault` with the first fault of the file. Faults of the header come first, then those of the
    /// ends of the string section, each by cause; then those of the framing, then those of the
    /// fields, each by offset and then by cause. `Memory` if memory can't be allocated.
    #[tactic(auto, using(crate::proofs::TableLemmas::TableSteps::phases))]
    pub fn check(alloc: A, bytes: &'a [u8]) -> Result<CheckedFile<'a, A>, BtfError>
        ensures { MatchResult result
            (λ f. HoldsSections bytes.now f) (λ e. tables.Fails bytes.now e) }
    {
        let header = read_header(bytes)?;
        let order = header.order;
        let types = &bytes[header.types_pos..header.types_pos + header.types_len];
        let strings = &bytes[header.str_pos..header.str_pos + header.str_len];
        if let Err(fault) = check_strings(strings) {
            return Err(moved(header.str_pos, BtfError::Fault(fault)));
        }
        let offsets = match record_offsets(alloc, order, types) {
            Ok(offsets) => offsets,
            Err(error) => return Err(moved(header.types_pos, error)),
        };
        if let Err(error) = check_fields(offsets.allocator(), order, types, strings, &offsets) {
            return Err(moved(header.types_pos, error));
        }
        Ok(CheckedFile {
            order,
            types,
            strings,
            offsets,
        })
    }

    /// The number of records, which is also the largest ID.
    pub fn count(&self) -> u32
        ensures { result ≡ length self.now.frames }
    {
        self.offsets.len() as u32
    }

    /// The sections of the file.
    pub fn sections(&self) -> FileSections<'_>
        ensures { result ≡ self.now }
    {
        FileSections::new(self.order, self.types, self.strings, &self.offsets)
    }
}

/// Shows the number of records.
impl<A: Allocator> fmt::Debug for CheckedFile<'_, A> {
    fn fmt<W: fmt::Write>(&self, f: &mut fmt::Formatter<W>) -> fmt::Result {
        f.debug_struct("CheckedFile")
            .field("count", &self.count())
            .finish_non_exhaustive()
    }
}
