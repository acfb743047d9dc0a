//! The interface of all tables of types.
//!
//! A user may implement it for types of any origin; `bpf_canon` writes them and `bpf_text` lists
//! them. Such a table has only values, and its names are strings. A table that was read from a file
//! also returns its sections, by `sections`, so that `bpf_canon` can tell names by their offsets
//! and copy records without decoding them. For this, string offsets are visible above this crate.

ghost use Rattle.std.specs.Prelude.{◌≡◌, ◌<◌, ◌≤◌, List, Some, IfSome, length, slice_get};
ghost use Rattle.btf_types.specs.{Valid.IsValid, Sections.records_in, tables.TableWords.record_at};
ghost use Rattle.btf_types.specs.Values.{TypeRecord, head_value, item_value};

use crate::tables::FileSections;
use crate::values::{Head, Item};

/// A list of records, each a head with its items. Record IDs count from 1, like the type IDs of
/// btf.rst section 2.2.
///
/// The records are always valid: items fit their heads, names are present or absent as their kinds
/// require, each type that is referred to exists and is of a permitted kind, and the records and
/// their string table are within the size limits of a file.
pub trait TypeTable {
    ghost meaning: { Self → List TypeRecord };

    /// The number of records, which is also the largest ID.
    fn count(&self) -> u32
        ensures count { result ≡ length (meaning self.now) }
        ensures valid { IsValid (meaning self.now) };

    /// The head of the record with the ID `id`, which must be 1 to [`TypeTable::count`].
    fn head(&self, id: u32) -> Head<'_>
        requires first { 0 < id }
        requires last { id ≤ length (meaning self.now) }
        ensures { head_value result ≡ (record_at (meaning self.now) id).head };

    /// The number of items of the record with the ID `id`, which must be 1 to [`TypeTable::count`].
    fn item_count(&self, id: u32) -> u32
        requires first { 0 < id }
        requires last { id ≤ length (meaning self.now) }
        ensures { result ≡ length (record_at (meaning self.now) id).items };

    /// Item `k` (from 0) of the record with the ID `id`. `id` must be 1 to
    /// [`TypeTable::count`], and `k` less than [`TypeTable::item_count`].
    fn item(&self, id: u32, k: u32) -> Item<'_>
        requires first { 0 < id }
        requires last { id ≤ length (meaning self.now) }
        requires inside { k < length (record_at (meaning self.now) id).items }
        ensures { slice_get (record_at (meaning self.now) id).items k ≡ Some (item_value result) };

    /// The sections of the file that the table keeps, or `None` if it keeps none.
    fn sections(&self) -> Option<FileSections<'_>>
        ensures { IfSome result (λ sections. meaning self.now ≡ records_in sections) }
    {
        None
    }
}
