//! The listing of a table of BTF types.
//!
//! It is in this crate, which therefore uses `btf_types`, because no crate can call the functions
//! of an executable. The listing is returned as a whole, and names are written out each time they
//! are used, so it may be many times as long as the file. `btf-show` appends the same lines in
//! pieces.

ghost use Rattle.std.specs.Prelude.{◌≡◌, ◌<◌, ◌≤◌, length, IfOk};
ghost use Rattle.btf_types.specs.tables.TableWords.{record_at};
ghost use Rattle.bpf_text.specs.btf.BtfText.{record_text, text_of};
ghost use Rattle.bpf_text.specs.btf.Appending.{Appends};

use crate::btf::head_lines::{append_head, is_signed};
use crate::btf::item_lines::append_item;
use btf_types::TypeTable;
use std::alloc::{AllocError, Allocator};

/// Appends the line of a type and those of its items.
fn append_record<T: TypeTable, A: Allocator>(
    text: &mut Vec<u8, A>,
    table: &T,
    id: u32,
) -> Result<(), AllocError>
    requires first { 0 < id }
    requires last { id ≤ length (T.meaning table.now) }
    ensures { Appends result text.old
        (record_text id (record_at (T.meaning table.now) id)) text.new }
{
    let head = table.head(id);
    let signed = is_signed(head);
    append_head(text, id, head, table.item_count(id))?;
    for k in 0..table.item_count(id) {
        append_item(text, table.item(id, k), signed)?;
    }
    Ok(())
}

/// The listing of a table of types (docs/FORMATS.md, "Type listings"): a line for each type, which
/// begins with its ID in brackets, followed by a line for each of its items, which begins with two
/// spaces. IDs count from 1. The listing of an empty table is empty.
///
/// # Errors
///
/// `AllocError` if memory for the listing can't be allocated.
pub fn show_btf<T: TypeTable, A: Allocator>(alloc: A, table: &T) -> Result<Vec<u8, A>, AllocError>
    ensures { IfOk result (λ text. text.items ≡ text_of (T.meaning table.now)) }
{
    let mut text = Vec::new(alloc);
    for index in 0..table.count() {
        append_record(&mut text, table, index + 1)?;
    }
    Ok(text)
}
