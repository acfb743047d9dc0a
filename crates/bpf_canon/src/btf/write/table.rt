//! Canonical bytes of a type table (btf.rst section 2).
//!
//! A table that exposes its sections is written from them (`sections.rt`). Any other is written
//! here, from its heads and items, whose names are strings. Both write the bytes of the definition
//! `canonical`. Only an allocation can fail: by its contract, a table has valid records, which fit
//! into a file.

ghost use Rattle.std.specs.Prelude.{◌≡◌, ◌<◌, ◌≤◌, ◌^◌, ◌++◌, IfOk, OnOk, length};
ghost use Rattle.btf_raw.specs.Frames.{bytes_of};
ghost use Rattle.btf_types.specs.Values.{head_value, item_value};
ghost use Rattle.btf_types.specs.{Names.kept, strings.SharedNames.shared_among, Encoding.head_tail};
ghost use Rattle.btf_types.specs.{Valid.IsValid, Denotes.Denotes, tables.TableWords.record_at};
ghost use Rattle.bpf_canon.specs.btf.names.Interned.{IsInTable};
ghost use Rattle.bpf_canon.specs.btf.write.BtfWords.{head_words, MemberFits};
ghost use Rattle.bpf_canon.specs.btf.CanonicalBtf.{canonical, words_of_item, record_words};
ghost use Rattle.btf_types.specs.Names as spec;
ghost use Rattle.btf_types.specs.Valid as valid;

use crate::btf::names::{SharedNames, kept_names};
use crate::btf::write::head_words::{head_third, head_vlen, kind_flag, push_header};
use crate::btf::write::sections::write_sections;
use bpf_words::{Order, push_words};
use btf_types::{Head, Item, TypeTable};
use std::alloc::{AllocError, Allocator};

/// Appends the words after the third that belong to the kind and precede the items.
#[rattlefmt::skip]
fn push_further_words<A: Allocator>(
    out: &mut Vec<u8, A>,
    order: Order,
    head: Head<'_>,
) -> Result<(), AllocError>
    ensures { OnOk result (out.new.items
        ≡ out.old.items ++ bytes_of order (head_tail (head_value head.entry))) }
{
    match head {
        Head::KInt { encoding, offset, bits, .. } => {
            let word = u32::from(bits) + (u32::from(offset) << 16) + (encoding.number() << 24);
            push_words(out, order, &[word])
        }
        Head::KArray { target, index, count } => push_words(out, order, &[target, index, count]),
        Head::KVar { linkage, .. } => push_words(out, order, &[linkage.number()]),
        // -1 stands for the type itself.
        Head::KDeclTag { component, .. } =>
            push_words(out, order, &[component.map_or(u32::MAX, |index| u32::from(index))]),
        _ => Ok(()),
    }
}

/// Appends the header of a record with `count` items.
fn push_head<A: Allocator, B: Allocator + Copy>(
    out: &mut Vec<u8, A>,
    order: Order,
    names: &SharedNames<'_, B>,
    head: Head<'_>,
    count: u32,
    bit_fields: bool,
) -> Result<(), AllocError>
    requires few { count < 2 ^ 16 }
    requires in_table { IsInTable names.now (spec.head_name (head_value head)) }
    ensures { OnOk result (out.new.items
        ≡ out.old.items ++ bytes_of order (head_words (shared_among names.now)
        (head_value head.entry) count bit_fields)) }
{
    let info = head_vlen(head, count)
        + (u32::from(head.kind()) << 24)
        + (kind_flag(head, bit_fields) << 31);
    push_words(
        out,
        order,
        &[names.new_offset(head.name()), info, head_third(head)],
    )?;
    push_further_words(out, order, head)
}

/// Appends an item.
#[rattlefmt::skip]
fn push_item<A: Allocator, B: Allocator + Copy>(
    out: &mut Vec<u8, A>,
    order: Order,
    names: &SharedNames<'_, B>,
    item: Item<'_>,
) -> Result<(), AllocError>
    requires fits { MemberFits (item_value item) }
    requires in_table { IsInTable names.now (spec.item_name (item_value item)) }
    ensures { OnOk result (out.new.items
        ≡ out.old.items ++ bytes_of order (words_of_item (shared_among names.now)
        (item_value item.entry))) }
{
    match item {
        Item::Member { name, target, bit_offset, width } => {
            let offset = bit_offset + (u32::from(width) << 24);
            push_words(out, order, &[names.new_offset(name), target, offset])
        }
        Item::EnumValue { name, value } => push_words(out, order, &[names.new_offset(name), value]),
        Item::Value64 { name, value } => {
            let low = (value & 0xffff_ffff) as u32;
            let high = (value >> 32) as u32;
            push_words(out, order, &[names.new_offset(name), low, high])
        }
        Item::Param { name, target } => push_words(out, order, &[names.new_offset(name), target]),
        Item::Entry { target, offset, size } => push_words(out, order, &[target, offset, size]),
    }
}

/// Whether the record has bit-fields.
#[tactic(auto, using(crate::proofs::BtfLemmas::Write::WriteSteps::width_cases))]
fn has_bit_fields<T: TypeTable>(table: &T, id: u32) -> bool
    requires first { 0 < id }
    requires last { id ≤ length (T.meaning table.now) }
    ensures { result ≡ valid.has_bit_fields (record_at (T.meaning table.now) id) }
{
    for k in 0..table.item_count(id) {
        if matches!(table.item(id, k), Item::Member { width, .. } if width != 0) {
            return true;
        }
    }
    false
}

/// Appends a record.
#[tactic(auto, using(crate::proofs::BtfLemmas::Write::WriteSteps::record_steps))]
fn push_table_record<T: TypeTable, A: Allocator, B: Allocator + Copy>(
    out: &mut Vec<u8, A>,
    order: Order,
    names: &SharedNames<'_, B>,
    table: &T,
    id: u32,
) -> Result<(), AllocError>
    requires first { 0 < id }
    requires last { id ≤ length (T.meaning table.now) }
    requires valid { IsValid (T.meaning table.now) }
    requires kept { names.now ≡ kept (spec.names (T.meaning table.now)) }
    ensures { OnOk result (out.new.items
        ≡ out.old.items ++ bytes_of order (record_words (shared_among names.now)
        (record_at (T.meaning table.now) id))) }
{
    let count = table.item_count(id);
    let bit_fields = has_bit_fields(table, id);
    push_head(out, order, names, table.head(id), count, bit_fields)?;
    for k in 0..count {
        push_item(out, order, names, table.item(id, k))?;
    }
    Ok(())
}

/// The canonical bytes of a table with these names.
#[tactic(auto, using(crate::proofs::BtfLemmas::Write::WriteSteps::record_steps))]
fn write_named<T: TypeTable, A: Allocator + Copy>(
    alloc: A,
    order: Order,
    names: &SharedNames<'_, A>,
    table: &T,
) -> Result<Vec<u8, A>, AllocError>
    requires valid { IsValid (T.meaning table.now) }
    requires kept { names.now ≡ kept (spec.names (T.meaning table.now)) }
    ensures { IfOk result (λ bytes. bytes.items ≡ canonical order (T.meaning table.now)) }
{
    let mut types = Vec::new(alloc);
    for index in 0..table.count() {
        push_table_record(&mut types, order, names, table, index + 1)?;
    }
    let mut bytes = Vec::new(alloc);
    push_header(&mut bytes, order, types.len() as u32, names.table_len())?;
    bytes.extend_from_slice(types.as_slice())?;
    names.push_table(&mut bytes)?;
    Ok(bytes)
}

/// The canonical bytes of a table that exposes no sections: its names are read as strings.
fn write_table<T: TypeTable, A: Allocator + Copy>(
    alloc: A,
    order: Order,
    table: &T,
) -> Result<Vec<u8, A>, AllocError>
    ensures form { IfOk result (λ bytes. bytes.items ≡ canonical order (T.meaning table.now)) }
    ensures accepted { IfOk result (λ bytes. Denotes bytes.items (T.meaning table.now)) }
{
    let kept = kept_names(alloc, table)?;
    let names = SharedNames::new(alloc, kept)?;
    write_named(alloc, order, &names, table)
}

/// The canonical bytes of a type table in the given byte order (btf.rst section 2): a 24-byte
/// header, the records, and the string table.
///
/// The string table contains each name once, in the order of first use, except that a name that is
/// a suffix of another one shares its bytes. The kind_flag of a STRUCT or UNION is 0 if and only if
/// no member has a width.
///
/// # Errors
///
/// `AllocError` if an allocation failed.
#[tactic(auto, using(crate::proofs::BtfLemmas::BtfFiles::file_steps))]
pub fn write_btf<T: TypeTable, A: Allocator + Copy>(
    alloc: A,
    order: Order,
    table: &T,
) -> Result<Vec<u8, A>, AllocError>
    ensures form { IfOk result (λ bytes. bytes.items ≡ canonical order (T.meaning table.now)) }
    ensures accepted { IfOk result (λ bytes. Denotes bytes.items (T.meaning table.now)) }
{
    match table.sections() {
        Some(sections) => write_sections(alloc, order, &sections),
        None => write_table(alloc, order, table),
    }
}
