//! The records of .BTF as a canonical file has them (docs/OBJECTS.md, "The file"): in their order,
//! with the new offsets of their names and the new numbers of their types.
//!
//! A record is copied field by field. Nothing else of it changes, since a kind_flag without meaning
//! is a fault.

ghost use Rattle.std.specs.Prelude.{◌≡◌, ◌<◌, ◌++◌, length, OnOk};
ghost use Rattle.std.specs.List.{All, Contains, flat_map};
ghost use Rattle.btf_raw.specs.Frames.{IsFrame, bytes_of};
ghost use Rattle.btf_types.specs.Reading.{record_of};
ghost use Rattle.btf_types.specs.Sections.{records_in};
ghost use Rattle.btf_types.specs.tables.OffsetWords.{ReadsRecord};
ghost use Rattle.bpf_canon.specs.btf.CanonicalBtf.{record_words};
ghost use Rattle.bpf_canon.specs.btf.strings.FirstUses.{noted_all};
ghost use Rattle.bpf_canon.specs.btf.write.NameOffsets.{HasNotedNames, name_offsets, all_offsets};
ghost use Rattle.bpf_object.specs.Canonical.{types_bytes};
ghost use Rattle.bpf_object.specs.TypeOrder as order;
ghost use Rattle.bpf_object.specs.TypeOrder.{frame_of, renewed_frame};
ghost use Rattle.bpf_object.specs.private.NotedStrings.{text_offset};
ghost use Rattle.bpf_object.specs.private.TypeSteps.{numbered, AreInRange};
ghost use Rattle.bpf_object.specs.private.WrittenRecords as spec;

use crate::type_checks::{item_name, named_items};
use crate::type_keys::new_number;
use bpf_canon::{DistinctOffsets, FirstUses};
use bpf_words::{Order, push32};
use btf_raw::info::{has_item_names, has_target, is_struct, item_words};
use btf_raw::{ARRAY, DATASEC, FUNC_PROTO};
use btf_types::{FileSections, Record};
use std::alloc::{AllocError, Allocator};

/// Notes the names of a record: its own, then those of its items.
fn note_record<A: Allocator + Copy>(
    uses: &mut FirstUses<'_, A>,
    this: &Record<'_>,
) -> Result<(), AllocError>
    requires { ReadsRecord uses.old.strings this.now }
    ensures strings { uses.new.strings ≡ uses.old.strings }
    ensures offsets { OnOk result (uses.new.offsets
        ≡ noted_all uses.old.offsets (name_offsets this.now)) }
{
    uses.note(this.word(0))?;
    for k in 0..named_items(this) {
        uses.note(this.word(item_name(this, k)))?;
    }
    Ok(())
}

/// Notes the names of records in this order.
pub(crate) fn note_records<A: Allocator + Copy>(
    uses: &mut FirstUses<'_, A>,
    sections: &FileSections<'_>,
    ids: &[u32],
) -> Result<(), AllocError>
    requires ids { AreInRange (length sections.now.frames) ids.now }
    requires strings { uses.old.strings ≡ sections.now.strings }
    ensures strings { uses.new.strings ≡ uses.old.strings }
    ensures offsets { OnOk result (uses.new.offsets ≡ noted_all uses.old.offsets
        (flat_map (λ id. name_offsets (frame_of sections.now id)) ids.now)) }
{
    for k in 0..ids.len() {
        let this = sections.record(ids[k]);
        note_record(uses, &this)?;
    }
    Ok(())
}

/// Whether a field of a record of this kind is the offset of a name: its own, or that of an item.
fn is_name_word(kind: u8, j: usize) -> bool
    ensures { result ≡ spec.is_name_word kind j }
{
    if j >= 3 {
        has_item_names(kind) && (j - 3) % item_words(kind) == 0
    } else {
        j == 0
    }
}

/// Whether a field of a record of this kind is the number of a type.
fn is_type_word(kind: u8, j: usize) -> bool
    ensures { result ≡ order.is_type_word kind j }
{
    if j == 2 {
        return has_target(kind);
    }
    if kind == ARRAY {
        return j == 3 || j == 4;
    }
    if is_struct(kind) {
        return j >= 3 && (j - 3) % 3 == 1;
    }
    if kind == FUNC_PROTO {
        return j >= 3 && (j - 3) % 2 == 1;
    }
    kind == DATASEC && j >= 3 && (j - 3) % 3 == 0
}

/// A field of a record, with a new number if it is that of a type.
fn renewed_word(this: &Record<'_>, numbers: &[u32], j: usize) -> u32
    requires { j < length this.now }
    ensures { result ≡ order.renewed_word (numbered numbers.now) this.now j }
{
    let word = this.word(j);
    if is_type_word(this.kind(), j) {
        new_number(numbers, word)
    } else {
        word
    }
}

/// A field of a record, with its new value if it is the offset of a name or the number of a type.
fn new_word<A: Allocator>(
    names: &DistinctOffsets<'_, A>,
    numbers: &[u32],
    this: &Record<'_>,
    j: usize,
) -> u32
    requires there { j < length this.now }
    requires frame { IsFrame this.now }
    requires noted { HasNotedNames names.now this.now }
    ensures { result ≡ spec.placed_word (text_offset names.now) names.now.strings
        (renewed_frame (numbered numbers.now) this.now) j }
{
    if is_name_word(this.kind(), j) {
        return names.new_offset(this.word(j));
    }
    renewed_word(this, numbers, j)
}

/// Appends a record.
fn push_record<A: Allocator, B: Allocator>(
    out: &mut Vec<u8, A>,
    to: Order,
    names: &DistinctOffsets<'_, B>,
    numbers: &[u32],
    this: &Record<'_>,
) -> Result<(), AllocError>
    requires frame { IsFrame this.now }
    requires noted { HasNotedNames names.now this.now }
    requires writable { spec.IsWritable names.now.strings
        (renewed_frame (numbered numbers.now) this.now) }
    ensures { OnOk result (out.new.items ≡ out.old.items
        ++ bytes_of to (record_words (text_offset names.now)
        (record_of names.now.strings (renewed_frame (numbered numbers.now) this.now)))) }
{
    for j in 0..this.word_count() {
        push32(out, to, new_word(names, numbers, this, j))?;
    }
    Ok(())
}

/// Appends records in this order.
pub(crate) fn push_records<A: Allocator, B: Allocator>(
    out: &mut Vec<u8, A>,
    to: Order,
    names: &DistinctOffsets<'_, B>,
    sections: &FileSections<'_>,
    ids: &[u32],
    numbers: &[u32],
) -> Result<(), AllocError>
    requires writable { spec.AreWritable sections.now ids.now numbers.now }
    requires strings { names.now.strings ≡ sections.now.strings }
    requires noted { All (Contains names.now.offsets)
        (all_offsets (spec.renewed sections.now ids.now numbers.now).frames) }
    ensures { OnOk result (out.new.items ≡ out.old.items ++ types_bytes to (text_offset names.now)
        (records_in (spec.renewed sections.now ids.now numbers.now))) }
{
    for k in 0..ids.len() {
        let this = sections.record(ids[k]);
        push_record(out, to, names, numbers, &this)?;
    }
    Ok(())
}
