//! Canonical bytes from the sections of a checked file (btf.rst section 2): the names are noted by
//! their offsets only, and the records are copied with new offsets of their names.
//!
//! The records are read twice, since a new offset depends on all names: first the names are noted,
//! then the words are written. No value is made of a record: its words are read in the byte order
//! of the file, and written in the byte order `to`. Apart from the offsets of names, only the
//! kind_flag of a STRUCT or UNION may change.

ghost use Rattle.std.specs.Prelude.{◌≡◌, ◌+◌, ◌^◌, ◌<◌, ◌++◌, [], ℕ, List, IfOk, OnOk, length};
ghost use Rattle.std.specs.{Prelude.drop, Prelude.map, List.All, List.Contains};
ghost use Rattle.btf_raw.specs.Frames.{IsFrame, bytes_of, section_of};
ghost use Rattle.btf_types.specs.{Reading.record_of, tables.OffsetWords.ReadsRecord};
ghost use Rattle.btf_types.specs.{Sections.records_in, Denotes.Denotes};
ghost use Rattle.bpf_canon.specs.btf.CanonicalBtf.{record_words, canonical};
ghost use Rattle.bpf_canon.specs.btf.strings.{FirstUses.noted_all, NamesByOffset.texts_by_offset};
ghost use Rattle.bpf_canon.specs.btf.strings.DistinctNames.{distinct_offset};
ghost use Rattle.bpf_canon.specs.btf.write.NameOffsets.{IsBelow, HasNotedNames, name_offsets};
ghost use Rattle.bpf_canon.specs.btf.write.NameOffsets.{all_offsets};
ghost use Rattle.bpf_canon.specs.btf.write.BtfWords.{record_info};

use crate::btf::strings::distinct_offsets::DistinctOffsets;
use crate::btf::strings::new_name_offsets::NewOffsets;
use crate::btf::strings::shared_offsets::SharedOffsets;
use crate::btf::strings::used_offsets::FirstUses;
use crate::btf::write::head_words::push_header;
use bpf_words::{Order, push_words, push32};
use btf_raw::info::{flag_of, is_struct, layout_of, tail_words};
use btf_types::{FileSections, Record};
use std::alloc::{AllocError, Allocator};

/// Notes the names of a record: its own, then those of its items.
#[tactic(auto, using(crate::proofs::BtfLemmas::Write::RecordNames::own_offset))]
fn note_record<A: Allocator + Copy>(
    uses: &mut FirstUses<'_, A>,
    this: &Record,
) -> Result<(), AllocError>
    requires frame { IsFrame this.now }
    requires inside { All (IsBelow (length uses.old.strings)) (name_offsets this.now) }
    ensures strings { uses.new.strings ≡ uses.old.strings }
    ensures offsets { OnOk result (uses.new.offsets
        ≡ noted_all uses.old.offsets (name_offsets this.now)) }
{
    uses.note(this.word(0))?;
    let item = layout_of(this.kind()).item;
    if item.named {
        for k in 0..usize::from(this.vlen()) {
            uses.note(this.word(3 + item.words * k))?;
        }
    }
    Ok(())
}

/// Notes the names of all records in sequence: of each its own, then those of its items. The
/// offsets must be those of the string section of `sections`.
///
/// # Errors
///
/// `AllocError` if an allocation failed. The set of noted offsets is then unspecified.
#[tactic(auto, using(crate::proofs::BtfLemmas::Names::NoteSteps::record_noted))]
pub fn note_names<A: Allocator + Copy>(
    uses: &mut FirstUses<'_, A>,
    sections: &FileSections<'_>,
) -> Result<(), AllocError>
    requires { uses.old.strings ≡ sections.now.strings }
    ensures strings { uses.new.strings ≡ uses.old.strings }
    ensures offsets { OnOk result (uses.new.offsets
        ≡ noted_all uses.old.offsets (all_offsets sections.now.frames)) }
{
    for index in 0..sections.count() {
        let this = sections.record(index + 1);
        note_record(uses, &this)?;
    }
    Ok(())
}

/// The offsets of the names of all records, in the order of first use.
fn noted_names<'t, A: Allocator + Copy>(
    alloc: A,
    sections: &FileSections<'t>,
) -> Result<FirstUses<'t, A>, AllocError>
    ensures strings { IfOk result (λ uses. uses.strings ≡ sections.now.strings) }
    ensures offsets { IfOk result (λ uses. uses.offsets
        ≡ noted_all [] (all_offsets sections.now.frames)) }
{
    let mut uses = FirstUses::new(alloc, sections.strings())?;
    note_names(&mut uses, sections)?;
    Ok(uses)
}

/// The canonical info word of a record: the kind_flag of a STRUCT or UNION is 0 if no member has a
/// width, since then the same members can be encoded with either.
fn canonical_info(this: &Record) -> u32
    requires { IsFrame this.now }
    ensures { (strings : List ℕ) → ReadsRecord strings this.now
        → result ≡ record_info (record_of strings this.now) }
{
    let info = this.word(1);
    if flag_of(info) == 0 || !is_struct(this.kind()) || this.has_bit_fields() {
        return info;
    }
    info & 0x7fff_ffff
}

/// Appends everything after the third word of a record whose items have no names.
#[tactic(auto, using(crate::proofs::BtfLemmas::Write::RecordWords::rest_more))]
fn push_rest<A: Allocator>(
    out: &mut Vec<u8, A>,
    to: Order,
    this: &Record,
    count: usize,
) -> Result<(), AllocError>
    requires all { 3 + count ≡ length this.now }
    requires few { count < 2 ^ 20 }
    ensures { OnOk result (out.new.items ≡ out.old.items ++ bytes_of to (drop 3 this.now)) }
{
    for k in 0..count {
        push32(out, to, this.word(3 + k))?;
    }
    Ok(())
}

/// Appends a record.
fn push_record<A: Allocator, N: NewOffsets>(
    out: &mut Vec<u8, A>,
    to: Order,
    names: &N,
    this: &Record,
) -> Result<(), AllocError>
    requires reads { ReadsRecord (N.names names.now).strings this.now }
    requires noted { HasNotedNames (N.names names.now) this.now }
    ensures { OnOk result (out.new.items ≡ out.old.items ++ bytes_of to
        (record_words (N.offset_of names.now) (record_of (N.names names.now).strings this.now))) }
{
    let info = canonical_info(this);
    let name = names.new_offset(this.word(0));
    push_words(out, to, &[name, info, this.word(2)])?;
    let kind = this.kind();
    let vlen = this.vlen();
    let item = layout_of(kind).item;
    if !item.named {
        return push_rest(out, to, this, tail_words(kind, vlen));
    }
    let size = item.words;
    for k in 0..usize::from(vlen) {
        let at = 3 + size * k;
        let name = names.new_offset(this.word(at));
        let second = this.word(at + 1);
        if size == 2 {
            push_words(out, to, &[name, second])?;
        } else {
            push_words(out, to, &[name, second, this.word(at + 2)])?;
        }
    }
    Ok(())
}

/// Appends all records.
fn push_records<A: Allocator, N: NewOffsets>(
    out: &mut Vec<u8, A>,
    to: Order,
    names: &N,
    sections: &FileSections<'_>,
) -> Result<(), AllocError>
    requires strings { (N.names names.now).strings ≡ sections.now.strings }
    requires noted { All (Contains (N.names names.now).offsets) (all_offsets sections.now.frames) }
    ensures { OnOk result (out.new.items ≡ out.old.items
        ++ section_of to (map (record_words (N.offset_of names.now)) (records_in sections.now))) }
{
    for index in 0..sections.count() {
        let this = sections.record(index + 1);
        push_record(out, to, names, &this)?;
    }
    Ok(())
}

/// Appends the records of a checked file in the byte order `to` (btf.rst section 2.2), as in its
/// canonical bytes, except that the offsets of names are those in `names`. The names must be noted
/// ([`note_names`]) in the string section of `sections`.
///
/// # Errors
///
/// `AllocError` if an allocation failed.
pub fn push_types<A: Allocator, B: Allocator>(
    out: &mut Vec<u8, A>,
    to: Order,
    names: &DistinctOffsets<'_, B>,
    sections: &FileSections<'_>,
) -> Result<(), AllocError>
    requires strings { names.now.strings ≡ sections.now.strings }
    requires noted { All (Contains names.now.offsets) (all_offsets sections.now.frames) }
    ensures { OnOk result (out.new.items ≡ out.old.items ++ section_of to
        (map (record_words (distinct_offset (texts_by_offset names.now)))
        (records_in sections.now))) }
{
    push_records(out, to, names, sections)
}

/// The canonical bytes of the records that these sections encode.
#[tactic(auto, using(crate::proofs::BtfLemmas::Write::SectionFiles::section_steps))]
pub(crate) fn write_sections<A: Allocator + Copy>(
    alloc: A,
    to: Order,
    sections: &FileSections<'_>,
) -> Result<Vec<u8, A>, AllocError>
    ensures form { IfOk result (λ bytes. bytes.items ≡ canonical to (records_in sections.now)) }
    ensures accepted { IfOk result (λ bytes. Denotes bytes.items (records_in sections.now)) }
{
    let types_len = sections.types().len();
    let uses = noted_names(alloc, sections)?;
    let names = SharedOffsets::find(alloc, uses)?;
    let table_len = names.table_len();
    let mut bytes = Vec::with_capacity(alloc, 24 + types_len + table_len as usize)?;
    push_header(&mut bytes, to, types_len as u32, table_len)?;
    push_records(&mut bytes, to, &names, sections)?;
    names.push_table(&mut bytes)?;
    Ok(bytes)
}
