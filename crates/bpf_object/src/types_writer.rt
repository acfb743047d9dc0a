//! The sections .BTF and .BTF.ext of a canonical file (Linux Documentation/bpf/btf.rst, sections 2
//! and 4).
//!
//! The strings of both are in one table: the names of the types, then the strings of .BTF.ext.

ghost use Rattle.std.specs.Prelude.{◌≡◌, ◌+◌, ◌<◌, ◌≤◌, ◌==◌, ◌&&◌, nat_le, not, length};
ghost use Rattle.std.specs.Prelude.{IfOk, MatchOption, OnOk};
ghost use Rattle.std.specs.List.{All, Contains};
ghost use Rattle.bpf_elf.specs.Header.{FILE_LIMIT};
ghost use Rattle.bpf_canon.specs.btf.strings.{FirstUses.noted_all, NamesByOffset.texts_by_offset};
ghost use Rattle.bpf_canon.specs.btf.strings.DistinctNames.{distinct_table};
ghost use Rattle.bpf_canon.specs.btf.write.NameOffsets.{all_offsets};
ghost use Rattle.bpf_object.specs.declared.extension.Part.TheVariants.{Functions, Relocations};
ghost use Rattle.bpf_object.specs.Denotes.{object_types};
ghost use Rattle.bpf_object.specs.Sources.{section};
ghost use Rattle.bpf_object.specs.private.WrittenTypes as spec;
ghost use Rattle.bpf_object.specs.private.TypeSteps.{numbered, AreInRange};
ghost use Rattle.bpf_object.specs.private.WrittenRecords.{renewed, AreWritable};

use crate::extension::Part;
use crate::extension_file::write_extension;
use crate::extension_strings::note_groups;
use crate::groups::groups_of;
use crate::record_writer::{note_records, push_records};
use crate::source::Source;
use crate::types::TYPES_LIMIT;
use bpf_canon::{DistinctOffsets, FirstUses, push_header};
use bpf_words::Order;
use btf_types::FileSections;
use std::alloc::{AllocError, Allocator};

/// The sections .BTF and .BTF.ext of a canonical file.
#[derive(Drop)]
pub(crate) struct WrittenTypes<A: Allocator> {
    /// The bytes of .BTF.
    pub(crate) types: Vec<u8, A>,
    /// Those of .BTF.ext, if the file has functions or CO-RE relocations.
    pub(crate) extension: Option<Vec<u8, A>>,
}

/// Where the groups of a part begin in the section, which may be empty.
fn groups_in<A: Allocator>(alloc: A, x: Source<'_>, part: Part) -> Result<Vec<usize, A>, AllocError>
    requires { spec.IsRead x }
    ensures { IfOk result (λ found. spec.AreGroups x.entry part found.items) }
{
    if x.bytes.is_empty() {
        return Ok(Vec::new(alloc));
    }
    groups_of(alloc, x, part)
}

/// Notes the strings of both sections in sequence.
fn note_both<A: Allocator + Copy>(
    uses: &mut FirstUses<'_, A>,
    sections: &FileSections<'_>,
    ids: &[u32],
    x: Source<'_>,
    functions: &[usize],
    relocations: &[usize],
) -> Result<(), AllocError>
    requires ids { AreInRange (length sections.now.frames) ids.now }
    requires functions { spec.AreGroups x Functions functions.now }
    requires relocations { spec.AreGroups x Relocations relocations.now }
    requires strings { x.strings.now ≡ sections.now.strings }
    requires uses { uses.old.strings ≡ sections.now.strings }
    ensures strings { uses.new.strings ≡ uses.old.strings }
    ensures offsets { OnOk result (uses.new.offsets
        ≡ noted_all uses.old.offsets (spec.both_offsets
        (renewed sections.now ids.now x.entry.numbers.now) (section x.entry))) }
{
    note_records(uses, sections, ids)?;
    note_groups(uses, x, Part::Functions, functions)?;
    note_groups(uses, x, Part::Relocations, relocations)
}

/// The offsets of the strings of both sections, or `None` if their table has more than `limit`
/// bytes.
fn find_names<'t, A: Allocator + Copy>(
    alloc: A,
    sections: &FileSections<'t>,
    ids: &[u32],
    x: Source<'_>,
    functions: &[usize],
    relocations: &[usize],
    limit: usize,
) -> Result<Option<DistinctOffsets<'t, A>>, AllocError>
    requires limit { limit ≤ 15728640 }
    requires ids { AreInRange (length sections.now.frames) ids.now }
    requires functions { spec.AreGroups x Functions functions.now }
    requires relocations { spec.AreGroups x Relocations relocations.now }
    requires strings { x.strings.now ≡ sections.now.strings }
    ensures { let names = spec.both_names (renewed sections.now ids.now x.entry.numbers.now)
        (section x.entry) in
        IfOk result (λ found. MatchOption found
        (limit < length (distinct_table (texts_by_offset names))) (λ found. found ≡ names)) }
{
    let mut uses = FirstUses::new(alloc, sections.strings())?;
    note_both(&mut uses, sections, ids, x, functions, relocations)?;
    DistinctOffsets::find(alloc, uses, limit as u32)
}

/// Whether records and a string table of these lengths have at most `limit` bytes together with a
/// header.
fn is_short(types_len: usize, table_len: usize, limit: usize) -> bool
    requires { 24 ≤ limit }
    ensures { result ≡ nat_le (24 + types_len + table_len) limit }
{
    let capacity = limit - 24;
    types_len <= capacity && table_len <= capacity - types_len
}

/// The section .BTF with the names at these offsets, or `None` if it has more than `limit` bytes.
fn write_btf<A: Allocator + Copy>(
    alloc: A,
    order: Order,
    sections: &FileSections<'_>,
    ids: &[u32],
    numbers: &[u32],
    names: &DistinctOffsets<'_, A>,
    limit: usize,
) -> Result<Option<Vec<u8, A>>, AllocError>
    requires limit { (24 ≤ limit) × (limit ≤ 15728640) }
    requires writable { AreWritable sections.now ids.now numbers.now }
    requires strings { names.now.strings ≡ sections.now.strings }
    requires noted { All (Contains names.now.offsets)
        (all_offsets (renewed sections.now ids.now numbers.now).frames) }
    ensures { let whole = spec.written_btf order (renewed sections.now ids.now numbers.now)
        names.now in
        IfOk result (λ found. MatchOption found (limit < length whole)
        (λ out. (length whole ≤ limit) × (out.items ≡ whole))) }
{
    let types_len = sections.types().len();
    let table = names.table();
    if !is_short(types_len, table.len(), limit) {
        return Ok(None);
    }
    let mut out = Vec::new(alloc);
    push_header(&mut out, order, types_len as u32, table.len() as u32)?;
    push_records(&mut out, order, names, sections, ids, numbers)?;
    out.extend_from_slice(table)?;
    Ok(Some(out))
}

/// Whether there is a .BTF.ext: it has functions or CO-RE relocations.
fn has_extension(functions: &[usize], relocations: &[usize]) -> bool
    ensures { result ≡ not (length functions.now == 0 && length relocations.now == 0) }
{
    !(functions.is_empty() && relocations.is_empty())
}

/// Both sections with these strings, or `None` if .BTF has more than 15 MiB, or one of them more than
/// `limit` bytes.
fn write_both<A: Allocator + Copy>(
    alloc: A,
    sections: &FileSections<'_>,
    ids: &[u32],
    x: Source<'_>,
    names: &DistinctOffsets<'_, A>,
    functions: &[usize],
    relocations: &[usize],
    limit: usize,
) -> Result<Option<WrittenTypes<A>>, AllocError>
    requires limit { (65536 ≤ limit) × (limit ≤ FILE_LIMIT) }
    requires functions { spec.AreGroups x Functions functions.now }
    requires relocations { spec.AreGroups x Relocations relocations.now }
    requires strings { x.strings.now ≡ sections.now.strings }
    requires writable { AreWritable sections.now ids.now x.numbers.now }
    requires names { names.now ≡ spec.both_names (renewed sections.now ids.now x.numbers.now)
        (section x) }
    ensures { let t = object_types (numbered x.entry.numbers.now)
        (renewed sections.now ids.now x.entry.numbers.now) (section x.entry) in
        IfOk result (λ found. MatchOption found (spec.AreTooLong limit x.entry.order t)
        (spec.AreWritten x.entry.order t)) }
{
    let short = TYPES_LIMIT.min(limit);
    let Some(types) = write_btf(alloc, x.order, sections, ids, x.numbers, names, short)? else {
        return Ok(None);
    };
    if !has_extension(functions, relocations) {
        return Ok(Some(WrittenTypes {
            types,
            extension: None,
        }));
    }
    let Some(extension) = write_extension(alloc, names, x, functions, relocations, limit)? else {
        return Ok(None);
    };
    Ok(Some(WrittenTypes {
        types,
        extension: Some(extension),
    }))
}

/// The sections .BTF and .BTF.ext of a canonical file, or `None` if .BTF has more than 15 MiB, or one
/// of them more than `limit` bytes.
///
/// `sections` are the types of the file, and `ids` their numbers in their new order. `x` is the section
/// .BTF.ext of the file, or empty if it has none. `limit` is the most bytes of the canonical file.
pub(crate) fn write_types<A: Allocator + Copy>(
    alloc: A,
    sections: &FileSections<'_>,
    ids: &[u32],
    x: Source<'_>,
    limit: usize,
) -> Result<Option<WrittenTypes<A>>, AllocError>
    requires limit { (65536 ≤ limit) × (limit ≤ FILE_LIMIT) }
    requires extension { spec.IsRead x }
    requires strings { x.strings.now ≡ sections.now.strings }
    requires writable { AreWritable sections.now ids.now x.numbers.now }
    ensures { let t = object_types (numbered x.entry.numbers.now)
        (renewed sections.now ids.now x.entry.numbers.now) (section x.entry) in
        IfOk result (λ found. MatchOption found (spec.AreTooLong limit x.entry.order t)
        (spec.AreWritten x.entry.order t)) }
{
    let functions = groups_in(alloc, x, Part::Functions)?;
    let relocations = groups_in(alloc, x, Part::Relocations)?;
    let short = TYPES_LIMIT.min(limit);
    let Some(names) = find_names(alloc, sections, ids, x, &functions, &relocations, short)? else {
        return Ok(None);
    };
    write_both(
        alloc,
        sections,
        ids,
        x,
        &names,
        &functions,
        &relocations,
        limit,
    )
}
