//! The section .BTF.ext of a canonical file (Linux Documentation/bpf/btf.rst, "4.2 .BTF.ext
//! section"): the groups of the file with the new offsets of their strings, and lines of no source.

ghost use Rattle.std.specs.Prelude.{◌≡◌, ◌<◌, ◌++◌, ℕ, OnOk};
ghost use Rattle.std.specs.List.{All};
ghost use Rattle.bpf_object.specs.Extension.{group_count as spec_count};
ghost use Rattle.bpf_object.specs.declared.extension.Part.TheVariants.{Relocations};
ghost use Rattle.bpf_object.specs.Groups.{relocation_at};
ghost use Rattle.bpf_object.specs.Lines.{name_of};
ghost use Rattle.bpf_object.specs.private.NotedStrings.{HasStrings, text_offset};
ghost use Rattle.bpf_object.specs.Sources.{section, HasGroup};
ghost use Rattle.bpf_object.specs.private.WrittenGroups as spec;
ghost use Rattle.bpf_object.specs.private.TypeSteps.{numbered};

use crate::extension::Part;
use crate::source::{Source, access_off, group_count, record_size, records_len, word};
use crate::type_keys::new_number;
use bpf_canon::DistinctOffsets;
use bpf_words::{push_words, push32};
use std::alloc::{AllocError, Allocator};

/// The part whose groups are read for a part: the lines are those of the functions.
pub(crate) fn source_part(part: Part) -> Part
    ensures { result ≡ spec.source_part part }
{
    match part {
        Part::Functions | Part::Lines => Part::Functions,
        Part::Relocations => Part::Relocations,
    }
}

/// The new offset of the name of a group.
fn new_name_offset<B: Allocator>(
    names: &DistinctOffsets<'_, B>,
    x: Source<'_>,
    part: Part,
    group: usize,
) -> u32
    requires group { HasGroup x (spec.source_part part) group }
    requires names { HasStrings names.now x part group }
    ensures { result ≡ text_offset names.now (name_of (section x.entry) group) }
{
    names.new_offset(word(x, group) as u32)
}

/// The new offset of the access string of a CO-RE relocation.
fn access_offset<B: Allocator>(
    names: &DistinctOffsets<'_, B>,
    x: Source<'_>,
    group: usize,
    k: usize,
) -> u32
    requires group { HasGroup x Relocations group }
    requires there { k < spec_count (section x) group }
    requires names { HasStrings names.now x Relocations group }
    ensures { result ≡ text_offset names.now (relocation_at (section x.entry) group k).access }
{
    names.new_offset(access_off(x, group, k) as u32)
}

/// Appends a record.
fn push_record<A: Allocator, B: Allocator>(
    out: &mut Vec<u8, A>,
    names: &DistinctOffsets<'_, B>,
    x: Source<'_>,
    part: Part,
    group: usize,
    k: usize,
) -> Result<(), AllocError>
    requires group { HasGroup x (spec.source_part part) group }
    requires there { k < spec_count (section x) group }
    requires names { HasStrings names.now x part group }
    ensures { OnOk result (out.new.items ≡ out.old.items
        ++ spec.record_bytes (section x.entry) (numbered x.entry.numbers.now)
        (text_offset names.now) part group k) }
{
    let at = group + 8 + records_len(source_part(part), k);
    push32(out, x.order, word(x, at) as u32)?;
    let target = new_number(x.numbers, word(x, at + 4) as u32);
    match part {
        Part::Functions => push32(out, x.order, target),
        Part::Lines => push_words(out, x.order, &[0, 0, 0]),
        Part::Relocations => {
            let access = access_offset(names, x, group, k);
            let words = [target, access, word(x, at + 12) as u32];
            push_words(out, x.order, &words)
        }
    }
}

/// Appends the records of a group.
fn push_records<A: Allocator, B: Allocator>(
    out: &mut Vec<u8, A>,
    names: &DistinctOffsets<'_, B>,
    x: Source<'_>,
    part: Part,
    group: usize,
) -> Result<(), AllocError>
    requires group { HasGroup x (spec.source_part part) group }
    requires names { HasStrings names.now x part group }
    ensures { OnOk result (out.new.items ≡ out.old.items
        ++ spec.records_bytes (section x.entry) (numbered x.entry.numbers.now)
        (text_offset names.now) part group
        (spec_count (section x.entry) group)) }
{
    for k in 0..group_count(x, group) {
        push_record(out, names, x, part, group, k)?;
    }
    Ok(())
}

/// Appends a group.
fn push_group<A: Allocator, B: Allocator>(
    out: &mut Vec<u8, A>,
    names: &DistinctOffsets<'_, B>,
    x: Source<'_>,
    part: Part,
    group: usize,
) -> Result<(), AllocError>
    requires group { HasGroup x (spec.source_part part) group }
    requires names { HasStrings names.now x part group }
    ensures { OnOk result (out.new.items ≡ out.old.items
        ++ spec.group_bytes_at (section x.entry) (numbered x.entry.numbers.now)
        (text_offset names.now) part group) }
{
    push32(out, x.order, new_name_offset(names, x, part, group))?;
    push32(out, x.order, group_count(x, group) as u32)?;
    push_records(out, names, x, part, group)
}

/// Appends groups.
fn push_groups<A: Allocator, B: Allocator>(
    out: &mut Vec<u8, A>,
    names: &DistinctOffsets<'_, B>,
    x: Source<'_>,
    part: Part,
    groups: &[usize],
) -> Result<(), AllocError>
    requires groups { All (HasGroup x (spec.source_part part)) groups.now }
    requires names { All (HasStrings names.now x part) groups.now }
    ensures { OnOk result (out.new.items ≡ out.old.items
        ++ spec.groups_bytes (section x.entry) (numbered x.entry.numbers.now)
        (text_offset names.now) part groups.now) }
{
    for k in 0..groups.len() {
        push_group(out, names, x, part, groups[k])?;
    }
    Ok(())
}

/// Appends a part. It is empty if it has no group.
pub(crate) fn push_part<A: Allocator, B: Allocator>(
    out: &mut Vec<u8, A>,
    names: &DistinctOffsets<'_, B>,
    x: Source<'_>,
    part: Part,
    groups: &[usize],
) -> Result<(), AllocError>
    requires groups { All (HasGroup x (spec.source_part part)) groups.now }
    requires names { All (HasStrings names.now x part) groups.now }
    ensures { OnOk result (out.new.items ≡ out.old.items
        ++ spec.written_part (section x.entry) (numbered x.entry.numbers.now)
        (text_offset names.now) part groups.now) }
{
    if groups.is_empty() {
        return Ok(());
    }
    push32(out, x.order, record_size(part) as u32)?;
    push_groups(out, names, x, part, groups)
}
