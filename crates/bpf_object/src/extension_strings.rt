//! The strings of .BTF.ext as the canonical file has them: for each group the name of its section,
//! then the access strings of its CO-RE relocations.

ghost use Rattle.std.specs.Prelude.{◌≡◌, ◌<◌, OnOk};
ghost use Rattle.std.specs.List.{All};
ghost use Rattle.bpf_canon.specs.btf.strings.FirstUses.{noted, noted_all};
ghost use Rattle.bpf_object.specs.declared.extension.Part.TheVariants.{Relocations};
ghost use Rattle.bpf_object.specs.Extension.{group_name, group_count as spec_count};
ghost use Rattle.bpf_object.specs.Groups.{access_off as spec_access};
ghost use Rattle.bpf_object.specs.private.NotedStrings.{AreInside};
ghost use Rattle.bpf_object.specs.Sources.{section, HasGroup};
ghost use Rattle.bpf_object.specs.private.WrittenGroups as spec;

use crate::extension::Part;
use crate::source::{Source, access_off, group_count, word};
use bpf_canon::FirstUses;
use std::alloc::{AllocError, Allocator};

/// Notes the name of a group.
fn note_name<A: Allocator + Copy>(
    uses: &mut FirstUses<'_, A>,
    x: Source<'_>,
    part: Part,
    group: usize,
) -> Result<(), AllocError>
    requires group { HasGroup x part group }
    requires strings { uses.old.strings ≡ x.strings.now }
    ensures strings { uses.new.strings ≡ uses.old.strings }
    ensures offsets { OnOk result (uses.new.offsets
        ≡ noted uses.old.offsets (group_name (section x.entry) group)) }
{
    uses.note(word(x, group) as u32)
}

/// Notes the access string of a CO-RE relocation.
fn note_access<A: Allocator + Copy>(
    uses: &mut FirstUses<'_, A>,
    x: Source<'_>,
    group: usize,
    k: usize,
) -> Result<(), AllocError>
    requires group { HasGroup x Relocations group }
    requires inside { AreInside x Relocations group }
    requires there { k < spec_count (section x) group }
    requires strings { uses.old.strings ≡ x.strings.now }
    ensures strings { uses.new.strings ≡ uses.old.strings }
    ensures offsets { OnOk result (uses.new.offsets
        ≡ noted uses.old.offsets (spec_access (section x.entry) group k)) }
{
    uses.note(access_off(x, group, k) as u32)
}

/// Notes the access strings of a group.
fn note_accesses<A: Allocator + Copy>(
    uses: &mut FirstUses<'_, A>,
    x: Source<'_>,
    group: usize,
) -> Result<(), AllocError>
    requires group { HasGroup x Relocations group }
    requires inside { AreInside x Relocations group }
    requires strings { uses.old.strings ≡ x.strings.now }
    ensures strings { uses.new.strings ≡ uses.old.strings }
    ensures offsets { OnOk result (uses.new.offsets
        ≡ noted_all uses.old.offsets (spec.record_offsets (section x.entry) Relocations group)) }
{
    for k in 0..group_count(x, group) {
        note_access(uses, x, group, k)?;
    }
    Ok(())
}

/// Notes the strings of a group.
fn note_group<A: Allocator + Copy>(
    uses: &mut FirstUses<'_, A>,
    x: Source<'_>,
    part: Part,
    group: usize,
) -> Result<(), AllocError>
    requires group { HasGroup x part group }
    requires inside { AreInside x part group }
    requires strings { uses.old.strings ≡ x.strings.now }
    ensures strings { uses.new.strings ≡ uses.old.strings }
    ensures offsets { OnOk result (uses.new.offsets
        ≡ noted_all uses.old.offsets (spec.group_offsets (section x.entry) part group)) }
{
    note_name(uses, x, part, group)?;
    match part {
        Part::Functions | Part::Lines => Ok(()),
        Part::Relocations => note_accesses(uses, x, group),
    }
}

/// Notes the strings of these groups in sequence.
pub(crate) fn note_groups<A: Allocator + Copy>(
    uses: &mut FirstUses<'_, A>,
    x: Source<'_>,
    part: Part,
    groups: &[usize],
) -> Result<(), AllocError>
    requires groups { All (HasGroup x part) groups.now }
    requires inside { All (AreInside x part) groups.now }
    requires strings { uses.old.strings ≡ x.strings.now }
    ensures strings { uses.new.strings ≡ uses.old.strings }
    ensures offsets { OnOk result (uses.new.offsets
        ≡ noted_all uses.old.offsets (spec.groups_offsets (section x.entry) part groups.now)) }
{
    for k in 0..groups.len() {
        note_group(uses, x, part, groups[k])?;
    }
    Ok(())
}
