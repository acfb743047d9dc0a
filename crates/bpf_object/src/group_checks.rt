//! The rules on the groups of records of .BTF.ext.

ghost use Rattle.std.specs.Prelude.{◌≡◌, ◌⊎◌, ◌+◌, ◌<◌, ◌≤◌, ◌&&◌, nat_lt, nat_le, true, length, MatchResult};
ghost use Rattle.std.specs.List.{All};
ghost use Rattle.bpf_elf.specs.Rules.{AllHold};
ghost use Rattle.bpf_object.specs.Faults.{IsFirstFault};
ghost use Rattle.bpf_object.specs.Extension as spec;
ghost use Rattle.bpf_object.specs.Sources.{section, HasPart, HasGroup, HasGroups};

use crate::extension::Part;
use crate::fault::{ObjectCause, ObjectFault, require};
use crate::source::{Source, group_count, next_group, part_end, part_len, part_start, word};
use bpf_elf::is_section_name;

/// Whether a group is inside its part and not empty.
fn is_group(x: Source<'_>, part: Part, group: usize) -> bool
    requires part { HasPart x part }
    requires near { group ≤ spec.part_end (section x) part }
    ensures { result ≡ (nat_le (spec.next_group (section x.entry) part group)
        (spec.part_end (section x.entry) part)
        && nat_lt 0 (spec.group_count (section x.entry) group)) }
{
    let end = part_end(x, part);
    if group + 8 > end {
        return false;
    }
    next_group(x, part, group) <= end && group_count(x, group) > 0
}

/// Checks a group.
fn check_group(x: Source<'_>, part: Part, group: usize) -> Result<(), ObjectFault>
    requires part { HasPart x part }
    requires near { group ≤ spec.part_end (section x) part }
    ensures { MatchResult result
        (λ _. AllHold (spec.group_rules (section x.entry) part group) × HasGroup x.entry part group)
        (IsFirstFault (spec.group_rules (section x.entry) part group)) }
{
    let pos = u64::from(x.start) + group as u64;
    let is_group = is_group(x, part, group);
    require(is_group, pos, ObjectCause::ExtensionGroup)?;
    let is_named = is_section_name(x.strings, word(x, group));
    require(is_named, pos, ObjectCause::ExtensionString)
}

/// Checks the groups of a part from one on.
fn check_from(x: Source<'_>, part: Part, first: usize) -> Result<(), ObjectFault>
    requires part { HasPart x part }
    requires near { first ≤ spec.part_end (section x) part }
    requires some { 0 < spec.part_len (section x) part }
    requires enough { spec.part_end (section x) part ≤ first + spec.part_len (section x) part }
    ensures { let groups = spec.groups_from (section x.entry) part
        (spec.part_len (section x.entry) part) first in
        MatchResult result
        (λ _. AllHold (spec.groups_rules (section x.entry) part groups)
        × All (HasGroup x.entry part) groups)
        (IsFirstFault (spec.groups_rules (section x.entry) part groups)) }
{
    let end = part_end(x, part);
    let mut group = first;
    loop {
        check_group(x, part, group)?;
        group = next_group(x, part, group);
        if group >= end {
            return Ok(());
        }
    }
}

/// Checks the groups of a part.
pub(crate) fn check_groups(x: Source<'_>, part: Part) -> Result<(), ObjectFault>
    requires part { HasPart x part }
    requires whole { spec.part_len (section x) part ≡ 0 ⊎ 4 ≤ spec.part_len (section x) part }
    ensures { MatchResult result
        (λ _. AllHold (spec.groups_rules (section x.entry) part
        (spec.groups (section x.entry) part)) × HasGroups x.entry part)
        (IsFirstFault (spec.groups_rules (section x.entry) part
        (spec.groups (section x.entry) part))) }
{
    if part_len(x, part) == 0 {
        return Ok(());
    }
    check_from(x, part, part_start(x, part) + 4)
}
