//! The rules on the CO-RE relocations of .BTF.ext.

ghost use Rattle.std.specs.Prelude.{◌≡◌, ◌<◌};
ghost use Rattle.bpf_elf.specs.Rules.{each};
ghost use Rattle.bpf_object.specs.declared.extension.Part.TheVariants.{Relocations};
ghost use Rattle.bpf_object.specs.Extension.{group_count as spec_count, groups};
ghost use Rattle.bpf_object.specs.Faults.{Checks};
ghost use Rattle.bpf_object.specs.Lines as spec;
ghost use Rattle.bpf_object.specs.Sources.{section, HasGroup, HasGroups};

use crate::cursors::{first_group, next_in};
use crate::extension::Part;
use crate::fault::{ObjectCause, ObjectFault, require};
use crate::source::{Source, group_count, records_len, word};

/// Checks a record of a group.
fn check_access(x: Source<'_>, group: usize, k: usize) -> Result<(), ObjectFault>
    requires group { HasGroup x Relocations group }
    requires there { k < spec_count (section x) group }
    ensures { Checks (spec.access_rules (section x.entry) group k) result }
{
    let at = group + 8 + records_len(Part::Relocations, k) + 8;
    let is_inside = word(x, at) < x.strings.len();
    require(
        is_inside,
        u64::from(x.start) + at as u64,
        ObjectCause::ExtensionString,
    )
}

/// Checks the records of a group.
fn check_group_accesses(x: Source<'_>, group: usize) -> Result<(), ObjectFault>
    requires { HasGroup x Relocations group }
    ensures { Checks (each (spec_count (section x.entry) group)
        (spec.access_rules (section x.entry) group)) result }
{
    for k in 0..group_count(x, group) {
        check_access(x, group, k)?;
    }
    Ok(())
}

/// Checks the records of all groups.
pub(crate) fn check_accesses(x: Source<'_>) -> Result<(), ObjectFault>
    requires { HasGroups x Relocations }
    ensures { Checks (spec.accesses_rules (section x.entry)
        (groups (section x.entry) Relocations)) result }
{
    let mut rest = first_group(x, Part::Relocations);
    while let Some(group) = rest {
        check_group_accesses(x, group)?;
        rest = next_in(x, Part::Relocations, group);
    }
    Ok(())
}
