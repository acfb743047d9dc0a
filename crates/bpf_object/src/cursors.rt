//! Loops over the groups of a part of .BTF.ext.

ghost use Rattle.std.specs.Prelude.{◌≡◌, ◌∷◌, Some};
ghost use Rattle.bpf_object.specs.Extension as spec;
ghost use Rattle.bpf_object.specs.private.Cursors.{rest_of};
ghost use Rattle.bpf_object.specs.Sources.{section, HasPart, HasGroup};

use crate::extension::Part;
use crate::source::{Source, next_group, part_end, part_len, part_start};

/// The first group of a part.
pub(crate) fn first_group(x: Source<'_>, part: Part) -> Option<usize>
    requires { HasPart x part }
    ensures { rest_of (section x.entry) part result ≡ spec.groups (section x.entry) part }
{
    if part_len(x, part) == 0 {
        return None;
    }
    Some(part_start(x, part) + 4)
}

/// The group after a group.
pub(crate) fn next_in(x: Source<'_>, part: Part, group: usize) -> Option<usize>
    requires { HasGroup x part group }
    ensures { rest_of (section x.entry) part (Some group)
        ≡ group ∷ rest_of (section x.entry) part result }
{
    let next = next_group(x, part, group);
    if next < part_end(x, part) {
        return Some(next);
    }
    None
}
