//! The groups of a part of .BTF.ext as a list.

ghost use Rattle.std.specs.Prelude.{◌≡◌, IfOk};
ghost use Rattle.bpf_object.specs.Extension as spec;
ghost use Rattle.bpf_object.specs.Sources.{section, HasGroups};

use crate::cursors::{first_group, next_in};
use crate::extension::Part;
use crate::source::Source;
use std::alloc::{AllocError, Allocator};

/// Where the groups of a part begin in the section.
pub(crate) fn groups_of<A: Allocator>(
    alloc: A,
    x: Source<'_>,
    part: Part,
) -> Result<Vec<usize, A>, AllocError>
    requires { HasGroups x part }
    ensures { IfOk result (λ found. found.items ≡ spec.groups (section x.entry) part) }
{
    let mut found = Vec::new(alloc);
    let mut rest = first_group(x, part);
    while let Some(group) = rest {
        found.push(group)?;
        rest = next_in(x, part, group);
    }
    Ok(found)
}
