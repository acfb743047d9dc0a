//! The group of records that .BTF.ext has for a section.

ghost use Rattle.std.specs.Prelude.{◌≡◌, ⊤, MatchOption};
ghost use Rattle.bpf_object.specs.SourceLines as spec;
ghost use Rattle.bpf_object.specs.Sources.{section, HasGroup, HasGroups};

use crate::cursors::{first_group, next_in};
use crate::extension::Part;
use crate::source::{Source, word};
use bpf_elf::string_at;

/// A group of records of .BTF.ext.
#[derive(Clone, Copy)]
pub(crate) struct SectionGroup<'a> {
    /// .BTF.ext.
    pub(crate) source: Source<'a>,
    /// Where the group is in it.
    pub(crate) start: usize,
}

/// Where the first group of a part is that has the name of a section.
pub(crate) fn group_of(x: Source<'_>, part: Part, name: &[u8]) -> Option<usize>
    requires { HasGroups x part }
    ensures is { result ≡ spec.group_of (section x.entry) part name.now }
    ensures there { MatchOption result ⊤ (HasGroup x.entry part) }
{
    let mut rest = first_group(x, part);
    while let Some(group) = rest {
        if string_at(x.strings, word(x, group)) == name {
            return Some(group);
        }
        rest = next_in(x, part, group);
    }
    None
}
