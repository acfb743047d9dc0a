//! Iterating over a set of groups, and making a set from groups.
//!
//! These are the traits that users expect of a collection. They use the calls of `group.rt`, which
//! is the part that follows the standard. The order of iteration is that of [`Group::ALL`], in
//! which listings name groups, whatever the order in which they were added.

ghost use Rattle.std.specs.Prelude.{◌≡◌, ◌↔◌, IsTrue, [], Some, length, filter, ⊤};
ghost use Rattle.std.specs.Iterator.{YieldsFirst, item_count};
ghost use Rattle.bpf_insn.specs.{declared.group.Group.Group, Groups.holds};
ghost use Rattle.bpf_insn.specs.GroupSets.{IsSetOf, groups_held};

use crate::group::{Group, GroupSet};
use std::alloc::AllocError;
use std::iter::FusedIterator;
use std::marker::Model;

/// An iterator over the groups of a [`GroupSet`], in the order of [`Group::ALL`].
#[derive(Debug, Drop)]
pub struct Groups {
    set: GroupSet,
    /// The groups that were not yet looked up in the set.
    rest: &'static [Group],
}

impl Model for Groups {
    ghost use Rattle.std.specs.Prelude.{List, filter};
    ghost use Rattle.bpf_insn.specs.{declared.group.Group.Group, Groups.holds};

    ghost Value = { List Group };

    ghost view = { λ g. filter (holds g.set) g.rest.now };
}

impl Iterator for Groups {
    type Item = Group;

    ghost next_gives = { YieldsFirst (λ left. left) };

    ghost remaining = { item_count (λ left. left) };

    fn next(&mut self) -> Option<Group> {
        while let Some((group, rest)) = self.rest.split_first() {
            self.rest = rest;
            if self.set.has(*group) {
                return Some(*group);
            }
        }
        None
    }

    fn size_hint(&self) -> (usize, Option<usize>)
        ensures { result ≡ (length self.now, Some (length self.now)) }
    {
        let len = self.len();
        (len, Some(len))
    }
}

impl ExactSizeIterator for Groups {
    fn len(&self) -> usize {
        let set = self.set;
        self.rest.iter().filter(|group| set.has(**group)).count()
    }
}

impl FusedIterator for Groups {}

impl Clone for Groups {
    ghost is_clone = { λ groups copy. copy ≡ groups };

    ghost is_infallible = { λ _. ⊤ };

    fn clone(&self) -> Result<Groups, AllocError> {
        Ok(Groups { ..*self })
    }
}

impl GroupSet {
    /// Iterates over the groups of the set, in the order of [`Group::ALL`].
    pub fn iter(&self) -> Groups
        ensures { result ≡ groups_held self.now }
    {
        let rest = &Group::ALL;
        Groups { set: *self, rest }
    }

    /// The number of groups in the set.
    pub fn len(&self) -> usize
        ensures { result ≡ length (groups_held self.now) }
    {
        self.iter().len()
    }

    /// Whether the set has no groups.
    pub fn is_empty(&self) -> bool
        ensures { IsTrue result ↔ (groups_held self.now ≡ []) }
    {
        self.len() == 0
    }
}

impl IntoIterator for GroupSet {
    type Item = Group;

    type IntoIter = Groups;

    ghost into_iter_gives = { λ set groups. groups ≡ groups_held set };

    fn into_iter(self) -> Groups {
        self.iter()
    }
}

impl IntoIterator for &GroupSet {
    type Item = Group;

    type IntoIter = Groups;

    ghost into_iter_gives = { λ set groups. groups ≡ groups_held set.now };

    fn into_iter(self) -> Groups {
        self.iter()
    }
}

/// The set of these groups and of those that they include: base64, atomic64 and divmul64 include
/// base32, atomic32 and divmul32 (RFC 9669 section 2.4).
impl From<&[Group]> for GroupSet {
    ghost from_gives = { λ groups set. IsSetOf groups.now set };

    fn from(groups: &[Group]) -> GroupSet {
        let mut set = GroupSet::default();
        for group in groups {
            set.add(*group);
        }
        set
    }
}
