//! What the records of .BTF are sorted by (docs/OBJECTS.md, "The file"): their groups, and then their
//! names, kind_flag and the new numbers of types.

ghost use Rattle.std.specs.Prelude.{◌≡◌, ◌+◌, ◌^◌, ◌<◌, ◌≤◌, ◌==◌, ◌&&◌, ◌||◌, nat_le, length};
ghost use Rattle.std.specs.Prelude.{if◌then◌else◌};
ghost use Rattle.btf_raw.specs.KindNumbers.{FWD as spec_fwd, VAR as spec_var, TYPE_TAG as spec_tag};
ghost use Rattle.bpf_object.specs.private.TypeSteps as spec;
ghost use Rattle.bpf_object.specs.private.TypeSteps.{numbered};

use crate::name_ranks::NameRanks;
use crate::type_layers::{at, record_at};
use btf_raw::{DATASEC, FWD, TYPE_TAG, VAR};
use btf_types::FileSections;
use std::alloc::Allocator;

/// The number of a type in a list of new numbers, from void on. A number past the last stays.
pub(crate) fn new_number(numbers: &[u32], id: u32) -> u32
    ensures { result ≡ numbered numbers.now id }
{
    match numbers.get(id as usize) {
        Some(number) => *number,
        None => id,
    }
}

/// What a record is sorted by, in this order. Numbers that its group isn't sorted by are 0.
#[derive(Clone, Copy, PartialEq, Eq, PartialOrd, Ord)]
pub(crate) struct RecordKey {
    /// The group, in the order of groups.
    pub(crate) group: u32,
    /// 1 and the rank of the name.
    pub(crate) name: u32,
    /// kind_flag.
    pub(crate) flag: u32,
    /// The new number of the type of a TYPE_TAG.
    pub(crate) target: u32,
    /// The old number of the record.
    pub(crate) id: u32,
}

/// The group of a record of this kind, in this layer.
fn group_of(kind: u8, layer: u32) -> u32
    requires { layer + 3 < 2 ^ 32 }
    ensures { result ≡ spec.group_of kind layer }
{
    match kind {
        VAR => 1,
        DATASEC => 2,
        FWD => 3,
        TYPE_TAG => layer + 3,
        _ => 0,
    }
}

/// Whether a record of this kind is in a layer, of `count` records.
fn has_layer(kind: u8, layer: u32, count: u32) -> bool
    ensures { result ≡ kind == spec_tag && nat_le layer count }
{
    kind == TYPE_TAG && layer <= count
}

/// Whether the group of a record of this kind is sorted.
fn is_sorted(kind: u8, has_layer: bool) -> bool
    ensures { result ≡ kind == spec_var || (kind == spec_fwd || has_layer) }
{
    kind == VAR || kind == FWD || has_layer
}

/// The number, if it is chosen, or 0.
fn chosen(is_chosen: bool, number: u32) -> u32
    ensures { result ≡ if is_chosen then number else 0 }
{
    if is_chosen { number } else { 0 }
}

/// The records of .BTF, with what they are sorted by.
#[derive(Drop)]
pub(crate) struct Records<'a, A: Allocator> {
    pub(crate) sections: &'a FileSections<'a>,
    /// The layers of all types, from void on.
    pub(crate) layers: Vec<u32, A>,
    /// The ranks of their names.
    pub(crate) names: NameRanks<'a, A>,
    ghost sortable: { spec.IsSortable sections.now layers.items names },
}

impl<A: Allocator + Copy> Records<'_, A> {
    /// What a record is sorted by, with these new numbers of types.
    #[tactic(auto, using(crate::proofs::LayerLemmas::layer_most))]
    pub(crate) fn key(&self, numbers: &[u32], id: u32) -> RecordKey
        requires first { 0 < id }
        requires last { id ≤ length self.now.sections.now.frames }
        ensures is { spec.IsKey self.now.sections.now self.now.names (numbered numbers.now) result }
        ensures id { result.id ≡ id }
    {
        let record = record_at(self.sections, id);
        let kind = record.kind();
        let layer = at(&self.layers, id);
        let has_layer = has_layer(kind, layer, self.sections.count());
        let is_sorted = is_sorted(kind, has_layer);
        RecordKey {
            group: group_of(kind, layer),
            name: self.names.rank(chosen(is_sorted, record.word(0))),
            flag: chosen(is_sorted, record.kind_flag()),
            target: chosen(has_layer, new_number(numbers, record.word(2))),
            id,
        }
    }
}
