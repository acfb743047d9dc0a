//! The order in which a canonical file has the records of .BTF (docs/OBJECTS.md, "The file").
//!
//! Compilers write some records in the order of addresses in their memory. They are sorted by their
//! names, and TYPE_TAG also by the new numbers of their types. So the records are sorted group by
//! group, each group by numbers that the groups before it have given.

ghost use Rattle.std.specs.Prelude.{
  ◌≡◌,
  ◌≢◌,
  ℕ,
  ◌+◌,
  ◌^◌,
  ◌<◌,
  ◌≤◌,
  true,
  length,
  slice_index,
  slice_index_or,
  IfOk,
};
ghost use Rattle.std.specs.{List.All, List.range_with_len, List.Sorted.IsPermutation};
ghost use Rattle.bpf_elf.specs.Names.{is_closed};
ghost use Rattle.bpf_object.specs.declared.type_keys.RecordKey.{RecordKey};
ghost use Rattle.bpf_object.specs.private.TypeSteps as spec;
ghost use Rattle.bpf_object.specs.private.TypeSteps.{ids_in, numbered};

use crate::type_keys::{RecordKey, Records};
use crate::type_layers::find_layers;
use crate::type_names::type_names;
use btf_types::FileSections;
use std::alloc::{AllocError, Allocator};

/// The order of the records, and their new numbers.
#[derive(Drop)]
pub(crate) struct TypeOrder<A: Allocator> {
    /// The old numbers in their new order.
    pub(crate) ids: Vec<u32, A>,
    /// The new numbers by the old ones, from void on.
    pub(crate) numbers: Vec<u32, A>,
}

/// The keys of all records in the order of their groups, by these numbers of types.
fn grouped_keys<A: Allocator + Copy>(
    alloc: A,
    records: &Records<'_, A>,
    numbers: &[u32],
) -> Result<Vec<RecordKey, A>, AllocError>
    ensures { IfOk result (λ keys. spec.HaveGroups records.now.sections.now keys.items
        × spec.AreGrouped records.now.sections.now (ids_in keys.items)) }
{
    let count = records.sections.count();
    let mut keys = Vec::with_capacity(alloc, count as usize)?;
    for index in 0..count {
        keys.push(records.key(numbers, index + 1))?;
    }
    keys.sort_unstable();
    Ok(keys)
}

/// Where the group ends that begins at a place.
fn group_end(keys: &[RecordKey], start: usize) -> usize
    requires { start < length keys.now }
    ensures bound { (start < result) × (result ≤ length keys.now) }
    ensures same { (k : ℕ) (d : RecordKey) → start ≤ k → k < result
        → (slice_index_or keys.now k d).group ≡ (slice_index_or keys.now start d).group }
    ensures next { (d : RecordKey) → result < length keys.now
        → (slice_index_or keys.now result d).group ≢ (slice_index_or keys.now start d).group }
{
    for index in start + 1..keys.len() {
        if keys[index].group != keys[start].group {
            return index;
        }
    }
    keys.len()
}

/// Sorts the keys of a group, by the numbers that the groups before it have.
fn sort_group<A: Allocator + Copy>(
    records: &Records<'_, A>,
    numbers: &[u32],
    group: &mut [RecordKey],
)
    requires range { spec.AreInRange (length records.now.sections.now.frames) (ids_in group.old) }
    requires apart { spec.AreApart (ids_in group.old) }
    ensures moved { IsPermutation (ids_in group.old) (ids_in group.new) }
    ensures groups { spec.HaveGroups records.now.sections.now group.new }
    ensures order { spec.AreInOrder records.now.sections.now (numbered numbers.now)
        (ids_in group.new) }
{
    for key in group.iter_mut() {
        *key = records.key(numbers, key.id);
    }
    group.sort_unstable();
}

/// Gives the records of a group their new numbers, which are those of their places.
fn number(numbers: &mut [u32], group: &[RecordKey], start: usize)
    requires few { start + length group.now < 2 ^ 32 }
    requires there { All (λ id. id < length numbers.old) (ids_in group.now) }
    requires apart { spec.AreApart (ids_in group.now) }
    ensures placed { (k : ℕ) → k < length group.now
        → slice_index numbers.new (slice_index (ids_in group.now) k) ≡ start + k + 1 }
    ensures kept { (id d : ℕ)
        → ((k : ℕ) → k < length group.now → slice_index (ids_in group.now) k ≢ id)
        → slice_index_or numbers.new id d ≡ slice_index_or numbers.old id d }
{
    for k in 0..group.len() {
        numbers[group[k].id as usize] = (start + k + 1) as u32;
    }
}

/// Sorts and numbers the records group by group.
fn sort_groups<A: Allocator + Copy>(
    records: &Records<'_, A>,
    keys: &mut [RecordKey],
    numbers: &mut [u32],
)
    requires groups { spec.HaveGroups records.now.sections.now keys.old }
    requires sorted { spec.AreSortedTo records.now.sections.now (ids_in keys.old) numbers.old 0 }
    ensures { spec.AreNumbered records.now.sections.now (ids_in keys.new) numbers.new }
{
    let mut start = 0;
    while start < keys.len() {
        let end = group_end(keys, start);
        let group = &mut keys[start..end];
        sort_group(records, numbers, group);
        number(numbers, group, start);
        start = end;
    }
}

/// The records that have these keys.
fn ids_of<A: Allocator>(alloc: A, keys: &[RecordKey]) -> Result<Vec<u32, A>, AllocError>
    ensures { IfOk result (λ ids. ids.items ≡ ids_in keys.now) }
{
    keys.iter().map(|key| key.id).collect(alloc)
}

/// The order of records, and their new numbers.
fn order_of<A: Allocator + Copy>(
    alloc: A,
    records: &Records<'_, A>,
) -> Result<TypeOrder<A>, AllocError>
    ensures { IfOk result (λ order.
        spec.AreNumbered records.now.sections.now order.ids.items order.numbers.items) }
{
    let mut numbers = vec![in alloc; 0; records.sections.count() as usize + 1]?;
    let mut keys = grouped_keys(alloc, records, &numbers)?;
    sort_groups(records, &mut keys, &mut numbers);
    let ids = ids_of(alloc, &keys)?;
    Ok(TypeOrder { ids, numbers })
}

/// The order of the records, and their new numbers.
pub(crate) fn type_order<A: Allocator + Copy>(
    alloc: A,
    sections: &FileSections<'_>,
) -> Result<TypeOrder<A>, AllocError>
    requires few { length sections.now.frames < 2 ^ 24 }
    requires closed { is_closed sections.now.strings ≡ true }
    ensures { IfOk result (λ order.
        spec.AreNumbered sections.now order.ids.items order.numbers.items) }
{
    let layers = find_layers(alloc, sections)?;
    let names = type_names(alloc, sections)?;
    let records = Records {
        sections,
        layers,
        names,
    };
    order_of(alloc, &records)
}
