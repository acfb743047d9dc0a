//! The layers of TYPE_TAG: how many of them follow each other from a type on.

ghost use Rattle.std.specs.Prelude.{◌≡◌, ℕ, ◌+◌, ◌*◌, ◌^◌, ◌<◌, ◌≤◌, ◌==◌, min, false, length, slice_index, MatchOption, IfOk};
ghost use Rattle.btf_raw.specs.Frames.{IsFrame, kind};
ghost use Rattle.btf_raw.specs.KindNumbers.{TYPE_TAG as spec_tag};
ghost use Rattle.bpf_object.specs.TypeOrder.{frame_of};
ghost use Rattle.bpf_object.specs.private.TypeSteps as spec;

use btf_raw::TYPE_TAG;
use btf_types::{FileSections, Record};
use std::alloc::{AllocError, Allocator};

/// The record with a number from 1 on.
#[tactic(auto, using(crate::proofs::LayerLemmas::frame_read))]
pub(crate) fn record_at<'t>(sections: &FileSections<'t>, id: u32) -> Record<'t>
    requires first { 0 < id }
    requires last { id ≤ length sections.now.frames }
    ensures is { frame_of sections.now id ≡ result }
    ensures frame { IsFrame result }
{
    sections.record(id)
}

/// The type of a TYPE_TAG. Other types have none.
#[tactic(auto, using(crate::proofs::LayerLemmas::no_tag_out))]
fn tag_type(sections: &FileSections<'_>, id: u32) -> Option<u32>
    ensures { MatchOption result ((kind (frame_of sections.now id) == spec_tag) ≡ false)
        (λ t. spec.IsTagOf sections.now id t) }
{
    if id == 0 || id > sections.count() {
        return None;
    }
    let record = record_at(sections, id);
    if record.kind() != TYPE_TAG {
        return None;
    }
    Some(record.word(2))
}

/// The element at an index, or 0 if there is none.
pub(crate) fn at(numbers: &[u32], index: u32) -> u32
    ensures { result ≡ slice_index numbers.now index }
{
    match numbers.get(index as usize) {
        Some(number) => *number,
        None => 0,
    }
}

/// The TYPE_TAG from a type on, as far as they have been counted.
#[derive(Clone, Copy)]
struct Walk {
    /// How many they are; at most one more than there are records is counted.
    steps: u32,
    /// The type that they lead to, from which it goes on. It is 0 where they end.
    to: u32,
}

/// The first step from a type.
#[tactic(auto, using(crate::proofs::LayerLemmas::first_steps))]
fn first_walk(sections: &FileSections<'_>, id: u32) -> Walk
    ensures { spec.IsWalk sections.now 1 id result }
{
    match tag_type(sections, id) {
        Some(to) => Walk { steps: 1, to },
        None => Walk { steps: 0, to: 0 },
    }
}

/// The first steps from all types.
fn first_walks<A: Allocator>(
    alloc: A,
    sections: &FileSections<'_>,
) -> Result<Vec<Walk, A>, AllocError>
    requires { length sections.now.frames < 2 ^ 31 }
    ensures { IfOk result (λ walks. spec.AreWalks sections.now 1 walks.items) }
{
    let count = sections.count() + 1;
    let mut walks = Vec::with_capacity(alloc, count as usize)?;
    for id in 0..count {
        walks.push(first_walk(sections, id))?;
    }
    Ok(walks)
}

/// The walk from a type.
fn walk_at(walks: &[Walk], id: u32) -> Walk
    ensures { result ≡ spec.walk_at walks.now id }
{
    match walks.get(id as usize) {
        Some(walk) => *walk,
        None => Walk { steps: 0, to: 0 },
    }
}

/// A walk, and then the one from where it has come to. At most so many steps are counted.
fn joined(first: Walk, second: Walk, most: u32) -> Walk
    ensures steps { result.steps ≡ min (first.steps + second.steps) most }
    ensures to { result.to ≡ second.to }
{
    Walk {
        steps: first.steps.saturating_add(second.steps).min(most),
        to: second.to,
    }
}

/// Goes on from where each walk has come to, which doubles its steps at least, and returns whether
/// one has gone on.
fn double_walks(sections: &FileSections<'_>, walks: &mut [Walk]) -> bool
    requires { length sections.now.frames < 2 ^ 31 }
    ensures walks { (least : ℕ) → spec.AreWalks sections.now least walks.old
        → spec.AreWalks sections.now (least * 2) walks.new }
    ensures ended { result ≡ false → (id : ℕ) → (spec.walk_at walks.new id).to ≡ 0 }
{
    let most = sections.count() + 1;
    let mut goes_on = false;
    for id in 0..walks.len() {
        let walk = walks[id];
        if walk.to != 0 {
            walks[id] = joined(walk, walk_at(walks, walk.to), most);
            goes_on = true;
        }
    }
    goes_on
}

/// Goes on until each walk has ended, or has more steps than there are records.
fn end_walks(sections: &FileSections<'_>, walks: &mut [Walk])
    requires few { length sections.now.frames < 2 ^ 31 }
    requires walks { spec.AreWalks sections.now 1 walks.old }
    ensures { spec.AreWalks sections.now (length sections.now.frames + 1) walks.new }
{
    let mut least: u32 = 1;
    while least <= sections.count() {
        if !double_walks(sections, walks) {
            return;
        }
        least *= 2;
    }
}

/// The steps of walks.
fn steps_of<A: Allocator>(alloc: A, walks: &[Walk]) -> Result<Vec<u32, A>, AllocError>
    ensures { IfOk result (λ steps. steps.items ≡ spec.steps_of walks.now) }
{
    walks.iter().map(|walk| walk.steps).collect(alloc)
}

/// The layers of all types, by the first steps from them.
fn layers_of<A: Allocator>(
    alloc: A,
    sections: &FileSections<'_>,
    walks: &mut [Walk],
) -> Result<Vec<u32, A>, AllocError>
    requires few { length sections.now.frames < 2 ^ 31 }
    requires walks { spec.AreWalks sections.now 1 walks.old }
    ensures { IfOk result (λ layers. spec.AreLayers sections.now layers.items) }
{
    end_walks(sections, walks);
    steps_of(alloc, walks)
}

/// The layers of all types, from void on: 0 if a type isn't TYPE_TAG, and one more than there are
/// records if the TYPE_TAG from there on never end.
pub(crate) fn find_layers<A: Allocator + Copy>(
    alloc: A,
    sections: &FileSections<'_>,
) -> Result<Vec<u32, A>, AllocError>
    requires { length sections.now.frames < 2 ^ 31 }
    ensures { IfOk result (λ layers. spec.AreLayers sections.now layers.items) }
{
    let mut walks = first_walks(alloc, sections)?;
    layers_of(alloc, sections, &mut walks)
}
