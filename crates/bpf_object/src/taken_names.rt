//! The rule on names by which alone libbpf looks up externs and sections of data.
//!
//! A million records may have names that end one string, or one name of several megabytes. So
//! each distinct name is looked up once, and its offset is marked. Names are sorted by their
//! offsets first: the end of one that is inside another needs no search.

ghost use Rattle.std.specs.Prelude.{◌≡◌, ℕ, ◌+◌, ◌*◌, ◌^◌, ◌<◌, ◌≤◌, ◌↔◌, true, length, map, IfOk, MatchResult};
ghost use Rattle.std.specs.List.{All, Contains, concat};
ghost use Rattle.bpf_elf.specs.Names.{is_closed, string_at as spec_string_at};
ghost use Rattle.bpf_elf.specs.Rules.{each, AllHold};
ghost use Rattle.btf_types.specs.tables.OffsetWords.{ReadsRecord};
ghost use Rattle.bpf_object.specs.Faults.{Checks, FailsRules};
ghost use Rattle.bpf_object.specs.Types as rules;
ghost use Rattle.bpf_object.specs.private.NameRanks.{name_key, text_key};
ghost use Rattle.bpf_object.specs.private.TakenNames as spec;

use crate::fault::{ObjectCause, ObjectError, ObjectFault, require};
use bpf_elf::string_at;
use btf_raw::{FUNC, FWD, TYPE_TAG, VAR};
use btf_types::{FileSections, Record};
use std::alloc::{AllocError, Allocator};

/// A name with its length, by which names are compared first: those that end one string have
/// different lengths.
type Name<'a> = (usize, &'a [u8]);

/// The offsets of the names of the records of a kind.
fn all_offsets<A: Allocator>(
    alloc: A,
    sections: &FileSections<'_>,
    kind: u8,
) -> Result<Vec<u32, A>, AllocError>
    ensures { IfOk result (λ offsets. offsets.items ≡ spec.names_of kind sections.now.frames) }
{
    let mut offsets = Vec::new(alloc);
    for index in 0..sections.count() {
        let record = sections.record(index + 1);
        if record.kind() == kind {
            offsets.push(record.word(0))?;
        }
    }
    Ok(offsets)
}

/// These offsets, each once, in ascending order.
fn distinct_offsets<A: Allocator>(
    alloc: A,
    sections: &FileSections<'_>,
    kind: u8,
) -> Result<Vec<u32, A>, AllocError>
    ensures { IfOk result (λ offsets. (off : ℕ) →
        Contains offsets.items off ↔ Contains (spec.names_of kind sections.now.frames) off) }
{
    let mut offsets = all_offsets(alloc, sections, kind)?;
    offsets.sort_unstable();
    offsets.dedup();
    Ok(offsets)
}

/// The string at an offset. The one at `last` is known, and this one may be inside it.
fn string_after<'a>(strings: &'a [u8], off: usize, last: usize, known: &'a [u8]) -> &'a [u8]
    requires closed { is_closed strings.now ≡ true }
    requires there { off < length strings.now }
    requires known { known.now ≡ spec_string_at strings.now last }
    ensures { result.now ≡ spec_string_at strings.now off }
{
    if last <= off && off - last <= known.len() {
        return &known[off - last..];
    }
    string_at(strings, off)
}

/// The names at these offsets.
fn names_at<'a, A: Allocator>(
    alloc: A,
    strings: &'a [u8],
    offsets: &[u32],
) -> Result<Vec<Name<'a>, A>, AllocError>
    requires closed { is_closed strings.now ≡ true }
    requires there { All (λ off. off < length strings.now) offsets.now }
    ensures { IfOk result
        (λ names. map spec.key_of names.items ≡ map (name_key strings.now) offsets.now) }
{
    let mut names = Vec::with_capacity(alloc, offsets.len())?;
    let mut last = 0;
    let mut known = string_at(strings, 0);
    for off in offsets {
        known = string_after(strings, *off as usize, last, known);
        last = *off as usize;
        names.push((known.len(), known))?;
    }
    Ok(names)
}

/// The names of all FUNC, sorted.
fn func_names<'a, A: Allocator + Copy>(
    alloc: A,
    sections: &FileSections<'a>,
) -> Result<Vec<Name<'a>, A>, AllocError>
    ensures { IfOk result (λ names. spec.AreFuncNames sections.now names.items) }
{
    let offsets = distinct_offsets(alloc, sections, FUNC)?;
    let mut names = names_at(alloc, sections.strings(), &offsets)?;
    names.sort_unstable();
    Ok(names)
}

/// Whether a name is among sorted ones.
fn is_among(names: &[Name<'_>], name: Name<'_>) -> bool
    requires { spec.AreSorted names.now }
    ensures { (result ≡ true) ↔ Contains (map spec.key_of names.now) (spec.key_of name.entry) }
{
    names.binary_search(&name).is_ok()
}

/// Marks the offsets of names that are among others.
fn marks_at<A: Allocator + Copy>(
    alloc: A,
    strings: &[u8],
    offsets: &[u32],
    names: &[Name<'_>],
) -> Result<Vec<bool, A>, AllocError>
    requires closed { is_closed strings.now ≡ true }
    requires there { All (λ off. off < length strings.now) offsets.now }
    requires sorted { spec.AreSorted names.now }
    ensures { IfOk result
        (λ marks. All (spec.IsMarked strings.now names.now marks.items) offsets.now) }
{
    let own = names_at(alloc, strings, offsets)?;
    let mut marks = vec![in alloc; false; strings.len()]?;
    for k in 0..own.len() {
        marks[offsets[k] as usize] = is_among(names, own[k]);
    }
    Ok(marks)
}

/// Marks the offsets of the names of those VAR that have the name of a FUNC.
fn taken_marks<A: Allocator + Copy>(
    alloc: A,
    sections: &FileSections<'_>,
) -> Result<Vec<bool, A>, AllocError>
    ensures { IfOk result (λ marks. spec.AreMarks sections.now marks.items) }
{
    let offsets = distinct_offsets(alloc, sections, VAR)?;
    if offsets.is_empty() {
        return Ok(Vec::new(alloc));
    }
    let names = func_names(alloc, sections)?;
    if names.is_empty() {
        return Ok(Vec::new(alloc));
    }
    marks_at(alloc, sections.strings(), &offsets, &names)
}

/// Whether the name of a record is taken.
fn is_taken(strings: &[u8], marks: &[bool], record: &Record<'_>) -> bool
    requires { ReadsRecord strings.now record.now }
    ensures { result ≡ spec.is_taken strings.now marks.now record.now }
{
    let off = record.word(0) as usize;
    match record.kind() {
        VAR => strings[off] == b'.' || marks.get(off) == Some(&true),
        FWD | TYPE_TAG => strings[off] == b'.',
        _ => false,
    }
}

/// Checks the names of records, of which the first one is at `first` of the file.
fn check_marked(sections: &FileSections<'_>, marks: &[bool], first: u64) -> Result<(), ObjectFault>
    requires near { first < 2 ^ 33 }
    requires short { 4 * length (concat sections.now.frames) ≤ 2 ^ 25 }
    requires marks { spec.AreMarks sections.now marks.now }
    ensures { Checks (each (length sections.now.frames)
        (rules.name_rules first sections.now)) result }
{
    let strings = sections.strings();
    let mut pos = first;
    for k in 0..sections.count() {
        let record = sections.record(k + 1);
        require(
            !is_taken(strings, marks, &record),
            pos,
            ObjectCause::TypesNameTaken,
        )?;
        pos += 4 * record.word_count() as u64;
    }
    Ok(())
}

/// Checks the names of records, of which the first one is at `first` of the file.
pub(crate) fn check_names<A: Allocator + Copy>(
    alloc: A,
    sections: &FileSections<'_>,
    first: u64,
) -> Result<(), ObjectError>
    requires near { first < 2 ^ 33 }
    requires short { 4 * length (concat sections.now.frames) ≤ 2 ^ 25 }
    ensures { let names = each (length sections.now.frames) (rules.name_rules first sections.now) in
        MatchResult result (λ _. AllHold names) (FailsRules names) }
{
    let marks = taken_marks(alloc, sections)?;
    check_marked(sections, &marks, first)?;
    Ok(())
}
