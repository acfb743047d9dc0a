//! Each allocation refused in turn: an arena of one chunk that has one more free byte in each round.

use crate::of_btf_types::expect::holds;
use crate::of_btf_types::{edited, fault, file};
use btf_raw::BtfCause;
use btf_types::{Btf, BtfError, BtfView, Head, Item, TypeTable};
use bumpalo::Bump;
use std::alloc::{AllocError, Global};
use std::process::Abort;

/// The most bytes that a parser gets.
const CAPACITY: usize = 2048;

/// How many bytes the offsets of nine records need at least, the marks of five bytes of strings, and nine records of three fields.
const OFFSETS: usize = 36;

const MARKS: usize = 5;

const TYPES: usize = 108;

/// How many bytes the offset of one record and the ends of nine long strings need at least, the fields of an ENUM with nine values, and
/// nine 128-byte strings.
const OFFSETS_AND_ENDS: usize = 40;

const ENUM_WORDS: usize = 84;

const LONG_STRINGS: usize = 1162;

/// What a file is read as.
#[derive(Clone, Copy)]
enum Wanted {
    Typedefs,
    LongNames,
    Fault(u64, BtfCause),
}

/// What a parser returns in an arena.
#[derive(Clone, Copy)]
enum Outcome {
    /// What is wanted.
    Whole,
    /// Out of memory.
    Refused,
    /// Another answer.
    Wrong,
}

/// An arena with this many free bytes: the others are allocated first.
fn arena(alloc: Global, capacity: usize) -> Result<Bump<Global>, AllocError> {
    let bump = Bump::try_with_capacity(alloc, CAPACITY)?;
    bump.set_allocation_limit(Some(bump.allocated_bytes()));
    let taken = bump.chunk_capacity().saturating_sub(capacity);
    bump.try_alloc_slice_fill_clone(taken, 0u8)?;
    Ok(bump)
}

/// Nine TYPEDEFs with the name `t`, the first of void and each other of the one before, next to a string that isn't UTF-8.
fn typedefs(rt: &impl Abort, alloc: Global) -> Vec<u8> {
    let mut records = Vec::new(alloc);
    for target in 0..9_u8 {
        let record = [1, 0, 0, 0, 0, 0, 0, 8, target, 0, 0, 0];
        records
            .extend_from_slice(&record)
            .expect(rt, "ample memory");
    }
    file(rt, alloc, &records, b"\0t\0\xff\0")
}

/// Whether a table contains these TYPEDEFs.
fn has_typedefs<T: TypeTable>(table: &T) -> bool {
    for i in 0..table.count() {
        let is_right = match table.head(i + 1) {
            Head::KTypedef { name, target } => name == "t" && target == i,
            _ => false,
        };
        if !is_right || table.item_count(i + 1) != 0 {
            return false;
        }
    }
    table.count() == 9
}

/// The fields of an ENUM of four bytes without a name. Its values are 0 to 8, with the names that are next to each other from
/// offset 1.
fn enum_words(rt: &impl Abort, alloc: Global) -> Vec<u8> {
    let head = b"\0\0\0\0\x09\0\0\x06\x04\0\0\0";
    let mut words = Vec::from_slice(alloc, head).expect(rt, "ample memory");
    for value in 0..9_u32 {
        let (name, value) = ((value * 129 + 1).to_le_bytes(), value.to_le_bytes());
        words.extend_from_slice(&name).expect(rt, "ample memory");
        words.extend_from_slice(&value).expect(rt, "ample memory");
    }
    words
}

/// The names of these: 128 times `a`, 128 times `b`, and so on.
fn long_strings(rt: &impl Abort, alloc: Global) -> Vec<u8> {
    let mut strings = Vec::from_slice(alloc, b"\0").expect(rt, "ample memory");
    for letter in b'a'..=b'i' {
        strings
            .extend_from_slice(&[letter; 128])
            .expect(rt, "ample memory");
        strings.push(0).expect(rt, "ample memory");
    }
    strings
}

fn long_names(rt: &impl Abort, alloc: Global) -> Vec<u8> {
    let words = enum_words(rt, alloc);
    file(rt, alloc, &words, &long_strings(rt, alloc))
}

/// Whether an item is the value of this number in that ENUM.
fn is_long_name(item: Item, k: u32) -> bool {
    let letter = b'a'.wrapping_add((k & 0xff) as u8);
    match item {
        Item::EnumValue { name, value } => {
            name.as_bytes() == [letter; 128].as_slice() && value == k
        }
        _ => false,
    }
}

/// Whether a table contains this ENUM.
fn has_long_names<T: TypeTable>(table: &T) -> bool {
    if table.count() != 1 {
        return false;
    }
    for k in 0..table.item_count(1) {
        if !is_long_name(table.item(1, k), k) {
            return false;
        }
    }
    let is_enum = match table.head(1) {
        Head::KEnum { name, signed, size } => name.is_empty() && !signed && size == 4,
        _ => false,
    };
    is_enum && table.item_count(1) == 9
}

/// The outcome of a parser that returned this.
fn returned<T: TypeTable>(parsed: &Result<T, BtfError>, wanted: Wanted) -> Outcome {
    match (parsed, wanted) {
        (Ok(table), Wanted::Typedefs) if has_typedefs(table) => Outcome::Whole,
        (Ok(table), Wanted::LongNames) if has_long_names(table) => Outcome::Whole,
        (Err(BtfError::Fault(first)), Wanted::Fault(pos, cause)) if *first == fault(pos, cause) => {
            Outcome::Whole
        }
        (Err(BtfError::Memory), _) => Outcome::Refused,
        _ => Outcome::Wrong,
    }
}

/// The outcome of `Btf::parse` or of `BtfView::parse` in an arena.
fn outcome_in(
    alloc: Global,
    capacity: usize,
    owned: bool,
    bytes: &[u8],
    wanted: Wanted,
) -> Outcome {
    match arena(alloc, capacity) {
        Ok(bump) if owned => returned(&Btf::parse(&bump, bytes), wanted),
        Ok(bump) => returned(&BtfView::parse(&bump, bytes), wanted),
        Err(AllocError) => Outcome::Wrong,
    }
}

/// Adds an outcome to those in all smaller arenas: the smallest in which the parser succeeded, if any, or that of the first wrong
/// outcome. It is wrong to run out of memory in a larger one.
fn after(
    before: Result<Option<usize>, usize>,
    capacity: usize,
    outcome: Outcome,
) -> Result<Option<usize>, usize> {
    match (before, outcome) {
        (Err(_), _) | (Ok(None), Outcome::Refused) | (Ok(Some(_)), Outcome::Whole) => before,
        (Ok(None), Outcome::Whole) => Ok(Some(capacity)),
        _ => Err(capacity),
    }
}

/// The smallest arena that a parser needs, or that of its first wrong outcome.
fn least_capacity(
    alloc: Global,
    owned: bool,
    bytes: &[u8],
    wanted: Wanted,
) -> Result<Option<usize>, usize> {
    let mut least = Ok(None);
    for capacity in 0..=CAPACITY {
        least = after(
            least,
            capacity,
            outcome_in(alloc, capacity, owned, bytes, wanted),
        );
    }
    least
}

/// Bytes that are changed in a file, what it is read as then, and how many bytes `BtfView` and `Btf` allocate at least before they return.
struct Row {
    edits: &'static [(usize, u8)],
    wanted: Wanted,
    borrowed: usize,
    owned: usize,
}

#[rattlefmt::skip]
const OF_TYPEDEFS: &[Row] = &[
    Row { edits: &[], wanted: Wanted::Typedefs, borrowed: OFFSETS + MARKS, owned: OFFSETS + MARKS + TYPES },
    Row { edits: &[(2, 2)], wanted: Wanted::Fault(2, BtfCause::Version), borrowed: 0, owned: 0 },
    Row { edits: &[(136, 1)], wanted: Wanted::Fault(136, BtfCause::LastString), borrowed: 0, owned: 0 },
    Row { edits: &[(127, 20)], wanted: Wanted::Fault(124, BtfCause::KindNumber), borrowed: OFFSETS - 4, owned: OFFSETS - 4 },
    Row { edits: &[(128, 10)], wanted: Wanted::Fault(128, BtfCause::Reference), borrowed: OFFSETS + MARKS, owned: OFFSETS + MARKS },
];

/// The ends of the long strings are found last, and only in a file without a fault.
#[rattlefmt::skip]
const OF_LONG_NAMES: &[Row] = &[
    Row { edits: &[], wanted: Wanted::LongNames, borrowed: OFFSETS_AND_ENDS, owned: OFFSETS_AND_ENDS + ENUM_WORDS + LONG_STRINGS },
    Row { edits: &[(32, 3)], wanted: Wanted::Fault(32, BtfCause::Size), borrowed: 4, owned: 4 },
];

/// Whether an arena of `least` bytes or more is the smallest that suffices. If a parser allocates nothing, none is too small.
fn is_right(found: Result<Option<usize>, usize>, least: usize) -> bool {
    match found {
        Ok(Some(capacity)) => least <= capacity && (least > 0 || capacity == 0),
        _ => false,
    }
}

/// Gives both parsers ever more memory.
fn check_capacities(rt: &impl Abort, alloc: Global, bytes: &[u8], row: &Row) {
    let borrowed = least_capacity(alloc, false, bytes, row.wanted);
    let owned = least_capacity(alloc, true, bytes, row.wanted);
    let right = is_right(borrowed, row.borrowed) && is_right(owned, row.owned);
    holds(rt, right, &(row.edits, borrowed, owned));
}

/// Does so for a file with each of these changes.
fn check_file(rt: &impl Abort, alloc: Global, file: &[u8], rows: &[Row]) {
    for row in rows {
        check_capacities(rt, alloc, &edited(rt, alloc, file, row.edits), row);
    }
}

#[test]
fn parsers_succeed_or_run_out_of_memory_in_every_arena(rt: HostRuntime) {
    let file = typedefs(&rt, rt.alloc());
    check_file(&rt, rt.alloc(), &file, OF_TYPEDEFS);
    let file = long_names(&rt, rt.alloc());
    check_file(&rt, rt.alloc(), &file, OF_LONG_NAMES);
}
