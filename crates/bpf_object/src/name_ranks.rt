//! The ranks of names: sorted by their lengths, and then by their bytes.
//!
//! Each name is compared once, and after that by its rank: a million records may have one name of
//! several megabytes. Names inside one string have different lengths, so only names whose bytes are
//! apart are compared by their bytes.

ghost use Rattle.std.specs.Prelude.{◌≡◌, ◌≢◌, ◌+◌, ◌^◌, ◌<◌, true, length, slice_index, IfOk, OnOk};
ghost use Rattle.std.specs.{Cmp.Lexicographic.slice_cmp, List.All};
ghost use Rattle.std.specs.Ordering.{nat_cmp};
ghost use Rattle.std.specs.declared.cmp.Ordering.TheVariants.{Less, Equal, Greater};
ghost use Rattle.bpf_elf.specs.Names.{is_closed};
ghost use Rattle.bpf_object.specs.private.NameRanks as spec;

use bpf_elf::string_at;
use std::alloc::{AllocError, Allocator};
use std::cmp::Ordering;
use std::marker::Model;

/// A name of the table: where it begins, and where its NUL is.
#[derive(Clone, Copy)]
struct NameAt {
    start: usize,
    end: usize,
}

/// The bytes of a name.
fn bytes_of<'a>(strings: &'a [u8], name: &NameAt) -> &'a [u8]
    ensures { result.now ≡ spec.bytes_in strings.now name.now }
{
    let end = name.end.min(strings.len());
    let start = name.start.min(end);
    &strings[start..end]
}

/// Compares by lengths, and then by bytes.
fn compare_texts(first: &[u8], second: &[u8]) -> Ordering
    ensures { result ≡ slice_cmp nat_cmp (spec.text_key first.now) (spec.text_key second.now) }
{
    if first.len() != second.len() {
        return first.len().cmp(&second.len());
    }
    first.cmp(second)
}

/// Compares names in this way.
fn compare(strings: &[u8], a: &NameAt, b: &NameAt) -> Ordering
    ensures bytes { result ≡ slice_cmp nat_cmp (spec.bytes_key strings.now a.now)
        (spec.bytes_key strings.now b.now) }
    ensures names { spec.HasEnd strings.now a.now → spec.HasEnd strings.now b.now
        → result ≡ slice_cmp nat_cmp (spec.name_key strings.now a.now.start)
        (spec.name_key strings.now b.now.start) }
{
    let first = bytes_of(strings, a);
    let second = bytes_of(strings, b);
    compare_texts(first, second)
}

/// The name at an offset. The end of one before is known: it may be inside that.
#[tactic(auto, using(crate::proofs::NameEnds::ends_of_names))]
fn name_at(strings: &[u8], off: usize, last: &NameAt) -> NameAt
    requires closed { is_closed strings.now ≡ true }
    requires last { spec.HasEnd strings.now last.now }
    ensures start { result.start ≡ off }
    ensures end { spec.HasEnd strings.now result }
{
    if off >= strings.len() {
        return NameAt {
            start: off,
            end: off,
        };
    }
    if last.start <= off && off <= last.end {
        return NameAt {
            start: off,
            end: last.end,
        };
    }
    let end = off + string_at(strings, off).len();
    NameAt { start: off, end }
}

/// The names at some offsets of a string table, and their ranks.
#[derive(Drop)]
pub(crate) struct NameRanks<'a, A: Allocator> {
    strings: &'a [u8],
    /// For each offset 0, or 1 and the rank of the name there.
    ranks: Vec<u32, A>,
    /// For each rank an offset of its name.
    names: Vec<usize, A>,
    /// The last of these names.
    last: NameAt,
}

impl<'a, A: Allocator> Model for NameRanks<'a, A> {
    ghost use Rattle.bpf_object.specs.private.NameRanks.{RankedNames, AreRanks};

    ghost Value = { RankedNames };

    ghost view = { λ r. record {
      strings = r.strings.now;
      ranks = r.ranks.items;
      names = r.names.items;
      last = r.last;
    } };

    ghost invariant = { λ r. AreRanks r.strings.now r.ranks.items r.names.items r.last };
}

impl<'a, A: Allocator + Copy> NameRanks<'a, A> {
    /// The rank of the empty name, which is the first.
    #[tactic(auto, using(crate::proofs::RankLemmas::first_ranks))]
    fn of_empty(alloc: A, strings: &'a [u8]) -> Result<NameRanks<'a, A>, AllocError>
        requires { is_closed strings.now ≡ true }
        ensures { IfOk result (λ r. spec.OfEmpty strings.now r) }
    {
        let mut ranks = vec![in alloc; 0; strings.len()]?;
        ranks[0] = 1;
        let names = vec![in alloc; 0; 1]?;
        Ok(NameRanks {
            strings,
            ranks,
            names,
            last: NameAt { start: 0, end: 0 },
        })
    }

    /// Notes a name that is greater than those before.
    fn push(&mut self, name: NameAt) -> Result<(), AllocError>
        requires there { name.start < length self.old.strings }
        requires few { length self.old.names + 1 < 2 ^ 32 }
        requires end { spec.HasEnd self.old.strings name }
        requires greater { slice_cmp nat_cmp (spec.name_key self.old.strings self.old.last.start)
            (spec.name_key self.old.strings name.start) ≡ Less }
        ensures strings { self.new.strings ≡ self.old.strings }
        ensures notes { OnOk result (spec.Notes self.old self.new name.start) }
    {
        self.names.push(name.start)?;
        self.ranks[name.start] = self.names.len() as u32;
        self.last = name;
        Ok(())
    }

    /// Notes the last name at another offset.
    fn repeat(&mut self, off: usize)
        requires there { off < length self.old.strings }
        requires few { length self.old.names < 2 ^ 32 }
        requires same { slice_cmp nat_cmp (spec.name_key self.old.strings self.old.last.start)
            (spec.name_key self.old.strings off) ≡ Equal }
        ensures strings { self.new.strings ≡ self.old.strings }
        ensures notes { spec.Notes self.old self.new off }
    {
        self.ranks[off] = self.names.len() as u32;
    }

    /// Notes a name that isn't less than those before.
    fn add(&mut self, name: NameAt) -> Result<(), AllocError>
        requires there { name.start < length self.old.strings }
        requires few { length self.old.names + 1 < 2 ^ 32 }
        requires end { spec.HasEnd self.old.strings name }
        requires not_less { slice_cmp nat_cmp (spec.name_key self.old.strings self.old.last.start)
            (spec.name_key self.old.strings name.start) ≢ Greater }
        ensures strings { self.new.strings ≡ self.old.strings }
        ensures notes { OnOk result (spec.Notes self.old self.new name.start) }
    {
        match compare(self.strings, &self.last, &name) {
            Ordering::Less => self.push(name)?,
            _ => self.repeat(name.start),
        }
        Ok(())
    }

    /// The ranks of the names at these offsets, and of the empty name.
    pub(crate) fn new(
        alloc: A,
        strings: &'a [u8],
        offsets: &[u32],
    ) -> Result<NameRanks<'a, A>, AllocError>
        requires closed { is_closed strings.now ≡ true }
        requires inside { All (λ off. off < length strings.now) offsets.now }
        requires few { length offsets.now + 1 < 2 ^ 32 }
        ensures strings { IfOk result (λ r. r.strings ≡ strings.now) }
        ensures noted { IfOk result (λ r. spec.AreNoted r offsets.now) }
    {
        let names = sorted_names(alloc, strings, offsets)?;
        let mut ranks = NameRanks::of_empty(alloc, strings)?;
        for name in &names {
            ranks.add(*name)?;
        }
        Ok(ranks)
    }

    /// 1 and the rank of the name at an offset, or 0 if it wasn't noted.
    pub(crate) fn rank(&self, off: u32) -> u32
        ensures is { result ≡ slice_index self.now.ranks off }
        ensures rank { 0 < result → spec.IsRank self.now off result }
    {
        match self.ranks.get(off as usize) {
            Some(rank) => *rank,
            None => 0,
        }
    }
}

/// These offsets, each once.
fn distinct_offsets<A: Allocator + Copy>(
    alloc: A,
    offsets: &[u32],
) -> Result<Vec<u32, A>, AllocError>
    ensures { IfOk result (λ distinct. spec.HasSame offsets.now distinct.items) }
{
    let mut distinct = Vec::from_slice(alloc, offsets)?;
    distinct.sort_unstable();
    distinct.dedup();
    Ok(distinct)
}

/// The names at these offsets, each once.
#[tactic(auto, using(crate::proofs::NameEnds::ends_of_lists))]
fn distinct_names<A: Allocator + Copy>(
    alloc: A,
    strings: &[u8],
    offsets: &[u32],
) -> Result<Vec<NameAt, A>, AllocError>
    requires { is_closed strings.now ≡ true }
    ensures { IfOk result (λ names. spec.AreNames strings.now offsets.now names.items) }
{
    let distinct = distinct_offsets(alloc, offsets)?;
    let mut names = Vec::with_capacity(alloc, distinct.len())?;
    let mut last = NameAt { start: 0, end: 0 };
    for off in &distinct {
        last = name_at(strings, *off as usize, &last);
        names.push(last)?;
    }
    Ok(names)
}

/// These names in the order of their ranks.
fn sorted_names<A: Allocator + Copy>(
    alloc: A,
    strings: &[u8],
    offsets: &[u32],
) -> Result<Vec<NameAt, A>, AllocError>
    requires { is_closed strings.now ≡ true }
    ensures are { IfOk result (λ names. spec.AreNames strings.now offsets.now names.items) }
    ensures rise { IfOk result (λ names. spec.Rise strings.now names.items) }
{
    let mut names = distinct_names(alloc, strings, offsets)?;
    names.sort_by(|a, b| compare(strings, a, b))?;
    Ok(names)
}
