//! The longest used strings of a section, sorted by their reversed bytes, and what their ranks
//! determine: common suffixes and hosts.
//!
//! Strings that end with the same bytes have consecutive ranks. So which strings end with a name,
//! and which is its host, follows from the lengths of the suffixes that adjacent strings have in
//! common (law `common_suffixes_tell_hosts`), and no others are compared.
//!
//! A string is kept with its last 16 bytes as two numbers, its keys. They usually decide a
//! comparison, and then the section isn't read, in which strings with adjacent ranks may be far
//! apart. So the length of a common suffix is found at three levels: `common_bytes` compares two
//! keys, `common_suffix` the bytes of two strings, and `common_of` the keys of two strings and, if
//! these are equal, the bytes. In contracts the length is `common_tail`.

ghost use Rattle.std.specs.Prelude.{◌≡◌, ◌+◌, ◌*◌, ◌^◌, ◌<◌, ◌≤◌, ◌-◌, ℕ, IfOk, length};
ghost use Rattle.std.specs.{Prelude.slice_index, Ordering.on, List.All};
ghost use Rattle.std.specs.List.Sorted.{IsPermutation, IsSorted};
ghost use Rattle.bpf_canon.specs.btf.strings.SuffixKeys.{HaveSameByte};
ghost use Rattle.btf_raw.specs.Header.{HasNulEnds};
ghost use Rattle.btf_types.specs.strings.{SharedNames.suffix_cmp, CommonSuffixes.common_tail};
ghost use Rattle.bpf_canon.specs.btf.strings.Ranks.{AreRanked, AreCommon, AreNextHosts, AreLower};
ghost use Rattle.bpf_canon.specs.btf.strings.{Longest.AreLongestOf, SectionTexts.HasKey};
ghost use Rattle.bpf_canon.specs.btf.strings.SectionTexts.{texts_in, text_in, common_in, compared};

use crate::btf::strings::used_offsets::UsedOffsets;
use crate::btf::suffixes::{compare_from_end, suffix_key};
use btf_raw::text_end;
use std::alloc::{AllocError, Allocator};
use std::cmp::Ordering;

/// A string of a section, with the keys of its last 16 bytes (`suffix_key`).
#[derive(Clone, Copy)]
pub(crate) struct SectionText {
    /// The key of the string.
    pub(crate) key: u64,
    /// The key of the string without its last eight bytes.
    pub(crate) before: u64,
    /// Its offset in the section.
    pub(crate) start: u32,
    /// The offset of its NUL.
    pub(crate) end: u32,
}

impl SectionText {
    /// The length of the string in bytes.
    pub(crate) fn len(self) -> u32
        requires { self.start ≤ self.end }
        ensures { result ≡ self.end - self.start }
    {
        self.end - self.start
    }

    /// Both keys as one number, which is compared without a branch.
    fn keys(&self) -> u128
        ensures both { result ≡ self.now.key * 2 ^ 64 + self.now.before }
        ensures low { self.now.before < 2 ^ 64 }
    {
        u128::from(self.key) * (1 << 64) + u128::from(self.before)
    }
}

/// The bytes of a string.
pub(crate) fn text_of<'a>(section: &'a [u8], text: &SectionText) -> &'a [u8]
    ensures { result.now ≡ text_in section.now text.now }
{
    let end = (text.end as usize).min(section.len());
    let start = (text.start as usize).min(end);
    &section[start..end]
}

/// Compares the bytes. This is a separate function, so that the comparison of keys is inlined.
#[inline(never)]
fn compare_texts(section: &[u8], a: &SectionText, b: &SectionText) -> Ordering
    ensures { result ≡ on (text_in section.now) suffix_cmp a.now b.now }
{
    compare_from_end(text_of(section, a), text_of(section, b))
}

/// Compares by keys, then by bytes.
#[tactic(auto, using(crate::proofs::BtfLemmas::Strings::SortedTexts::key_cases))]
fn compare(section: &[u8], a: &SectionText, b: &SectionText) -> Ordering
    ensures { result ≡ compared section.now a.now b.now }
{
    let (first, second) = (a.keys(), b.keys());
    if first != second {
        return first.cmp(&second);
    }
    compare_texts(section, a, b)
}

/// The longest used suffix of each string of the section. The names at later offsets of the same
/// string are suffixes of it.
pub(crate) fn longest_texts<A: Allocator>(
    alloc: A,
    section: &[u8],
    uses: &UsedOffsets<A>,
) -> Result<Vec<SectionText, A>, AllocError>
    requires ends { HasNulEnds section.now }
    requires few { length section.now < 2 ^ 32 }
    requires whole { length uses.now.slots ≡ length section.now }
    ensures { IfOk result (λ longest. AreLongestOf section.now uses.now.slots longest.items) }
{
    let mut longest = Vec::with_capacity(alloc, uses.count())?;
    let mut off = 0;
    'texts: while off < section.len() {
        if section[off] == 0 || !uses.is_used(off) {
            off += 1;
            continue;
        }
        let end = text_end(section, off);
        let text = &section[off..end];
        let before = &text[..text.len().saturating_sub(8)];
        longest.push(SectionText {
            key: suffix_key(text),
            before: suffix_key(before),
            start: off as u32,
            end: end as u32,
        })?;
        off = end + 1;
    }
    Ok(longest)
}

/// Strings sorted by reversed bytes, with the common-suffix lengths and the host of each rank.
#[derive(Drop)]
pub(crate) struct RankedTexts<'a, A: Allocator> {
    pub(crate) section: &'a [u8],
    pub(crate) texts: Vec<SectionText, A>,
    /// The length of the common suffix of each string and the one before it.
    pub(crate) common: Vec<u32, A>,
    /// For each rank, the first rank from it on whose string isn't a suffix of the next one.
    pub(crate) host_ranks: Vec<u32, A>,
}

impl<'a, A: Allocator + Copy> RankedTexts<'a, A> {
    /// Sorts the strings by their reversed bytes, and finds their common suffixes and hosts. Equal
    /// strings at different offsets may be in either order: they have the same host.
    pub(crate) fn new(
        alloc: A,
        section: &'a [u8],
        texts: Vec<SectionText, A>,
    ) -> Result<RankedTexts<'a, A>, AllocError>
        requires section { length section.now < 2 ^ 32 }
        requires few { length texts.items < 2 ^ 32 }
        requires keys { All (HasKey section.now) texts.items }
        ensures section { IfOk result (λ r. r.section.now ≡ section.entry.now) }
        ensures permutation { IfOk result (λ r. IsPermutation texts.items r.texts.items) }
        ensures ranked { IfOk result (λ r.
            AreRanked (texts_in r.section.now r.texts.items) r.common.items r.host_ranks.items) }
    {
        let mut texts = texts;
        texts.sort_unstable_by(|a, b| compare(section, a, b));
        let common = common_suffixes(alloc, section, &texts)?;
        let host_ranks = next_hosts(alloc, section, &texts, &common)?;
        Ok(RankedTexts {
            section,
            texts,
            common,
            host_ranks,
        })
    }
}

/// The length of the longest common suffix of two strings.
#[tactic(auto, using(crate::proofs::BtfLemmas::Strings::RankSteps::suffix_cases))]
fn common_suffix(a: &[u8], b: &[u8]) -> usize
    ensures common { result ≡ common_tail a.now b.now }
    ensures first { result ≤ length a.now }
{
    let most = a.len().min(b.len());
    for n in 0..most {
        if a[a.len() - 1 - n] != b[b.len() - 1 - n] {
            return n;
        }
    }
    most
}

/// The length of the common suffix of the eight bytes of each of two keys.
#[tactic(auto, using(crate::proofs::BtfLemmas::Strings::CommonBits::byte_cases))]
fn common_bytes(a: u64, b: u64) -> usize
    ensures few { result ≤ 8 }
    ensures same { (j : ℕ) → j < result → HaveSameByte a b j }
    ensures differ { result < 8 → ¬ HaveSameByte a b result }
{
    (a ^ b).leading_zeros() as usize / 8
}

/// The length of the longest common suffix of two strings of a section. Usually it follows from
/// their keys, and the section isn't read.
///
/// A key has 0 in place of the bytes that its string lacks, and these may be counted as equal too.
/// But bytes that both strings have are compared as they are, so the common suffix is the smallest
/// of the count and the two lengths.
fn common_of(section: &[u8], a: &SectionText, b: &SectionText) -> usize
    requires first { HasKey section.now a.now }
    requires second { HasKey section.now b.now }
    ensures common { result ≡ common_in section.now a.now b.now }
    ensures inside { result ≤ length (text_in section.now a.now) }
{
    let (first, second) = (text_of(section, a), text_of(section, b));
    let common = common_bytes(a.key, b.key)
        .min(first.len())
        .min(second.len());
    if common < 8 {
        return common;
    }
    let before = common_bytes(a.before, b.before)
        .min(first.len() - 8)
        .min(second.len() - 8);
    if before < 8 {
        return 8 + before;
    }
    common_suffix(first, second)
}

/// The length of the common suffix of each string and the one before it.
fn common_suffixes<A: Allocator>(
    alloc: A,
    section: &[u8],
    sorted: &[SectionText],
) -> Result<Vec<u32, A>, AllocError>
    requires section { length section.now < 2 ^ 32 }
    requires keys { All (HasKey section.now) sorted.now }
    ensures { IfOk result (λ common. AreCommon (texts_in section.now sorted.now) common.items) }
{
    let mut common = vec![in alloc; 0; sorted.len()]?;
    for k in 1..sorted.len() {
        common[k] = common_of(section, &sorted[k - 1], &sorted[k]) as u32;
    }
    Ok(common)
}

/// The next host of each rank: the first one from it on whose string isn't a suffix of the next. It
/// is a suffix if their common suffix is as long as the string itself, so no bytes are compared.
fn next_hosts<A: Allocator>(
    alloc: A,
    section: &[u8],
    sorted: &[SectionText],
    common: &[u32],
) -> Result<Vec<u32, A>, AllocError>
    requires common { AreCommon (texts_in section.now sorted.now) common.now }
    requires few { length sorted.now < 2 ^ 32 }
    ensures { IfOk result (λ ranks. AreNextHosts (texts_in section.now sorted.now) ranks.items) }
{
    let mut host_ranks = vec![in alloc; 0; sorted.len()]?;
    let mut host = 0;
    for k in (0..sorted.len()).rev() {
        let len = text_of(section, &sorted[k]).len();
        if k + 1 == sorted.len() || common[k + 1] as usize != len {
            host = k as u32;
        }
        host_ranks[k] = host;
    }
    Ok(host_ranks)
}

/// For each rank the last rank before it with a shorter common suffix, or the rank itself if its
/// common suffix is empty. [`first_rank`] follows these.
pub(crate) fn lower_ranks<A: Allocator>(alloc: A, common: &[u32]) -> Result<Vec<u32, A>, AllocError>
    requires first { slice_index common.now 0 ≡ 0 }
    requires few { length common.now < 2 ^ 32 }
    ensures lower { IfOk result (λ lower. AreLower common.now lower.items) }
    ensures whole { IfOk result (λ lower. length lower.items ≡ length common.now) }
{
    let mut lower = Vec::with_capacity(alloc, common.len())?;
    for k in 0..common.len() {
        let before = match common[k] {
            0 => k,
            len => first_rank(common, &lower, k - 1, len),
        };
        lower.push(before as u32)?;
    }
    Ok(lower)
}

/// The first rank `r` such that the strings of the ranks `r..=from` share a suffix of `len` bytes.
///
/// It goes back over lower ranks only, whose common suffixes are shorter and shorter, so it takes
/// at most as many steps as the string of `from` has bytes.
pub(crate) fn first_rank(common: &[u32], lower: &[u32], from: usize, len: u32) -> usize
    requires lower { AreLower common.now lower.now }
    requires inside { from < length lower.now }
    requires some { 0 < len }
    ensures before { result ≤ from }
    ensures common { (j : ℕ) → result < j → j ≤ from → len ≤ slice_index common.now j }
    ensures less { slice_index common.now result < len }
{
    let mut rank = from;
    'back: while common[rank] >= len {
        rank = lower[rank] as usize;
    }
    rank
}
