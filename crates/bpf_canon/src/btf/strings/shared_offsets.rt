//! The offsets of names in the string table in which they share suffixes (btf.rst section 2.1): the
//! host of each name, found by the ranks of the longest strings, and the offsets of hosts in the
//! table, in the order of first use.
//!
//! All offsets are computed before the first record is written, because the host of its name may be
//! used last. The table is never longer than the section (law `encoded_table_fits` of `btf_types`),
//! so an offset in it fits into a name_off.

ghost use Rattle.std.specs.Prelude.{◌≡◌, ◌<◌, ◌≤◌, ◌^◌, ◌++◌, length, map, IfOk, OnOk};
ghost use Rattle.std.specs.List.{All};
ghost use Rattle.btf_raw.specs.Header.{HasNulEnds};
ghost use Rattle.btf_types.specs.Reading.{text_from};
ghost use Rattle.btf_types.specs.strings.SharedNames.{shared_table, shared_offset};
ghost use Rattle.bpf_canon.specs.btf.strings.{Ranks.AreLower, UsedOffsets.used_count};
ghost use Rattle.bpf_canon.specs.btf.strings.HostOffsets.{new_name_offset};
ghost use Rattle.bpf_canon.specs.btf.strings.NamesByOffset.{texts_by_offset};
ghost use Rattle.bpf_canon.specs.btf.strings.HostOffsets as host;
ghost use Rattle.bpf_canon.specs.btf.strings.InHost as spec;

use crate::btf::strings::new_name_offsets::NewOffsets;
use crate::btf::strings::ranked_texts::{RankedTexts, first_rank, longest_texts, lower_ranks};
use crate::btf::strings::used_offsets::{FirstUses, UsedOffsets};
use std::alloc::{AllocError, Allocator};
use std::marker::Model;

/// The position of a name in its host. All is 0 if it isn't found yet, or the name is empty.
///
/// The number of the host among the used offsets would be simpler to read than its rank, but
/// finding that number takes a second count of bits for each name.
#[derive(Clone, Copy, Default)]
struct InHost {
    /// The rank of the host.
    host: u32,
    /// The number of bytes of the host before the name.
    before: u32,
    /// The length of the host in bytes, or 0 for the empty name.
    len: u32,
}

/// Finds the hosts of the used offsets within the string of a rank.
///
/// The host of a name needn't be that of the string in which the file has it: it is the first host
/// in sorted order that ends with the name. So the first rank whose string ends with it is searched
/// for. The names at later offsets are shorter, so each search begins at the rank found for the
/// previous offset, and all searches within a string together take no more steps than it has bytes.
fn find_within<A: Allocator>(
    uses: &UsedOffsets<A>,
    ranked: &RankedTexts<'_, A>,
    lower: &[u32],
    rank: usize,
    in_hosts: &mut [InHost],
)
    requires texts { spec.IsRankedFor uses.now ranked.now }
    requires lower { AreLower ranked.now.common.items lower.now }
    requires ranks { length lower.now ≡ length ranked.now.common.items }
    requires inside { rank < length ranked.now.texts.items }
    requires whole { length in_hosts.old ≡ used_count uses.now }
    ensures { spec.FindsWithinRank uses.now ranked.now rank in_hosts.old in_hosts.new }
{
    let end = ranked.texts[rank].end;
    let mut from = rank;
    for off in ranked.texts[rank].start..end {
        if uses.is_used(off as usize) {
            from = first_rank(&ranked.common, lower, from, end - off);
            let host = ranked.host_ranks[from];
            let len = ranked.texts[host as usize].len();
            let before = len - (end - off);
            in_hosts[uses.number(off as usize)] = InHost { host, before, len };
        }
    }
}

/// Finds the hosts of the first ranks without a search, and returns the number of these ranks.
///
/// In most files each string is used from its start only, and no two strings are equal. The first
/// rank whose string ends with such a string is its own, so its host is the next host from there
/// on. The loop stops at the first string that is equal to the one before it, since then its own
/// rank isn't the first, or that has another name inside it, whose first rank has to be searched
/// for. From there on [`find_within`] is needed, and for it the lower ranks of all strings, which
/// most files do without.
fn find_alone<A: Allocator>(
    uses: &UsedOffsets<A>,
    ranked: &RankedTexts<'_, A>,
    in_hosts: &mut [InHost],
) -> usize
    requires texts { spec.IsRankedFor uses.now ranked.now }
    requires none { spec.FindsRanks uses.now ranked.now in_hosts.old 0 }
    ensures found { spec.FindsRanks uses.now ranked.now in_hosts.new result }
    ensures most { result ≤ length ranked.now.texts.items }
{
    for rank in 0..ranked.texts.len() {
        let text = ranked.texts[rank];
        if ranked.common[rank] >= text.len()
            || !uses.are_unused(text.start as usize + 1, text.end as usize)
        {
            return rank;
        }
        let host = ranked.host_ranks[rank];
        let len = ranked.texts[host as usize].len();
        let before = len - text.len();
        in_hosts[uses.number(text.start as usize)] = InHost { host, before, len };
    }
    ranked.texts.len()
}

/// The host of each used offset, indexed by the offset's number.
fn find_hosts<A: Allocator + Copy>(
    alloc: A,
    uses: &UsedOffsets<A>,
    ranked: &RankedTexts<'_, A>,
) -> Result<Vec<InHost, A>, AllocError>
    requires { spec.IsRankedFor uses.now ranked.now }
    ensures { IfOk result (λ in_hosts. spec.FindsHosts uses.now ranked.now in_hosts.items) }
{
    let mut in_hosts = vec![in alloc; InHost::default(); uses.count()]?;
    let alone = find_alone(uses, ranked, &mut in_hosts);
    if alone == ranked.texts.len() {
        return Ok(in_hosts);
    }
    let lower = lower_ranks(alloc, &ranked.common)?;
    for rank in alone..ranked.texts.len() {
        find_within(uses, ranked, &lower, rank, &mut in_hosts);
    }
    Ok(in_hosts)
}

/// Consecutive strings of a section, each with its NUL: the offset of the first string, and that of
/// the NUL of the last. If all strings of a file are hosts, in the order of first use, the table is
/// one span and is copied at once.
#[derive(Clone, Copy)]
struct Span {
    start: u32,
    end: u32,
}

/// The table of hosts: a NUL, then each host with its NUL.
#[derive(Drop)]
struct HostOffsets<A: Allocator> {
    /// The offset in the table of the string with each rank, or 0 if not assigned yet.
    by_rank: Vec<u32, A>,
    /// The hosts as spans of the section, in the order of the table.
    spans: Vec<Span, A>,
    /// The length of the table in bytes.
    len: u32,
}

/// Appends a string of the section. If it directly follows the last span in the section, that span
/// is extended.
fn push_text<A: Allocator>(spans: &mut Vec<Span, A>, text: Span) -> Result<(), AllocError>
    ensures { OnOk result (host.AddsText spans.old.items spans.new.items text) }
{
    if let Some(last) = spans.last_mut() {
        if last.end < text.start && text.start - last.end == 1 {
            last.end = text.end;
            return Ok(());
        }
    }
    spans.push(text)?;
    Ok(())
}

/// Assigns an offset in the table to each host, in the order of first use. A used name that is its
/// own host is appended to the table, unless its string is already present.
fn offset_hosts<A: Allocator + Copy>(
    alloc: A,
    uses: &UsedOffsets<A>,
    in_hosts: &[InHost],
    ranked: &RankedTexts<'_, A>,
) -> Result<HostOffsets<A>, AllocError>
    requires texts { spec.IsRankedFor uses.now ranked.now }
    requires ends { HasNulEnds ranked.now.section.now }
    requires whole { length in_hosts.now ≡ used_count uses.now }
    requires in_hosts { host.HaveTheirHosts uses.now ranked.now in_hosts.now }
    requires capacity { length (shared_table (host.names_in ranked.now uses.now)) < 2 ^ 32 }
    ensures { IfOk result (host.AreOffsetsOf uses.now ranked.now) }
{
    let offsets = uses.offsets();
    let mut by_rank = vec![in alloc; 0; ranked.texts.len()]?;
    let mut spans = Vec::new(alloc);
    let mut len = 1;
    for k in 0..offsets.len() {
        let off = offsets[k];
        let at = in_hosts[uses.number(off as usize)];
        let host = at.host as usize;
        if at.len == 0 || at.before != 0 || by_rank[host] != 0 {
            continue;
        }
        let end = off + at.len;
        push_text(&mut spans, Span { start: off, end })?;
        by_rank[host] = len;
        len += at.len + 1;
    }
    Ok(HostOffsets {
        by_rank,
        spans,
        len,
    })
}

/// The new offsets of the names of a string section, in the table in which they share suffixes.
#[derive(Drop)]
pub(crate) struct SharedOffsets<'a, A: Allocator> {
    strings: &'a [u8],
    used: UsedOffsets<A>,
    /// The new offset of the name at each used offset, by the offset's number.
    text_offsets: Vec<u32, A>,
    /// The hosts in the order of the table.
    spans: Vec<Span, A>,
    table_len: u32,
}

impl<'a, A: Allocator> Model for SharedOffsets<'a, A> {
    ghost use Rattle.bpf_canon.specs.btf.strings.{NamesByOffset.NamesByOffset, HostOffsets.ArePlaced};

    ghost Value = { NamesByOffset };

    ghost view = { λ p. record { strings = p.strings.now; offsets = p.used.offsets } };

    ghost invariant = { λ p. ArePlaced p.strings.now p.used p.text_offsets.items p.spans.items
        p.table_len };
}

/// The new offset for each used offset: that of its host plus the number of bytes of the host
/// before the name, or 0 for the empty name. It is computed once for each name and not at each use,
/// and kept in 4 bytes, where `InHost` has 12.
fn new_name_offsets<A: Allocator>(
    alloc: A,
    in_hosts: &[InHost],
    by_rank: &[u32],
) -> Result<Vec<u32, A>, AllocError>
    requires ranked { All (λ at. 0 < at.len → at.host < length by_rank.now) in_hosts.now }
    requires fits { All (λ at. new_name_offset by_rank.now at < 2 ^ 32) in_hosts.now }
    ensures { IfOk result (λ offsets.
        offsets.items ≡ map (new_name_offset by_rank.now) in_hosts.now) }
{
    let mut text_offsets = Vec::with_capacity(alloc, in_hosts.len())?;
    for at in in_hosts {
        text_offsets.push(if at.len == 0 {
            0
        } else {
            by_rank[at.host as usize] + at.before
        })?;
    }
    Ok(text_offsets)
}

impl<'a, A: Allocator + Copy> SharedOffsets<'a, A> {
    /// Computes the new offsets of the names that are used in this section.
    pub(crate) fn find(alloc: A, uses: FirstUses<'a, A>) -> Result<SharedOffsets<'a, A>, AllocError>
        requires ends { HasNulEnds uses.strings }
        requires few { length uses.strings < 2 ^ 32 }
        requires capacity { length (shared_table (map (text_from uses.strings) uses.offsets))
            < 2 ^ 32 }
        ensures strings { IfOk result (λ p. p.strings ≡ uses.entry.strings) }
        ensures offsets { IfOk result (λ p. p.offsets ≡ uses.entry.offsets) }
    {
        let strings = uses.strings;
        let used = UsedOffsets::new(alloc, uses)?;
        let texts = longest_texts(alloc, strings, &used)?;
        let ranked = RankedTexts::new(alloc, strings, texts)?;
        let in_hosts = find_hosts(alloc, &used, &ranked)?;
        let host_offsets = offset_hosts(alloc, &used, &in_hosts, &ranked)?;
        drop(ranked);
        let text_offsets = new_name_offsets(alloc, &in_hosts, &host_offsets.by_rank)?;
        let HostOffsets { spans, len, .. } = host_offsets;
        Ok(SharedOffsets {
            strings,
            used,
            text_offsets,
            spans,
            table_len: len,
        })
    }
}

impl<A: Allocator> NewOffsets for SharedOffsets<'_, A> {
    ghost names = { λ p. p };

    ghost offset_of = { λ p. shared_offset (texts_by_offset p) };

    /// The index is the number of the offset, which needs two loads and a count of bits, and no
    /// search.
    fn new_offset(&self, off: u32) -> u32 {
        self.text_offsets[self.used.number(off as usize)]
    }
}

impl<A: Allocator> SharedOffsets<'_, A> {
    /// The length of the table in bytes.
    pub(crate) fn table_len(&self) -> u32
        ensures { result ≡ length (shared_table (texts_by_offset self.now)) }
    {
        self.table_len
    }

    /// Appends the table: NUL, then each host with its NUL.
    #[tactic(auto, using(crate::proofs::BtfLemmas::Strings::TableSpans::table_more))]
    pub(crate) fn push_table<B: Allocator>(&self, out: &mut Vec<u8, B>) -> Result<(), AllocError>
        ensures { OnOk result (out.new.items
            ≡ out.old.items ++ shared_table (texts_by_offset self.now)) }
    {
        out.push(0)?;
        for span in &self.spans {
            out.extend_from_slice(&self.strings[span.start as usize..span.end as usize + 1])?;
        }
        Ok(())
    }
}
