//! The offsets of names in a string table in which no two names share bytes, as a canonical object
//! file has it: each distinct string once, in the order of first use.
//!
//! Equal strings at two offsets are found by their bytes, once for each offset, in an ordered map.
//! Whoever writes a file chooses its names, and could make hashes collide. Strings are sorted by
//! their lengths first: those inside one string have different lengths, and may have all bytes of
//! the shorter one in common. They may also need a table of 10^13 bytes, so it ends with the first
//! string that doesn't fit within the limit.

ghost use Rattle.std.specs.Prelude.{◌≡◌, ◌<◌, ◌≤◌, ◌^◌, length, map, IfOk};
ghost use Rattle.std.specs.Prelude.{◌↔◌, IfSome, IsSome, MatchOption};
ghost use Rattle.std.specs.{List.Contains};
ghost use Rattle.btf_raw.specs.Header.{HasNulEnds};
ghost use Rattle.btf_types.specs.Reading.{text_from};
ghost use Rattle.bpf_canon.specs.btf.strings.{FirstUses.AreMarked, NamesByOffset.texts_by_offset};
ghost use Rattle.bpf_canon.specs.btf.strings.DistinctNames.{distinct_table, distinct_offset};
ghost use Rattle.bpf_canon.specs.btf.strings.DistinctOffsets as spec;

use crate::btf::strings::new_name_offsets::NewOffsets;
use crate::btf::strings::used_offsets::{FirstUses, UsedOffsets};
use btf_raw::text_at;
use std::alloc::{AllocError, Allocator};
use std::collections::BTreeMap;
use std::marker::Model;

/// A string table, and the offset in it of the name at each used offset, by the offset's number.
#[derive(Drop)]
struct NameTable<A: Allocator> {
    bytes: Vec<u8, A>,
    text_offsets: Vec<u32, A>,
}

/// The offset of a string in a table. If the table doesn't have it yet, it is appended with its
/// NUL; the result is `None` if the table would then be longer than `limit`.
fn add_text<'a, A: Allocator + Copy>(
    bytes: &mut Vec<u8, A>,
    by_text: &mut BTreeMap<(usize, &'a [u8]), u32, A>,
    text: &'a [u8],
    limit: u32,
) -> Result<Option<u32>, AllocError>
    requires { length bytes.old.items ≤ limit }
    ensures { IfOk result (spec.AddsName bytes.old.items by_text.old bytes.new.items by_text.new
        text.now limit) }
{
    if text.is_empty() {
        return Ok(Some(0));
    }
    let key = (text.len(), text);
    if let Some(text_offset) = by_text.get(&key) {
        return Ok(Some(*text_offset));
    }
    let text_offset = bytes.len() as u32;
    if text.len() >= (limit - text_offset) as usize {
        return Ok(None);
    }
    by_text.insert(key, text_offset)?;
    bytes.extend_from_slice(text)?;
    bytes.push(0)?;
    Ok(Some(text_offset))
}

/// The table of the names at the used offsets, or `None` if it would be longer than `limit`.
fn name_table<A: Allocator + Copy>(
    alloc: A,
    strings: &[u8],
    used: &UsedOffsets<A>,
    limit: u32,
) -> Result<Option<NameTable<A>>, AllocError>
    requires ends { HasNulEnds strings.now }
    requires marked { AreMarked used.now.offsets used.now.slots }
    requires whole { length used.now.slots ≡ length strings.now }
    ensures { IfOk result (λ table. MatchOption table
        (limit < length (distinct_table (map (text_from strings.now) used.now.offsets)))
        (spec.IsTableWithin strings.now used.now limit)) }
{
    if limit == 0 {
        return Ok(None);
    }
    let mut bytes = vec![in alloc; 0; 1]?;
    let mut by_text = BTreeMap::new(alloc);
    let mut text_offsets = vec![in alloc; 0; used.count()]?;
    for off in used.offsets() {
        let text = text_at(strings, *off as usize);
        let Some(text_offset) = add_text(&mut bytes, &mut by_text, text, limit)? else {
            return Ok(None);
        };
        text_offsets[used.number(*off as usize)] = text_offset;
    }
    Ok(Some(NameTable {
        bytes,
        text_offsets,
    }))
}

/// The new offsets of the names of a string section, in a table in which no two names share bytes:
/// a NUL, then each distinct name that isn't empty, in the order of first use, with its NUL.
#[derive(Drop)]
pub struct DistinctOffsets<'a, A: Allocator> {
    strings: &'a [u8],
    used: UsedOffsets<A>,
    text_offsets: Vec<u32, A>,
    table: Vec<u8, A>,
}

impl<'a, A: Allocator> Model for DistinctOffsets<'a, A> {
    ghost use Rattle.bpf_canon.specs.btf.strings.{NamesByOffset.NamesByOffset};
    ghost use Rattle.bpf_canon.specs.btf.strings.{DistinctOffsets.AreDistinct};

    ghost Value = { NamesByOffset };

    ghost view = { λ p. record { strings = p.strings.now; offsets = p.used.offsets } };

    ghost invariant = { λ p. AreDistinct p.strings.now p.used p.text_offsets.items p.table.items };
}

impl<'a, A: Allocator + Copy> DistinctOffsets<'a, A> {
    /// Computes the table of the names at the noted offsets, and the new offset of each. The result
    /// is `None` if the table would be longer than `limit` bytes. The string section of `uses` must
    /// begin and end with a NUL, and have less than 4 GiB.
    ///
    /// # Errors
    ///
    /// `AllocError` if an allocation failed.
    pub fn find(
        alloc: A,
        uses: FirstUses<'a, A>,
        limit: u32,
    ) -> Result<Option<DistinctOffsets<'a, A>>, AllocError>
        requires ends { HasNulEnds uses.strings }
        requires few { length uses.strings < 2 ^ 32 }
        ensures strings { IfOk result (λ found. IfSome found (λ p.
            p.strings ≡ uses.entry.strings)) }
        ensures offsets { IfOk result (λ found. IfSome found (λ p.
            p.offsets ≡ uses.entry.offsets)) }
        ensures within { IfOk result (λ found. IsSome found
            ↔ (length (distinct_table (map (text_from uses.entry.strings) uses.entry.offsets))
            ≤ limit)) }
    {
        let strings = uses.strings;
        let used = UsedOffsets::new(alloc, uses)?;
        let Some(table) = name_table(alloc, strings, &used, limit)? else {
            return Ok(None);
        };
        let NameTable {
            bytes,
            text_offsets,
        } = table;
        Ok(Some(DistinctOffsets {
            strings,
            used,
            text_offsets,
            table: bytes,
        }))
    }
}

impl<A: Allocator> NewOffsets for DistinctOffsets<'_, A> {
    ghost names = { λ p. p };

    ghost offset_of = { λ p. distinct_offset (texts_by_offset p) };

    fn new_offset(&self, off: u32) -> u32 {
        DistinctOffsets::new_offset(self, off)
    }
}

impl<A: Allocator> DistinctOffsets<'_, A> {
    /// The new offset of the name at a noted offset, which is 0 for the empty name. `off` must be
    /// one of the noted offsets.
    pub fn new_offset(&self, off: u32) -> u32
        requires { Contains self.now.offsets off }
        ensures { result
            ≡ distinct_offset (texts_by_offset self.now) (text_from self.now.strings off) }
    {
        self.text_offsets[self.used.number(off as usize)]
    }

    /// The table: NUL, then each distinct name with its NUL.
    pub fn table(&self) -> &[u8]
        ensures value { result.now ≡ distinct_table (texts_by_offset self.now) }
        ensures short { length result.now < 2 ^ 32 }
    {
        &self.table
    }

    /// Returns the table, and frees the memory of all else.
    pub fn into_table(self) -> Vec<u8, A>
        ensures { result.items ≡ distinct_table (texts_by_offset self.entry) }
    {
        self.table
    }
}
