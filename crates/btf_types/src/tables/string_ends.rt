//! Finds the end of a string in the string section (btf.rst section 2.1). A string runs from any
//! offset, even inside another string, to the next NUL.
//!
//! Most strings are short, so the next 128 bytes are searched first, by memchr, which compares many
//! bytes at once. If the end isn't there, the string is long. Any number of names may be suffixes
//! of one long string, and each would cost a search in proportion to its length. Therefore the ends
//! of long strings are stored in ascending order, and found by a binary search. To store those of
//! short strings too would cost four bytes for each, and a binary search for each name.

ghost use Rattle.std.specs.Prelude.{◌≡◌, ◌≢◌, ◌<◌, ◌^◌, ◌≤◌, ◌+◌, ℕ, MatchOption};
ghost use Rattle.std.specs.Prelude.{OnOk, length, take, drop, slice_index};
ghost use Rattle.btf_raw.specs.{Header.HasNulEnds, Names.IsEnd};
ghost use Rattle.btf_types.specs.tables.StringEnds.{AreLongEnds};

use btf_raw::text_end;
use memchr::memchr;
use std::alloc::{AllocError, Allocator};

/// The number of bytes that are searched at once for long strings. A 128-byte string contains
/// at least one complete block.
const BLOCK: usize = 64;

/// The number of bytes from an offset on that are searched for the end.
const NEAR: usize = 128;

/// The offset of the first NUL in `off..to`, if there is one.
fn nul_between(strings: &[u8], off: usize, to: usize) -> Option<usize>
    requires order { off ≤ to }
    requires inside { to ≤ length strings.now }
    ensures { MatchOption result ((i : ℕ) → off ≤ i → i < to
        → slice_index strings.now i ≢ 0) (λ end. IsEnd strings.now off end × (end < to)) }
{
    memchr(0, &strings[off..to]).map(|len| off + len)
}

/// Appends the offsets of the ends of all strings of at least 128 bytes.
#[tactic(auto, using(crate::proofs::StringLemmas::LongEnds::none_yet))]
pub fn push_long_ends<A: Allocator>(out: &mut Vec<u32, A>, strings: &[u8]) -> Result<(), AllocError>
    requires ends { HasNulEnds strings.now }
    requires capacity { length strings.now < 2 ^ 32 }
    ensures kept { OnOk result (take (length out.old.items) out.new.items ≡ out.old.items) }
    ensures ends { OnOk result (AreLongEnds strings.now (drop
        (length out.old.items) out.new.items)) }
{
    let mut at = 0;
    'blocks: while at + BLOCK <= strings.len() {
        match nul_between(strings, at, at + BLOCK) {
            Some(_) => at += BLOCK,
            None => {
                let end = text_end(strings, at);
                out.push(end as u32)?;
                at = end + 1;
            }
        }
    }
    Ok(())
}

/// The offset of the end of the string at `off`. `ends` are the ends of the long strings.
pub fn text_end_with(strings: &[u8], ends: &[u32], off: usize) -> usize
    requires nuls { HasNulEnds strings.now }
    requires ends { AreLongEnds strings.now ends.now }
    requires inside { off < length strings.now }
    ensures { IsEnd strings.now off result }
{
    let near = strings.len().min(off + NEAR);
    if let Some(end) = nul_between(strings, off, near) {
        return end;
    }
    let passed = ends.partition_point(|end| (*end as usize) < off);
    ends[passed] as usize
}
