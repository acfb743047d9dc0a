//! Order of strings by their reversed bytes, which both algorithms for the string table use. In
//! this order a string comes directly before those that end with it.
//!
//! Eight bytes are compared at once, as one number. The last byte of a string is the most
//! significant one of its key, so the order of keys is that of reversed strings. The missing bytes
//! of a shorter string count as 0. No byte is less, so a string never comes after one that ends
//! with it; if the keys are equal too, the lengths decide.

ghost use Rattle.std.specs.Prelude.{◌≡◌, ◌<◌, ℕ, slice_index_or};
ghost use Rattle.btf_types.specs.strings.SharedNames.{suffix_cmp};
ghost use Rattle.bpf_canon.specs.btf.strings.SuffixKeys as spec;

use std::cmp::Ordering;

/// The last eight bytes as a number, the last byte the most significant. Missing bytes count as 0.
#[tactic(auto, using(crate::proofs::BtfLemmas::Strings::SuffixKeys::key_steps))]
pub(crate) fn suffix_key(text: &[u8]) -> u64
    ensures key { result ≡ spec.suffix_key text.now }
    ensures bytes { (i : ℕ) → slice_index_or text.now i 0 < 256 }
{
    if let Some(last) = text.last_chunk::<8>() {
        return u64::from_le_bytes(*last);
    }
    let mut last = [0; 8];
    last[8 - text.len()..].copy_from_slice(text);
    u64::from_le_bytes(last)
}

/// Compares two strings by their reversed bytes, eight at a time.
pub(crate) fn compare_from_end(a: &[u8], b: &[u8]) -> Ordering
    ensures { result ≡ suffix_cmp a.now b.now }
{
    let (mut first, mut second) = (a, b);
    'ends: while 8 <= first.len() && 8 <= second.len() {
        let (x, y) = (suffix_key(first), suffix_key(second));
        if x != y {
            return x.cmp(&y);
        }
        first = &first[..first.len() - 8];
        second = &second[..second.len() - 8];
    }
    let (x, y) = (suffix_key(first), suffix_key(second));
    if x != y {
        return x.cmp(&y);
    }
    first.len().cmp(&second.len())
}
