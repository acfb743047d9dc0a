//! The used offsets of a string section: the distinct offsets at which names begin, in the order of
//! first use, and their numbers in ascending order.
//!
//! Names are told apart by their offsets, so their bytes aren't looked at here; equal strings at
//! two offsets are found later, by their ranks. A bit for each byte of the section marks the
//! offsets in use. The number of an offset is a stored count for its 64-bit element plus a count of
//! bits. So what is known of a name is kept in a vector with an element for each used offset, which
//! is found without a search or a hash, and is shorter than one with an element for each byte of
//! the section.

ghost use Rattle.std.specs.Prelude.{◌≡◌, ◌≢◌, ◌/◌, ◌<◌, ◌≤◌, ◌^◌, ℕ, true, false, length};
ghost use Rattle.std.specs.Prelude.{slice_index, IfOk, OnOk};
ghost use Rattle.bpf_canon.specs.btf.strings.FirstUses.{AreMarked, mark_of, noted, nothing_noted};
ghost use Rattle.bpf_canon.specs.btf.strings.UsedOffsets as spec;

use std::alloc::{AllocError, Allocator};
use std::marker::Model;

/// The distinct offsets of a string section at which names begin, in the order of first use.
///
/// A bit set with one bit for each byte of the section, in `u64` elements, lowest bit first, so
/// that little memory is cleared and touched.
#[derive(Drop)]
pub struct FirstUses<'a, A: Allocator> {
    /// The bytes of the string section.
    pub(crate) strings: &'a [u8],
    /// The bit set.
    pub(crate) marks: Vec<u64, A>,
    /// The offsets whose bits are set, in the order of first use.
    pub(crate) offsets: Vec<u32, A>,
}

impl<'a, A: Allocator> Model for FirstUses<'a, A> {
    ghost use Rattle.std.specs.Prelude.{length};
    ghost use Rattle.bpf_canon.specs.btf.strings.FirstUses.{Noted, HaveMarks};

    ghost Value = { Noted };

    ghost view = { λ f. record { strings = f.strings.now; offsets = f.offsets.items } };

    ghost invariant = { λ f. HaveMarks (length f.strings.now) f.marks.items f.offsets.items };
}

/// Whether the bit of an offset is set.
#[inline(always)]
fn is_marked(marks: &[u64], off: usize) -> bool
    requires { off / 64 < length marks.now }
    ensures yes { result ≡ true → mark_of marks.now off ≢ 0 }
    ensures no { result ≡ false → mark_of marks.now off ≡ 0 }
{
    (marks[off / 64] >> (off % 64)) & 1 != 0
}

impl<'a, A: Allocator + Copy> FirstUses<'a, A> {
    /// Creates an empty set of offsets of this section.
    ///
    /// # Errors
    ///
    /// `AllocError` if an allocation failed.
    #[tactic(auto, using(crate::proofs::BtfLemmas::Strings::MarkSteps::none_marked))]
    pub fn new(alloc: A, strings: &'a [u8]) -> Result<FirstUses<'a, A>, AllocError>
        ensures { IfOk result (λ f. f ≡ nothing_noted strings.now) }
    {
        Ok(FirstUses {
            strings,
            marks: vec![in alloc; 0; strings.len() / 64 + 1]?,
            offsets: Vec::new(alloc),
        })
    }

    /// Notes the offset of a name, which must be inside the section. One that is noted already
    /// keeps its place in the order of first use.
    ///
    /// # Errors
    ///
    /// `AllocError` if an allocation failed. The set of noted offsets is then unspecified.
    #[tactic(auto, using(crate::proofs::BtfLemmas::Strings::MarkSteps::note_cases))]
    pub fn note(&mut self, off: u32) -> Result<(), AllocError>
        requires { off < length self.old.strings }
        ensures strings { self.new.strings ≡ self.old.strings }
        ensures offsets { OnOk result (self.new.offsets ≡ noted self.old.offsets off) }
    {
        let at = off as usize;
        if !is_marked(&self.marks, at) {
            self.offsets.push(off)?;
            self.marks[at / 64] |= 1u64 << (at % 64);
        }
        Ok(())
    }
}

/// The used offsets of a section in the order of first use, and the number of each in ascending
/// order. No offset can be added, since the numbers of others would change.
///
/// It needs one bit for each byte of the section, four bytes for each 64 of them, and four bytes
/// for each used offset.
#[derive(Drop)]
pub(crate) struct UsedOffsets<A: Allocator> {
    section_len: usize,
    marks: Vec<u64, A>,
    offsets: Vec<u32, A>,
    /// For each 64-bit element of the bit set, the number of used offsets before it.
    before: Vec<u32, A>,
}

impl<A: Allocator> Model for UsedOffsets<A> {
    ghost use Rattle.bpf_canon.specs.btf.strings.FirstUses.{slots_of};
    ghost use Rattle.bpf_canon.specs.btf.strings.UsedOffsets.{Used, AreNumbered};

    ghost Value = { Used };

    ghost view = { λ u. record {
      offsets = u.offsets.items;
      slots = slots_of u.marks.items u.section_len;
    } };

    ghost invariant = { λ u. AreNumbered u.section_len u.marks.items u.offsets.items
        u.before.items };
}

#[tactic(auto, using(crate::proofs::BtfLemmas::Strings::MarkSteps::marks))]
impl<A: Allocator> UsedOffsets<A> {
    /// Numbers the noted offsets of a section.
    #[tactic(auto, using(crate::proofs::BtfLemmas::Strings::MarkSteps::counts))]
    pub(crate) fn new(alloc: A, uses: FirstUses<'_, A>) -> Result<UsedOffsets<A>, AllocError>
        requires { length uses.strings < 2 ^ 32 }
        ensures offsets { IfOk result (λ u. u.offsets ≡ uses.entry.offsets) }
        ensures section { IfOk result (λ u. length u.slots
            ≡ length uses.entry.strings) }
        ensures marked { IfOk result (λ u. AreMarked u.offsets u.slots) }
    {
        let FirstUses {
            strings,
            marks,
            offsets,
        } = uses;
        let section_len = strings.len();
        let words = section_len / 64;
        let mut before = Vec::with_capacity(alloc, words + 1)?;
        let mut count = 0u32;
        before.push(count)?;
        for word in 0..words {
            let bits = marks[word];
            count += bits.count_ones();
            before.push(count)?;
        }
        Ok(UsedOffsets {
            section_len,
            marks,
            offsets,
            before,
        })
    }

    /// The distinct used offsets, in the order of first use.
    pub(crate) fn offsets(&self) -> &[u32]
        ensures { result.now ≡ self.now.offsets }
    {
        &self.offsets
    }

    /// Whether an offset is used.
    pub(crate) fn is_used(&self, off: usize) -> bool
        requires { off < length self.now.slots }
        ensures yes { result ≡ true → slice_index self.now.slots off ≢ 0 }
        ensures no { result ≡ false → slice_index self.now.slots off ≡ 0 }
    {
        is_marked(&self.marks, off)
    }

    /// Whether none of the offsets from `start` up to `end` is used: the number of used offsets
    /// before both is the same.
    pub(crate) fn are_unused(&self, start: usize, end: usize) -> bool
        requires order { start ≤ end }
        requires inside { end ≤ length self.now.slots }
        ensures yes { result ≡ true → (off : ℕ) → start ≤ off → off < end
            → slice_index self.now.slots off ≡ 0 }
        ensures no { result ≡ false
            → ¬ ((off : ℕ) → start ≤ off → off < end → slice_index self.now.slots off ≡ 0) }
    {
        self.used_before(start) == self.used_before(end)
    }

    /// The number of used offsets before this one.
    fn used_before(&self, off: usize) -> usize
        requires { off ≤ length self.now.slots }
        ensures { result ≡ spec.number_of self.now off }
    {
        let lower = self.marks[off / 64] & ((1u64 << (off % 64)) - 1);
        self.before[off / 64] as usize + lower.count_ones() as usize
    }

    /// The number of a used offset: how many smaller offsets are used.
    #[tactic(auto, using(crate::proofs::BtfLemmas::Strings::UsedSteps::used_numbers))]
    pub(crate) fn number(&self, off: usize) -> usize
        requires { slice_index self.now.slots off ≢ 0 }
        ensures number { result ≡ spec.number_of self.now off }
        ensures below { result < spec.used_count self.now }
    {
        self.used_before(off)
    }

    /// The number of used offsets.
    pub(crate) fn count(&self) -> usize
        ensures { result ≡ spec.used_count self.now }
    {
        self.used_before(self.section_len)
    }
}
