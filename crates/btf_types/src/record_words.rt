//! The 32-bit words of a record in the type section (btf.rst section 2.2).

ghost use Rattle.std.specs.Prelude.{◌≡◌, ◌+◌, ◌*◌, ◌<◌, ◌≤◌, IsTrue, length, slice_index};
ghost use Rattle.btf_types.specs.{Reading.frame_at, checks.RecordFaults.BitFieldsAre};
ghost use Rattle.btf_raw.specs.Frames as frames;
ghost use Rattle.btf_raw.specs.Kinds as kinds;

use bpf_words::{Order, get32};
use btf_raw::info::{flag_of, is_struct, kind_of, tail_words, vlen_of};
use std::marker::Model;

/// A complete record of a type section. Its 32-bit words are decoded from the section when they are
/// needed.
#[derive(Drop)]
pub struct Record<'a> {
    order: Order,
    types: &'a [u8],
    /// The offset of the record, in bytes from the start of `types`.
    pos: usize,
    /// The info field, which is the second one.
    info: u32,
}

impl<'a> Model for Record<'a> {
    ghost use Rattle.std.specs.Prelude.{ℕ, List};
    ghost use Rattle.btf_types.specs.{Reading.frame_at, RecordWords.AreWordsAt};

    ghost Value = { List ℕ };

    ghost view = { λ r. frame_at r.order r.types.now r.pos };

    ghost invariant = { λ r. AreWordsAt r.order r.types.now r.pos r.info };
}

#[tactic(auto, using(crate::proofs::CheckLemmas::FramingSteps::words_of_frame))]
impl<'a> Record<'a> {
    /// The record at the offset `pos` of the types.
    pub(crate) fn at(order: Order, types: &'a [u8], pos: usize) -> Record<'a>
        requires { pos + 4 * length (frame_at order types.now pos) ≤ length types.now }
        ensures { result ≡ frame_at order types.now pos }
    {
        Record {
            order,
            types,
            pos,
            info: get32(order, types, pos + 4),
        }
    }

    /// Word `j`, counted from 0. The record must have that many words: the first three, then what
    /// its kind and vlen determine (`btf_raw`'s `tail_words`).
    #[inline(always)]
    pub fn word(&self, j: usize) -> u32
        requires { j < length self.now }
        ensures { result ≡ slice_index self.now j }
    {
        get32(self.order, self.types, self.pos + 4 * j)
    }

    /// Word `j`, counted from 0, or 0 if the record has no such word.
    pub(crate) fn word_or_zero(&self, j: usize) -> u32
        ensures { result ≡ slice_index self.now j }
    {
        if j < self.word_count() {
            self.word(j)
        } else {
            0
        }
    }

    /// The number of words: three, and those that its kind and vlen determine.
    pub fn word_count(&self) -> usize
        ensures { result ≡ length self.now }
    {
        3 + tail_words(kind_of(self.info), vlen_of(self.info))
    }

    /// The kind: bits 24 to 28 of the info field.
    #[inline(always)]
    pub fn kind(&self) -> u8
        ensures { result ≡ frames.kind self.now }
    {
        kind_of(self.info)
    }

    /// The vlen: bits 0 to 15 of the info field. It is the number of items, or the linkage of a
    /// FUNC.
    #[inline(always)]
    pub fn vlen(&self) -> u16
        ensures { result ≡ frames.vlen self.now }
    {
        vlen_of(self.info)
    }

    /// kind_flag: bit 31 of the info field, 0 or 1.
    #[inline(always)]
    pub fn kind_flag(&self) -> u32
        ensures { result ≡ frames.flag self.now }
    {
        flag_of(self.info)
    }

    /// Whether the record has a bit-field (btf.rst section 2.2.4): it is a STRUCT or UNION, its
    /// kind_flag is 1, and the width of some member, the high 8 bits of its offset field, isn't 0.
    #[tactic(auto, using(crate::proofs::CheckLemmas::BitSteps::widths))]
    pub fn has_bit_fields(&self) -> bool
        requires { frames.IsFrame self.now }
        ensures { BitFieldsAre self.now result }
    {
        if !is_struct(self.kind()) {
            return false;
        }
        self.has_widths()
    }

    /// Likewise for a record that is a STRUCT or UNION.
    #[tactic(auto, using(crate::proofs::CheckLemmas::BitSteps::widths))]
    pub(crate) fn has_widths(&self) -> bool
        requires frame { frames.IsFrame self.now }
        requires kind { IsTrue (kinds.is_struct (frames.kind self.now)) }
        ensures { BitFieldsAre self.now result }
    {
        if self.kind_flag() == 0 {
            return false;
        }
        for k in 0..usize::from(self.vlen()) {
            if self.word(5 + 3 * k) >> 24 != 0 {
                return true;
            }
        }
        false
    }
}
