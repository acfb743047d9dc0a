//! The sections of a file whose framing is valid, and what the checks of one record need of
//! another. This is read at the other record's offset, so a reference may point forward.
//!
//! A file whose fields have been checked reads its records by `FileSections`.

ghost use Rattle.std.specs.Prelude.{◌≡◌, MatchOption};
ghost use Rattle.btf_raw.specs.Frames.{IsFrame};
ghost use Rattle.btf_types.specs.checks.{Numbers.no_type, Numbers.type_at, FieldFaults.frame_facts};
ghost use Rattle.btf_types.specs.Sections.{facts_in};

use crate::record_words::Record;
use bpf_words::Order;
use std::marker::Model;

/// The two sections of a file, and what is known before the fields are checked.
#[derive(Drop)]
pub struct Section<'a, 'm> {
    pub order: Order,
    /// The bytes of the type section.
    pub types: &'a [u8],
    /// The bytes of the string section.
    pub strings: &'a [u8],
    /// The offset of each record, in bytes from the start of `types`.
    pub offsets: &'a [u32],
    /// For each byte of the string section, whether the string that begins there is UTF-8; `None`
    /// if all of the section is.
    pub marks: Option<&'m [bool]>,
}

impl<'a, 'm> Model for Section<'a, 'm> {
    ghost use Rattle.btf_types.specs.Sections.{SectionWords};

    ghost Value = { SectionWords };

    ghost use Rattle.btf_types.specs.checks.SectionParts.{words_in, IsSection};

    ghost view = { words_in };

    ghost invariant = { IsSection };
}

impl<'a> Section<'a, '_> {
    /// The record of the type with this ID, or `None` for void and for a type that doesn't exist.
    #[tactic(auto, using(crate::proofs::CheckLemmas::SectionSteps::types_of_section))]
    pub fn record(&self, id: u32) -> Option<Record<'a>>
        ensures { MatchOption result (type_at (facts_in self.now) id ≡ no_type)
            (λ this. IsFrame this × (type_at (facts_in self.now) id ≡ frame_facts this)) }
    {
        if id == 0 || id as usize > self.offsets.len() {
            return None;
        }
        let pos = self.offsets[id as usize - 1] as usize;
        Some(Record::at(self.order, self.types, pos))
    }
}
