//! An object file that is accepted, as a value: its sections and symbols, and the source lines of
//! its instructions.

ghost use Rattle.std.specs.Prelude.{◌≡◌, true, None, IfOk, IfErr, MatchOption, MatchResult, option_map};
ghost use Rattle.bpf_words.specs.Words.{word32_at};
ghost use Rattle.btf_raw.specs.Header.{part, strings_at};
ghost use Rattle.bpf_elf.specs.Names.{is_closed};
ghost use Rattle.bpf_object.specs.private.AcceptedFacts.{IsAccepted, HasStringTable, IsGroupIn};
ghost use Rattle.bpf_object.specs.Denotes.{Denotes, extension_at};
ghost use Rattle.bpf_object.specs.ObjectFaults.{Fails};
ghost use Rattle.bpf_object.specs.Objects.{Object};
ghost use Rattle.bpf_object.specs.SourceLines as spec;
ghost use Rattle.bpf_object.specs.SourceLines.{line_value};
ghost use Rattle.bpf_object.specs.Sources as sources;

use crate::canon::{canon_object, own_extension};
use crate::extension::Part;
use crate::fault::ObjectError;
use crate::section_groups::{SectionGroup, group_of};
use crate::source::Source;
use crate::source_lines::{SourceLine, line_in};
use bpf_elf::{Elf, Kind};
use bpf_words::{Order, get32};
use std::alloc::Allocator;
use std::marker::Model;

/// An object file that [`canon_object`] accepts. It borrows the bytes of the file, and in contracts
/// it is these bytes. Sections are numbered from 0, as in the file.
#[derive(Drop)]
pub struct AcceptedObject<'a> {
    elf: Elf<'a>,
}

impl<'a> Model for AcceptedObject<'a> {
    ghost use Rattle.std.specs.Prelude.{ℕ, List};
    ghost use Rattle.bpf_object.specs.private.AcceptedFacts.{IsAccepted};

    ghost Value = { List ℕ };

    ghost view = { λ o. o.elf };

    ghost invariant = { λ o. IsAccepted o.elf };
}

/// The strings of a .BTF that keeps its rules.
fn strings_in(order: Order, types: &[u8]) -> &[u8]
    requires { HasStringTable order types.now }
    ensures value { result.now
        ≡ part types.now (strings_at order types.now) (word32_at order types.now 20) }
    ensures closed { is_closed result.now ≡ true }
{
    let start = get32(order, types, 4) as usize + get32(order, types, 16) as usize;
    &types[start..start + get32(order, types, 20) as usize]
}

/// A file that has a canonical one.
fn accept<A: Allocator + Copy>(alloc: A, bytes: &[u8]) -> Result<AcceptedObject<'_>, ObjectError>
    ensures { MatchResult result
        (λ object. (object ≡ bytes.now) × IsAccepted bytes.now)
        (Fails bytes.now) }
{
    let elf = Elf::read(bytes)?;
    canon_object(alloc, bytes)?;
    Ok(AcceptedObject { elf })
}

impl<'a> AcceptedObject<'a> {
    /// Checks a file by all rules (docs/OBJECTS.md, "Refused files"). Its canonical file is written to
    /// see that it isn't too large, and not kept.
    ///
    /// # Errors
    ///
    /// Those of [`canon_object`], which accepts the same files.
    pub fn read<A: Allocator + Copy>(
        alloc: A,
        bytes: &'a [u8],
    ) -> Result<AcceptedObject<'a>, ObjectError>
        ensures found { IfOk result (λ object. (object ≡ bytes.now)
            × ((x : Object) × Denotes bytes.now x)) }
        ensures all { (x : Object) → Denotes bytes.now x → MatchResult result
            (λ object. object ≡ bytes.now) (λ e. e ≡ ObjectError.Memory) }
        ensures fault { IfErr result (Fails bytes.now) }
    {
        accept(alloc, bytes)
    }

    /// The sections, symbols and relocations of the file.
    pub fn elf(&self) -> &Elf<'a>
        ensures value { result.now ≡ self.now }
        ensures accepted { (x : Object) × Denotes self.now x }
    {
        &self.elf
    }

    /// .BTF.ext, if there is one.
    fn extension(&self) -> Option<Source<'_>>
        ensures { MatchOption result (extension_at self.now ≡ 0)
            (λ x. (sources.section x ≡ spec.extension self.now) × sources.HasParts x) }
    {
        if self.elf.section_of(Kind::Extension) == 0 {
            return None;
        }
        let types = self.elf.content(self.elf.section_of(Kind::Types));
        let strings = strings_in(self.elf.order(), types);
        Some(own_extension(&self.elf, strings))
    }

    /// The group that a part of .BTF.ext has for a section, if there is one.
    fn group_in(&self, part: Part, section: usize) -> Option<SectionGroup<'_>>
        ensures { MatchOption result (spec.group_in self.now part section ≡ None)
            (IsGroupIn self.now part section) }
    {
        if section >= self.elf.section_count() {
            return None;
        }
        let source = self.extension()?;
        let Some(start) = group_of(source, part, self.elf.name(section)) else {
            return None;
        };
        Some(SectionGroup { source, start })
    }

    /// The source line of an instruction (Linux Documentation/bpf/btf.rst, "4.2 .BTF.ext section").
    ///
    /// `offset` is in bytes from the start of the section. The line is that of the last record whose
    /// insn_off isn't greater, in the first group of source lines that has the name of the section.
    ///
    /// `None` if there is no such section, no .BTF.ext, no group for the section or no such record, or
    /// if the record's file_name_off is outside the strings of .BTF.
    pub fn source_line(&self, section: usize, offset: u64) -> Option<SourceLine<'_>>
        ensures { option_map line_value result ≡ spec.source_line self.now section offset }
    {
        let group = self.group_in(Part::Lines, section)?;
        line_in(group.source, offset, group.start)
    }
}
