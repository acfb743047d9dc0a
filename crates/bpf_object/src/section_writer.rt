//! The headers and contents of the sections that are kept, written one after the other (System V ABI,
//! "Sections").

ghost use Rattle.std.specs.Prelude.{◌≡◌, ℕ, ◌+◌, ◌++◌, ◌<◌, ◌^◌, [], ◌∷◌, List, if◌then◌else◌, ◌==◌, length, MatchResult};
ghost use Rattle.bpf_elf.specs.Kinds.{SHT_REL as spec_rel};
ghost use Rattle.bpf_elf.specs.Numbers.{count, names as names_section, order_of};
ghost use Rattle.bpf_elf.specs.Sections as sections;
ghost use Rattle.bpf_elf.specs.Symbols.{is_kept_symbol, symbol_count};
ghost use Rattle.bpf_object.specs.Canonical.{written_section};
ghost use Rattle.bpf_object.specs.Denotes.{result_limit};
ghost use Rattle.bpf_object.specs.File.{WrittenSection};
ghost use Rattle.bpf_object.specs.private.FileWriter.{Holds, FailsToHold, section_of};
ghost use Rattle.bpf_object.specs.Kept.{is_kept_section as spec_is_kept, kept_section, kept_sections, numbers};
ghost use Rattle.bpf_object.specs.private.ObjectWriter as spec;
ghost use Rattle.bpf_object.specs.private.Tables.{kept_content};

use crate::fault::ObjectError;
use crate::file_writer::FileWriter;
use crate::names::Names;
use crate::numbering::{counted, is_kept_section, is_table};
use crate::relocation_rows::push_table;
use crate::symbol_rows::sections_before;
use bpf_elf::{Elf, SectionHeader};
use std::alloc::Allocator;

/// sh_type of a table of relocations.
const SHT_REL: u32 = 9;

/// The new number of the section that a table is for; 0 for code and data.
fn target(elf: &Elf<'_>, before: &[u32], i: usize) -> u32
    requires there { i < count elf.now }
    requires numbers { before.now ≡ numbers (spec_is_kept elf.now) (count elf.now) }
    ensures { result ≡ (kept_section elf.now i).target }
{
    if is_table(elf, i) {
        1 + sections_before(elf, before, elf.section(i).info as usize)
    } else {
        0
    }
}

/// sh_link of a section of this type that is kept: the number of .symtab for tables.
fn link_of(section_type: u32, symtab: u32) -> u32
    ensures { result ≡ if section_type == spec_rel then symtab else 0 }
{
    if section_type == SHT_REL { symtab } else { 0 }
}

/// How many sections are kept. `before` says how many precede each.
pub(crate) fn kept_count(elf: &Elf<'_>, before: &[u32]) -> u32
    requires { before.now ≡ numbers (spec_is_kept elf.now) (count elf.now) }
    ensures value { result ≡ length (kept_sections elf.now) }
    ensures small { result < 2 ^ 16 }
{
    let last = elf.section_count() - 1;
    counted(
        sections_before(elf, before, last),
        is_kept_section(elf, last),
    )
}

/// The header of a section that is kept, with its new name and numbers.
fn new_header(
    elf: &Elf<'_>,
    before: &[u32],
    i: usize,
    name_offset: u32,
    symtab: u32,
) -> SectionHeader
    requires there { i < count elf.now }
    requires numbers { before.now ≡ numbers (spec_is_kept elf.now) (count elf.now) }
    ensures { (place : List ℕ → ℕ) → name_offset ≡ place (sections.name elf.now i)
        → section_of result (kept_content elf.now i)
        ≡ written_section (order_of elf.now) place symtab (kept_section elf.now i) }
{
    let section = elf.section(i);
    SectionHeader {
        name_offset,
        link: link_of(section.section_type, symtab),
        info: target(elf, before, i),
        ..section
    }
}

/// Appends a section with its content.
fn push_content<A: Allocator + Copy>(
    alloc: A,
    file: &mut FileWriter<A>,
    elf: &Elf<'_>,
    symbols: &[u32],
    i: usize,
    header: &SectionHeader,
) -> Result<(), ObjectError>
    requires there { i < count elf.now }
    requires numbers { symbols.now ≡ numbers (is_kept_symbol elf.now) (symbol_count elf.now) }
    ensures { (limit : ℕ) (ss : List WrittenSection) → Holds limit ss file.old
        → let more = ss ++ section_of header.now (kept_content elf.now i) ∷ [] in
        MatchResult result (λ _. Holds limit more file.new × (file.new.order ≡ file.old.order))
        (FailsToHold limit more) }
{
    if is_table(elf, i) {
        let mut rows = Vec::new(alloc);
        push_table(&mut rows, elf, symbols, i)?;
        file.push(header, &rows)
    } else {
        file.push(header, elf.content(i))
    }
}

/// Appends a section that is kept.
fn push_section<'a, A: Allocator + Copy>(
    alloc: A,
    file: &mut FileWriter<A>,
    names: &mut Names<'a, A>,
    elf: &Elf<'_>,
    before: &[u32],
    symbols: &[u32],
    symtab: u32,
    i: usize,
) -> Result<(), ObjectError>
    requires there { i < count elf.now }
    requires before { before.now ≡ numbers (spec_is_kept elf.now) (count elf.now) }
    requires numbers { symbols.now ≡ numbers (is_kept_symbol elf.now) (symbol_count elf.now) }
    requires source { names.old.source ≡ sections.content elf.now (names_section elf.now) }
    requires limit { names.old.limit ≡ result_limit (length elf.now) }
    ensures { spec.Writes (result_limit (length elf.now)) (sections.name elf.now i ∷ [])
        (λ place. written_section (order_of elf.now) place symtab (kept_section elf.now i) ∷ [])
        names.old names.new file.old file.new result }
{
    let section = elf.section(i);
    let name_offset = names.at(section.name_offset)?;
    let header = new_header(elf, before, i, name_offset, symtab);
    push_content(alloc, file, elf, symbols, i, &header)
}

/// Appends a section, if it is kept.
fn push_if_kept<'a, A: Allocator + Copy>(
    alloc: A,
    file: &mut FileWriter<A>,
    names: &mut Names<'a, A>,
    elf: &Elf<'_>,
    before: &[u32],
    symbols: &[u32],
    symtab: u32,
    i: usize,
) -> Result<(), ObjectError>
    requires there { i < count elf.now }
    requires before { before.now ≡ numbers (spec_is_kept elf.now) (count elf.now) }
    requires numbers { symbols.now ≡ numbers (is_kept_symbol elf.now) (symbol_count elf.now) }
    requires source { names.old.source ≡ sections.content elf.now (names_section elf.now) }
    requires limit { names.old.limit ≡ result_limit (length elf.now) }
    ensures { spec.Writes (result_limit (length elf.now)) (spec.name_if elf.now i)
        (spec.written_if elf.now symtab i)
        names.old names.new file.old file.new result }
{
    if !is_kept_section(elf, i) {
        return Ok(());
    }
    push_section(alloc, file, names, elf, before, symbols, symtab, i)
}

/// Appends the sections that are kept.
pub(crate) fn push_sections<'a, A: Allocator + Copy>(
    alloc: A,
    file: &mut FileWriter<A>,
    names: &mut Names<'a, A>,
    elf: &Elf<'_>,
    before: &[u32],
    symbols: &[u32],
    symtab: u32,
) -> Result<(), ObjectError>
    requires before { before.now ≡ numbers (spec_is_kept elf.now) (count elf.now) }
    requires numbers { symbols.now ≡ numbers (is_kept_symbol elf.now) (symbol_count elf.now) }
    requires source { names.old.source ≡ sections.content elf.now (names_section elf.now) }
    requires limit { names.old.limit ≡ result_limit (length elf.now) }
    ensures { spec.Writes (result_limit (length elf.now))
        (spec.section_names elf.now (count elf.now))
        (spec.written_first elf.now symtab (count elf.now))
        names.old names.new file.old file.new result }
{
    for i in 0..elf.section_count() {
        push_if_kept(alloc, file, names, elf, before, symbols, symtab, i)?;
    }
    Ok(())
}
