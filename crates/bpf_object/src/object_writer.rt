//! The canonical file of what a file keeps, with these bytes of .BTF and .BTF.ext.

ghost use Rattle.std.specs.Prelude.{◌≡◌, ◌+◌, ◌*◌, ◌<◌, ◌≤◌, ◌^◌, ◌++◌, [], ◌∷◌, List, ℕ, Option, true, length, is_some, MatchResult};
ghost use Rattle.bpf_elf.specs.ElfRules.{IsElf};
ghost use Rattle.bpf_elf.specs.Header.{FILE_LIMIT as spec_limit};
ghost use Rattle.bpf_elf.specs.Kinds.{SHT_PROGBITS as spec_progbits};
ghost use Rattle.bpf_elf.specs.Numbers.{count, flags_of, names as names_section, order_of};
ghost use Rattle.bpf_elf.specs.Sections as sections;
ghost use Rattle.bpf_object.specs.Canonical.{canonical, own_section};
ghost use Rattle.bpf_object.specs.Denotes.{object_of, result_limit as spec_result_limit};
ghost use Rattle.bpf_object.specs.File.{WrittenSection};
ghost use Rattle.bpf_object.specs.private.FileWriter.{Holds, FailsToHold, IsFileOf, section_of};
ghost use Rattle.bpf_object.specs.Kept.{is_kept_section, kept_sections, numbers};
ghost use Rattle.bpf_object.specs.ObjectFaults.{FailsToFit};
ghost use Rattle.bpf_object.specs.Objects.{ObjectTypes};
ghost use Rattle.bpf_object.specs.private.ObjectWriter as spec;
ghost use Rattle.bpf_object.specs.private.Written.{content_of};

use crate::fault::ObjectError;
use crate::file_writer::FileWriter;
use crate::names::Names;
use crate::numbering::{section_numbers, symbol_numbers};
use crate::section_writer::{kept_count, push_sections};
use crate::symbol_rows::{first_global, push_symbols};
use bpf_elf::{Elf, FILE_LIMIT, SectionHeader};
use std::alloc::Allocator;

/// sh_type of sections that are written anew.
const SHT_PROGBITS: u32 = 1;

const SHT_SYMTAB: u32 = 2;

const SHT_STRTAB: u32 = 3;

/// The most bytes of the canonical file: 64 MiB, and four times the file and 64 KiB. Names may share
/// bytes in the file, so that a table of them without shared bytes could be as long as the square.
pub(crate) fn result_limit(elf: &Elf<'_>) -> usize
    ensures value { result ≡ spec_result_limit (length elf.now) }
    ensures small { result ≤ spec_limit }
    ensures some { 65536 ≤ result }
{
    FILE_LIMIT.min(4 * elf.bytes().len() + 65_536)
}

/// The number of .symtab: it follows the kept sections, .BTF and .BTF.ext.
fn symtab_number(
    elf: &Elf<'_>,
    before: &[u32],
    types: Option<&[u8]>,
    extension: Option<&[u8]>,
) -> u32
    requires { before.now ≡ numbers (is_kept_section elf.now) (count elf.now) }
    ensures value { result
        ≡ spec.symtab_of elf.now (content_of types.entry) (content_of extension.entry) }
    ensures small { result < 2 ^ 17 }
{
    let others = u32::from(types.is_some()) + u32::from(extension.is_some());
    1 + kept_count(elf, before) + others
}

/// The header of a section that is written anew.
fn own_header(
    name_offset: u32,
    section_type: u32,
    content: &[u8],
    link: u32,
    info: u32,
    alignment: u64,
    entry_size: u64,
) -> SectionHeader
    ensures { section_of result content.now
        ≡ own_section name_offset section_type content.now link info alignment entry_size }
{
    SectionHeader {
        name_offset,
        section_type,
        flags: 0,
        address: 0,
        offset: 0,
        size: content.len() as u64,
        link,
        info,
        alignment,
        entry_size,
    }
}

/// Appends .BTF or .BTF.ext.
fn push_own<'a, A: Allocator + Copy>(
    file: &mut FileWriter<A>,
    names: &mut Names<'a, A>,
    name: &'a [u8],
    content: &[u8],
) -> Result<(), ObjectError>
    ensures { spec.Writes names.old.limit (name.now ∷ [])
        (λ place. own_section (place name.now) spec_progbits content.now 0 0 4 0 ∷ [])
        names.old names.new file.old file.new result }
{
    let name_offset = names.text(name)?;
    let header = own_header(name_offset, SHT_PROGBITS, content, 0, 0, 4, 0);
    file.push(&header, content)
}

/// Appends .BTF or .BTF.ext, if there is one.
fn push_types<'a, A: Allocator + Copy>(
    file: &mut FileWriter<A>,
    names: &mut Names<'a, A>,
    name: &'a [u8],
    content: Option<&[u8]>,
) -> Result<(), ObjectError>
    ensures { spec.Writes names.old.limit (spec.name_with name.now (content_of content.entry))
        (spec.section_with name.now (content_of content.entry))
        names.old names.new file.old file.new result }
{
    match content {
        Some(content) => push_own(file, names, name, content),
        None => Ok(()),
    }
}

/// Appends .BTF and .BTF.ext, if there are any.
fn push_both<'a, A: Allocator + Copy>(
    file: &mut FileWriter<A>,
    names: &mut Names<'a, A>,
    types: Option<&[u8]>,
    extension: Option<&[u8]>,
) -> Result<(), ObjectError>
    ensures { let types = content_of types.entry in let extension = content_of extension.entry in
        spec.Writes names.old.limit (spec.names_with types extension)
        (spec.both_with types extension) names.old names.new file.old file.new result }
{
    push_types(file, names, b".BTF", types)?;
    push_types(file, names, b".BTF.ext", extension)
}

/// Appends the sections that are kept, .BTF and .BTF.ext. `symtab` is the number of .symtab.
fn push_all<'a, A: Allocator + Copy>(
    alloc: A,
    file: &mut FileWriter<A>,
    names: &mut Names<'a, A>,
    elf: &Elf<'_>,
    before: &[u32],
    symtab: u32,
    types: Option<&[u8]>,
    extension: Option<&[u8]>,
) -> Result<(), ObjectError>
    requires before { before.now ≡ numbers (is_kept_section elf.now) (count elf.now) }
    requires source { names.old.source ≡ sections.content elf.now (names_section elf.now) }
    requires limit { names.old.limit ≡ spec_result_limit (length elf.now) }
    ensures { let types = content_of types.entry in let extension = content_of extension.entry in
        spec.Writes (spec_result_limit (length elf.now)) (spec.first_names elf.now types extension)
        (spec.first_written elf.now symtab types extension)
        names.old names.new file.old file.new result }
{
    let symbols = symbol_numbers(alloc, elf)?;
    push_sections(alloc, file, names, elf, before, &symbols, symtab)?;
    push_both(file, names, types, extension)
}

/// Appends the last two sections, and finishes the file.
fn write_last<A: Allocator + Copy>(
    alloc: A,
    mut file: FileWriter<A>,
    symtab: &SectionHeader,
    rows: &[u8],
    strtab: &SectionHeader,
    table: &[u8],
    flags: u32,
) -> Result<Vec<u8, A>, ObjectError>
    ensures { (limit : ℕ) (ss : List WrittenSection) → Holds limit ss file
        → let more = ss
        ++ (section_of symtab.now rows.now ∷ section_of strtab.now table.now ∷ []) in
        MatchResult result (λ out. IsFileOf limit file.order flags more out.items)
        (FailsToHold limit more) }
{
    file.push(symtab, rows)?;
    file.push(strtab, table)?;
    file.finish(alloc, flags)
}

/// Writes the symbols and the strings, and finishes the file. `symtab` is the number of .symtab.
fn write_tail<'a, A: Allocator + Copy>(
    alloc: A,
    file: FileWriter<A>,
    mut names: Names<'a, A>,
    elf: &'a Elf<'_>,
    before: &[u32],
    symtab: u32,
) -> Result<Vec<u8, A>, ObjectError>
    requires before { before.now ≡ numbers (is_kept_section elf.now) (count elf.now) }
    requires limit { names.limit ≡ spec_result_limit (length elf.now) }
    requires small { symtab < 2 ^ 17 }
    ensures { (ss : List WrittenSection) → let limit = spec_result_limit (length elf.now) in
        Holds limit ss file
        → let all = names.entry.texts ++ spec.last_names elf.now in
        let more = ss ++ spec.last_written elf.now (symtab + 1) all in
        MatchResult result (λ out. IsFileOf limit file.order (flags_of elf.now) more out.items)
        (spec.FailsToWrite limit all more) }
{
    let symbols_name = names.text(b".symtab")?;
    let strings_name = names.text(b".strtab")?;
    let mut names = names.read_from(alloc, elf.symbol_strings());
    let mut rows = Vec::new(alloc);
    push_symbols(&mut rows, &mut names, elf, before)?;
    let table = names.into_table(alloc)?;
    let first = first_global(elf);
    let symbols = own_header(symbols_name, SHT_SYMTAB, &rows, symtab + 1, first, 8, 24);
    let strings = own_header(strings_name, SHT_STRTAB, &table, 0, 0, 1, 0);
    write_last(alloc, file, &symbols, &rows, &strings, &table, elf.flags())
}

/// The file, or [`TOO_LARGE`](crate::names::TOO_LARGE) if it has more than [`result_limit`] bytes.
pub(crate) fn write_object<A: Allocator + Copy>(
    alloc: A,
    elf: &Elf<'_>,
    types: Option<&[u8]>,
    extension: Option<&[u8]>,
) -> Result<Vec<u8, A>, ObjectError>
    requires { IsElf elf.now }
    ensures { (t : Option ObjectTypes)
        → spec.AreContents (order_of elf.now) t
        (content_of types.entry) (content_of extension.entry)
        → MatchResult result
        (λ out. (spec.fits elf.now t ≡ true) × (out.items ≡ canonical (object_of elf.now t)))
        (FailsToFit (spec.fits elf.now t)) }
{
    let limit = result_limit(elf);
    let before = section_numbers(alloc, elf)?;
    let symtab = symtab_number(elf, &before, types, extension);
    let mut file = FileWriter::new(alloc, elf.order(), limit)?;
    let mut names = Names::new(alloc, limit as u32, elf.section_strings());
    push_all(
        alloc, &mut file, &mut names, elf, &before, symtab, types, extension,
    )?;
    write_tail(alloc, file, names, elf, &before, symtab)
}
