//! An object file that keeps all rules.

ghost use Rattle.std.specs.Prelude.{◌≡◌, ◌<◌, ◌≤◌, ◌^◌, true, length, MatchResult};
ghost use Rattle.bpf_elf.specs.Rules.{AllHold, IsFirstFault};
ghost use Rattle.bpf_elf.specs.Header.{FILE_LIMIT};
ghost use Rattle.bpf_elf.specs.Numbers.{count, flags_of, link, names, order_of, header_offset};
ghost use Rattle.bpf_elf.specs.Kinds.{is_kind};
ghost use Rattle.bpf_elf.specs.Names.{is_closed};
ghost use Rattle.bpf_elf.specs.Sections as sections;
ghost use Rattle.bpf_elf.specs.Symbols as symbols;
ghost use Rattle.bpf_elf.specs.Relocations as relocations;
ghost use Rattle.bpf_elf.specs.ElfRules.{IsElf, elf_rules, all_section_rules, all_symbol_rules};
ghost use Rattle.bpf_elf.specs.Headers.{IsHeaderOf, HasSections, HasSection, HasKeptSymbols};
ghost use Rattle.bpf_elf.specs.SectionHeaders.{IsSectionHeader, IsSymbol, IsRelocation};
ghost use Rattle.bpf_elf.specs.declared.kinds.Kind.TheVariants.{Relocations};

use crate::fault::ElfFault;
use crate::header::{Header, read_header};
use crate::kept_symbols::is_kept_symbol;
use crate::kinds::Kind;
use crate::names::string_at;
use crate::relocations::{Relocation, check_relocations, relocation_at, relocation_count};
use crate::section_checks::{check_sections, check_table, check_targets, section_of};
use crate::sections::{SectionHeader, content, kind, name, names_content, section_header};
use crate::symbols::{
    Symbol, SymbolTable, check_symbols, read_symbol_table, symbol_at, symbol_strings,
};
use bpf_words::{Order, get32};
use std::marker::Model;

/// Checks the sections.
fn check_all_sections(bytes: &[u8], header: Header) -> Result<(), ElfFault>
    requires { IsHeaderOf bytes.now header }
    ensures { MatchResult result
        (λ _. AllHold (all_section_rules bytes.now) × HasSections bytes.now header)
        (IsFirstFault (all_section_rules bytes.now)) }
{
    check_table(bytes, header)?;
    check_sections(bytes, header)?;
    check_targets(bytes, header)?;
    Ok(())
}

/// Checks the symbols and relocations.
fn check_all_symbols(bytes: &[u8], header: Header) -> Result<SymbolTable, ElfFault>
    requires { HasSections bytes.now header }
    ensures { MatchResult result
        (λ table. AllHold (all_symbol_rules bytes.now) × HasKeptSymbols bytes.now header table)
        (IsFirstFault (all_symbol_rules bytes.now)) }
{
    let table = read_symbol_table(bytes, header)?;
    check_symbols(bytes, header, table)?;
    check_relocations(bytes, header, table)?;
    Ok(table)
}

/// An object file for BPF that keeps all rules. It borrows the bytes of the file, and in contracts
/// it is these bytes. Sections, symbols and rows of relocations are numbered from 0, as in the file.
#[derive(Drop)]
pub struct Elf<'a> {
    bytes: &'a [u8],
    header: Header,
    symbols: SymbolTable,
}

impl<'a> Model for Elf<'a> {
    ghost use Rattle.std.specs.Prelude.{ℕ, List};
    ghost use Rattle.bpf_elf.specs.ElfRules.{IsElf};
    ghost use Rattle.bpf_elf.specs.Headers.{HasKeptSymbols};

    ghost Value = { List ℕ };

    ghost view = { λ e. e.bytes.now };

    ghost invariant = { λ e. IsElf e.bytes.now × HasKeptSymbols e.bytes.now e.header e.symbols };
}

impl<'a> Elf<'a> {
    /// Checks a file, and copies nothing.
    ///
    /// # Errors
    ///
    /// The first rule that the file breaks, and where.
    pub fn read(bytes: &'a [u8]) -> Result<Elf<'a>, ElfFault>
        ensures { MatchResult result
            (λ elf. IsElf bytes.now × (elf ≡ bytes.now))
            (IsFirstFault (elf_rules bytes.now)) }
    {
        let header = read_header(bytes)?;
        check_all_sections(bytes, header)?;
        let symbols = check_all_symbols(bytes, header)?;
        Ok(Elf {
            bytes,
            header,
            symbols,
        })
    }

    /// The bytes of the file.
    pub fn bytes(&self) -> &[u8]
        ensures value { result.now ≡ self.now }
        ensures short { length result.now ≤ FILE_LIMIT }
        ensures rules { IsElf self.now }
    {
        self.bytes
    }

    /// The byte order.
    pub fn order(&self) -> Order
        ensures { result ≡ order_of self.now }
    {
        self.header.order
    }

    /// e_flags.
    pub fn flags(&self) -> u32
        ensures { result ≡ flags_of self.now }
    {
        get32(self.header.order, self.bytes, 48)
    }

    /// The number of sections, with section 0, which is none.
    pub fn section_count(&self) -> usize
        ensures value { result ≡ count self.now }
        ensures small { result < 2 ^ 16 }
        ensures some { 0 < result }
    {
        self.header.count
    }

    /// Where the header of a section is, in bytes from the start of the file.
    pub fn header_offset(&self, i: usize) -> u32
        requires { i < count self.now }
        ensures { result ≡ header_offset self.now i }
    {
        (self.header.table + 64 * i) as u32
    }

    /// The header of a section.
    pub fn section(&self, i: usize) -> SectionHeader
        requires { i < count self.now }
        ensures fields { IsSectionHeader self.now i result }
        ensures near { result.offset ≤ FILE_LIMIT }
        ensures named { result.name_offset
            < length (sections.content self.now (names self.now)) }
        ensures closed { is_closed (sections.content self.now (names self.now)) ≡ true }
        ensures target { is_kind Relocations (sections.kind self.now i) ≡ true
            → result.info < count self.now }
    {
        section_header(self.bytes, self.header, i)
    }

    /// The name of a section, without its NUL.
    pub fn name(&self, i: usize) -> &[u8]
        requires { i < count self.now }
        ensures { result.now ≡ sections.name self.now i }
    {
        name(self.bytes, self.header, i)
    }

    /// The string table with the names of the sections.
    pub fn section_strings(&self) -> &[u8]
        ensures value { result.now ≡ sections.content self.now (names self.now) }
        ensures closed { is_closed result.now ≡ true }
        ensures short { length result.now ≤ FILE_LIMIT }
        ensures rules { IsElf self.now }
    {
        names_content(self.bytes, self.header)
    }

    /// The bytes of a section in the file: none if it has the type SHT_NOBITS.
    pub fn content(&self, i: usize) -> &[u8]
        requires { i < count self.now }
        ensures value { result.now ≡ sections.content self.now i }
        ensures short { length result.now ≤ FILE_LIMIT }
    {
        content(self.bytes, self.header, i)
    }

    /// The kind of a section. Section 0 has none, every other one has.
    pub fn kind(&self, i: usize) -> Option<Kind>
        requires { i < count self.now }
        ensures { result ≡ sections.kind self.now i }
    {
        kind(self.bytes, self.header, i)
    }

    /// The first section of a kind, or 0 if there is none.
    pub fn section_of(&self, wanted: Kind) -> usize
        ensures value { result ≡ sections.section_of self.now wanted (count self.now) }
        ensures there { result < count self.now }
    {
        section_of(self.bytes, self.header, wanted, self.header.count)
    }

    /// The number of symbols, with symbol 0, which is zero.
    pub fn symbol_count(&self) -> usize
        ensures value { result ≡ symbols.symbol_count self.now }
        ensures small { result < 2 ^ 32 }
    {
        self.symbols.count
    }

    /// A symbol.
    pub fn symbol(&self, j: usize) -> Symbol
        requires { j < symbols.symbol_count self.now }
        ensures fields { IsSymbol self.now j result }
        ensures named { result.name_offset < length (symbols.symbol_strings self.now) }
        ensures small { result.name_offset ≤ FILE_LIMIT }
        ensures closed { is_closed (symbols.symbol_strings self.now) ≡ true }
        ensures section { HasSection self.now result.section }
    {
        symbol_at(self.bytes, self.header, self.symbols, j)
    }

    /// The name of a symbol, without its NUL.
    pub fn symbol_name(&self, j: usize) -> &[u8]
        requires { j < symbols.symbol_count self.now }
        ensures { result.now ≡ symbols.symbol_name self.now j }
    {
        let offset = self.symbol(j).name_offset as usize;
        string_at(
            symbol_strings(self.bytes, self.header, self.symbols),
            offset,
        )
    }

    /// The string table with the names of the symbols.
    pub fn symbol_strings(&self) -> &[u8]
        ensures value { result.now ≡ symbols.symbol_strings self.now }
        ensures closed { is_closed result.now ≡ true }
        ensures short { length result.now ≤ FILE_LIMIT }
    {
        symbol_strings(self.bytes, self.header, self.symbols)
    }

    /// Whether the names of the sections and those of the symbols are in one string table.
    pub fn has_one_string_table(&self) -> bool
        ensures { result ≡ symbols.has_one_string_table self.now }
    {
        self.header.names == self.symbols.names
    }

    /// Whether the canonical file has a symbol: all but the names of source files, labels of the
    /// compiler in code, and local ones of sections that are not code or data.
    pub fn is_kept_symbol(&self, j: usize) -> bool
        requires { j < symbols.symbol_count self.now }
        ensures { result ≡ symbols.is_kept_symbol self.now j }
    {
        is_kept_symbol(self.bytes, self.header, self.symbols, j)
    }

    /// How many rows a table of relocations has.
    pub fn relocation_count(&self, i: usize) -> usize
        requires there { i < count self.now }
        requires kind { is_kind Relocations (sections.kind self.now i) ≡ true }
        ensures value { result ≡ relocations.relocation_count self.now i }
        ensures small { result < 2 ^ 32 }
    {
        relocation_count(self.bytes, self.header, i)
    }

    /// A row of a table of relocations.
    pub fn relocation(&self, i: usize, k: usize) -> Relocation
        requires there { i < count self.now }
        requires kind { is_kind Relocations (sections.kind self.now i) ≡ true }
        requires row { k < relocations.relocation_count self.now i }
        ensures fields { IsRelocation self.now i k result }
        ensures there { result.symbol < symbols.symbol_count self.now }
    {
        relocation_at(self.bytes, self.header, i, k)
    }
}
