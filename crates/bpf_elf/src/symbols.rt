//! The symbols (System V ABI, "Symbol Table").

ghost use Rattle.std.specs.Prelude.{◌≡◌, ◌<◌, ◌≤◌, true, MatchResult};
ghost use Rattle.bpf_elf.specs.Rules.{each, Checks, AllHold, IsFirstFault};
ghost use Rattle.bpf_elf.specs.Numbers.{count, size};
ghost use Rattle.bpf_elf.specs.Symbols as spec;
ghost use Rattle.bpf_elf.specs.Names.{is_closed};
ghost use Rattle.bpf_elf.specs.Headers.{HasSections, HasSection, HasSymbolSection, HasSymbols};
ghost use Rattle.bpf_elf.specs.SectionHeaders.{IsSymbol};

use crate::fault::{ElfCause, ElfFault, require};
use crate::header::Header;
use crate::kept_symbols::{is_data, is_droppable};
use crate::kinds::Kind;
use crate::numbers::get64;
use crate::section_checks::{is_zero_at, section_of};
use crate::sections::{content, is_string_table, section_header};
use bpf_words::{get16, get32};

const SHN_UNDEF: u16 = 0;

pub(crate) const SHN_ABS: u16 = 0xfff1;

const SHN_COMMON: u16 = 0xfff2;

pub(crate) const STB_LOCAL: u8 = 0;

/// An entry of the symbol table.
#[derive(Clone, Copy, Debug, PartialEq, Eq)]
pub struct Symbol {
    /// st_name: the offset of the name in the string table of the symbols.
    pub name_offset: u32,
    /// st_info: the binding in the upper half, the type in the lower.
    pub info: u8,
    /// st_other: the visibility.
    pub other: u8,
    /// st_shndx: the section, or SHN_UNDEF, SHN_ABS or SHN_COMMON.
    pub section: u16,
    /// st_value: for a symbol in a section, the offset in bytes from its start.
    pub value: u64,
    /// st_size, in bytes.
    pub size: u64,
}

/// The table of the symbols of a file.
#[derive(Clone, Copy)]
pub(crate) struct SymbolTable {
    /// The section that has them.
    pub(crate) section: usize,
    /// Where they are in the file.
    pub(crate) offset: usize,
    /// How many there are.
    pub(crate) count: usize,
    /// The section with their names.
    pub(crate) names: usize,
}

/// Finds the symbol table, and checks its form.
pub(crate) fn read_symbol_table(bytes: &[u8], header: Header) -> Result<SymbolTable, ElfFault>
    requires { HasSections bytes.now header }
    ensures { MatchResult result
        (λ table. AllHold (spec.symbol_table_rules bytes.now) × HasSymbols bytes.now header table)
        (IsFirstFault (spec.symbol_table_rules bytes.now)) }
{
    let i = section_of(bytes, header, Kind::Symbols, header.count);
    require(i > 0, 40, ElfCause::NoSymbols)?;
    check_symbol_table(bytes, header, i)
}

/// Checks the form of the symbol table.
fn check_symbol_table(bytes: &[u8], header: Header, i: usize) -> Result<SymbolTable, ElfFault>
    requires { HasSymbolSection bytes.now header i }
    ensures { MatchResult result
        (λ table. AllHold (spec.symbol_form_rules bytes.now) × HasSymbols bytes.now header table)
        (IsFirstFault (spec.symbol_form_rules bytes.now)) }
{
    let pos = header.table + 64 * i;
    let section = section_header(bytes, header, i);
    let is_whole = section.size >= 24 && section.size % 24 == 0;
    require(is_whole, pos + 32, ElfCause::SymbolTableSize)?;
    require(
        section.entry_size == 24,
        pos + 56,
        ElfCause::SymbolEntrySize,
    )?;
    read_symbols(bytes, header, i)
}

/// Checks the names of symbols and the first symbol, and returns where the symbols are.
fn read_symbols(bytes: &[u8], header: Header, i: usize) -> Result<SymbolTable, ElfFault>
    requires section { HasSymbolSection bytes.now header i }
    requires whole { 24 ≤ size bytes.now (spec.symbols bytes.now) }
    ensures { MatchResult result
        (λ table. AllHold (spec.first_symbol_rules bytes.now) × HasSymbols bytes.now header table)
        (IsFirstFault (spec.first_symbol_rules bytes.now)) }
{
    let section = section_header(bytes, header, i);
    let names = section.link as usize;
    let has_names = names < header.count && is_string_table(bytes, header, names);
    require(has_names, header.table + 64 * i + 40, ElfCause::SymbolNames)?;
    let offset = section.offset as usize;
    let is_zero = is_zero_at(bytes, offset, 24);
    require(is_zero, offset, ElfCause::FirstSymbol)?;
    Ok(SymbolTable {
        section: i,
        offset,
        count: (section.size / 24) as usize,
        names,
    })
}

/// An entry of the symbol table.
pub(crate) fn symbol_at(bytes: &[u8], header: Header, table: SymbolTable, j: usize) -> Symbol
    requires table { HasSymbols bytes.now header table }
    requires there { j < spec.symbol_count bytes.now }
    ensures { IsSymbol bytes.now j result }
{
    let order = header.order;
    let pos = table.offset + 24 * j;
    Symbol {
        name_offset: get32(order, bytes, pos),
        info: bytes[pos + 4],
        other: bytes[pos + 5],
        section: get16(order, bytes, pos + 6),
        value: get64(order, bytes, pos + 8),
        size: get64(order, bytes, pos + 16),
    }
}

/// The string table with the names of symbols.
pub(crate) fn symbol_strings(bytes: &[u8], header: Header, table: SymbolTable) -> &[u8]
    requires { HasSymbols bytes.now header table }
    ensures value { result.now ≡ spec.symbol_strings bytes.now }
    ensures closed { is_closed result.now ≡ true }
{
    content(bytes, header, table.names)
}

/// Whether a section index is that of no section: SHN_UNDEF, SHN_ABS or SHN_COMMON.
pub fn is_special(section: u16) -> bool
    ensures { result ≡ spec.is_special section }
{
    section == SHN_UNDEF || section == SHN_ABS || section == SHN_COMMON
}

/// Whether a symbol has a section index that it may have.
fn has_section(bytes: &[u8], header: Header, symbol: Symbol) -> bool
    requires { HasSections bytes.now header }
    ensures { result ≡ spec.has_section bytes.now symbol.info symbol.section }
{
    is_special(symbol.section)
        || usize::from(symbol.section) < header.count
            && (symbol.info / 16 == STB_LOCAL || is_data(bytes, header, symbol.section))
}

/// Whether a symbol is inside its section.
fn is_within(bytes: &[u8], header: Header, symbol: Symbol) -> bool
    requires header { HasSections bytes.now header }
    requires section { HasSection bytes.now symbol.section }
    ensures { result ≡ spec.is_within bytes.now symbol.section symbol.value symbol.size }
{
    if is_special(symbol.section) || !is_data(bytes, header, symbol.section) {
        return true;
    }
    let size = section_header(bytes, header, usize::from(symbol.section)).size;
    symbol.value <= size && symbol.size <= size - symbol.value
}

/// Checks one symbol.
fn check_symbol(bytes: &[u8], header: Header, table: SymbolTable, j: usize) -> Result<(), ElfFault>
    requires table { HasSymbols bytes.now header table }
    requires there { j < spec.symbol_count bytes.now }
    ensures { Checks (spec.symbol_rules bytes.now j) result }
{
    let pos = table.offset + 24 * j;
    let symbol = symbol_at(bytes, header, table, j);
    let is_named = (symbol.name_offset as usize) < symbol_strings(bytes, header, table).len();
    require(is_named, pos, ElfCause::SymbolName)?;
    let has_section = has_section(bytes, header, symbol);
    require(has_section, pos + 6, ElfCause::SymbolSection)?;
    let is_within = is_within(bytes, header, symbol);
    require(is_within, pos + 8, ElfCause::SymbolPlace)?;
    let is_droppable = is_droppable(bytes, header, table, j);
    require(is_droppable, pos, ElfCause::SymbolDropped)
}

/// Checks all symbols.
pub(crate) fn check_symbols(
    bytes: &[u8],
    header: Header,
    table: SymbolTable,
) -> Result<(), ElfFault>
    requires { HasSymbols bytes.now header table }
    ensures { Checks (each (spec.symbol_count bytes.now) (spec.symbol_rules bytes.now)) result }
{
    for j in 0..table.count {
        check_symbol(bytes, header, table, j)?;
    }
    Ok(())
}
