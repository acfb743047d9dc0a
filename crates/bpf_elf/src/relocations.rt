//! The tables of relocations that are kept (System V ABI, "Relocation").

ghost use Rattle.std.specs.Prelude.{◌≡◌, ◌^◌, ◌<◌};
ghost use Rattle.bpf_elf.specs.Rules.{each, Checks};
ghost use Rattle.bpf_elf.specs.Numbers.{count};
ghost use Rattle.bpf_elf.specs.Symbols.{symbols as spec_symbols};
ghost use Rattle.bpf_elf.specs.Relocations as spec;
ghost use Rattle.bpf_elf.specs.Headers.{IsHeaderOf, HasKeptSymbols, HasRows};
ghost use Rattle.bpf_elf.specs.SectionHeaders.{IsRelocation};

use crate::fault::{ElfCause, ElfFault, require};
use crate::header::Header;
use crate::kept_symbols::is_kept_symbol;
use crate::kinds::{Kind, is_kind};
use crate::numbers::get64;
use crate::sections::{kind, section_header};
use crate::symbols::SymbolTable;

/// A row of a table of relocations.
#[derive(Clone, Copy, Debug, PartialEq, Eq)]
pub struct Relocation {
    /// r_offset, in bytes from the start of the section that the table is for.
    pub offset: u64,
    /// The upper half of r_info: the index of the symbol.
    pub symbol: u32,
    /// The lower half of r_info.
    pub relocation_type: u32,
}

/// How many rows a table has.
pub(crate) fn relocation_count(bytes: &[u8], header: Header, i: usize) -> usize
    requires { HasRows bytes.now header i }
    ensures value { result ≡ spec.relocation_count bytes.now i }
    ensures small { result < 2 ^ 32 }
{
    section_header(bytes, header, i).size as usize / 16
}

/// A row of a table.
pub(crate) fn relocation_at(bytes: &[u8], header: Header, i: usize, k: usize) -> Relocation
    requires rows { HasRows bytes.now header i }
    requires there { k < spec.relocation_count bytes.now i }
    ensures { IsRelocation bytes.now i k result }
{
    let pos = section_header(bytes, header, i).offset as usize + 16 * k;
    let info = get64(header.order, bytes, pos + 8);
    Relocation {
        offset: get64(header.order, bytes, pos),
        symbol: (info / 0x1_0000_0000) as u32,
        relocation_type: (info % 0x1_0000_0000) as u32,
    }
}

/// Whether a symbol is there and kept.
fn is_relocation_symbol(bytes: &[u8], header: Header, table: SymbolTable, j: usize) -> bool
    requires { HasKeptSymbols bytes.now header table }
    ensures { result ≡ spec.is_relocation_symbol bytes.now j }
{
    j < table.count && is_kept_symbol(bytes, header, table, j)
}

/// Checks a row of a table.
fn check_row(
    bytes: &[u8],
    header: Header,
    table: SymbolTable,
    i: usize,
    k: usize,
) -> Result<(), ElfFault>
    requires symbols { HasKeptSymbols bytes.now header table }
    requires rows { HasRows bytes.now header i }
    requires there { k < spec.relocation_count bytes.now i }
    ensures { Checks (spec.relocation_rules bytes.now i k) result }
{
    let pos = section_header(bytes, header, i).offset as usize + 16 * k + 8;
    let j = relocation_at(bytes, header, i, k).symbol as usize;
    let is_symbol = is_relocation_symbol(bytes, header, table, j);
    require(is_symbol, pos, ElfCause::RelocationSymbol)
}

/// Checks the rows of a table.
fn check_rows(bytes: &[u8], header: Header, table: SymbolTable, i: usize) -> Result<(), ElfFault>
    requires symbols { HasKeptSymbols bytes.now header table }
    requires rows { HasRows bytes.now header i }
    ensures { Checks (each (spec.relocation_count bytes.now i)
        (spec.relocation_rules bytes.now i)) result }
{
    for k in 0..relocation_count(bytes, header, i) {
        check_row(bytes, header, table, i, k)?;
    }
    Ok(())
}

/// Checks the form of a table of relocations.
fn check_form(bytes: &[u8], header: Header, symbols: usize, i: usize) -> Result<(), ElfFault>
    requires header { IsHeaderOf bytes.now header }
    requires there { i < count bytes.now }
    requires symbols { symbols ≡ spec_symbols bytes.now }
    ensures { Checks (spec.form_rules bytes.now i) result }
{
    let pos = header.table + 64 * i;
    let section = section_header(bytes, header, i);
    require(
        section.size % 16 == 0,
        pos + 32,
        ElfCause::RelocationTableSize,
    )?;
    require(
        section.entry_size == 16,
        pos + 56,
        ElfCause::RelocationEntrySize,
    )?;
    let has_symbols = section.link as usize == symbols;
    require(has_symbols, pos + 40, ElfCause::RelocationSymbols)
}

/// Checks a table of relocations.
fn check_kept_table(
    bytes: &[u8],
    header: Header,
    table: SymbolTable,
    i: usize,
) -> Result<(), ElfFault>
    requires symbols { HasKeptSymbols bytes.now header table }
    requires rows { HasRows bytes.now header i }
    ensures { Checks (spec.kept_table_rules bytes.now i) result }
{
    check_form(bytes, header, table.section, i)?;
    check_rows(bytes, header, table, i)
}

/// Checks a section, if it is a table of relocations that is kept.
fn check_table(bytes: &[u8], header: Header, table: SymbolTable, i: usize) -> Result<(), ElfFault>
    requires symbols { HasKeptSymbols bytes.now header table }
    requires there { i < count bytes.now }
    ensures { Checks (spec.relocation_table_rules bytes.now i) result }
{
    if is_kind(Kind::Relocations, kind(bytes, header, i)) {
        check_kept_table(bytes, header, table, i)
    } else {
        Ok(())
    }
}

/// Checks all tables of relocations that are kept.
pub(crate) fn check_relocations(
    bytes: &[u8],
    header: Header,
    table: SymbolTable,
) -> Result<(), ElfFault>
    requires { HasKeptSymbols bytes.now header table }
    ensures { Checks (each (count bytes.now) (spec.relocation_table_rules bytes.now)) result }
{
    for i in 0..header.count {
        check_table(bytes, header, table, i)?;
    }
    Ok(())
}
