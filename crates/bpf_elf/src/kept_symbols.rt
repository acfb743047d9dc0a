//! Which symbols the canonical file has: those that a loader may read.

ghost use Rattle.std.specs.Prelude.{◌≡◌, ◌<◌, ◌==◌, codes, length};
ghost use Rattle.bpf_elf.specs.Kinds.{begins};
ghost use Rattle.bpf_elf.specs.Numbers.{count};
ghost use Rattle.bpf_elf.specs.Symbols as spec;
ghost use Rattle.bpf_elf.specs.Names.{string_at};
ghost use Rattle.bpf_elf.specs.Headers.{HasSections, HasSection, HasSymbols};

use crate::header::Header;
use crate::kinds::{Kind, SHT_PROGBITS, is_executable, is_kind};
use crate::sections::{kind, name, section_header};
use crate::symbols::{
    SHN_ABS, STB_LOCAL, Symbol, SymbolTable, is_special, symbol_at, symbol_strings,
};

const STT_NOTYPE: u8 = 0;

const STT_SECTION: u8 = 3;

const STT_FILE: u8 = 4;

/// Whether the section of a symbol is one of code or data.
pub(crate) fn is_data(bytes: &[u8], header: Header, section: u16) -> bool
    requires header { HasSections bytes.now header }
    requires there { section < count bytes.now }
    ensures { result ≡ spec.is_data bytes.now section }
{
    is_kind(Kind::Data, kind(bytes, header, usize::from(section)))
}

/// Whether a symbol is the name of a source file.
fn is_file_name(symbol: Symbol) -> bool
    ensures { result ≡ spec.is_file_name symbol.info symbol.section }
{
    symbol.info / 16 == STB_LOCAL && symbol.info % 16 == STT_FILE && symbol.section == SHN_ABS
}

/// Whether a symbol is in code, in data or in no section, and isn't the name of a source file.
fn is_loadable(bytes: &[u8], header: Header, symbol: Symbol) -> bool
    requires header { HasSections bytes.now header }
    requires section { HasSection bytes.now symbol.section }
    ensures { result ≡ spec.is_loadable bytes.now symbol.info symbol.section }
{
    (is_special(symbol.section) || is_data(bytes, header, symbol.section)) && !is_file_name(symbol)
}

/// Whether a section has code in which loaders look for no variables and no maps.
fn is_code(section_type: u32, name: &[u8], flags: u64) -> bool
    ensures { result ≡ spec.is_code section_type name.now flags }
{
    section_type == SHT_PROGBITS
        && is_executable(flags)
        && (name.starts_with(b".text") || !(name.starts_with(b".") || name.starts_with(b"maps")))
}

/// Whether a name begins as the compiler's labels do. The time doesn't depend on its length.
fn begins_label(strings: &[u8], off: u32) -> bool
    requires { off < length strings.now }
    ensures { result ≡ begins (string_at strings.now off) (codes "LBB") }
{
    strings[off as usize..].starts_with(b"LBB")
}

/// Whether a symbol is like a label of the compiler, by all but its section.
fn is_label_name(symbol: Symbol, strings: &[u8]) -> bool
    requires { symbol.name_offset < length strings.now }
    ensures { result ≡ spec.is_label_name symbol.info symbol.other
        (string_at strings.now symbol.name_offset) }
{
    symbol.info == 0 && symbol.other == 0 && begins_label(strings, symbol.name_offset)
}

/// Whether a symbol is a label of the compiler in code.
fn is_label(bytes: &[u8], header: Header, symbol: Symbol, strings: &[u8]) -> bool
    requires header { HasSections bytes.now header }
    requires section { HasSection bytes.now symbol.section }
    requires named { symbol.name_offset < length strings.now }
    ensures { result ≡ spec.is_label_of bytes.now symbol.info symbol.other symbol.section
        (string_at strings.now symbol.name_offset) }
{
    if !is_label_name(symbol, strings) || is_special(symbol.section) {
        return false;
    }
    let i = usize::from(symbol.section);
    let section = section_header(bytes, header, i);
    is_code(section.section_type, name(bytes, header, i), section.flags)
}

/// Whether the canonical file has a symbol.
pub(crate) fn is_kept_symbol(bytes: &[u8], header: Header, table: SymbolTable, j: usize) -> bool
    requires table { HasSymbols bytes.now header table }
    requires there { j < spec.symbol_count bytes.now }
    requires named { spec.st_name bytes.now j < length (spec.symbol_strings bytes.now) }
    requires section { HasSection bytes.now (spec.st_shndx bytes.now j) }
    ensures { result ≡ spec.is_kept_symbol bytes.now j }
{
    let symbol = symbol_at(bytes, header, table, j);
    let strings = symbol_strings(bytes, header, table);
    is_loadable(bytes, header, symbol) && !is_label(bytes, header, symbol, strings)
}

/// Whether a name is empty.
fn is_empty(strings: &[u8], off: u32) -> bool
    requires { off < length strings.now }
    ensures { result ≡ (length (string_at strings.now off) == 0) }
{
    strings[off as usize] == 0
}

/// Whether no loader reads the name of a symbol whose section is dropped, by its type.
fn has_unread_type(info: u8) -> bool
    ensures { result ≡ spec.has_unread_type info }
{
    matches!(info % 16, STT_NOTYPE | STT_SECTION | STT_FILE)
}

/// Whether no loader reads a symbol if its section is dropped.
fn is_unread(symbol: Symbol, strings: &[u8]) -> bool
    requires { symbol.name_offset < length strings.now }
    ensures { result ≡ spec.is_unread symbol.info symbol.other symbol.value
        (string_at strings.now symbol.name_offset) }
{
    let is_section = symbol.info % 16 == STT_SECTION;
    symbol.other == 0
        && (has_unread_type(symbol.info) || is_empty(strings, symbol.name_offset))
        && !(is_section && symbol.value != 0)
}

/// Whether a symbol is in code, in data or in no section, or can be dropped.
pub(crate) fn is_droppable(bytes: &[u8], header: Header, table: SymbolTable, j: usize) -> bool
    requires table { HasSymbols bytes.now header table }
    requires there { j < spec.symbol_count bytes.now }
    requires named { spec.st_name bytes.now j < length (spec.symbol_strings bytes.now) }
    requires section { HasSection bytes.now (spec.st_shndx bytes.now j) }
    ensures { result ≡ spec.is_droppable bytes.now j }
{
    let symbol = symbol_at(bytes, header, table, j);
    is_loadable(bytes, header, symbol) || is_unread(symbol, symbol_strings(bytes, header, table))
}
