//! The symbols that are kept, with the new offsets of their names and the new numbers of their
//! sections (System V ABI, "Symbol Table").

ghost use Rattle.std.specs.Prelude.{◌≡◌, ◌++◌, ◌&&◌, ◌<◌, ◌≤◌, ◌^◌, [], ◌∷◌, if◌then◌else◌, length, OnOk};
ghost use Rattle.bpf_elf.specs.Headers.{HasSection};
ghost use Rattle.bpf_elf.specs.Numbers.{count, order_of};
ghost use Rattle.bpf_elf.specs.Symbols.{is_kept_symbol, is_local, st_info, symbol_count, symbol_name, symbol_strings};
ghost use Rattle.bpf_object.specs.Canonical.{symbol_bytes};
ghost use Rattle.bpf_object.specs.Denotes.{result_limit};
ghost use Rattle.bpf_object.specs.Kept as spec;
ghost use Rattle.bpf_object.specs.private.ObjectWriter as writer;
ghost use Rattle.bpf_object.specs.private.SymbolRows as rows;

use crate::fault::ObjectError;
use crate::fields::push64;
use crate::names::Names;
use crate::numbering::counted;
use bpf_elf::{Elf, Symbol, is_special};
use bpf_words::{Order, push16, push32};
use std::alloc::{AllocError, Allocator};

/// How many kept sections precede a section.
pub(crate) fn sections_before(elf: &Elf<'_>, numbers: &[u32], i: usize) -> u32
    requires there { i < count elf.now }
    requires numbers { numbers.now ≡ spec.numbers (spec.is_kept_section elf.now) (count elf.now) }
    ensures value { result ≡ spec.number_of (spec.is_kept_section elf.now) i }
    ensures small { result ≤ i }
    ensures few { count elf.now < 2 ^ 16 }
{
    let count = elf.section_count();
    prove!(i < count);
    numbers[i]
}

/// The new section index of a symbol. `numbers` say how many kept sections precede each.
fn symbol_section(elf: &Elf<'_>, numbers: &[u32], section: u16) -> u16
    requires section { HasSection elf.now section }
    requires numbers { numbers.now ≡ spec.numbers (spec.is_kept_section elf.now) (count elf.now) }
    ensures { result ≡ spec.symbol_section elf.now section }
{
    if is_special(section) {
        section
    } else {
        sections_before(elf, numbers, usize::from(section)) as u16 + 1
    }
}

/// Appends a symbol with a new offset of its name and a new section index.
fn push_row<A: Allocator>(
    out: &mut Vec<u8, A>,
    order: Order,
    symbol: Symbol,
    name: u32,
    section: u16,
) -> Result<(), AllocError>
    ensures { OnOk result (out.new.items ≡ out.old.items ++ rows.symbol_row order name symbol.info
        symbol.other section symbol.value symbol.size) }
{
    push32(out, order, name)?;
    out.extend_from_slice(&[symbol.info, symbol.other])?;
    push16(out, order, section)?;
    push64(out, order, symbol.value)?;
    push64(out, order, symbol.size)
}

/// Appends a symbol that is kept.
fn push_symbol<'a, A: Allocator + Copy>(
    out: &mut Vec<u8, A>,
    names: &mut Names<'a, A>,
    elf: &Elf<'_>,
    before: &[u32],
    j: usize,
) -> Result<(), ObjectError>
    requires there { j < symbol_count elf.now }
    requires before { before.now ≡ spec.numbers (spec.is_kept_section elf.now) (count elf.now) }
    requires source { names.old.source ≡ symbol_strings elf.now }
    requires limit { names.old.limit ≡ result_limit (length elf.now) }
    ensures { writer.WritesRows (result_limit (length elf.now)) (symbol_name elf.now j ∷ [])
        (λ place. symbol_bytes (order_of elf.now) place (spec.kept_symbol elf.now j))
        names.old names.new out.old.items out.new.items result }
{
    let symbol = elf.symbol(j);
    let name = names.at(symbol.name_offset)?;
    let section = symbol_section(elf, before, symbol.section);
    push_row(out, elf.order(), symbol, name, section)?;
    Ok(())
}

/// Appends a symbol, if it is kept.
fn push_if_kept<'a, A: Allocator + Copy>(
    out: &mut Vec<u8, A>,
    names: &mut Names<'a, A>,
    elf: &Elf<'_>,
    before: &[u32],
    j: usize,
) -> Result<(), ObjectError>
    requires there { j < symbol_count elf.now }
    requires before { before.now ≡ spec.numbers (spec.is_kept_section elf.now) (count elf.now) }
    requires source { names.old.source ≡ symbol_strings elf.now }
    requires limit { names.old.limit ≡ result_limit (length elf.now) }
    ensures { writer.WritesRows (result_limit (length elf.now)) (writer.symbol_name_if elf.now j)
        (writer.symbol_if elf.now j)
        names.old names.new out.old.items out.new.items result }
{
    if !elf.is_kept_symbol(j) {
        return Ok(());
    }
    push_symbol(out, names, elf, before, j)
}

/// Appends the symbols that are kept.
pub(crate) fn push_symbols<'a, A: Allocator + Copy>(
    out: &mut Vec<u8, A>,
    names: &mut Names<'a, A>,
    elf: &Elf<'_>,
    before: &[u32],
) -> Result<(), ObjectError>
    requires before { before.now ≡ spec.numbers (spec.is_kept_section elf.now) (count elf.now) }
    requires source { names.old.source ≡ symbol_strings elf.now }
    requires limit { names.old.limit ≡ result_limit (length elf.now) }
    ensures { writer.WritesRows (result_limit (length elf.now))
        (writer.symbol_names elf.now (symbol_count elf.now))
        (writer.symbols_first elf.now (symbol_count elf.now))
        names.old names.new out.old.items out.new.items result }
{
    for j in 0..elf.symbol_count() {
        push_if_kept(out, names, elf, before, j)?;
    }
    Ok(())
}

/// Whether a symbol is kept and local.
fn is_kept_local(elf: &Elf<'_>, j: usize) -> bool
    requires { j < symbol_count elf.now }
    ensures { result ≡ (is_kept_symbol elf.now j && is_local (st_info elf.now j)) }
{
    elf.is_kept_symbol(j) && elf.symbol(j).info / 16 == 0
}

/// The first number after the local symbols, if the last symbol before `number` is local or not.
fn after_local(is_local: bool, number: u32, first: u32) -> u32
    ensures { result ≡ if is_local then number else first }
{
    if is_local { number } else { first }
}

/// The number after the last local symbol among the kept ones: global ones follow.
pub(crate) fn first_global(elf: &Elf<'_>) -> u32
    ensures { result ≡ rows.globals_from elf.now (symbol_count elf.now) }
{
    let mut number = 0;
    let mut first = 0;
    for j in 0..elf.symbol_count() {
        number = counted(number, elf.is_kept_symbol(j));
        first = after_local(is_kept_local(elf, j), number, first);
    }
    first
}
