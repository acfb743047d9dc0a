//! The new numbers of the sections and symbols that a canonical file keeps.

ghost use Rattle.std.specs.Prelude.{◌≡◌, ◌+◌, ◌^◌, ◌<◌, suc, if◌then◌else◌, IfOk};
ghost use Rattle.bpf_elf.specs.Numbers.{count};
ghost use Rattle.bpf_elf.specs.Symbols.{is_kept_symbol, symbol_count};
ghost use Rattle.bpf_object.specs.Kept as spec;

use bpf_elf::{Elf, Kind};
use std::alloc::{AllocError, Allocator};

/// Whether the canonical file has a table of relocations.
pub(crate) fn is_table(elf: &Elf<'_>, i: usize) -> bool
    requires { i < count elf.now }
    ensures { result ≡ spec.is_table elf.now i }
{
    matches!(elf.kind(i), Some(Kind::Relocations))
}

/// Whether the canonical file has a section: code, data or a table of relocations.
pub(crate) fn is_kept_section(elf: &Elf<'_>, i: usize) -> bool
    requires { i < count elf.now }
    ensures { result ≡ spec.is_kept_section elf.now i }
{
    matches!(elf.kind(i), Some(Kind::Data | Kind::Relocations))
}

/// The number with one more, if that is kept.
pub(crate) fn counted(number: u32, is_kept: bool) -> u32
    requires { number + 1 < 2 ^ 32 }
    ensures { result ≡ if is_kept then suc number else number }
{
    if is_kept { number + 1 } else { number }
}

/// For each section, how many kept ones precede it.
#[tactic(auto, using(crate::proofs::KeptLemmas::number_below))]
pub(crate) fn section_numbers<A: Allocator>(
    alloc: A,
    elf: &Elf<'_>,
) -> Result<Vec<u32, A>, AllocError>
    ensures { IfOk result (λ numbers. numbers.items
        ≡ spec.numbers (spec.is_kept_section elf.now) (count elf.now)) }
{
    let mut numbers = Vec::with_capacity(alloc, elf.section_count())?;
    let mut number = 0;
    for i in 0..elf.section_count() {
        numbers.push(number)?;
        number = counted(number, is_kept_section(elf, i));
    }
    Ok(numbers)
}

/// For each symbol, how many kept ones precede it.
#[tactic(auto, using(crate::proofs::KeptLemmas::number_below))]
pub(crate) fn symbol_numbers<A: Allocator>(
    alloc: A,
    elf: &Elf<'_>,
) -> Result<Vec<u32, A>, AllocError>
    ensures { IfOk result (λ numbers. numbers.items
        ≡ spec.numbers (is_kept_symbol elf.now) (symbol_count elf.now)) }
{
    let mut numbers = Vec::with_capacity(alloc, elf.symbol_count())?;
    let mut number = 0;
    for j in 0..elf.symbol_count() {
        numbers.push(number)?;
        number = counted(number, elf.is_kept_symbol(j));
    }
    Ok(numbers)
}
