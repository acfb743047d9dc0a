//! The rule on the symbols of functions and the source lines of .BTF.ext.

ghost use Rattle.std.specs.Prelude.{◌≡◌, ◌<◌, ◌≤◌, ◌+◌, ℕ, true, None, length, slice_index_or, ⊤, IfOk, MatchOption, MatchResult};
ghost use Rattle.bpf_elf.specs.Numbers.{count};
ghost use Rattle.bpf_elf.specs.Rules.{AllHold};
ghost use Rattle.bpf_elf.specs.Sections.{name};
ghost use Rattle.bpf_elf.specs.Symbols.{symbol_count, symbol_offset};
ghost use Rattle.bpf_object.specs.declared.extension.Part.TheVariants.{Functions};
ghost use Rattle.bpf_object.specs.Extension.{group_count as spec_count};
ghost use Rattle.bpf_object.specs.Faults.{Checks, FailsRules};
ghost use Rattle.bpf_object.specs.FunctionLines as spec;
ghost use Rattle.bpf_object.specs.Lines.{ascends, insn_off as spec_insn_off, lines_part, has_record as spec_has_record};
ghost use Rattle.bpf_object.specs.private.Pairs.{pair_for, IsPair, HasPairs, HasSectionPairs};
ghost use Rattle.bpf_object.specs.Sources.{section, HasGroup};

use crate::extension::Part;
use crate::fault::{ObjectCause, ObjectError, ObjectFault, require};
use crate::line_checks::{insn_off, is_record};
use crate::pairs::Pair;
use crate::source::{Source, group_count};
use bpf_elf::{Elf, Kind, Symbol, is_special};
use std::alloc::{AllocError, Allocator};
use std::collections::BTreeMap;

const STT_FUNC: u8 = 2;

/// The first record of a group whose offset isn't less than `off`, or the number of records. The
/// offsets ascend.
fn first_from(x: Source<'_>, part: Part, group: usize, off: usize) -> usize
    requires group { HasGroup x part group }
    requires ascend { ascends (section x) part group ≡ true }
    ensures range { result ≤ spec_count (section x.entry) group }
    ensures before { (k : ℕ) → k < result → spec_insn_off (section x.entry) part group k < off }
    ensures found { result < spec_count (section x.entry) group
        → off ≤ spec_insn_off (section x.entry) part group result }
{
    let mut low = 0;
    let mut high = group_count(x, group);
    while low < high {
        let middle = low + (high - low) / 2;
        if insn_off(x, part, group, middle) < off {
            low = middle + 1;
        } else {
            high = middle;
        }
    }
    low
}

/// Whether a record of a group has an offset. The offsets ascend.
fn has_record(x: Source<'_>, part: Part, group: usize, off: usize) -> bool
    requires group { HasGroup x part group }
    requires ascend { ascends (section x) part group ≡ true }
    ensures { result ≡ spec_has_record (section x.entry) part group off }
{
    let first = first_from(x, part, group, off);
    is_record(x, part, group, first, off)
}

/// Whether a record of a group has an offset in `size` bytes from one on. The offsets ascend.
fn has_record_within(x: Source<'_>, part: Part, group: usize, from: usize, size: usize) -> bool
    requires group { HasGroup x part group }
    requires ascend { ascends (section x) part group ≡ true }
    ensures { result ≡ spec.has_record_within (section x.entry) part group from (from + size) }
{
    let first = first_from(x, part, group, from);
    first < group_count(x, group) && insn_off(x, part, group, first) - from < size
}

/// Whether a function has a record at its offset, or no line in its bytes.
fn is_recorded(x: Source<'_>, part: Part, pair: Pair, value: u64, size: u64) -> bool
    requires { IsPair x part pair }
    ensures { result ≡ spec.is_recorded (section x.entry) part pair value size }
{
    let value = value as usize;
    has_record(x, Part::Functions, pair.functions as usize, value)
        || !has_record_within(x, part, pair.lines as usize, value, size as usize)
}

/// Whether a symbol is that of a function in code or data, and is kept.
fn is_function_symbol(elf: &Elf<'_>, j: usize) -> bool
    requires { j < symbol_count elf.now }
    ensures { result ≡ spec.is_function_symbol elf.now j }
{
    let symbol = elf.symbol(j);
    symbol.info % 16 == STT_FUNC && !is_special(symbol.section) && elf.is_kept_symbol(j)
}

/// The groups of a section, if it has some.
fn pair_at(
    elf: &Elf<'_>,
    x: Source<'_>,
    part: Part,
    found: &[Option<Pair>],
    i: usize,
) -> Option<Pair>
    requires there { i < count elf.now }
    requires found { HasSectionPairs elf.now x part (spec.group_pairs (section x)) found.now }
    ensures value { result ≡ spec.pair_in (section x.entry) (spec.group_pairs (section x.entry))
        (name elf.now i) }
    ensures known { MatchOption result ⊤ (IsPair x.entry part) }
{
    let count = elf.section_count();
    prove!(i < count);
    found[i]
}

/// Whether a function of a section has a record at its offset, or no line in its bytes, if the section
/// has functions.
fn keeps_lines(
    elf: &Elf<'_>,
    x: Source<'_>,
    part: Part,
    found: &[Option<Pair>],
    symbol: Symbol,
) -> bool
    requires there { symbol.section < count elf.now }
    requires lines { part ≡ lines_part (section x) }
    requires found { HasSectionPairs elf.now x part (spec.group_pairs (section x)) found.now }
    ensures { result ≡ spec.keeps_lines (section x.entry) (name elf.now symbol.section)
        symbol.value symbol.size }
{
    match pair_at(elf, x, part, found, usize::from(symbol.section)) {
        Some(pair) => is_recorded(x, part, pair, symbol.value, symbol.size),
        None => true,
    }
}

/// Where st_value of a symbol is in the file.
fn value_offset(elf: &Elf<'_>, j: usize) -> u64
    requires { j < symbol_count elf.now }
    ensures { result ≡ symbol_offset elf.now j + 8 }
{
    let count = elf.symbol_count();
    prove!(j < count);
    let table = elf.section(elf.section_of(Kind::Symbols)).offset;
    table + 24 * j as u64 + 8
}

/// Checks a symbol, by the groups of each section.
fn check_function(
    elf: &Elf<'_>,
    x: Source<'_>,
    part: Part,
    found: &[Option<Pair>],
    j: usize,
) -> Result<(), ObjectFault>
    requires there { j < symbol_count elf.now }
    requires lines { part ≡ lines_part (section x) }
    requires found { HasSectionPairs elf.now x part (spec.group_pairs (section x)) found.now }
    ensures { Checks (spec.function_rules elf.now (section x.entry) j) result }
{
    if !is_function_symbol(elf, j) {
        return Ok(());
    }
    let keeps_lines = keeps_lines(elf, x, part, found, elf.symbol(j));
    let pos = value_offset(elf, j);
    require(keeps_lines, pos, ObjectCause::FunctionLines)
}

/// Checks all symbols, by the groups of each section.
fn check_all(
    elf: &Elf<'_>,
    x: Source<'_>,
    part: Part,
    found: &[Option<Pair>],
) -> Result<(), ObjectFault>
    requires lines { part ≡ lines_part (section x) }
    requires found { HasSectionPairs elf.now x part (spec.group_pairs (section x)) found.now }
    ensures { Checks (spec.functions_rules elf.now (section x.entry)) result }
{
    for j in 0..elf.symbol_count() {
        check_function(elf, x, part, found, j)?;
    }
    Ok(())
}

/// The groups of each section, by the names of sections.
fn section_pairs<'a, A: Allocator + Copy>(
    alloc: A,
    elf: &'a Elf<'_>,
    by_name: &BTreeMap<(usize, &'a [u8]), Pair, A>,
) -> Result<Vec<Option<Pair>, A>, AllocError>
    ensures { IfOk result (λ found. (length found.items ≡ count elf.now)
        × ((i : ℕ) → i < count elf.now
        → slice_index_or found.items i None ≡ pair_for by_name.now (name elf.now i))) }
{
    let mut found = Vec::new(alloc);
    for i in 0..elf.section_count() {
        let name = elf.name(i);
        let pair = by_name.get(&(name.len(), name)).copied();
        found.push(pair)?;
    }
    Ok(found)
}

/// Checks all symbols.
pub(crate) fn check_functions<'a, A: Allocator + Copy>(
    alloc: A,
    elf: &'a Elf<'_>,
    x: Source<'a>,
    part: Part,
    by_name: &BTreeMap<(usize, &'a [u8]), Pair, A>,
) -> Result<(), ObjectError>
    requires lines { part ≡ lines_part (section x) }
    requires pairs { HasPairs x part (spec.group_pairs (section x)) by_name.now }
    ensures { let rules = spec.functions_rules elf.now (section x.entry) in
        MatchResult result (λ _. AllHold rules) (FailsRules rules) }
{
    let found = section_pairs(alloc, elf, by_name)?;
    check_all(elf, x, part, &found)?;
    Ok(())
}
