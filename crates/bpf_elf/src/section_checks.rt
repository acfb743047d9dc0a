//! The rules on the section header table and on each section.

ghost use Rattle.std.specs.Prelude.{◌≡◌, ◌+◌, ◌<◌, ◌≤◌, length, MatchResult};
ghost use Rattle.bpf_elf.specs.Rules.{each, AllHold, IsFirstFault, Checks};
ghost use Rattle.bpf_elf.specs.Numbers.{count};
ghost use Rattle.bpf_elf.specs.Sections as spec;
ghost use Rattle.bpf_elf.specs.Headers.{IsHeaderOf, HasNames, IsKnown, AreKnown, IsTotal};

use crate::fault::{ElfCause, ElfFault, require};
use crate::header::Header;
use crate::kinds::{Kind, SHT_REL, is_kind, is_single};
use crate::names::is_section_name;
use crate::sections::{
    is_inside, is_string_table, kept_size, kind, name, names_content, section_header,
};

/// Whether n bytes from an offset on are 0.
pub(crate) fn is_zero_at(bytes: &[u8], pos: usize, n: usize) -> bool
    requires { pos + n ≤ length bytes.now }
    ensures { result ≡ spec.is_zero_at bytes.now pos n }
{
    bytes[pos..pos + n].iter().all(|byte| *byte == 0)
}

/// Checks that the first section header is zero, and that there are names of sections.
pub(crate) fn check_table(bytes: &[u8], header: Header) -> Result<(), ElfFault>
    requires { IsHeaderOf bytes.now header }
    ensures { MatchResult result
        (λ _. AllHold (spec.table_rules bytes.now) × HasNames bytes.now header)
        (IsFirstFault (spec.table_rules bytes.now)) }
{
    let is_zero = is_zero_at(bytes, header.table, 64);
    require(is_zero, header.table, ElfCause::FirstSection)?;
    let has_names = is_string_table(bytes, header, header.names);
    require(has_names, 62, ElfCause::NamesTable)
}

/// The first of the first n sections that has a kind, or 0.
pub(crate) fn section_of(bytes: &[u8], header: Header, wanted: Kind, n: usize) -> usize
    requires header { HasNames bytes.now header }
    requires there { n ≤ count bytes.now }
    requires known { AreKnown bytes.now n }
    ensures { result ≡ spec.section_of bytes.now wanted n }
{
    for i in 0..n {
        if is_kind(wanted, kind(bytes, header, i)) {
            return i;
        }
    }
    0
}

/// Whether an earlier section has the kind of a section.
fn is_again(bytes: &[u8], header: Header, kind: Option<Kind>, i: usize) -> bool
    requires header { HasNames bytes.now header }
    requires there { i ≤ count bytes.now }
    requires known { AreKnown bytes.now i }
    requires kind { kind ≡ spec.kind bytes.now i }
    ensures { result ≡ spec.is_again bytes.now i }
{
    match kind {
        Some(wanted) => section_of(bytes, header, wanted, i) > 0,
        None => false,
    }
}

/// Checks one section, and returns how many bytes are kept of all sections up to it. `total` bytes
/// are kept of those before it.
fn check_section(bytes: &[u8], header: Header, i: usize, total: usize) -> Result<usize, ElfFault>
    requires header { HasNames bytes.now header }
    requires there { i < count bytes.now }
    requires known { AreKnown bytes.now i }
    requires total { IsTotal bytes.now i total }
    ensures { MatchResult result
        (λ total. AllHold (spec.section_rules bytes.now i) × IsKnown bytes.now i
        × IsTotal bytes.now (i + 1) total)
        (IsFirstFault (spec.section_rules bytes.now i)) }
{
    let pos = header.table + 64 * i;
    require(is_inside(bytes, header, i), pos + 24, ElfCause::SectionCut)?;
    let name_offset = section_header(bytes, header, i).name_offset as usize;
    let is_named = is_section_name(names_content(bytes, header), name_offset);
    require(is_named, pos, ElfCause::SectionName)?;
    let kind = kind(bytes, header, i);
    require(i == 0 || kind.is_some(), pos + 4, ElfCause::SectionKind)?;
    let is_twice = is_single(kind) && is_again(bytes, header, kind, i);
    require(!is_twice, pos + 4, ElfCause::SectionTwice)?;
    let total = total + kept_size(bytes, header, kind, i);
    require(total <= bytes.len(), pos, ElfCause::SectionsTooLarge)?;
    Ok(total)
}

/// Checks all sections.
pub(crate) fn check_sections(bytes: &[u8], header: Header) -> Result<(), ElfFault>
    requires { HasNames bytes.now header }
    ensures { MatchResult result
        (λ _. AllHold (each (count bytes.now) (spec.section_rules bytes.now))
        × AreKnown bytes.now (count bytes.now))
        (IsFirstFault (each (count bytes.now) (spec.section_rules bytes.now))) }
{
    let mut total = 0;
    for i in 0..header.count {
        total = check_section(bytes, header, i, total)?;
    }
    Ok(())
}

/// Whether a name is .rel and the name of a section.
fn is_table_name(name: &[u8], target: &[u8]) -> bool
    ensures { result ≡ spec.is_table_name name.now target.now }
{
    name.starts_with(b".rel") && &name[4..] == target
}

/// Whether a table of relocations is that of a section.
fn is_target(bytes: &[u8], header: Header, i: usize, target: usize) -> bool
    requires header { HasNames bytes.now header }
    requires there { i < count bytes.now }
    requires known { AreKnown bytes.now (count bytes.now) }
    ensures { result ≡ spec.is_target bytes.now i target }
{
    target > 0
        && target < header.count
        && is_table_name(name(bytes, header, i), name(bytes, header, target))
        && (!is_kind(Kind::Relocations, kind(bytes, header, i))
            || is_kind(Kind::Data, kind(bytes, header, target)))
}

/// Checks that a table of relocations is that of a section.
fn check_target(bytes: &[u8], header: Header, i: usize) -> Result<(), ElfFault>
    requires header { HasNames bytes.now header }
    requires there { i < count bytes.now }
    requires known { AreKnown bytes.now (count bytes.now) }
    ensures { Checks (spec.target_rules bytes.now i) result }
{
    let section = section_header(bytes, header, i);
    let fits = section.section_type != SHT_REL
        || is_target(bytes, header, i, section.info as usize);
    require(fits, header.table + 64 * i + 44, ElfCause::RelocationTarget)
}

/// Checks that each table of relocations is that of a section.
pub(crate) fn check_targets(bytes: &[u8], header: Header) -> Result<(), ElfFault>
    requires header { HasNames bytes.now header }
    requires known { AreKnown bytes.now (count bytes.now) }
    ensures { Checks (each (count bytes.now) (spec.target_rules bytes.now)) result }
{
    for i in 0..header.count {
        check_target(bytes, header, i)?;
    }
    Ok(())
}
