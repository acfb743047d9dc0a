//! The canonical file of an object file: the checks of all rules, and then the file that is written
//! of what is kept.

ghost use Rattle.std.specs.Prelude.{
  ◌≡◌,
  ◌<◌,
  true,
  None,
  Some,
  IfOk,
  IfErr,
  MatchResult,
};
ghost use Rattle.bpf_elf.specs.{ElfRules.IsElf, Names.is_closed, Rules.AllHold};
ghost use Rattle.bpf_object.specs.Canonical.{canonical};
ghost use Rattle.bpf_object.specs.Denotes as spec;
ghost use Rattle.bpf_object.specs.Denotes.{Denotes, IsCanonicalFile};
ghost use Rattle.bpf_object.specs.Faults.{Checks, FailsRules};
ghost use Rattle.bpf_object.specs.ObjectFaults.{Fails};
ghost use Rattle.bpf_object.specs.Objects.{Object};
ghost use Rattle.bpf_object.specs.Sources.{section, IsSource};
ghost use Rattle.bpf_object.specs.TypesFaults.{KeepsTypes, FailsTypes};
ghost use Rattle.bpf_object.specs.private.WrittenTypes.{IsRead};
ghost use Rattle.bpf_object.specs.private.Written.{content_of, items_of};
ghost use Rattle.bpf_object.specs.private.OrderedTypes.{Keeps};
ghost use Rattle.bpf_object.specs.private.TypeSteps.{AreNumbered};

use crate::access_checks::check_accesses;
use crate::extension::check_section;
use crate::fault::{ObjectCause, ObjectError, ObjectFault, require};
use crate::function_checks::check_functions;
use crate::line_checks::lines_part;
use crate::names::TOO_LARGE;
use crate::object_writer::{result_limit, write_object};
use crate::source::{Source, renumbered};
use crate::type_order::type_order;
use crate::types::check_types;
use crate::types_writer::write_types;
use bpf_elf::{Elf, Kind};
use btf_types::{CheckedFile, FileSections};
use std::alloc::Allocator;

/// Checks that there is no .BTF.ext.
fn check_no_extension(elf: &Elf<'_>) -> Result<(), ObjectFault>
    ensures { Checks (spec.without_types_rules elf.now) result }
{
    let at = elf.section_of(Kind::Extension);
    let offset = u64::from(elf.header_offset(at));
    require(at == 0, offset, ObjectCause::ExtensionWithoutTypes)
}

/// .BTF.ext of a file, without bytes if there is none.
pub(crate) fn own_extension<'a>(elf: &'a Elf<'_>, strings: &'a [u8]) -> Source<'a>
    requires { is_closed strings.now ≡ true }
    ensures is { section result ≡ spec.extension_of elf.now strings.now }
    ensures strings { result.strings.now ≡ strings.now }
    ensures source { IsSource result }
{
    let at = elf.section_of(Kind::Extension);
    let bytes = if at == 0 { &[] } else { elf.content(at) };
    Source {
        order: elf.order(),
        start: elf.section(at).offset as u32,
        bytes,
        strings,
        numbers: &[],
    }
}

/// Checks .BTF.ext, if there is one.
fn check_own_extension<'a, A: Allocator + Copy>(
    alloc: A,
    elf: &'a Elf<'_>,
    x: Source<'a>,
) -> Result<(), ObjectError>
    requires source { IsSource x }
    requires own { section x ≡ spec.extension_of elf.now x.strings.now }
    ensures { let rules = spec.rules_of_extension elf.now x.entry.strings.now in
        MatchResult result (λ _. AllHold rules × IsRead x.entry) (FailsRules rules) }
{
    if elf.section_of(Kind::Extension) == 0 {
        return Ok(());
    }
    let by_name = check_section(alloc, x)?;
    check_functions(alloc, elf, x, lines_part(x), &by_name)?;
    check_accesses(x)?;
    Ok(())
}

/// Checks .BTF, which is there.
fn check_own_types<'a, A: Allocator + Copy>(
    alloc: A,
    elf: &'a Elf<'_>,
) -> Result<CheckedFile<'a, A>, ObjectError>
    ensures { let x = spec.types_of elf.now in MatchResult result (KeepsTypes x) (FailsTypes x) }
{
    let at = elf.section_of(Kind::Types);
    let start = elf.section(at).offset as u32;
    check_types(
        alloc,
        elf.order(),
        elf.header_offset(at),
        start,
        elf.content(at),
    )
}

/// The canonical file of a file without .BTF.
fn canon_bare<A: Allocator + Copy>(alloc: A, elf: &Elf<'_>) -> Result<Vec<u8, A>, ObjectError>
    requires elf { IsElf elf.now }
    requires bare { spec.types_at elf.now ≡ 0 }
    ensures { MatchResult result (λ out. IsCanonicalFile elf.now out.items) (Fails elf.now) }
{
    check_no_extension(elf)?;
    write_object(alloc, elf, None, None)
}

/// The bytes of a section, if there is one.
fn content<A: Allocator>(section: &Option<Vec<u8, A>>) -> Option<&[u8]>
    ensures { content_of result ≡ items_of section.now }
{
    match section {
        Some(bytes) => Some(bytes.as_slice()),
        None => None,
    }
}

/// The canonical file of a file, from the order of its records and their new numbers.
fn write_typed<A: Allocator + Copy>(
    alloc: A,
    elf: &Elf<'_>,
    sections: &FileSections<'_>,
    ids: &[u32],
    x: Source<'_>,
) -> Result<Vec<u8, A>, ObjectError>
    requires keeps { Keeps elf.now sections.now }
    requires order { AreNumbered sections.now ids.now x.numbers.now }
    requires own { section x ≡ spec.extension_of elf.now sections.now.strings }
    requires read { IsRead x }
    requires strings { x.strings.now ≡ sections.now.strings }
    ensures { MatchResult result (λ out. IsCanonicalFile elf.now out.items) (Fails elf.now) }
{
    let Some(written) = write_types(alloc, sections, ids, x, result_limit(elf))? else {
        return Err(ObjectError::Fault(TOO_LARGE));
    };
    let extension = content(&written.extension);
    write_object(alloc, elf, Some(written.types.as_slice()), extension)
}

/// The canonical file of a file whose .BTF and .BTF.ext have been checked.
fn write_ordered<A: Allocator + Copy>(
    alloc: A,
    elf: &Elf<'_>,
    sections: &FileSections<'_>,
    x: Source<'_>,
) -> Result<Vec<u8, A>, ObjectError>
    requires keeps { Keeps elf.now sections.now }
    requires own { section x ≡ spec.extension_of elf.now sections.now.strings }
    requires read { IsRead x }
    requires strings { x.strings.now ≡ sections.now.strings }
    requires closed { is_closed sections.now.strings ≡ true }
    ensures { MatchResult result (λ out. IsCanonicalFile elf.now out.items) (Fails elf.now) }
{
    let order = type_order(alloc, sections)?;
    let x = renumbered(x, &order.numbers);
    write_typed(alloc, elf, sections, &order.ids, x)
}

/// The canonical file of a file with .BTF.
fn canon_typed<A: Allocator + Copy>(alloc: A, elf: &Elf<'_>) -> Result<Vec<u8, A>, ObjectError>
    requires elf { IsElf elf.now }
    requires there { 0 < spec.types_at elf.now }
    ensures { MatchResult result (λ out. IsCanonicalFile elf.now out.items) (Fails elf.now) }
{
    let file = check_own_types(alloc, elf)?;
    let sections = file.sections();
    let strings = sections.strings();
    let x = own_extension(elf, strings);
    check_own_extension(alloc, elf, x)?;
    write_ordered(alloc, elf, &sections, x)
}

/// The canonical file, or why there is none.
fn canon_file<A: Allocator + Copy>(alloc: A, bytes: &[u8]) -> Result<Vec<u8, A>, ObjectError>
    ensures { MatchResult result (λ out. IsCanonicalFile bytes.now out.items) (Fails bytes.now) }
{
    let elf = Elf::read(bytes)?;
    if elf.section_of(Kind::Types) == 0 {
        canon_bare(alloc, &elf)
    } else {
        canon_typed(alloc, &elf)
    }
}

/// The canonical file of a BPF object file (docs/OBJECTS.md).
///
/// It holds the same parts as the file, and depends on nothing else.
///
/// # Errors
///
/// `Fault` with the first rule that the file breaks: those of the ELF file, then those of .BTF, then
/// those of .BTF.ext, and then [`ResultTooLarge`](ObjectCause::ResultTooLarge) if the canonical file
/// is larger than a file may be, or than four times the file and 64 KiB, or its .BTF is larger than
/// that of a file may be. `Memory` if memory can't be allocated.
pub fn canon_object<A: Allocator + Copy>(alloc: A, bytes: &[u8]) -> Result<Vec<u8, A>, ObjectError>
    ensures found { IfOk result (λ canon. (x : Object)
        × (Denotes bytes.now x × (canon.items ≡ canonical x))) }
    ensures all { (x : Object) → Denotes bytes.now x
        → MatchResult result (λ canon. canon.items ≡ canonical x) (λ e. e ≡ ObjectError.Memory) }
    ensures fault { IfErr result (Fails bytes.now) }
{
    canon_file(alloc, bytes)
}
