//! The section .BTF: its size, what it is by itself, its form, its records, and their names.

ghost use Rattle.std.specs.Prelude.{◌≡◌, ◌+◌, ◌*◌, ◌^◌, ◌<◌, ◌≤◌, length, MatchResult};
ghost use Rattle.std.specs.List.{concat};
ghost use Rattle.bpf_elf.specs.Rules.{each, AllHold};
ghost use Rattle.btf_types.specs.Denotes.{HoldsSections};
ghost use Rattle.bpf_object.specs.Faults.{Checks, FailsRules};
ghost use Rattle.bpf_object.specs.Sources.{types_section};
ghost use Rattle.bpf_object.specs.Types as spec;
ghost use Rattle.bpf_object.specs.Types.{TypesSection};
ghost use Rattle.bpf_object.specs.TypesFaults.{KeepsTypes, FailsTypes, FailsBtf};

use crate::fault::{ObjectCause, ObjectError, ObjectFault, require};
use crate::taken_names::check_names;
use crate::type_checks::check_record;
use bpf_words::{Order, get32};
use btf_raw::BtfFault;
use btf_types::{BtfError, CheckedFile, FileSections};
use std::alloc::Allocator;

/// The most bytes of .BTF: 15 MiB.
pub(crate) const TYPES_LIMIT: usize = 15_728_640;

/// The section .BTF.
#[derive(Clone, Copy)]
pub(crate) struct TypesSource<'a> {
    /// The byte order of the file.
    pub(crate) order: Order,
    /// Where the header of the section is in the file.
    pub(crate) header_offset: u32,
    /// Where the section is in the file.
    pub(crate) start: u32,
    /// Its bytes.
    pub(crate) bytes: &'a [u8],
}

/// Checks the size.
fn check_size(x: TypesSource<'_>) -> Result<(), ObjectFault>
    ensures { Checks (spec.size_rules (types_section x.entry)) result }
{
    let is_short = x.bytes.len() <= TYPES_LIMIT;
    require(
        is_short,
        u64::from(x.header_offset) + 32,
        ObjectCause::TypesTooLarge,
    )
}

/// A fault of BTF in a section that begins at `start`.
fn in_file(start: u32, fault: BtfFault) -> ObjectFault
    requires { fault.pos < 2 ^ 63 }
    ensures pos { result.pos ≡ start + fault.pos }
    ensures cause { result.cause ≡ ObjectCause.Types fault.cause }
{
    ObjectFault {
        pos: u64::from(start) + fault.pos,
        cause: ObjectCause::Types(fault.cause),
    }
}

/// Checks what .BTF is by itself.
#[tactic(auto, using(crate::proofs::FaultLemmas::fault_near))]
fn check_btf<'a, A: Allocator>(
    alloc: A,
    x: TypesSource<'a>,
) -> Result<CheckedFile<'a, A>, ObjectError>
    requires { length x.bytes.now ≤ 15728640 }
    ensures { MatchResult result (HoldsSections x.entry.bytes.now)
        (FailsBtf (types_section x.entry)) }
{
    match CheckedFile::check(alloc, x.bytes) {
        Ok(file) => Ok(file),
        Err(BtfError::Fault(fault)) => Err(ObjectError::Fault(in_file(x.start, fault))),
        Err(BtfError::Memory) => Err(ObjectError::Memory),
    }
}

/// Checks the byte order and the layout.
fn check_form(x: TypesSource<'_>, sections: &FileSections<'_>) -> Result<(), ObjectFault>
    requires { HoldsSections x.bytes.now sections.now }
    ensures { Checks (spec.form_rules (types_section x.entry) sections.now) result }
{
    let start = u64::from(x.start);
    let order = sections.order();
    require(order == x.order, start, ObjectCause::TypesOrder)?;
    let type_off = get32(order, x.bytes, 8);
    require(type_off == 0, start + 8, ObjectCause::TypesLayout)
}

/// Checks the records, of which the first one is at `first` of the file.
fn check_records(sections: &FileSections<'_>, first: u64) -> Result<(), ObjectFault>
    requires near { first < 2 ^ 33 }
    requires short { 4 * length (concat sections.now.frames) ≤ 2 ^ 25 }
    ensures { Checks (each (length sections.now.frames)
        (spec.rules_of first sections.now)) result }
{
    let strings = sections.strings();
    let mut pos = first;
    for k in 0..sections.count() {
        let record = sections.record(k + 1);
        check_record(strings, &record, pos)?;
        pos += 4 * record.word_count() as u64;
    }
    Ok(())
}

/// Checks the records, and then their names.
fn check_all<A: Allocator + Copy>(
    alloc: A,
    sections: &FileSections<'_>,
    first: u64,
) -> Result<(), ObjectError>
    requires near { first < 2 ^ 33 }
    requires short { 4 * length (concat sections.now.frames) ≤ 2 ^ 25 }
    ensures { let all = spec.all_rules first sections.now in
        MatchResult result (λ _. AllHold all) (FailsRules all) }
{
    check_records(sections, first)?;
    check_names(alloc, sections, first)
}

/// Checks a .BTF without faults of its own.
fn check_sections<A: Allocator + Copy>(
    alloc: A,
    x: TypesSource<'_>,
    sections: &FileSections<'_>,
) -> Result<(), ObjectError>
    requires { HoldsSections x.bytes.now sections.now }
    ensures { let rules = spec.types_rules (types_section x.entry) sections.now in
        MatchResult result (λ _. AllHold rules) (FailsRules rules) }
{
    check_form(x, sections)?;
    let header_len = get32(sections.order(), x.bytes, 4);
    check_all(alloc, sections, u64::from(x.start) + u64::from(header_len))
}

/// Checks the section .BTF of an object file, and gives its types.
///
/// `order` is the byte order of the file, `header_offset` the offset in bytes of the section's
/// header in it, and `start` that of the section. `bytes` are the section.
///
/// # Errors
///
/// `Fault` with the first rule that the section breaks, and where in the file. The rules are those
/// of `specs/Types.antt`, in their sequence. Between the size and the others,
/// [`Types`](ObjectCause::Types) is reported with the first fault of BTF. `Memory` if memory can't
/// be allocated.
pub(crate) fn check_types<'a, A: Allocator + Copy>(
    alloc: A,
    order: Order,
    header_offset: u32,
    start: u32,
    bytes: &'a [u8],
) -> Result<CheckedFile<'a, A>, ObjectError>
    ensures { let x : TypesSection =
        record { order = order; header_offset = header_offset; start = start; bytes = bytes.now } in
        MatchResult result (KeepsTypes x) (FailsTypes x) }
{
    let x = TypesSource {
        order,
        header_offset,
        start,
        bytes,
    };
    check_size(x)?;
    let file = check_btf(alloc, x)?;
    check_sections(alloc, x, &file.sections())?;
    Ok(file)
}
