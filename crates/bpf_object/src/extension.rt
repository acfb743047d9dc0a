//! The section .BTF.ext: its header, its parts and all of its rules.

ghost use Rattle.std.specs.Prelude.{◌≡◌, ◌++◌, ◌≤◌, [], true, length, MatchResult};
ghost use Rattle.bpf_elf.specs.Names.{is_closed};
ghost use Rattle.bpf_elf.specs.Rules.{AllHold};
ghost use Rattle.bpf_object.specs.declared.extension.Part.TheVariants.{Functions, Lines, Relocations};
ghost use Rattle.bpf_object.specs.Faults.{FailsRules, IsFirstFault};
ghost use Rattle.bpf_object.specs.FunctionLines.{group_pairs};
ghost use Rattle.bpf_object.specs.Extension.{head_rules, form_rules, part_rules};
ghost use Rattle.bpf_object.specs.Lines.{lines_part as spec_part, section_rules, extension_rules};
ghost use Rattle.bpf_object.specs.private.Pairs.{HasPairs};
ghost use Rattle.bpf_object.specs.Sources.{
  section,
  IsSource,
  HasHeader,
  HasPart,
  HasGroups,
  HasParts,
};

use crate::access_checks::check_accesses;
use crate::fault::{ObjectCause, ObjectError, ObjectFault, require};
use crate::group_checks::check_groups;
use crate::line_checks::lines_part;
use crate::pairs::{Pair, check_pairs};
use crate::source::{Source, part_end, part_field, part_len, part_start, record_size, word};
use bpf_words::{Order, get16};
use std::alloc::Allocator;
use std::collections::BTreeMap;

/// A part of .BTF.ext.
#[derive(Clone, Copy, Debug, PartialEq, Eq)]
pub enum Part {
    /// The types of functions.
    Functions,
    /// Source lines.
    Lines,
    /// CO-RE relocations.
    Relocations,
}

/// The magic number of .BTF.ext, which is that of .BTF.
const MAGIC: u16 = 0xeb9f;

/// Checks the header.
fn check_header(x: Source<'_>) -> Result<(), ObjectFault>
    requires { IsSource x }
    ensures { MatchResult result
        (λ _. AllHold (head_rules (section x.entry)) × HasHeader x.entry)
        (IsFirstFault (head_rules (section x.entry))) }
{
    let start = u64::from(x.start);
    require(x.bytes.len() >= 32, start, ObjectCause::ExtensionCut)?;
    let magic = get16(x.order, x.bytes, 0);
    require(magic == MAGIC, start, ObjectCause::ExtensionMagic)?;
    require(x.bytes[2] == 1, start + 2, ObjectCause::ExtensionVersion)?;
    require(x.bytes[3] == 0, start + 3, ObjectCause::ExtensionFlags)?;
    let len = word(x, 4);
    let has_parts = 32 <= len && len < x.bytes.len();
    require(has_parts, start + 4, ObjectCause::ExtensionHeaderSize)
}

/// Checks where a part is, and the size of its records.
fn check_form(x: Source<'_>, part: Part) -> Result<(), ObjectFault>
    requires { HasHeader x }
    ensures { MatchResult result
        (λ _. AllHold (form_rules (section x.entry) part) × HasPart x.entry part)
        (IsFirstFault (form_rules (section x.entry) part)) }
{
    let start = u64::from(x.start);
    let field = part_field(part);
    let offset = word(x, field);
    let len = part_len(x, part);
    let is_inside = part_end(x, part) <= x.bytes.len() && offset % 4 == 0 && len % 4 == 0;
    require(is_inside, start + field as u64, ObjectCause::ExtensionPart)?;
    let at = part_start(x, part);
    let has_size = len == 0 || word(x, at) == record_size(part);
    require(
        has_size,
        start + at as u64,
        ObjectCause::ExtensionRecordSize,
    )
}

/// Checks a part and its groups.
fn check_part(x: Source<'_>, part: Part) -> Result<(), ObjectFault>
    requires { HasHeader x }
    ensures { MatchResult result
        (λ _. AllHold (part_rules (section x.entry) part) × HasGroups x.entry part)
        (IsFirstFault (part_rules (section x.entry) part)) }
{
    check_form(x, part)?;
    check_groups(x, part)?;
    Ok(())
}

/// Checks all parts.
fn check_parts(x: Source<'_>) -> Result<(), ObjectFault>
    requires { HasHeader x }
    ensures { let rules = part_rules (section x.entry) Functions
        ++ (part_rules (section x.entry) Lines ++ part_rules (section x.entry) Relocations) in
        MatchResult result (λ _. AllHold rules × HasParts x.entry) (IsFirstFault rules) }
{
    check_part(x, Part::Functions)?;
    check_part(x, Part::Lines)?;
    check_part(x, Part::Relocations)?;
    Ok(())
}

/// Checks the header, the parts, and the functions and lines. Returns the groups of these by the names
/// of their sections.
pub(crate) fn check_section<'a, A: Allocator + Copy>(
    alloc: A,
    x: Source<'a>,
) -> Result<BTreeMap<(usize, &'a [u8]), Pair, A>, ObjectError>
    requires { IsSource x }
    ensures { let s = section x.entry in MatchResult result
        (λ by_name. AllHold (section_rules s) × (HasParts x.entry
        × HasPairs x.entry (spec_part s) (group_pairs s) by_name))
        (FailsRules (section_rules s)) }
{
    check_header(x)?;
    check_parts(x)?;
    check_pairs(alloc, x, lines_part(x))
}

/// Checks all rules on a section by itself.
fn check_source<A: Allocator + Copy>(alloc: A, x: Source<'_>) -> Result<(), ObjectError>
    requires { IsSource x }
    ensures { let rules = extension_rules (section x.entry) [] in
        MatchResult result (λ _. AllHold rules) (FailsRules rules) }
{
    check_section(alloc, x)?;
    check_accesses(x)?;
    Ok(())
}

/// Checks the section .BTF.ext of an object file (Linux Documentation/bpf/btf.rst, "4.2 .BTF.ext
/// section").
///
/// `order` is the byte order of the file, and `start` the offset in bytes of the section in it.
/// `bytes` are the section, and `strings` the strings of .BTF, which must begin and end with a NUL.
/// `start` and the length of `bytes` must be at most 64 MiB.
///
/// # Errors
///
/// `Memory` if memory can't be allocated. `Fault` with the first rule that the section breaks, and
/// where in the file. The rules are checked in this sequence:
///
/// - The header: [`ExtensionCut`](ObjectCause::ExtensionCut),
///   [`ExtensionMagic`](ObjectCause::ExtensionMagic),
///   [`ExtensionVersion`](ObjectCause::ExtensionVersion),
///   [`ExtensionFlags`](ObjectCause::ExtensionFlags) and
///   [`ExtensionHeaderSize`](ObjectCause::ExtensionHeaderSize).
/// - The functions, then the lines, then the CO-RE relocations:
///   [`ExtensionPart`](ObjectCause::ExtensionPart) and
///   [`ExtensionRecordSize`](ObjectCause::ExtensionRecordSize), and for each group
///   [`ExtensionGroup`](ObjectCause::ExtensionGroup), and
///   [`ExtensionString`](ObjectCause::ExtensionString) if no section can have its name.
/// - Each group of functions with the group of lines at the same index:
///   [`ExtensionLines`](ObjectCause::ExtensionLines) if one of them is missing, if they are of
///   sections with different names, if the instruction offsets of one of them don't ascend, or if a
///   function has no line; then [`ExtensionGroupTwice`](ObjectCause::ExtensionGroupTwice) if an
///   earlier group of functions is of a section with the same name. If the part of lines is empty,
///   each function is taken for a line.
/// - Each CO-RE relocation: [`ExtensionString`](ObjectCause::ExtensionString) if access_str_off is
///   not inside `strings`.
///
/// The rule on symbols, [`FunctionLines`](ObjectCause::FunctionLines), isn't among them.
pub fn check_extension<A: Allocator + Copy>(
    alloc: A,
    order: Order,
    start: u32,
    bytes: &[u8],
    strings: &[u8],
) -> Result<(), ObjectError>
    requires strings { is_closed strings.now ≡ true }
    requires start { start ≤ 67108864 }
    requires short { length bytes.now ≤ 67108864 }
    ensures { let rules = extension_rules
        (record { order = order; start = start; bytes = bytes.now; strings = strings.now }) [] in
        MatchResult result (λ _. AllHold rules) (FailsRules rules) }
{
    let x = Source {
        order,
        start,
        bytes,
        strings,
        numbers: &[],
    };
    check_source(alloc, x)
}
