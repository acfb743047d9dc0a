//! The rules on the functions and the source lines of .BTF.ext.

ghost use Rattle.std.specs.Prelude.{◌≡◌, ◌+◌, ◌-◌, ◌==◌, ◌||◌, ◌<◌, ◌≤◌, nat_lt, ℕ, true, [], ◌∷◌, length};
ghost use Rattle.bpf_elf.specs.Rules.{rule};
ghost use Rattle.bpf_object.specs.declared.fault.ObjectCause.TheVariants.{ExtensionLines};
ghost use Rattle.bpf_object.specs.declared.extension.Part.TheVariants.{Functions};
ghost use Rattle.bpf_object.specs.Extension.{group_count as spec_count};
ghost use Rattle.bpf_object.specs.Faults.{Checks};
ghost use Rattle.bpf_object.specs.Lines as spec;
ghost use Rattle.bpf_object.specs.Sources.{section, HasGroup};

use crate::extension::Part;
use crate::fault::{ObjectCause, ObjectFault, require};
use crate::source::{Source, group_count, part_len, records_len, word};
use bpf_elf::string_at;

/// The part that has the lines of functions: if that of lines is empty, each function is taken for a
/// line.
pub(crate) fn lines_part(x: Source<'_>) -> Part
    requires { 32 ≤ length x.bytes.now }
    ensures { result ≡ spec.lines_part (section x.entry) }
{
    if part_len(x, Part::Lines) == 0 {
        Part::Functions
    } else {
        Part::Lines
    }
}

/// insn_off of a record.
pub(crate) fn insn_off(x: Source<'_>, part: Part, group: usize, k: usize) -> usize
    requires group { HasGroup x part group }
    requires there { k < spec_count (section x) group }
    ensures { result ≡ spec.insn_off (section x.entry) part group k }
{
    word(x, group + 8 + records_len(part, k))
}

/// Whether the offset of a record is greater than that of the one before it.
fn follows(x: Source<'_>, part: Part, group: usize, k: usize) -> bool
    requires group { HasGroup x part group }
    requires there { k < spec_count (section x) group }
    ensures { result ≡ (k == 0 || nat_lt (spec.insn_off (section x.entry) part group (k - 1))
        (spec.insn_off (section x.entry) part group k)) }
{
    k == 0 || insn_off(x, part, group, k - 1) < insn_off(x, part, group, k)
}

/// Whether the offsets of a group ascend.
fn ascends(x: Source<'_>, part: Part, group: usize) -> bool
    requires { HasGroup x part group }
    ensures { result ≡ spec.ascends (section x.entry) part group }
{
    for k in 0..group_count(x, group) {
        if !follows(x, part, group, k) {
            return false;
        }
    }
    true
}

/// The first record from one on whose offset isn't less than `off`, or the number of records.
fn record_from(x: Source<'_>, part: Part, group: usize, from: usize, off: usize) -> usize
    requires group { HasGroup x part group }
    requires there { from ≤ spec_count (section x) group }
    ensures range { (from ≤ result) × (result ≤ spec_count (section x.entry) group) }
    ensures before { (k : ℕ) → from ≤ k → k < result
        → spec.insn_off (section x.entry) part group k < off }
    ensures found { result < spec_count (section x.entry) group
        → off ≤ spec.insn_off (section x.entry) part group result }
{
    let count = group_count(x, group);
    for k in from..count {
        if insn_off(x, part, group, k) >= off {
            return k;
        }
    }
    count
}

/// Whether a group has a record of an offset, if the first one that isn't less is known.
pub(crate) fn is_record(x: Source<'_>, part: Part, group: usize, first: usize, off: usize) -> bool
    requires group { HasGroup x part group }
    requires ascend { spec.ascends (section x) part group ≡ true }
    requires before { (k : ℕ) → k < first → spec.insn_off (section x) part group k < off }
    requires found { first < spec_count (section x) group
        → off ≤ spec.insn_off (section x) part group first }
    ensures { result ≡ spec.has_record (section x.entry) part group off }
{
    first < group_count(x, group) && insn_off(x, part, group, first) == off
}

/// Whether each function of a group has a line in a group of a part. Both groups ascend.
fn have_lines(x: Source<'_>, functions: usize, part: Part, lines: usize) -> bool
    requires functions { HasGroup x Functions functions }
    requires lines { HasGroup x part lines }
    requires functions_ascend { spec.ascends (section x) Functions functions ≡ true }
    requires lines_ascend { spec.ascends (section x) part lines ≡ true }
    ensures { result ≡ spec.have_lines (section x.entry) part functions lines }
{
    let mut line = 0;
    for k in 0..group_count(x, functions) {
        let off = insn_off(x, Part::Functions, functions, k);
        line = record_from(x, part, lines, line, off);
        if !is_record(x, part, lines, line, off) {
            return false;
        }
    }
    true
}

/// Whether a group of lines, of a part, belongs to a group of functions.
fn is_pair(x: Source<'_>, functions: usize, part: Part, lines: usize) -> bool
    requires functions { HasGroup x Functions functions }
    requires lines { HasGroup x part lines }
    ensures { result ≡ spec.is_pair (section x.entry) part functions lines }
{
    string_at(x.strings, word(x, functions)) == string_at(x.strings, word(x, lines))
        && ascends(x, Part::Functions, functions)
        && ascends(x, part, lines)
        && have_lines(x, functions, part, lines)
}

/// Checks a group of functions and the group of lines, of a part, at the same index.
pub(crate) fn check_pair(
    x: Source<'_>,
    functions: usize,
    part: Part,
    lines: usize,
) -> Result<(), ObjectFault>
    requires functions { HasGroup x Functions functions }
    requires lines { HasGroup x part lines }
    ensures { Checks (rule ExtensionLines (x.entry.start + functions)
        (spec.is_pair (section x.entry) part functions lines) ∷ []) result }
{
    let pos = u64::from(x.start) + functions as u64;
    let is_pair = is_pair(x, functions, part, lines);
    require(is_pair, pos, ObjectCause::ExtensionLines)
}
