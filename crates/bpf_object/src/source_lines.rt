//! The source lines of .BTF.ext: which record an instruction has, and what it says.

ghost use Rattle.std.specs.Prelude.{◌≡◌, ◌<◌, ⊤, option_map, MatchOption};
ghost use Rattle.bpf_object.specs.declared.extension.Part.TheVariants.{Lines};
ghost use Rattle.bpf_object.specs.Extension.{group_count as spec_count};
ghost use Rattle.bpf_object.specs.SourceLines as spec;
ghost use Rattle.bpf_object.specs.SourceLines.{line_value};
ghost use Rattle.bpf_object.specs.Sources.{section, HasGroup};

use crate::extension::Part;
use crate::line_checks::insn_off;
use crate::source::{Source, group_count, records_len, word};
use bpf_elf::string_at;

/// A source line, as a record of .BTF.ext has it (Linux Documentation/bpf/btf.rst, "4.2 .BTF.ext
/// section", struct bpf_line_info).
#[derive(Clone, Copy, Debug, PartialEq, Eq)]
pub struct SourceLine<'a> {
    /// The name of the source file, without its NUL. It is empty if file_name_off is 0.
    pub file: &'a [u8],
    /// The number of the line: the upper 22 bits of line_col.
    pub line: u32,
    /// The column: the lower 10 bits of line_col.
    pub column: u32,
}

/// The last record of a group whose insn_off isn't greater than an offset.
fn record_of(x: Source<'_>, offset: u64, group: usize) -> Option<usize>
    requires { HasGroup x Lines group }
    ensures is { result ≡ spec.record_of (section x.entry) offset group }
    ensures there { MatchOption result ⊤ (λ k. k < spec_count (section x.entry) group) }
{
    let mut found = None;
    for k in 0..group_count(x, group) {
        if insn_off(x, Part::Lines, group, k) as u64 <= offset {
            found = Some(k);
        }
    }
    found
}

/// The line of a record, if file_name_off is inside the strings.
pub(crate) fn line_at<'a>(x: Source<'a>, group: usize, k: usize) -> Option<SourceLine<'a>>
    requires group { HasGroup x Lines group }
    requires there { k < spec_count (section x) group }
    ensures { option_map line_value result ≡ spec.line_at (section x.entry) group k }
{
    let record = group + 8 + records_len(Part::Lines, k);
    let file = word(x, record + 4);
    if file >= x.strings.len() {
        return None;
    }
    let line_col = word(x, record + 12) as u32;
    Some(SourceLine {
        file: string_at(x.strings, file),
        line: line_col / 1_024,
        column: line_col % 1_024,
    })
}

/// The line of an offset in a group.
pub(crate) fn line_in<'a>(x: Source<'a>, offset: u64, group: usize) -> Option<SourceLine<'a>>
    requires { HasGroup x Lines group }
    ensures { option_map line_value result ≡ spec.line_in (section x.entry) offset group }
{
    let k = record_of(x, offset, group)?;
    line_at(x, group, k)
}
