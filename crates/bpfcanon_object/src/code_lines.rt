//! The lines of `check` for what is reported of code.

ghost use Rattle.std.specs.Prelude.{◌≡◌, ◌<◌, ◌≤◌, IfOk, OnErr, option_map, string_bytes};
ghost use Rattle.bpf_elf.specs.Numbers.{count};
ghost use Rattle.bpf_object.specs.SourceLines.{line_value};
ghost use Rattle.bpfcanon_object.specs.Code as code_spec;
ghost use Rattle.bpfcanon_object.specs.Code.{IsFoundIn};
ghost use Rattle.bpfcanon_object.specs.Formats as spec;
ghost use Rattle.bpfcanon_object.specs.Reports.{PutsCodeLines, PutsSomeCodeLines};

use crate::check::Format;
use crate::code::found_in;
use crate::desk::Stop;
use crate::escape::escaped;
use crate::finding::Finding;
use crate::github::{Part, github_text};
use crate::json::{json_line, json_text};
use crate::names::name_text;
use crate::reports::{put_if_long, put_report};
use crate::sources::{github_source, json_source, known, text_source};
use crate::target::Target;
use bpf_elf::FILE_LIMIT;
use bpf_object::{AcceptedObject, SourceLine};
use std::alloc::{AllocError, Allocator};
use std::io::Write;

/// A location in a section, and why it is reported: `SECTION+0xOFFSET: CAUSE: TEXT`.
fn code_location<A: Allocator + Copy>(
    alloc: A,
    section: &str,
    found: Finding,
) -> Result<String<A>, AllocError>
    ensures { IfOk result (λ text. string_bytes text ≡ spec.code_location section.now found) }
{
    let section = escaped(alloc, section)?;
    let Finding { pos, reason } = found;
    let cause = reason.name();
    let text = reason.text(alloc)?;
    format!(in alloc; "{section}+0x{pos:x}: {cause}: {text}")
}

/// The members of a JSON object for a location in a section, why it is reported, and its source line.
fn json_code<A: Allocator + Copy>(
    alloc: A,
    section: &str,
    found: Finding,
    source: Option<SourceLine<'_>>,
) -> Result<String<A>, AllocError>
    ensures { IfOk result (λ members. string_bytes members
        ≡ spec.json_code section.now found (option_map line_value source.entry)) }
{
    let section = json_text(alloc, section)?;
    let Finding { pos, reason } = found;
    let cause = reason.name();
    let text = reason.text(alloc)?;
    let source = json_source(alloc, source)?;
    format!(in alloc;
        "\"section\":\"{section}\",\"offset\":{pos},\"cause\":\"{cause}\",\"text\":\"{text}\"{source}"
    )
}

/// The line for what is reported of a section.
fn code_line<A: Allocator + Copy>(
    alloc: A,
    format: Format,
    name: &str,
    section: &str,
    found: Finding,
    source: Option<SourceLine<'_>>,
) -> Result<String<A>, AllocError>
    ensures { IfOk result (λ line. string_bytes line
        ≡ spec.code_line format name.now section.now found (option_map line_value source.entry)) }
{
    match format {
        Format::Text => {
            let name = escaped(alloc, name)?;
            let location = code_location(alloc, section, found)?;
            let source = text_source(alloc, source)?;
            format!(in alloc; "{name}: {location}{source}\n")
        }
        Format::Json => {
            let members = json_code(alloc, section, found, source)?;
            json_line(alloc, name, members.as_str())
        }
        Format::Github => {
            let source = github_source(alloc, name, source)?;
            let name = escaped(alloc, name)?;
            let location = code_location(alloc, section, found)?;
            let name = github_text(alloc, Part::Message, name.as_str())?;
            let text = github_text(alloc, Part::Message, location.as_str())?;
            format!(in alloc; "::error {source}::{name}: {text}\n")
        }
    }
}

/// How often a source line is looked for in a file: each time all of it may be gone through, which is
/// so done with 64 MiB, or one file.
pub fn most_sources(bytes: &[u8]) -> usize
    ensures { result ≡ code_spec.most_sources bytes.now }
{
    1 + FILE_LIMIT / (1 + bytes.len())
}

/// The source line for what is reported of a section, if it is looked for.
fn source_if<'a>(
    object: &'a AcceptedObject<'_>,
    i: usize,
    found: Finding,
    is_sought: bool,
) -> Option<SourceLine<'a>>
    ensures { option_map line_value result
        ≡ code_spec.source_if is_sought object.now i found }
{
    if is_sought {
        known(object.source_line(i, found.pos))
    } else {
        None
    }
}

/// The line for what is reported of a section, if anything is.
fn line_if<A: Allocator + Copy>(
    alloc: A,
    format: Format,
    name: &str,
    object: &AcceptedObject<'_>,
    i: usize,
    is_sought: bool,
    found: Option<Finding>,
) -> Result<String<A>, AllocError>
    requires { i < count object.now }
    ensures { IfOk result (λ line.
        string_bytes line ≡ code_spec.line_if format name.now object.now i is_sought found) }
{
    match found {
        Some(found) => {
            let section = name_text(alloc, object.elf().name(i))?;
            let source = source_if(object, i, found, is_sought);
            code_line(alloc, format, name, section.as_str(), found, source)
        }
        None => Ok(String::new(alloc)),
    }
}

/// What is reported of a section, if anything is.
fn finding(target: Option<Target>, object: &AcceptedObject<'_>, i: usize) -> Option<Finding>
    requires { i < count object.now }
    ensures { IsFoundIn target object.now i result }
{
    found_in(target, object.elf(), i)
}

/// How many findings a section has.
fn count_of(found: Option<Finding>) -> usize
    ensures number { result ≡ code_spec.count_of found }
    ensures one { result ≤ 1 }
{
    match found {
        Some(_) => 1,
        None => 0,
    }
}

/// Writes the lines for what is reported of all sections, and says of how many sections anything is.
/// For the first `most` of them a source line is looked for: each time .BTF.ext may be gone through.
///
/// # Errors
///
/// `WriteFailed` if a write fails, and `Memory` if memory can't be allocated.
pub fn put_code_lines<A: Allocator + Copy, O: Write, E: Write>(
    alloc: A,
    lines: &mut O,
    messages: &mut E,
    format: Format,
    target: Option<Target>,
    name: &str,
    object: &AcceptedObject<'_>,
    most: usize,
) -> Result<usize, Stop>
    ensures whole { IfOk result (λ seen.
        PutsCodeLines format target name.now most object.now (count object.now) seen
        (O.contents lines.old) (O.contents lines.new)
        (E.contents messages.old) (E.contents messages.new)) }
    ensures part { OnErr result (PutsSomeCodeLines format target name.now most object.now
        (O.contents lines.old) (O.contents lines.new)
        (E.contents messages.old) (E.contents messages.new)) }
{
    let mut stored = String::new(alloc);
    let mut seen = 0;
    for i in 0..object.elf().section_count() {
        let found = finding(target, object, i);
        let line = line_if(alloc, format, name, object, i, seen < most, found)?;
        stored.push_str(line.as_str())?;
        seen += count_of(found);
        put_if_long(lines, messages, format, &mut stored)?;
    }
    put_report(lines, messages, format, stored.as_str())?;
    Ok(seen)
}
