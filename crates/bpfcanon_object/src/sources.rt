//! Source lines as `check` writes them. They are those of the original file: a canonical one has
//! none.

ghost use Rattle.std.specs.Prelude.{◌≡◌, IfOk, option_map, string_bytes};
ghost use Rattle.bpf_object.specs.SourceLines.{line_value};
ghost use Rattle.bpfcanon_object.specs.Code as code_spec;
ghost use Rattle.bpfcanon_object.specs.Formats as spec;

use crate::escape::escaped;
use crate::github::{Part, github_text};
use crate::json::json_text;
use crate::names::name_text;
use bpf_object::SourceLine;
use std::alloc::{AllocError, Allocator};

/// A source line that has a number and a name.
pub fn known(source: Option<SourceLine<'_>>) -> Option<SourceLine<'_>>
    ensures { option_map line_value result
        ≡ code_spec.known (option_map line_value source.entry) }
{
    let source = source?;
    if source.line > 0 && !source.file.is_empty() {
        Some(source)
    } else {
        None
    }
}

/// The name of a source file.
fn source_name<A: Allocator + Copy>(
    alloc: A,
    source: SourceLine<'_>,
) -> Result<String<A>, AllocError>
    ensures { IfOk result (λ name. string_bytes name ≡ spec.source_name (line_value source.entry)) }
{
    let name = name_text(alloc, source.file)?;
    escaped(alloc, name.as_str())
}

/// The end of a line for readers, `, at FILE:LINE:COLUMN`, if the source line is known.
pub fn text_source<A: Allocator + Copy>(
    alloc: A,
    source: Option<SourceLine<'_>>,
) -> Result<String<A>, AllocError>
    ensures { IfOk result (λ text.
        string_bytes text ≡ spec.text_source (option_map line_value source.entry)) }
{
    match source {
        Some(source) => {
            let name = source_name(alloc, source)?;
            let SourceLine { line, column, .. } = source;
            format!(in alloc; ", at {name}:{line}:{column}")
        }
        None => Ok(String::new(alloc)),
    }
}

/// The members of a JSON object for a source line, if it is known.
pub fn json_source<A: Allocator + Copy>(
    alloc: A,
    source: Option<SourceLine<'_>>,
) -> Result<String<A>, AllocError>
    ensures { IfOk result (λ members.
        string_bytes members ≡ spec.json_source (option_map line_value source.entry)) }
{
    match source {
        Some(source) => {
            let name = name_text(alloc, source.file)?;
            let name = json_text(alloc, name.as_str())?;
            let SourceLine { line, column, .. } = source;
            format!(in alloc; ",\"source\":\"{name}\",\"line\":{line},\"column\":{column}")
        }
        None => Ok(String::new(alloc)),
    }
}

/// The properties of a workflow command: a source line if it is known, and else the file.
pub fn github_source<A: Allocator + Copy>(
    alloc: A,
    name: &str,
    source: Option<SourceLine<'_>>,
) -> Result<String<A>, AllocError>
    ensures { IfOk result (λ location.
        string_bytes location ≡ spec.github_source name.now (option_map line_value source.entry)) }
{
    match source {
        Some(source) => {
            let name = source_name(alloc, source)?;
            let name = github_text(alloc, Part::Property, name.as_str())?;
            let SourceLine { line, column, .. } = source;
            format!(in alloc; "file={name},line={line},col={column}")
        }
        None => {
            let name = escaped(alloc, name)?;
            let name = github_text(alloc, Part::Property, name.as_str())?;
            format!(in alloc; "file={name}")
        }
    }
}
