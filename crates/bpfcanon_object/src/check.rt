//! `check`: whether each file is accepted, for readers, programs and GitHub Actions.

ghost use Rattle.std.specs.Prelude.{◌≡◌, IfOk, OnErr, string_bytes};
ghost use Rattle.bpfcanon_object.specs.Answers as answers;
ghost use Rattle.bpfcanon_object.specs.Answers.{IsAcceptedAnswer, IsAcceptedPart, IsCheckAnswer};
ghost use Rattle.bpfcanon_object.specs.Answers.{IsCheckPart, IsFaultAnswer};
ghost use Rattle.bpfcanon_object.specs.Written.{IsPartWritten, IsWritten};
ghost use Rattle.bpfcanon_object.specs.Formats as spec;
ghost use Rattle.bpfcanon_object.specs.Json.{json_line};

use crate::answer::{Status, explained, fault_line};
use crate::cause::object_cause_name;
use crate::code_lines::{most_sources, put_code_lines};
use crate::desk::{Stop, write_bytes};
use crate::escape::escaped;
use crate::github::{Part, github_text};
use crate::json::{json_line, json_text};
use crate::reports::put_report;
use crate::target::Target;
use bpf_object::{AcceptedObject, ObjectError, ObjectFault};
use std::alloc::{AllocError, Allocator};
use std::io::Write;

/// How answers are written.
#[derive(Clone, Copy, Debug, PartialEq, Eq)]
pub enum Format {
    /// Lines for readers. A fault is a message.
    Text,
    /// A JSON object for each file.
    Json,
    /// A workflow command of GitHub Actions for each file that is refused.
    Github,
}

impl Format {
    /// The names of the formats on the command line.
    pub const NAMES: [&'static str; 3] = ["text", "json", "github"];

    /// The format with a name, `Text` for any other.
    pub fn named(name: &str) -> Format
        ensures { result ≡ spec.format_named name.now }
    {
        match name {
            "json" => Format::Json,
            "github" => Format::Github,
            _ => Format::Text,
        }
    }
}

/// The lines for a file that is accepted.
fn accepted_lines<A: Allocator + Copy>(
    alloc: A,
    format: Format,
    name: &str,
) -> Result<String<A>, AllocError>
    ensures { IfOk result (λ lines. string_bytes lines ≡ spec.accepted_lines format name.now) }
{
    match format {
        Format::Text => {
            let name = escaped(alloc, name)?;
            format!(in alloc; "{name}: accepted\n")
        }
        Format::Json => json_line(alloc, name, "\"accepted\":true"),
        Format::Github => Ok(String::new(alloc)),
    }
}

/// The status for so many findings in code.
fn count_status(seen: usize) -> Status
    ensures { result ≡ answers.count_status seen }
{
    if seen == 0 { Status::Yes } else { Status::No }
}

/// Writes that a file is accepted, and what is reported of its code. At most `most` source lines are
/// looked for.
fn put_accepted<A: Allocator + Copy, O: Write, E: Write>(
    alloc: A,
    lines: &mut O,
    messages: &mut E,
    format: Format,
    target: Option<Target>,
    name: &str,
    object: &AcceptedObject<'_>,
    most: usize,
) -> Result<Status, Stop>
    ensures whole { IfOk result (λ status. IsWritten
        (IsAcceptedAnswer format target name.now most object.now status)
        (O.contents lines.old) (O.contents lines.new)
        (E.contents messages.old) (E.contents messages.new)) }
    ensures part { OnErr result (IsPartWritten
        (IsAcceptedPart format target name.now most object.now)
        (O.contents lines.old) (O.contents lines.new)
        (E.contents messages.old) (E.contents messages.new)) }
{
    let first = accepted_lines(alloc, format, name)?;
    write_bytes(lines, first.as_bytes())?;
    let seen = put_code_lines(alloc, lines, messages, format, target, name, object, most)?;
    Ok(count_status(seen))
}

/// The members for a fault: its offset, its cause, and what that means.
fn json_fault<A: Allocator + Copy>(
    alloc: A,
    fault: ObjectFault,
    text: &str,
) -> Result<String<A>, AllocError>
    ensures { IfOk result (λ members. string_bytes members ≡ spec.json_fault fault text.now) }
{
    let text = json_text(alloc, text)?;
    let cause = object_cause_name(fault.cause);
    let pos = fault.pos;
    format!(in alloc;
        "\"accepted\":false,\"offset\":{pos},\"cause\":\"{cause}\",\"text\":\"{text}\""
    )
}

/// The JSON object of a file that is refused.
fn json_fault_line<A: Allocator + Copy>(
    alloc: A,
    name: &str,
    fault: ObjectFault,
    text: &str,
) -> Result<String<A>, AllocError>
    ensures { IfOk result (λ line. string_bytes line
        ≡ json_line name.now (spec.json_fault fault text.now)) }
{
    let members = json_fault(alloc, fault, text)?;
    json_line(alloc, name, members.as_str())
}

/// The workflow command of a file that is refused.
fn github_line<A: Allocator + Copy>(
    alloc: A,
    name: &str,
    fault: ObjectFault,
    text: &str,
) -> Result<String<A>, AllocError>
    ensures { IfOk result (λ line. string_bytes line ≡ spec.github_line name.now fault text.now) }
{
    let name = escaped(alloc, name)?;
    let file = github_text(alloc, Part::Property, name.as_str())?;
    let name = github_text(alloc, Part::Message, name.as_str())?;
    let text = github_text(alloc, Part::Message, text)?;
    let cause = object_cause_name(fault.cause);
    let pos = fault.pos;
    format!(in alloc; "::error file={file}::{name}: byte {pos}: {cause}: {text}\n")
}

/// What is reported of a file that is refused.
fn fault_report<A: Allocator + Copy>(
    alloc: A,
    format: Format,
    name: &str,
    fault: ObjectFault,
    text: &str,
) -> Result<String<A>, AllocError>
    ensures { IfOk result (λ report.
        string_bytes report ≡ answers.fault_report format name.now fault text.now) }
{
    match format {
        Format::Text => fault_line(alloc, name, fault, text),
        Format::Json => json_fault_line(alloc, name, fault, text),
        Format::Github => github_line(alloc, name, fault, text),
    }
}

/// Writes what is reported of a file that is refused.
fn put_fault<A: Allocator + Copy, O: Write, E: Write>(
    alloc: A,
    lines: &mut O,
    messages: &mut E,
    format: Format,
    name: &str,
    bytes: &[u8],
    fault: ObjectFault,
) -> Result<Status, Stop>
    ensures whole { IfOk result (λ status. IsWritten (IsFaultAnswer format name.now fault status)
        (O.contents lines.old) (O.contents lines.new)
        (E.contents messages.old) (E.contents messages.new)) }
    ensures part { OnErr result (IsPartWritten (IsFaultAnswer format name.now fault Status.No)
        (O.contents lines.old) (O.contents lines.new)
        (E.contents messages.old) (E.contents messages.new)) }
{
    let text = explained(alloc, bytes, fault)?;
    let report = fault_report(alloc, format, name, fault, text.as_str())?;
    put_report(lines, messages, format, report.as_str())?;
    Ok(Status::No)
}

/// Writes the answer for the bytes of a file, each part of it before the next one is made, and gives
/// the status. With a target it also reports instructions that are in none of its groups. Source lines
/// are looked for until 64 MiB may have been gone through for them.
///
/// # Errors
///
/// `WriteFailed` if a write fails, and `Memory` if memory can't be allocated. A part of the answer may
/// be written then.
pub fn put_check<A: Allocator + Copy, O: Write, E: Write>(
    alloc: A,
    lines: &mut O,
    messages: &mut E,
    format: Format,
    target: Option<Target>,
    name: &str,
    bytes: &[u8],
) -> Result<Status, Stop>
    ensures whole { IfOk result (λ status. IsWritten
        (IsCheckAnswer format target name.now bytes.now status)
        (O.contents lines.old) (O.contents lines.new)
        (E.contents messages.old) (E.contents messages.new)) }
    ensures part { OnErr result (IsPartWritten (IsCheckPart format target name.now bytes.now)
        (O.contents lines.old) (O.contents lines.new)
        (E.contents messages.old) (E.contents messages.new)) }
{
    match AcceptedObject::read(alloc, bytes) {
        Ok(object) => {
            let most = most_sources(bytes);
            let status = put_accepted(alloc, lines, messages, format, target, name, &object, most)?;
            Ok(status)
        }
        Err(ObjectError::Fault(fault)) => {
            let status = put_fault(alloc, lines, messages, format, name, bytes, fault)?;
            Ok(status)
        }
        Err(ObjectError::Memory) => Err(Stop::Memory),
    }
}
