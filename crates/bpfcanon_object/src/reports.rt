//! Where `check` writes what it reports.

ghost use Rattle.std.specs.Prelude.{◌≡◌, ◌++◌, ℕ, List, OnErr, OnOk, string_bytes};
ghost use Rattle.std.specs.Io.KnownBytes.{Appends};
ghost use Rattle.bpfcanon_object.specs.Answers as spec;
ghost use Rattle.bpfcanon_object.specs.Written.{AppendsPart};

use crate::check::Format;
use crate::desk::{Stop, write_bytes};
use std::alloc::Allocator;
use std::io::Write;

/// How many bytes of reports are stored, at the least, before they are written.
const PIECE: usize = 65_536;

/// Writes what is reported: to standard error for readers, and to standard output for programs.
///
/// # Errors
///
/// `WriteFailed` if a write fails.
pub fn put_report<O: Write, E: Write>(
    lines: &mut O,
    messages: &mut E,
    format: Format,
    report: &str,
) -> Result<(), Stop>
    ensures lines { OnOk result (Appends (O.contents lines.old) (O.contents lines.new)
        (spec.report_lines format report.now)) }
    ensures messages { OnOk result (Appends (E.contents messages.old) (E.contents messages.new)
        (spec.report_messages format report.now)) }

    ensures some_lines { OnErr result (AppendsPart (O.contents lines.old) (O.contents lines.new)
        (spec.report_lines format report.now)) }
    ensures some_messages { OnErr result (AppendsPart (E.contents messages.old)
        (E.contents messages.new) (spec.report_messages format report.now)) }
{
    match format {
        Format::Text => {
            write_bytes(messages, report.as_bytes())?;
            Ok(())
        }
        Format::Json => {
            write_bytes(lines, report.as_bytes())?;
            Ok(())
        }
        Format::Github => {
            write_bytes(lines, report.as_bytes())?;
            Ok(())
        }
    }
}

/// Writes what is stored of a report, if it is long.
///
/// # Errors
///
/// `WriteFailed` if a write fails.
pub fn put_if_long<A: Allocator, O: Write, E: Write>(
    lines: &mut O,
    messages: &mut E,
    format: Format,
    stored: &mut String<A>,
) -> Result<(), Stop>
    ensures whole { OnOk result ((part : List ℕ)
        × ((string_bytes stored.old ≡ part ++ string_bytes stored.new)
        × (Appends (O.contents lines.old) (O.contents lines.new) (spec.report_lines format part)
        × Appends (E.contents messages.old) (E.contents messages.new)
        (spec.report_messages format part)))) }
    ensures some_lines { OnErr result (AppendsPart (O.contents lines.old) (O.contents lines.new)
        (spec.report_lines format (string_bytes stored.old))) }
    ensures some_messages { OnErr result (AppendsPart (E.contents messages.old)
        (E.contents messages.new) (spec.report_messages format (string_bytes stored.old))) }
{
    if stored.len() < PIECE {
        return Ok(());
    }
    put_report(lines, messages, format, stored.as_str())?;
    stored.clear();
    Ok(())
}
