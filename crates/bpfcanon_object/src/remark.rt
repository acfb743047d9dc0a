//! What a message says of a refused file besides the sentence of the cause: the section that has the
//! fault, and what users can do. By contract it is printable, and not more.

ghost use Rattle.std.specs.Prelude.{IfOk, string_bytes};
ghost use Rattle.bpfcanon_object.specs.Escape.{IsPrintable};

use crate::escape::escaped;
use crate::machine::machine_name;
use crate::peek::Peek;
use bpf_elf::ElfCause;
use bpf_object::{ObjectCause, ObjectFault};
use btf_raw::BtfCause;
use std::alloc::{AllocError, Allocator};

/// e_machine.
const MACHINE: usize = 18;

/// sh_type of a section that has no bytes in the file.
const SHT_NOBITS: u32 = 8;

/// How many bytes of a file show whether it is text.
const START: usize = 256;

/// Whether a file begins as a text does.
fn is_text(bytes: &[u8]) -> bool {
    let start = bytes.get(..START).unwrap_or(bytes);
    start.iter().all(|byte| *byte >= b' ' || *byte == b'\n' || *byte == b'\t' || *byte == b'\r')
}

/// What a file is that isn't an ELF file.
fn on_other(bytes: &[u8]) -> &'static str {
    if bytes.starts_with(b"!<arch>\n") {
        " (it is an archive: extract its members by ar x)"
    } else if bytes.starts_with(b"BC\xc0\xde") {
        " (it is LLVM bitcode: compile it by clang -target bpf -c)"
    } else if is_text(bytes) {
        " (it is text: compile a source file by clang -target bpf -O2 -g -c)"
    } else {
        ""
    }
}

/// The machine that a file is for.
fn on_machine<A: Allocator>(alloc: A, bytes: &[u8]) -> Result<String<A>, AllocError> {
    let Some(machine) = Peek::new(bytes).half(MACHINE) else {
        return Ok(String::new(alloc));
    };
    match machine_name(machine) {
        Some(name) => format!(in alloc; " (it is for {name})"),
        None => format!(in alloc; " (its e_machine is {machine})"),
    }
}

/// What a section of a kind that isn't accepted tells of the file.
fn on_kind(cause: ObjectCause, kind: u32) -> &'static str {
    if cause == ObjectCause::Elf(ElfCause::SectionKind) && kind == SHT_NOBITS {
        ": objcopy --only-keep-debug writes such sections, so name the file that it read"
    } else {
        ""
    }
}

/// The section in whose header a fault is.
fn on_section<A: Allocator + Copy>(
    alloc: A,
    bytes: &[u8],
    fault: ObjectFault,
) -> Result<String<A>, AllocError> {
    let Some(header) = Peek::new(bytes).section(fault.pos) else {
        return Ok(String::new(alloc));
    };
    let name = String::from_utf8_lossy(alloc, header.name)?;
    let (index, kind) = (header.index, header.kind);
    let remedy = on_kind(fault.cause, kind);
    format!(in alloc; " (section {index}, \"{name}\", of sh_type {kind:#x}{remedy})")
}

/// What is said of a fault of the ELF file.
fn on_elf<A: Allocator + Copy>(
    alloc: A,
    bytes: &[u8],
    fault: ObjectFault,
    cause: ElfCause,
) -> Result<String<A>, AllocError> {
    match cause {
        ElfCause::FileCut if bytes.is_empty() => String::from_str(alloc, " (it is empty)"),
        ElfCause::FileCut | ElfCause::Magic => String::from_str(alloc, on_other(bytes)),
        ElfCause::FileType | ElfCause::Machine => on_machine(alloc, bytes),
        ElfCause::SectionCut
        | ElfCause::SectionName
        | ElfCause::SectionKind
        | ElfCause::SectionTwice
        | ElfCause::RelocationTarget
        | ElfCause::RelocationTableSize
        | ElfCause::RelocationEntrySize
        | ElfCause::RelocationSymbols => on_section(alloc, bytes, fault),
        ElfCause::NoSymbols => String::from_str(
            alloc,
            " (strip removes it: llvm-strip -g keeps it)",
        ),
        _ => Ok(String::new(alloc)),
    }
}

/// What is said of a fault before it is escaped.
fn plain<A: Allocator + Copy>(
    alloc: A,
    bytes: &[u8],
    fault: ObjectFault,
) -> Result<String<A>, AllocError> {
    match fault.cause {
        ObjectCause::Elf(cause) => on_elf(alloc, bytes, fault, cause),
        ObjectCause::Types(BtfCause::TargetKind) => String::from_str(
            alloc,
            " (clang writes it with -g1: compile with -g)",
        ),
        _ => Ok(String::new(alloc)),
    }
}

/// What is said of a fault, in parentheses, or nothing.
pub fn remark<A: Allocator + Copy>(
    alloc: A,
    bytes: &[u8],
    fault: ObjectFault,
) -> Result<String<A>, AllocError>
    ensures { IfOk result (λ text. IsPrintable (string_bytes text)) }
{
    let text = plain(alloc, bytes, fault)?;
    escaped(alloc, text.as_str())
}
