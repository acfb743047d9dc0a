//! What each call returns for lines and for instructions.

use super::equal;
use bpf_insn::{Insn, Order, decode_insns, insn_bytes};
use bpf_text::{
    LineCause, LineFault, ListError, listing, push_line, read_listing, read_listing_bytes,
};
use std::alloc::{AllocError, Global};
use std::process::Abort;
use std::test::Fail;

mod faults;
mod forms;
mod mnemonics;

/// A line as it is written, with its newline, and the little-endian bytes of its instruction.
struct WrittenRow {
    line: &'static [u8],
    bytes: &'static [u8],
}

/// A listing, the lines that are written for it, and the little-endian bytes of its instructions.
struct FormRow {
    text: &'static [u8],
    lines: &'static [u8],
    bytes: &'static [u8],
}

/// A listing, with the line and the cause of its first fault.
struct FaultRow {
    text: &'static [u8],
    line: u64,
    cause: LineCause,
}

/// The bytes of instructions.
fn bytes_of(alloc: Global, order: Order, insns: &[Insn]) -> Result<Vec<u8>, AllocError> {
    let mut bytes = Vec::new(alloc);
    for insn in insns {
        let (spelling, len) = insn_bytes(order, *insn);
        bytes.extend_from_slice(&spelling[..len])?;
    }
    Ok(bytes)
}

/// The lines of instructions after a comment, appended by `push_line`.
fn pushed(alloc: Global, insns: &[Insn]) -> Result<Vec<u8>, AllocError> {
    let mut text = Vec::from_slice(alloc, COMMENT)?;
    for insn in insns {
        push_line(&mut text, *insn)?;
    }
    Ok(text)
}

const COMMENT: &[u8] = b"; lines\n";

/// Whether these instructions have these lines.
fn is_written(alloc: Global, insns: &[Insn], lines: &[u8]) -> Result<bool, AllocError> {
    let appended = pushed(alloc, insns)?;
    Ok(listing(alloc, insns)?.as_slice() == lines && appended.strip_prefix(COMMENT) == Some(lines))
}

/// Whether a listing is read as the bytes of these instructions.
fn has_bytes(alloc: Global, order: Order, text: &[u8], insns: &[Insn]) -> Result<bool, ListError> {
    Ok(read_listing_bytes(alloc, order, text)? == bytes_of(alloc, order, insns)?)
}

/// Whether these are the little-endian bytes of these instructions.
fn is_encoded(alloc: Global, insns: &[Insn], bytes: &[u8]) -> Result<bool, AllocError> {
    let is_decoded = match decode_insns(alloc, Order::Little, bytes) {
        Ok(decoded) => decoded.as_slice() == insns,
        Err(_) => false,
    };
    Ok(is_decoded && bytes_of(alloc, Order::Little, insns)?.as_slice() == bytes)
}

/// Whether these are the instructions of a listing, and every call on them returns these lines and bytes.
fn has_insns(
    alloc: Global,
    text: &[u8],
    insns: &[Insn],
    lines: &[u8],
    bytes: &[u8],
) -> Result<bool, ListError> {
    Ok(
        is_encoded(alloc, insns, bytes)?
            && has_bytes(alloc, Order::Little, text, insns)?
            && has_bytes(alloc, Order::Big, text, insns)?
            && is_written(alloc, insns, lines)?,
    )
}

/// Whether every call returns these lines and bytes for a listing.
fn is_listed(alloc: Global, text: &[u8], lines: &[u8], bytes: &[u8]) -> Result<bool, ListError> {
    let insns = read_listing(alloc, text)?;
    has_insns(alloc, text, &insns, lines, bytes)
}

/// Checks that each line is read and written.
fn check_lines(rt: &impl Abort, alloc: Global, rows: &[WrittenRow]) -> Result<(), ListError> {
    for row in rows {
        let is_listed = is_listed(alloc, row.line, row.line, row.bytes)?;
        equal(rt, &is_listed, &true, &row.line);
    }
    Ok(())
}

#[test]
fn each_mnemonic_is_read_and_written(rt: HostRuntime) -> Result<(), Fail> {
    for rows in mnemonics::arithmetic() {
        check_lines(&rt, rt.alloc(), rows)?;
    }
    for rows in mnemonics::jumps() {
        check_lines(&rt, rt.alloc(), rows)?;
    }
    for rows in mnemonics::load_store() {
        check_lines(&rt, rt.alloc(), rows)?;
    }
    Ok(())
}

/// Checks that each text is read, and written as its lines.
fn check_forms(rt: &impl Abort, alloc: Global, rows: &[FormRow]) -> Result<(), ListError> {
    for row in rows {
        let is_listed = is_listed(alloc, row.text, row.lines, row.bytes)?;
        equal(rt, &is_listed, &true, &row.text);
    }
    Ok(())
}

#[test]
fn other_spellings_are_read(rt: HostRuntime) -> Result<(), Fail> {
    for rows in forms::forms() {
        check_forms(&rt, rt.alloc(), rows)?;
    }
    Ok(())
}

#[test]
fn bytes_are_read_in_both_orders(rt: HostRuntime) -> Result<(), Fail> {
    let text = b"; three\nmov r1, 0x10 # sixteen\n\nlddw r2, 0x0102030405060708\nexit";
    let rows: [(Order, &[u8]); 2] = [
        (
            Order::Little,
            b"\xb7\x01\0\0\x10\0\0\0\x18\x02\0\0\x08\x07\x06\x05\0\0\0\0\x04\x03\x02\x01\x95\0\0\0\0\0\0\0",
        ),
        (
            Order::Big,
            b"\xb7\x10\0\0\0\0\0\x10\x18\x20\0\0\x05\x06\x07\x08\0\0\0\0\x01\x02\x03\x04\x95\0\0\0\0\0\0\0",
        ),
    ];
    for (order, bytes) in rows {
        let read = read_listing_bytes(rt.alloc(), order, text)?;
        equal(&rt, &read.as_slice(), &bytes, &order);
    }
    Ok(())
}

/// Checks that both reading calls return this fault.
fn check_fault(rt: &impl Abort, alloc: Global, text: &[u8], line: u64, cause: LineCause) {
    let found = (
        read_listing(alloc, text).err(),
        read_listing_bytes(alloc, Order::Big, text).err(),
    );
    let fault = Some(ListError::Fault(LineFault { line, cause }));
    let case = text.get(..80).unwrap_or(text);
    equal(rt, &found, &(fault, fault), &case);
}

fn check_faults(rt: &impl Abort, alloc: Global, rows: &[FaultRow]) {
    for row in rows {
        check_fault(rt, alloc, row.text, row.line, row.cause);
    }
}

#[test]
fn the_first_fault_is_found(rt: HostRuntime) {
    for rows in faults::faults() {
        check_faults(&rt, rt.alloc(), rows);
    }
}

/// The beginning of a line, a byte that is repeated after it, and the cause of the line.
struct LongRow {
    start: &'static [u8],
    byte: u8,
    cause: LineCause,
}

#[rattlefmt::skip]
static LONG_LINES: [LongRow; 4] = [
    LongRow { start: b"exit ", byte: b',', cause: LineCause::Shape },
    LongRow { start: b"mov r1, ", byte: b'9', cause: LineCause::Range },
    LongRow { start: b"mov r1, 9", byte: b'a', cause: LineCause::Shape },
    LongRow { start: b"exit ", byte: b'\0', cause: LineCause::Char },
];

#[test]
fn long_lines_are_faulty(rt: HostRuntime) -> Result<(), Fail> {
    for row in &LONG_LINES {
        let mut text = Vec::from_slice(rt.alloc(), row.start)?;
        text.resize(1 << 16, row.byte)?;
        check_fault(&rt, rt.alloc(), &text, 1, row.cause);
    }
    Ok(())
}

/// The causes by their numbers, their names, and their sentences.
#[rattlefmt::skip]
const CAUSES: [(LineCause, &str, &str); 4] = [
    (LineCause::Char, "Char", "a character that is neither blank nor part of a token"),
    (LineCause::Word, "Word", "no instruction has this mnemonic"),
    (LineCause::Shape, "Shape", "the operands are not those of the mnemonic"),
    (LineCause::Range, "Range", "a number is out of the range of its field"),
];

#[test]
fn causes_have_these_strings(rt: HostRuntime) -> Result<(), Fail> {
    for (index, (cause, name, sentence)) in CAUSES.iter().enumerate() {
        let found = (usize::from(cause.number()), cause.name(), cause.describe());
        equal(&rt, &found, &(index + 1, *name, *sentence), cause);
        let shown = cause.to_string(rt.alloc())?;
        equal(&rt, &shown.as_str(), name, cause);
    }
    Ok(())
}

#[test]
fn errors_have_these_strings(rt: HostRuntime) -> Result<(), Fail> {
    let fault = ListError::Fault(LineFault {
        line: 1,
        cause: LineCause::Char,
    });
    let shown = format!(in rt.alloc(); "{fault} {}", ListError::Memory)?;
    equal(&rt, &shown.as_str(), &"Fault Memory", &"errors");
    Ok(())
}
