//! All rows, each with 1-byte pieces, 3-byte pieces and the largest that a read offers.

use super::expect::{holds, is_answer};
use super::runner::{Row, run, steady};
use super::vectors::runs;
use std::alloc::{AllocError, Global};
use std::process::Abort;
use std::test::Fail;

/// Runs a row in pieces of three lengths, and compares its answers.
fn check_row(rt: &impl Abort, alloc: Global, row: &Row) -> Result<(), AllocError> {
    for piece in [1, 3, 4096] {
        let ran = run(alloc, row.line, row.input, steady(piece))?;
        let is_right = is_answer(&ran, row.status, row.output, row.fault.as_bytes());
        holds(rt, is_right, (row.name, piece));
    }
    Ok(())
}

/// Runs the rows of a piece of the table.
fn check_rows(rt: &impl Abort, alloc: Global, rows: &[Row]) -> Result<(), AllocError> {
    for row in rows {
        check_row(rt, alloc, row)?;
    }
    Ok(())
}

#[test]
fn commands_answer_as_their_rows_say(rt: HostRuntime) -> Result<(), Fail> {
    for rows in runs() {
        check_rows(&rt, rt.alloc(), rows)?;
    }
    Ok(())
}

/// A file that is cut off, and the lengths at which its header is longer than the file.
#[derive(Clone, Copy)]
struct CutFile {
    file: &'static [u8],
    shorter_than_its_header: usize,
}

/// A struct with a tag on a member, and a file with a 28-byte header.
#[rattlefmt::skip]
static CUT_FILES: [CutFile; 2] = [
    CutFile { file: b"\x9f\xeb\x01\0\x18\0\0\0\0\0\0\0\x44\0\0\0\x44\0\0\0\x0d\0\0\0\x01\0\0\0\0\0\0\x01\x04\0\0\0\x20\0\0\x01\x05\0\0\0\x02\0\0\x04\x08\0\0\0\x07\0\0\0\x01\0\0\0\0\0\0\0\x09\0\0\0\x01\0\0\0\x20\0\0\0\x0b\0\0\0\0\0\0\x11\x02\0\0\0\x01\0\0\0\0int\0s\0a\0b\0t\0", shorter_than_its_header: 24 },
    CutFile { file: b"\x9f\xeb\x01\0\x1c\0\0\0\x07\0\0\0\x10\0\0\0\0\0\0\0\x07\0\0\0\0\0\0\0\0x\0int\0\x03\0\0\0\0\0\0\x01\x04\0\0\0\x20\0\0\x01", shorter_than_its_header: 28 },
];

/// What is reported of a file that is cut off at this length.
fn cut_fault(alloc: Global, cut: CutFile, len: usize) -> Result<String, AllocError> {
    let (pos, cause) = if len < 24 {
        (len, "ShortHeader")
    } else if len < cut.shorter_than_its_header {
        (4, "HeaderLength")
    } else {
        (len, "FileLength")
    };
    Ok(format!(in alloc; "fault {pos} {cause}\n")?)
}

/// Cuts a file off after each of its bytes but the last.
fn check_cut_file(rt: &impl Abort, alloc: Global, cut: CutFile) -> Result<(), AllocError> {
    for len in 0..cut.file.len() {
        let fault = cut_fault(alloc, cut, len)?;
        let ran = run(alloc, "btf-check", &cut.file[..len], steady(4096))?;
        let is_right = is_answer(&ran, 1, b"", fault.as_bytes());
        holds(rt, is_right, ("a cut file", len));
    }
    Ok(())
}

#[test]
fn files_that_are_cut_off_are_refused(rt: HostRuntime) -> Result<(), Fail> {
    for cut in CUT_FILES {
        check_cut_file(&rt, rt.alloc(), cut)?;
    }
    Ok(())
}
