//! Runs a command line: reads files, and puts an answer for each on the desk.

use crate::answer::{Answer, trouble_answer};
use crate::canon::canon_answer;
use crate::check::Format;
use crate::desk::{Desk, Stop};
use crate::each::Each;
use crate::files::{STANDARD, read_file, write_file};
use crate::folder::{ELF_MAGIC, Folder, read_object};
use crate::key::Key;
use crate::key_list::{read_row, row_answer, unread_row_answer};
use crate::reason::{Role, reason_of};
use crate::same::same_answer;
use crate::target_name::{TARGETS, is_group, target_of};
use crate::words::{Request, VERSION, shown_word};
use std::alloc::Global;
use std::io::{Error, Write};
use std::rt::Files;
use std::{fs, str};

/// What is said of a line that isn't in a list of keys.
const NO_ROW: &str = "isn't one that key writes: 64 digits, two blanks and a name";

/// The answer for a file that can't be read or written.
fn error_answer(alloc: Global, role: Role, name: &str, error: &Error) -> Result<Answer, Stop> {
    let why = reason_of(alloc, role, error)?;
    Ok(trouble_answer(alloc, shown_word(name), why.as_str())?)
}

fn run_file<R: Files + Input + AllocGlobal, O: Write, E: Write>(
    rt: &R,
    desk: &mut Desk<O, E>,
    each: Each,
    name: &str,
) -> Result<(), Stop> {
    match read_file(rt, name) {
        Ok(bytes) => each.put(rt.alloc(), desk, name, bytes.as_slice()),
        Err(error) => desk.put(&error_answer(rt.alloc(), Role::Input, name, &error)?),
    }
}

/// Answers for a file in a folder, if it is a BPF object file, and says whether it did.
fn run_member<R: Files + AllocGlobal, O: Write, E: Write>(
    rt: &R,
    desk: &mut Desk<O, E>,
    each: Each,
    name: &str,
) -> Result<bool, Stop> {
    match read_object(rt, name) {
        Ok(Some(bytes)) => each.put(rt.alloc(), desk, name, bytes.as_slice())?,
        Ok(None) => return Ok(false),
        Err(error) => desk.put(&error_answer(rt.alloc(), Role::Input, name, &error)?)?,
    }
    Ok(true)
}

fn run_folder<R: Files + AllocGlobal + Clone + Drop, O: Write, E: Write>(
    rt: &R,
    desk: &mut Desk<O, E>,
    each: Each,
    name: &str,
) -> Result<(), Stop> {
    let folder = Folder::read(rt, name)?;
    for (name, error) in &folder.unreadable {
        desk.put(&error_answer(rt.alloc(), Role::Input, name.as_str(), error)?)?;
    }
    let mut is_empty = folder.unreadable.is_empty();
    for name in &folder.files {
        if run_member(rt, desk, each, name.as_str())? {
            is_empty = false;
        }
    }
    if is_empty {
        let why = "there is no BPF object file in this folder";
        desk.put(&trouble_answer(rt.alloc(), name, why)?)?;
    }
    Ok(())
}

/// Whether a name is that of a folder.
fn is_folder<R: Files>(rt: &R, name: &str) -> bool {
    match fs::metadata(rt, name) {
        Ok(metadata) => metadata.is_dir() && name != STANDARD,
        Err(_) => false,
    }
}

fn run_files<R: Files + Input + AllocGlobal + Clone + Drop, O: Write, E: Write>(
    rt: &R,
    desk: &mut Desk<O, E>,
    each: Each,
    files: &[&str],
) -> Result<(), Stop> {
    for name in files {
        if is_folder(rt, name) {
            run_folder(rt, desk, each, name)?;
        } else {
            run_file(rt, desk, each, name)?;
        }
    }
    Ok(())
}

/// Writes a canonical file to where it goes.
fn put_canonical<R: Files + AllocGlobal, O: Write, E: Write>(
    rt: &R,
    desk: &mut Desk<O, E>,
    output: Option<&str>,
    bytes: &[u8],
) -> Result<(), Stop> {
    let name = output.unwrap_or(STANDARD);
    if name == STANDARD {
        return desk.put_bytes(bytes);
    }
    match write_file(rt, name, bytes) {
        Ok(()) => Ok(()),
        Err(error) => desk.put(&error_answer(rt.alloc(), Role::Output, name, &error)?),
    }
}

fn run_canon<R: Files + Input + AllocGlobal, O: Write, E: Write>(
    rt: &R,
    desk: &mut Desk<O, E>,
    file: &str,
    output: Option<&str>,
) -> Result<(), Stop> {
    let alloc = rt.alloc();
    match read_file(rt, file) {
        Ok(bytes) => match canon_answer(alloc, file, bytes.as_slice())? {
            Ok(canonical) => put_canonical(rt, desk, output, canonical.as_slice()),
            Err(answer) => desk.put(&answer),
        },
        Err(error) => desk.put(&error_answer(alloc, Role::Input, file, &error)?),
    }
}

fn run_same<R: Files + Input + AllocGlobal, O: Write, E: Write>(
    rt: &R,
    desk: &mut Desk<O, E>,
    first: &str,
    second: &str,
) -> Result<(), Stop> {
    let alloc = rt.alloc();
    if first == STANDARD && second == STANDARD {
        return desk.put(&trouble_answer(alloc, first, "standard input isn't two files")?);
    }
    let one = match read_file(rt, first) {
        Ok(bytes) => bytes,
        Err(error) => return desk.put(&error_answer(alloc, Role::Input, first, &error)?),
    };
    let other = match read_file(rt, second) {
        Ok(bytes) => bytes,
        Err(error) => return desk.put(&error_answer(alloc, Role::Input, second, &error)?),
    };
    let answer = same_answer(alloc, first, one.as_slice(), second, other.as_slice())?;
    desk.put(&answer)
}

/// Compares the file of a row with its key.
fn run_row<R: Files + Input + AllocGlobal, O: Write, E: Write>(
    rt: &R,
    desk: &mut Desk<O, E>,
    wanted: Key,
    name: &str,
) -> Result<(), Stop> {
    let alloc = rt.alloc();
    match read_file(rt, name) {
        Ok(bytes) => desk.put(&row_answer(alloc, name, wanted, bytes.as_slice())?),
        Err(error) => {
            let why = reason_of(alloc, Role::Listed, &error)?;
            desk.put(&unread_row_answer(alloc, name, why.as_str())?)
        }
    }
}

/// Compares the files of a list with their keys. A line that `key` doesn't write is trouble.
fn run_rows<R: Files + Input + AllocGlobal, O: Write, E: Write>(
    rt: &R,
    desk: &mut Desk<O, E>,
    list: &str,
    text: &str,
) -> Result<(), Stop> {
    let alloc = rt.alloc();
    for (i, line) in text.lines().enumerate() {
        match read_row(alloc, line)? {
            Some(row) => run_row(rt, desk, row.key, row.name.as_str())?,
            None => {
                let why = format!(in alloc; "line {} {NO_ROW}", i + 1)?;
                desk.put(&trouble_answer(alloc, list, why.as_str())?)?;
            }
        }
    }
    Ok(())
}

/// What a file is that is no list of keys.
fn no_list(bytes: &[u8]) -> &'static str {
    if bytes.starts_with(&ELF_MAGIC) {
        "it is an object file, and key --check reads lists that key has written"
    } else if bytes.is_empty() {
        "it is empty, and no list of keys is"
    } else {
        "it isn't a list that key has written"
    }
}

fn run_list<R: Files + Input + AllocGlobal, O: Write, E: Write>(
    rt: &R,
    desk: &mut Desk<O, E>,
    list: &str,
) -> Result<(), Stop> {
    let alloc = rt.alloc();
    let bytes = match read_file(rt, list) {
        Ok(bytes) => bytes,
        Err(error) => return desk.put(&error_answer(alloc, Role::List, list, &error)?),
    };
    match str::from_utf8(bytes.as_slice()) {
        Ok(text) if !text.is_empty() => run_rows(rt, desk, list, text),
        _ => desk.put(&trouble_answer(alloc, list, no_list(bytes.as_slice()))?),
    }
}

fn run_lists<R: Files + Input + AllocGlobal, O: Write, E: Write>(
    rt: &R,
    desk: &mut Desk<O, E>,
    lists: &[&str],
) -> Result<(), Stop> {
    for list in lists {
        run_list(rt, desk, list)?;
    }
    Ok(())
}

/// Says which of the names of a target isn't known, or stands alone.
fn refuse_target<O: Write, E: Write>(
    alloc: Global,
    desk: &mut Desk<O, E>,
    names: &[&str],
) -> Result<(), Stop> {
    let wrong = names.iter().find(|name| !is_group(name));
    let name = format!(in alloc; "--target {}", shown_word(wrong.copied().unwrap_or("")))?;
    desk.put(&trouble_answer(alloc, name.as_str(), TARGETS)?)
}

/// Checks files, with a target if its names are given.
fn run_check<R: Files + Input + AllocGlobal + Clone + Drop, O: Write, E: Write>(
    rt: &R,
    desk: &mut Desk<O, E>,
    format: Format,
    names: Option<&[&str]>,
    files: &[&str],
) -> Result<(), Stop> {
    let target = match names {
        Some(names) => match target_of(rt.alloc(), names)? {
            Some(target) => Some(target),
            None => return refuse_target(rt.alloc(), desk, names),
        },
        None => None,
    };
    run_files(rt, desk, Each::Check(format, target), files)
}

/// Does what a command line asks for.
///
/// # Errors
///
/// `WriteFailed` if standard output or standard error takes no more, and `Memory`. What was written
/// before stays so.
pub fn run<R: Files + Input + AllocGlobal + Clone + Drop, O: Write, E: Write>(
    rt: &R,
    desk: &mut Desk<O, E>,
    request: Request<'_>,
) -> Result<(), Stop> {
    match request {
        Request::Canon { file, output } => run_canon(rt, desk, file, output),
        Request::Key(files) => run_files(rt, desk, Each::Key, files),
        Request::KeyCheck(lists) => run_lists(rt, desk, lists),
        Request::Same { first, second } => run_same(rt, desk, first, second),
        Request::Check {
            format,
            target,
            files,
        } => run_check(rt, desk, format, target, files),
        Request::Version => desk.put_bytes(VERSION.as_bytes()),
    }
}
