//! Reads files, and writes a file whole or not at all.

use crate::words::NOT_TEXT;
use bpf_elf::FILE_LIMIT;
use std::alloc::Global;
use std::fs::{Metadata, OpenFile, OpenOptions};
use std::io::{Error, ErrorKind, Read, Write};
use std::path::Path;
use std::rt::Files;
use std::{fs, io};

/// The name of standard input, and of standard output.
pub const STANDARD: &str = "-";

/// How many symbolic links the name of an output may lead through, as in Linux.
const LINKS: u8 = 40;

/// Reads to the end, but at most one byte more than the longest object file has: the library
/// refuses what is longer.
pub fn read_bounded<F: Read + Drop>(reader: F, bytes: &mut Vec<u8>) -> io::Result<()> {
    let left = (FILE_LIMIT as u64 + 1).saturating_sub(bytes.len() as u64);
    reader.take(left).read_to_end(bytes)?;
    Ok(())
}

/// Refuses the name of a file that isn't UTF-8.
fn require_text(name: &str) -> io::Result<()> {
    if name.ends_with(NOT_TEXT) {
        return Err(Error::new(ErrorKind::InvalidInput, "its name isn't UTF-8"));
    }
    Ok(())
}

/// The bytes of a file, or of standard input if the name is `-`.
pub fn read_file<R: Files + Input + AllocGlobal>(rt: &R, name: &str) -> io::Result<Vec<u8>> {
    require_text(name)?;
    let mut bytes = Vec::new(rt.alloc());
    if name == STANDARD {
        read_bounded(rt.reader(), &mut bytes)?;
    } else {
        read_bounded(fs::open(rt, name)?, &mut bytes)?;
    }
    Ok(bytes)
}

/// Creates a file that wasn't there, in the folder of another one. Its name is none that an earlier
/// run left behind, and is short, since the other one may be as long as a name may be.
fn create_beside<R: Files>(rt: &R, alloc: Global, name: &str) -> io::Result<(String, R::File)> {
    for n in 0..u64::MAX {
        let own = format!(in alloc; ".bpfcanon-object.{n}.tmp")?;
        let beside = Path::new(name).with_file_name(alloc, own.as_str())?;
        let beside = String::from_str(alloc, beside.as_path().as_str())?;
        let mut how = OpenOptions::new();
        match how.write(true).create_new(true).open(rt, beside.as_str()) {
            Ok(file) => return Ok((beside, file)),
            Err(error) if error.kind() == ErrorKind::AlreadyExists => {}
            Err(error) => return Err(error),
        }
    }
    Err(Error::from(ErrorKind::AlreadyExists))
}

/// Writes the bytes, with the permissions of the file that they replace, so that they last.
fn fill<F: OpenFile + Write>(file: &mut F, old: Option<Metadata>, bytes: &[u8]) -> io::Result<()> {
    if let Some(metadata) = old {
        file.set_permissions(metadata.permissions())?;
    }
    file.write_all(bytes)?;
    file.sync_all()
}

/// Writes a regular file in place of the one that may be there.
fn replace<R: Files + AllocGlobal>(
    rt: &R,
    name: &str,
    old: Option<Metadata>,
    bytes: &[u8],
) -> io::Result<()> {
    let (beside, mut file) = create_beside(rt, rt.alloc(), name)?;
    let written = fill(&mut file, old, bytes);
    drop(file);
    let renamed = written.and_then(|()| fs::rename(rt, beside.as_str(), name));
    if renamed.is_err() {
        let _ = fs::remove_file(rt, beside.as_str());
    }
    renamed
}

/// The name of the file that a name leads to, through symbolic links, also if there is none yet.
fn linked<R: Files + AllocGlobal>(rt: &R, name: &str) -> io::Result<String> {
    let alloc = rt.alloc();
    let mut real = String::from_str(alloc, name)?;
    for _ in 0..LINKS {
        match fs::symlink_metadata(rt, real.as_str()) {
            Ok(metadata) if metadata.is_symlink() => {}
            _ => return Ok(real),
        }
        let target = fs::read_link(rt, real.as_str())?;
        let beside = Path::new(real.as_str()).with_file_name(alloc, "")?;
        let next = beside.join(alloc, target.as_path())?;
        real = String::from_str(alloc, next.as_path().as_str())?;
    }
    Err(Error::from(ErrorKind::FilesystemLoop))
}

/// Writes a file whole, or leaves what was there. A symbolic link stays one, also if there is nothing
/// at its end, and a device or a pipe is written to.
pub fn write_file<R: Files + AllocGlobal>(rt: &R, name: &str, bytes: &[u8]) -> io::Result<()> {
    require_text(name)?;
    match fs::metadata(rt, name) {
        Ok(old) if old.is_file() => {
            let real = fs::canonicalize(rt, name)?;
            replace(rt, real.as_path().as_str(), Some(old), bytes)
        }
        Ok(_) => fs::write(rt, name, bytes),
        Err(error) if error.kind() == ErrorKind::NotFound => {
            let real = linked(rt, name)?;
            replace(rt, real.as_str(), None, bytes)
        }
        Err(error) => Err(error),
    }
}
