//! The files in a folder and in the folders in it, and which of them are BPF object files.

use crate::files::read_bounded;
use std::alloc::{AllocError, Global};
use std::fs::DirEntry;
use std::io::{Error, Read};
use std::rt::Files;
use std::{fs, io};

/// The first bytes of an ELF file.
pub const ELF_MAGIC: [u8; 4] = *b"\x7fELF";

/// How many bytes of a file show what it is: the last two of them are e_machine.
const START: u64 = 20;

/// EM_BPF.
const EM_BPF: u8 = 247;

/// Whether a file that begins like this is an ELF file, and none for another machine.
fn may_be_object(start: &[u8]) -> bool {
    start.starts_with(&ELF_MAGIC)
        && match start.get(18..20) {
            Some(machine) => {
                machine == [EM_BPF, 0].as_slice() || machine == [0, EM_BPF].as_slice()
            }
            None => true,
        }
}

/// The bytes of a BPF object file, and `None` for any other regular file.
pub fn read_object<R: Files + AllocGlobal>(rt: &R, name: &str) -> io::Result<Option<Vec<u8>>> {
    if !fs::symlink_metadata(rt, name)?.is_file() {
        return Ok(None);
    }
    let mut file = fs::open(rt, name)?;
    let mut bytes = Vec::new(rt.alloc());
    file.by_ref().take(START).read_to_end(&mut bytes)?;
    if !may_be_object(bytes.as_slice()) {
        return Ok(None);
    }
    read_bounded(file, &mut bytes)?;
    Ok(Some(bytes))
}

/// What a folder holds.
#[derive(Drop)]
pub struct Folder {
    /// The names of the regular files.
    pub files: Vec<String>,
    /// What can't be read, and why.
    pub unreadable: Vec<(String, Error)>,
    /// The folders that are still to be read.
    pending: Vec<String>,
}

impl Folder {
    /// Reads a folder and all folders in it. Symbolic links in it are left out. Names are sorted by
    /// their bytes.
    pub fn read<R: Files + AllocGlobal + Clone + Drop>(
        rt: &R,
        name: &str,
    ) -> Result<Folder, AllocError> {
        let alloc = rt.alloc();
        let mut folder = Folder {
            files: Vec::new(alloc),
            unreadable: Vec::new(alloc),
            pending: Vec::new(alloc),
        };
        folder.pending.push(String::from_str(alloc, name)?)?;
        for _ in 0..u64::MAX {
            let Some(next) = folder.pending.pop() else {
                break;
            };
            folder.add_folder(rt, next)?;
        }
        folder.files.sort()?;
        Ok(folder)
    }

    fn add_folder<R: Files + AllocGlobal + Clone + Drop>(
        &mut self,
        rt: &R,
        name: String,
    ) -> Result<(), AllocError> {
        let entries = match fs::read_dir(rt, name.as_str()) {
            Ok(entries) => entries,
            Err(error) => return self.add_unreadable(name, error),
        };
        for entry in entries {
            match entry {
                Ok(entry) => self.add_entry(rt.alloc(), &entry)?,
                Err(error) => self.add_unreadable(name.clone()?, error)?,
            }
        }
        Ok(())
    }

    fn add_entry<R: Files + Drop>(
        &mut self,
        alloc: Global,
        entry: &DirEntry<R>,
    ) -> Result<(), AllocError> {
        let name = String::from_str(alloc, entry.path().as_str())?;
        match entry.metadata() {
            Ok(metadata) if metadata.is_dir() => Ok(self.pending.push(name)?),
            Ok(metadata) if metadata.is_file() => Ok(self.files.push(name)?),
            Ok(_) => Ok(()),
            Err(error) => self.add_unreadable(name, error),
        }
    }

    fn add_unreadable(&mut self, name: String, error: Error) -> Result<(), AllocError> {
        Ok(self.unreadable.push((name, error))?)
    }
}
