//! Why a file can't be read or written, in words for users.

use std::alloc::{AllocError, Global};
use std::io::{Error, ErrorKind};

/// What comes before the number of an error of the system.
const NUMBER: &str = " (os error ";

/// What a name stands for on the command line or in a list.
#[derive(Clone, Copy, Debug, PartialEq, Eq)]
pub enum Role {
    /// A file that is read.
    Input,
    /// The file that `canon` writes.
    Output,
    /// A list of keys.
    List,
    /// A file in a list of keys.
    Listed,
}

impl Role {
    /// What is said if it is the name of a folder.
    fn if_folder(self) -> &'static str {
        match self {
            Role::Input => "it is a folder, and only key and check take one",
            Role::Output => "it is a folder: give --output the name of a file",
            Role::List => "it is a folder, and a list of keys is a file that key has written",
            Role::Listed => "it is a folder, and only a file has a key",
        }
    }
}

/// The reason without the number of the system.
pub fn reason_of(alloc: Global, role: Role, error: &Error) -> Result<String, AllocError> {
    if error.kind() == ErrorKind::IsADirectory {
        return String::from_str(alloc, role.if_folder());
    }
    if error.kind() == ErrorKind::InvalidFilename && error.raw_os_error().is_none() {
        return String::from_str(alloc, "the name of a file in it isn't UTF-8");
    }
    let text = error.to_string(alloc)?;
    match text.as_str().split_once(NUMBER) {
        Some((words, _)) => String::from_str(alloc, words),
        None => String::from_str(alloc, text.as_str()),
    }
}
