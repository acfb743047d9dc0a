//! The command line, read by clap.

use crate::check::Format;
use clap::{Arg, ArgAction, ArgMatches, Command};
use std::alloc::{AllocError, Global};

/// The version of the program.
const NUMBER: &str = "0.1.0";

/// What `--version` prints.
pub const VERSION: &str = "bpfcanon-object 0.1.0\n";

/// Ends the text of a word that isn't UTF-8. No word of a process has it.
pub const NOT_TEXT: char = '\0';

/// A word as it is printed.
pub fn shown_word(word: &str) -> &str {
    word.strip_suffix(NOT_TEXT).unwrap_or(word)
}

const ABOUT: &str = "Canonical files and keys of BPF object files, and whether a file has one.";

/// What is said of the verbs of another program.
pub const REVIEW: &str = "bpfcanon-review has diff, show and list";

const STATUSES: &str = "\
FILE is an object file, or - for standard input. For key and check it may also be a folder, which
stands for all BPF object files in it and in the folders in it.

Exit status:
  0  yes: accepted, the same
  1  no: a file is refused, its code has a fault or isn't in the target, or two differ
  2  no answer: the arguments, a file that can't be read or written, memory, or for same a file that
     is refused

bpfcanon-review shows what two object files differ in.";

/// What a command line asks for. Names are as they were given.
#[derive(Clone, Copy)]
pub enum Request<'a> {
    /// `canon`: the canonical file of a file.
    Canon {
        /// The file.
        file: &'a str,
        /// Where the canonical file goes, if not to standard output.
        output: Option<&'a str>,
    },
    /// `key`: the keys of files.
    Key(&'a [&'a str]),
    /// `key --check`: the files of lists of keys.
    KeyCheck(&'a [&'a str]),
    /// `same`: whether two files hold the same.
    Same {
        /// The first file.
        first: &'a str,
        /// The second file.
        second: &'a str,
    },
    /// `check`: whether files are accepted.
    Check {
        /// How the answers are written.
        format: Format,
        /// The names of the target, if there is one.
        target: Option<&'a [&'a str]>,
        /// The files.
        files: &'a [&'a str],
    },
    /// `version`.
    Version,
}

fn file_arg<'a>(alloc: Global, id: &'a str, help: &'a str) -> Arg<'a> {
    Arg::new(alloc, id)
        .value_name("FILE")
        .required(true)
        .help(help)
}

fn files_arg<'a>(alloc: Global, help: &'a str) -> Arg<'a> {
    file_arg(alloc, "files", help).num_args(1..)
}

fn canon_command<'a>(alloc: Global) -> Result<Command<'a>, AllocError> {
    let output = Arg::new(alloc, "output")
        .short('o')
        .long("output")
        .value_name("OUTPUT")
        .help("Where to write it, whole or not at all, if not to standard output");
    Command::new(alloc, "canon")
        .about("Writes the canonical file")
        .arg(output)?
        .arg(file_arg(alloc, "file", "The object file, or - for standard input"))
}

fn key_command<'a>(alloc: Global) -> Result<Command<'a>, AllocError> {
    let check = Arg::new(alloc, "check")
        .short('c')
        .long("check")
        .action(ArgAction::SetTrue)
        .help("Reads lists of keys, and compares their files");
    Command::new(alloc, "key")
        .about("Writes the SHA-256 of each canonical file, as sha256sum does")
        .arg(check)?
        .arg(files_arg(
            alloc,
            "Object files and folders, or - for standard input; with --check lists of keys",
        ))
}

fn same_command<'a>(alloc: Global) -> Result<Command<'a>, AllocError> {
    Command::new(alloc, "same")
        .about("Says whether the canonical files of two files are equal")
        .arg(file_arg(
            alloc,
            "first",
            "The first object file, or - for standard input",
        )
        .value_name("FIRST"))?
        .arg(file_arg(alloc, "second", "The second object file, or -").value_name("SECOND"))
}

fn check_command<'a>(alloc: Global, formats: &'a [&'a str]) -> Result<Command<'a>, AllocError> {
    let target = Arg::new(alloc, "target")
        .long("target")
        .value_name("TARGET")
        .value_delimiter(',')
        .help(
            "Also reports the first instruction outside a target: linux-3.18 to linux-6.18, v1 to v4 (clang's -mcpu), or conformance groups (RFC 9669)",
        );
    let format = Arg::new(alloc, "format")
        .long("format")
        .value_name("FORMAT")
        .value_parser(formats)
        .default_value("text")
        .help("How the answers are written");
    Command::new(alloc, "check")
        .about(
            "Says of each file that it is accepted, or its first fault, and the faults of its code",
        )
        .arg(target)?
        .arg(format)?
        .arg(files_arg(alloc, "Object files and folders, or - for standard input"))
}

/// The command line. It borrows the names of the formats.
pub fn program<'a>(alloc: Global, formats: &'a [&'a str]) -> Result<Command<'a>, AllocError> {
    Command::new(alloc, "bpfcanon-object")
        .bin_name("bpfcanon-object")?
        .version(NUMBER)
        .about(ABOUT)
        .after_help(STATUSES)
        .subcommand_required(true)
        .subcommand(canon_command(alloc)?)?
        .subcommand(key_command(alloc)?)?
        .subcommand(same_command(alloc)?)?
        .subcommand(check_command(alloc, formats)?)
}

/// What a command line that clap has accepted asks for.
pub fn request_of<'m, 'a>(matches: &'m ArgMatches<'a>) -> Option<Request<'m>>
where
    'a: 'm,
{
    let (name, inner) = matches.subcommand()?;
    match name {
        "canon" => Some(Request::Canon {
            file: inner.get_str("file")?,
            output: inner.get_str("output"),
        }),
        "key" if inner.get_flag("check") => Some(Request::KeyCheck(inner.get_strs("files")?)),
        "key" => Some(Request::Key(inner.get_strs("files")?)),
        "same" => Some(Request::Same {
            first: inner.get_str("first")?,
            second: inner.get_str("second")?,
        }),
        _ => Some(Request::Check {
            format: Format::named(inner.get_str("format")?),
            target: inner.get_strs("target"),
            files: inner.get_strs("files")?,
        }),
    }
}
