//! Canonical files and keys of BPF object files.

#![tactic(auto)]

mod answer;
mod args;
mod canon;
mod cause;
mod check;
mod code;
mod code_lines;
mod desk;
mod each;
mod escape;
mod files;
mod finding;
mod folder;
mod github;
mod hint;
mod items;
mod json;
mod key;
mod key_list;
mod linux;
mod machine;
mod names;
mod peek;
mod reason;
mod remark;
mod reports;
mod run;
mod same;
mod sources;
mod target;
mod target_name;
mod words;

use crate::answer::Status;
use crate::args::read_words;
use crate::check::Format;
use crate::desk::{Desk, Stop};
use crate::escape::escaped;
use crate::hint::{hint, without_tips};
use crate::run::run;
use crate::words::{Request, program, request_of, shown_word};
use clap::error::ErrorKind;
use std::alloc::{AllocError, Global};
use std::fmt::Display;
use std::process::ExitCode;

/// Reports why the program ends without an answer.
fn report<T: Display + Drop>(rt: &impl Eprint, why: T) -> Status {
    let _ = eprintln!(rt; "bpfcanon-object: {why}");
    Status::Trouble
}

/// The words as they are printed.
fn printed(alloc: Global, words: &[String]) -> Result<Vec<String>, AllocError> {
    let mut shown = Vec::new(alloc);
    for word in words {
        shown.push(escaped(alloc, shown_word(word.as_str()))?)?;
    }
    Ok(shown)
}

/// Prints the help, the version, or what is wrong with the words.
fn explain<R: Print + Eprint + AllocGlobal>(rt: &R, words: &[String]) -> Result<Status, Stop> {
    let alloc = rt.alloc();
    let shown = printed(alloc, words)?;
    let command = program(alloc, Format::NAMES.as_slice())?;
    let Err(error) = command.try_get_matches_from(shown.as_slice()) else {
        return Ok(report(rt, "the arguments are wrong"));
    };
    if !error.use_stderr() {
        return match error.print(rt) {
            Ok(()) => Ok(Status::Yes),
            Err(_) => Err(Stop::WriteFailed),
        };
    }
    let text = error.to_string(alloc)?;
    let text = without_tips(alloc, text.as_str())?;
    let _ = eprint!(rt; "{text}");
    Ok(match hint(words) {
        Some(more) => report(rt, more),
        None => Status::Trouble,
    })
}

/// Runs what a command line asks for.
fn run_request(rt: &HostRuntime, request: Request<'_>) -> Result<Status, Stop> {
    let mut desk = Desk {
        lines: rt.stdout(),
        messages: rt.stderr(),
        status: Status::Yes,
    };
    run(rt, &mut desk, request)?;
    Ok(desk.status)
}

/// Whether the word behind the name of the program is `version`, and the last one.
fn asks_version(words: &[String]) -> bool {
    match words.get(1) {
        Some(word) => word.as_str() == "version" && words.len() == 2,
        None => false,
    }
}

/// Runs a command line.
fn run_words(rt: &HostRuntime, words: &[String]) -> Result<Status, Stop> {
    if asks_version(words) {
        return run_request(rt, Request::Version);
    }
    let command = program(rt.alloc(), Format::NAMES.as_slice())?;
    match command.try_get_matches_from(words) {
        Ok(matches) => match request_of(&matches) {
            Some(request) => run_request(rt, request),
            None => explain(rt, words),
        },
        Err(error) => match error.kind() {
            ErrorKind::OutOfMemory => Err(Stop::Memory),
            _ => explain(rt, words),
        },
    }
}

/// Runs the command line of the process.
fn run_process(rt: &HostRuntime) -> Result<Status, Stop> {
    let words = read_words(rt)?;
    run_words(rt, words.as_slice())
}

fn main(rt: HostRuntime) -> ExitCode {
    let status = match run_process(&rt) {
        Ok(status) => status,
        Err(stop) => report(&rt, stop),
    };
    ExitCode::from(status.code())
}
