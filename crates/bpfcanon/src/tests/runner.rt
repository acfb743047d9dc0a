//! Runs the command over memory.

use crate::command::command;
use bpf_canon::{MemSink, MemSource};
use std::alloc::{AllocError, Allocator, Global};

/// A command line with its input and its answer.
#[derive(Clone, Copy)]
pub struct Row {
    /// What the row shows.
    pub name: &'static str,
    /// The arguments, separated by blanks.
    pub line: &'static str,
    pub input: &'static [u8],
    pub status: u8,
    pub output: &'static [u8],
    /// The line on standard error with its newline, or nothing.
    pub fault: &'static str,
}

/// How many bytes a read and a write move at most, and which call of each device fails first, counted from 1.
#[derive(Clone, Copy)]
pub struct Pace {
    pub read: usize,
    pub write: usize,
    pub read_fuse: Option<u64>,
    pub write_fuse: Option<u64>,
    pub fault_fuse: Option<u64>,
}

/// Devices that don't fail.
pub fn steady(piece: usize) -> Pace {
    Pace {
        read: piece,
        write: piece,
        read_fuse: None,
        write_fuse: None,
        fault_fuse: None,
    }
}

/// The status of a command, and what its sinks received.
#[derive(Drop)]
pub struct Ran {
    pub status: u8,
    pub output: Vec<u8>,
    pub faults: Vec<u8>,
}

/// Appends an argument.
fn push_word(alloc: Global, words: &mut Vec<String>, word: &str) -> Result<(), AllocError> {
    words.push(String::from_str(alloc, word)?)?;
    Ok(())
}

/// The argument vector: the name of the command and the arguments of a line.
pub fn words_of(alloc: Global, line: &str) -> Result<Vec<String>, AllocError> {
    let mut words = Vec::new(alloc);
    push_word(alloc, &mut words, "bpfcanon")?;
    for word in line.split_whitespace() {
        push_word(alloc, &mut words, word)?;
    }
    Ok(words)
}

/// Runs a command line on an input, and returns its status. Its output and its messages are appended.
pub fn status_of<A: Allocator>(
    alloc: Global,
    (line, input): (&str, &[u8]),
    pace: Pace,
    output: &mut Vec<u8, A>,
    faults: &mut Vec<u8, A>,
) -> Result<u8, AllocError> {
    let words = words_of(alloc, line)?;
    if words.is_empty() {
        return Ok(u8::MAX);
    }
    let mut source = MemSource::new(input, pace.read.max(1), pace.read_fuse);
    let mut sink = MemSink::new(output, pace.write.max(1), pace.write_fuse);
    let mut fault_sink = MemSink::new(faults, pace.write.max(1), pace.fault_fuse);
    let words = words.as_slice();
    Ok(command(alloc, words, &mut source, &mut sink, &mut fault_sink))
}

/// Runs a command line on an input.
pub fn run(alloc: Global, line: &str, input: &[u8], pace: Pace) -> Result<Ran, AllocError> {
    let mut output = Vec::new(alloc);
    let mut faults = Vec::new(alloc);
    let status = status_of(alloc, (line, input), pace, &mut output, &mut faults)?;
    Ok(Ran {
        status,
        output,
        faults,
    })
}
