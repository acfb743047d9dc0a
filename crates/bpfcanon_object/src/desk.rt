//! Where the answers go: standard output, standard error, and the exit status.

ghost use Rattle.std.specs.Prelude.{◌≡◌, ◌≤◌, IfOk, OnErr, OnOk, length, string_bytes};
ghost use Rattle.std.specs.Io.KnownBytes.{Appends, WriteAppends};
ghost use Rattle.bpfcanon_object.specs.Answers as spec;
ghost use Rattle.bpfcanon_object.specs.Written.{AppendsPart};

use crate::answer::{Answer, Status};
use std::alloc::{AllocError, AllocFailed, Allocator};
use std::io::{ErrorKind, Write};
use thiserror::Error;

/// Why a verb ends before its last file.
#[derive(Clone, Copy, Debug, PartialEq, Eq, Error)]
pub enum Stop {
    /// Standard output or standard error takes no more.
    #[error("the output can't be written")]
    WriteFailed,
    /// Out of memory.
    #[error("out of memory")]
    Memory,
}

impl From<AllocError> for Stop {
    ghost use Rattle.bpfcanon_object.specs.declared.desk.Stop.TheVariants.{Memory};

    ghost from_gives = { λ _ stop. stop ≡ Memory };

    fn from(_error: AllocError) -> Stop {
        Stop::Memory
    }
}

impl<T: Drop> From<AllocFailed<T>> for Stop {
    ghost use Rattle.bpfcanon_object.specs.declared.desk.Stop.TheVariants.{Memory};

    ghost from_gives = { λ _ stop. stop ≡ Memory };

    fn from(_error: AllocFailed<T>) -> Stop {
        Stop::Memory
    }
}

/// Takes the answers, one after another.
#[derive(Drop)]
pub struct Desk<O, E> {
    /// Standard output.
    pub lines: O,
    /// Standard error.
    pub messages: E,
    /// The status of the files so far.
    pub status: Status,
}

impl<O: Write, E: Write> Desk<O, E> {
    /// Writes an answer.
    ///
    /// # Errors
    ///
    /// `WriteFailed` if a write fails.
    pub fn put<A: Allocator>(&mut self, answer: &Answer<A>) -> Result<(), Stop>
        ensures lines { OnOk result (Appends (O.contents self.old.lines)
            (O.contents self.new.lines) (string_bytes answer.now.lines)) }
        ensures messages { OnOk result (Appends (E.contents self.old.messages)
            (E.contents self.new.messages) (string_bytes answer.now.messages)) }
        ensures status { OnOk result
            (self.new.status ≡ spec.worst self.old.status answer.now.status) }

        ensures some_lines { OnErr result (AppendsPart (O.contents self.old.lines)
            (O.contents self.new.lines) (string_bytes answer.now.lines)) }
        ensures some_messages { OnErr result (AppendsPart (E.contents self.old.messages)
            (E.contents self.new.messages) (string_bytes answer.now.messages)) }
    {
        write_bytes(&mut self.lines, answer.lines.as_bytes())?;
        write_bytes(&mut self.messages, answer.messages.as_bytes())?;
        self.status = self.status.worst(answer.status);
        Ok(())
    }

    /// Writes bytes to standard output.
    ///
    /// # Errors
    ///
    /// `WriteFailed` if a write fails.
    pub fn put_bytes(&mut self, bytes: &[u8]) -> Result<(), Stop>
        ensures lines { OnOk result
            (Appends (O.contents self.old.lines) (O.contents self.new.lines) bytes.now) }
        ensures some_lines { OnErr result
            (AppendsPart (O.contents self.old.lines) (O.contents self.new.lines) bytes.now) }
        ensures messages { E.contents self.new.messages ≡ E.contents self.old.messages }
        ensures status { self.new.status ≡ self.old.status }
    {
        write_bytes(&mut self.lines, bytes)
    }
}

/// Writes some of the bytes, and says how many: none if the write was interrupted.
fn write_some<W: Write>(writer: &mut W, bytes: &[u8]) -> Result<usize, Stop>
    ensures bound { IfOk result (λ n. n ≤ length bytes.now) }
    ensures bytes { WriteAppends (W.contents writer.old) (W.contents writer.new) result bytes.now }
{
    match writer.write(bytes) {
        Ok(0) => Err(Stop::WriteFailed),
        Ok(n) => Ok(n),
        Err(error) if error.kind() == ErrorKind::Interrupted => Ok(0),
        Err(_) => Err(Stop::WriteFailed),
    }
}

/// Writes all bytes.
pub fn write_bytes<W: Write>(writer: &mut W, bytes: &[u8]) -> Result<(), Stop>
    ensures whole { OnOk result
        (Appends (W.contents writer.old) (W.contents writer.new) bytes.now) }
    ensures part { OnErr result
        (AppendsPart (W.contents writer.old) (W.contents writer.new) bytes.now) }
{
    let mut taken = 0;
    for _turn in 0..u64::MAX {
        if taken == bytes.len() {
            return Ok(());
        }
        taken += write_some(writer, &bytes[taken..])?;
    }
    Err(Stop::WriteFailed)
}
