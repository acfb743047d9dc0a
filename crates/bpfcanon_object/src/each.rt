//! The verbs that answer for each file by itself.

ghost use Rattle.std.specs.Prelude.{◌≡◌, OnErr, OnOk};
ghost use Rattle.bpfcanon_object.specs.{Answers.worst, Each.IsEachAnswer, Each.IsEachPart};
ghost use Rattle.bpfcanon_object.specs.Written.{IsPartWritten, IsWritten};

use crate::answer::Status;
use crate::check::{Format, put_check};
use crate::desk::{Desk, Stop};
use crate::key::key_answer;
use crate::target::Target;
use std::alloc::Allocator;
use std::io::Write;

/// A verb that answers for each file by itself.
#[derive(Clone, Copy)]
pub enum Each {
    /// `key`.
    Key,
    /// `check`, with a target if there is one.
    Check(Format, Option<Target>),
}

impl Each {
    /// Puts the answer for the bytes of a file on the desk.
    ///
    /// # Errors
    ///
    /// `WriteFailed` if a write fails, and `Memory` if memory can't be allocated. A part of the
    /// answer may be on the desk then.
    pub fn put<A: Allocator + Copy, O: Write, E: Write>(
        self,
        alloc: A,
        desk: &mut Desk<O, E>,
        name: &str,
        bytes: &[u8],
    ) -> Result<(), Stop>
        ensures whole { OnOk result ((status : Status) × (IsWritten
            (IsEachAnswer A self name.now bytes.now status)
            (O.contents desk.old.lines) (O.contents desk.new.lines)
            (E.contents desk.old.messages) (E.contents desk.new.messages)
            × (desk.new.status ≡ worst desk.old.status status))) }
        ensures part { OnErr result (IsPartWritten
            (IsEachPart A self name.now bytes.now)
            (O.contents desk.old.lines) (O.contents desk.new.lines)
            (E.contents desk.old.messages) (E.contents desk.new.messages)) }
    {
        match self {
            Each::Key => {
                let answer = key_answer(alloc, name, bytes)?;
                desk.put(&answer)?;
                Ok(())
            }
            Each::Check(format, target) => {
                let (lines, messages) = (&mut desk.lines, &mut desk.messages);
                let status = put_check(alloc, lines, messages, format, target, name, bytes)?;
                desk.status = desk.status.worst(status);
                Ok(())
            }
        }
    }
}
