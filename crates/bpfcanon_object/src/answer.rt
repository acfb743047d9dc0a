//! What a verb answers for one file: its lines, its messages, and the status.

ghost use Rattle.std.specs.Prelude.{◌≡◌, [], IfOk, string_bytes};
ghost use Rattle.bpfcanon_object.specs.Answers as spec;
ghost use Rattle.bpfcanon_object.specs.Answers.{Explains, IsAnswer, IsRefused};
ghost use Rattle.bpfcanon_object.specs.Lines as lines;
ghost use Rattle.bpfcanon_object.specs.Lines.{trouble_line};
ghost use Rattle.bpfcanon_object.specs.declared.answer.Status.TheVariants.{Trouble};

use crate::cause::{object_cause_name, object_cause_sentence};
use crate::escape::escaped;
use crate::remark::remark;
use bpf_object::ObjectFault;
use std::alloc::{AllocError, Allocator, Global};

/// The exit status of the program, or the part that one file has in it.
#[derive(Clone, Copy, Debug, PartialEq, Eq)]
pub enum Status {
    /// Accepted, equal.
    Yes,
    /// Refused, different.
    No,
    /// There is no answer: a file can't be read, or the words are no command.
    Trouble,
}

impl Status {
    /// The exit status of the process.
    pub fn code(self) -> u8
        ensures { result ≡ spec.code self }
    {
        match self {
            Status::Yes => 0,
            Status::No => 1,
            Status::Trouble => 2,
        }
    }

    /// The status of two files together.
    pub fn worst(self, other: Status) -> Status
        ensures { result ≡ spec.worst self other }
    {
        match self {
            Status::Yes => other,
            Status::No => match other {
                Status::Trouble => Status::Trouble,
                _ => Status::No,
            },
            Status::Trouble => Status::Trouble,
        }
    }
}

/// What is said of one file. Each line ends with a newline.
#[derive(Debug, Drop)]
pub struct Answer<A: Allocator = Global> {
    /// The status.
    pub status: Status,
    /// For standard output.
    pub lines: String<A>,
    /// For standard error.
    pub messages: String<A>,
}

impl<A: Allocator + Copy> Answer<A> {
    /// An answer of lines.
    pub fn of_lines(alloc: A, status: Status, lines: String<A>) -> Answer<A>
        ensures { IsAnswer status (string_bytes lines) [] result }
    {
        Answer {
            status,
            lines,
            messages: String::new(alloc),
        }
    }

    /// An answer of messages.
    pub fn of_messages(alloc: A, status: Status, messages: String<A>) -> Answer<A>
        ensures { IsAnswer status [] (string_bytes messages) result }
    {
        Answer {
            status,
            lines: String::new(alloc),
            messages,
        }
    }
}

/// The sentence of the cause of a fault, and a remark on the file.
pub fn explained<A: Allocator + Copy>(
    alloc: A,
    bytes: &[u8],
    fault: ObjectFault,
) -> Result<String<A>, AllocError>
    ensures { IfOk result (λ text. Explains fault.cause (string_bytes text)) }
{
    let mut text = String::from_str(alloc, object_cause_sentence(fault.cause))?;
    let more = remark(alloc, bytes, fault)?;
    text.push_str(more.as_str())?;
    Ok(text)
}

/// The line for a file that is refused: the offset of its fault, the cause, and what it means.
pub fn fault_line<A: Allocator + Copy>(
    alloc: A,
    name: &str,
    fault: ObjectFault,
    text: &str,
) -> Result<String<A>, AllocError>
    ensures { IfOk result (λ line. string_bytes line ≡ lines.fault_line name.now fault text.now) }
{
    let name = escaped(alloc, name)?;
    let cause = object_cause_name(fault.cause);
    let pos = fault.pos;
    format!(in alloc; "{name}: byte {pos}: {cause}: {text}\n")
}

/// The answer for a file that is refused.
pub fn refused_answer<A: Allocator + Copy>(
    alloc: A,
    status: Status,
    name: &str,
    bytes: &[u8],
    fault: ObjectFault,
) -> Result<Answer<A>, AllocError>
    ensures { IfOk result (IsRefused status name.now fault []) }
{
    let text = explained(alloc, bytes, fault)?;
    let line = fault_line(alloc, name, fault, text.as_str())?;
    Ok(Answer::of_messages(alloc, status, line))
}

/// The answer for a file of which nothing can be said, and why.
pub fn trouble_answer<A: Allocator + Copy>(
    alloc: A,
    name: &str,
    why: &str,
) -> Result<Answer<A>, AllocError>
    ensures { IfOk result (IsAnswer Trouble [] (trouble_line name.now why.now)) }
{
    let name = escaped(alloc, name)?;
    let line = format!(in alloc; "bpfcanon-object: {name}: {why}\n")?;
    Ok(Answer::of_messages(alloc, Status::Trouble, line))
}
