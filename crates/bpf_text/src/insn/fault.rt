//! Faults: why an input isn't a listing.
//!
//! The fault of an input is the number of its first faulty line and one of four causes. Neither the
//! column nor the faulty token is reported. The faults of instructions in bytes are those of
//! `bpf_insn`. A test compares the names and sentences here with docs/causes.tsv, from which the
//! pages and other languages have theirs.

ghost use Rattle.std.specs.Prelude.{◌≡◌, Some};
ghost use Rattle.bpf_text.specs.declared.insn.fault.ListError.TheVariants.{Fault, Memory};
ghost use Rattle.bpf_text.specs.insn.LineCauseNames.{line_cause_name, line_cause_number};
ghost use Rattle.bpf_text.specs.insn.LineCauseNames.{line_cause_sentence};

use std::alloc::{AllocError, AllocFailed};
use std::fmt;
use thiserror::Error;

/// Why a line is faulty: the first of these that applies (docs/FORMATS.md, "Reading a listing").
#[derive(Clone, Copy, Debug, PartialEq, Eq, PartialOrd, Ord, Hash)]
pub enum LineCause {
    /// A byte before the comment is neither blank nor part of a token.
    Char = 1,
    /// The first token isn't a mnemonic.
    Word = 2,
    /// The operands don't match the mnemonic in number or kind.
    Shape = 3,
    /// A number is outside the range of its field.
    Range = 4,
}

impl LineCause {
    /// The number of the cause, 1 to 4. Of the causes that apply to a line, the smallest number is
    /// reported.
    pub fn number(self) -> u8
        ensures { result ≡ line_cause_number self }
    {
        self as u8
    }

    /// The name of the variant, which is how `bpfcanon` reports the cause.
    pub fn name(self) -> &'static str
        ensures { result.now ≡ line_cause_name self }
    {
        match self {
            LineCause::Char => "Char",
            LineCause::Word => "Word",
            LineCause::Shape => "Shape",
            LineCause::Range => "Range",
        }
    }

    /// A sentence that explains the cause, without a full stop.
    pub fn describe(self) -> &'static str
        ensures { result.now ≡ line_cause_sentence self }
    {
        match self {
            LineCause::Char => "a character that is neither blank nor part of a token",
            LineCause::Word => "no instruction has this mnemonic",
            LineCause::Shape => "the operands are not those of the mnemonic",
            LineCause::Range => "a number is out of the range of its field",
        }
    }
}

impl fmt::Display for LineCause {
    ghost output = { λ cause. Some (line_cause_name cause) };

    fn fmt<W: fmt::Write>(&self, f: &mut fmt::Formatter<W>) -> fmt::Result {
        f.write_str(self.name())
    }
}

/// The first faulty line of an input. It is shown as `line 2 Word`, the line and the name of the
/// cause.
#[derive(Clone, Copy, Debug, PartialEq, Eq, PartialOrd, Ord, Hash, Error)]
#[error("line {line} {cause}")]
pub struct LineFault {
    /// The number of the line, counted from 1.
    pub line: u64,
    /// Why the line is faulty.
    pub cause: LineCause,
}

/// Why no instructions are returned. `Display` prints the variant's name; for a message, use
/// [`LineCause::describe`].
#[derive(Clone, Copy, Debug, PartialEq, Eq, Hash, Error)]
pub enum ListError {
    /// The input isn't a listing.
    #[error("Fault")]
    Fault(LineFault),
    /// Out of memory.
    #[error("Memory")]
    Memory,
}

impl From<AllocError> for ListError {
    ghost from_gives = { λ _ e. e ≡ Memory };

    fn from(_e: AllocError) -> ListError {
        ListError::Memory
    }
}

impl<T: Drop> From<AllocFailed<T>> for ListError {
    ghost from_gives = { λ _ e. e ≡ Memory };

    fn from(_e: AllocFailed<T>) -> ListError {
        ListError::Memory
    }
}

impl From<LineFault> for ListError {
    ghost from_gives = { λ fault e. e ≡ Fault fault };

    fn from(fault: LineFault) -> ListError {
        ListError::Fault(fault)
    }
}
