//! The outcomes of commands that end with an error of a library.
//!
//! A command passes such an error on by `?`, and it becomes the outcome here. That of an engine,
//! which says what its sink has accepted, is converted by [`Outcome::of_stop`].

ghost use Rattle.std.specs.Prelude.{◌≡◌};
ghost use Rattle.bpfcanon.specs.declared.outcome.Outcome.TheVariants.{Fault, Memory};
ghost use Rattle.bpfcanon.specs.commands.Errors.{btf_end, btf_side_end, insn_side_end};
ghost use Rattle.bpfcanon.specs.commands.Errors.{listing_end, put_end, read_end};

use crate::commands::pieces::PutError;
use crate::outcome::Outcome;
use bpf_canon::{ReadError, SideError};
use bpf_insn::SlotFault;
use bpf_text::ListError;
use btf_raw::BtfFault;
use btf_types::BtfError;
use std::alloc::AllocError;

impl From<AllocError> for Outcome {
    ghost from_gives = { λ _ outcome. outcome ≡ Memory };

    fn from(_error: AllocError) -> Outcome {
        Outcome::Memory
    }
}

/// The output was written in pieces, and is incomplete.
impl From<PutError> for Outcome {
    ghost from_gives = { λ error outcome. outcome ≡ put_end error };

    fn from(error: PutError) -> Outcome {
        match error {
            PutError::WriteFailed => Outcome::WriteFailed,
            PutError::Memory => Outcome::Memory,
        }
    }
}

impl From<ReadError> for Outcome {
    ghost from_gives = { λ error outcome. outcome ≡ read_end error };

    fn from(error: ReadError) -> Outcome {
        match error {
            ReadError::TooLong => Outcome::TooLong,
            ReadError::ReadFailed => Outcome::ReadFailed,
            ReadError::Memory => Outcome::Memory,
        }
    }
}

/// The fault is in the only file.
impl From<SlotFault> for Outcome {
    ghost from_gives = { λ fault outcome. outcome ≡ Fault fault };

    fn from(fault: SlotFault) -> Outcome {
        Outcome::Fault(fault)
    }
}

impl From<ListError> for Outcome {
    ghost from_gives = { λ error outcome. outcome ≡ listing_end error };

    fn from(error: ListError) -> Outcome {
        match error {
            ListError::Fault(fault) => Outcome::FaultyLine(fault),
            ListError::Memory => Outcome::Memory,
        }
    }
}

/// The fault is in the only file.
impl From<BtfError> for Outcome {
    ghost from_gives = { λ error outcome. outcome ≡ btf_end error };

    fn from(error: BtfError) -> Outcome {
        match error {
            BtfError::Fault(fault) => Outcome::BtfFault(fault),
            BtfError::Memory => Outcome::Memory,
        }
    }
}

impl From<SideError<SlotFault>> for Outcome {
    ghost from_gives = { λ error outcome. outcome ≡ insn_side_end error };

    fn from(error: SideError<SlotFault>) -> Outcome {
        match error {
            SideError::First(fault) => Outcome::First(fault),
            SideError::Second(fault) => Outcome::Second(fault),
            SideError::Memory => Outcome::Memory,
        }
    }
}

impl From<SideError<BtfFault>> for Outcome {
    ghost from_gives = { λ error outcome. outcome ≡ btf_side_end error };

    fn from(error: SideError<BtfFault>) -> Outcome {
        match error {
            SideError::First(fault) => Outcome::FirstBtf(fault),
            SideError::Second(fault) => Outcome::SecondBtf(fault),
            SideError::Memory => Outcome::Memory,
        }
    }
}
