//! The errors that the engines for instructions and for BTF share.
//!
//! An engine, [`run_insns`](crate::run_insns) or [`run_btf`](crate::run_btf), reads a source to its
//! end and writes to a sink. Both stop for the same causes, and only the type of a fault differs,
//! which is a parameter here. The error of a comparison also says which of its two inputs has the
//! fault. Why a device failed isn't kept.

ghost use Rattle.std.specs.Prelude.{◌≡◌};
ghost use Rattle.bpf_canon.specs.declared.engine.RunCause.TheVariants as run;
ghost use Rattle.bpf_canon.specs.declared.engine.SideError.TheVariants as side;

use std::alloc::{AllocError, AllocFailed};
use thiserror::Error;

/// Why [`run_insns`](crate::run_insns) or [`run_btf`](crate::run_btf) stopped. `F` is the type of a
/// fault of the input.
#[derive(Clone, Copy, Debug, PartialEq, Eq, Hash, Error)]
pub enum RunCause<F> {
    /// The input is invalid: its first fault.
    #[error("Fault")]
    Fault(F),
    /// The input is longer than the limit.
    #[error("TooLong")]
    TooLong,
    /// A read of the source failed.
    #[error("ReadFailed")]
    ReadFailed,
    /// A write to the sink failed.
    #[error("WriteFailed")]
    WriteFailed,
    /// An allocation failed.
    #[error("Memory")]
    Memory,
}

/// The error of [`run_insns`](crate::run_insns) or [`run_btf`](crate::run_btf).
#[derive(Clone, Copy, Debug, PartialEq, Eq, Hash, Error)]
#[error("{cause}")]
pub struct RunError<F> {
    /// Why it stopped.
    pub cause: RunCause<F>,
    /// The number of bytes that the sink accepted before.
    pub written: u64,
}

/// Why two files couldn't be compared. `F` is the type of a fault of a file.
#[derive(Clone, Copy, Debug, PartialEq, Eq, Hash, Error)]
pub enum SideError<F> {
    /// The first file is invalid: its first fault.
    #[error("First")]
    First(F),
    /// The second file is invalid, and the first is valid: the first fault of the second.
    #[error("Second")]
    Second(F),
    /// An allocation failed.
    #[error("Memory")]
    Memory,
}

impl<F> From<AllocError> for RunCause<F> {
    ghost from_gives = { λ _ cause. cause ≡ run.Memory };

    fn from(_error: AllocError) -> RunCause<F> {
        RunCause::Memory
    }
}

impl<F, T: Drop> From<AllocFailed<T>> for RunCause<F> {
    ghost from_gives = { λ _ cause. cause ≡ run.Memory };

    fn from(_error: AllocFailed<T>) -> RunCause<F> {
        RunCause::Memory
    }
}

impl<F> From<AllocError> for SideError<F> {
    ghost from_gives = { λ _ error. error ≡ side.Memory };

    fn from(_error: AllocError) -> SideError<F> {
        SideError::Memory
    }
}

impl<F, T: Drop> From<AllocFailed<T>> for SideError<F> {
    ghost from_gives = { λ _ error. error ≡ side.Memory };

    fn from(_error: AllocFailed<T>) -> SideError<F> {
        SideError::Memory
    }
}

/// The error for a cause, after the sink has accepted `written` bytes.
pub(crate) fn stopped<F>(cause: RunCause<F>, written: u64) -> RunError<F>
    ensures cause { result.cause ≡ cause }
    ensures written { result.written ≡ written }
{
    RunError { cause, written }
}

/// The error if the sink accepted `written` bytes and then failed.
pub(crate) fn stopped_writing<F>(written: u64) -> RunError<F>
    ensures cause { result.cause ≡ run.WriteFailed }
    ensures written { result.written ≡ written }
{
    stopped(RunCause::WriteFailed, written)
}
