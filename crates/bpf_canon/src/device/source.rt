//! Sources of bytes: the trait, reading a source to its end, and a source over any reader, for
//! example standard input.
//!
//! The contract of `Read` doesn't say when a call fails, so the source over a reader passes the
//! result of the call to `answer_read`, whose contract says what is returned and counted for each
//! result. No call is repeated, even if it was interrupted, and nothing is buffered.

ghost use Rattle.std.specs.Prelude.{◌≡◌, ◌<◌, ◌≤◌, ◌+◌, ℕ, List, Option, length, IfErr, IfOk, OnOk};
ghost use Rattle.std.specs.Io.{ReadsAtMost, KnownBytes.Consumes, KnownBytes.IsAtEnd};
ghost use Rattle.std.specs.Io.KnownBytes.{ReadConsumes};
ghost use Rattle.bpf_canon.specs.device.{Device.AnswersRead, Device.CountsFailure};
ghost use Rattle.bpf_canon.specs.device.Reads as spec;
ghost use Rattle.bpf_canon.specs.declared.device.source.ReadError.TheVariants.{Memory};

use crate::device::DeviceFailed;
use std::alloc::{AllocError, AllocFailed, Allocator};
use std::io::Read;
use thiserror::Error;

/// A source of bytes. A read may return fewer bytes than the buffer holds.
pub trait ByteSource {
    /// The bytes that haven't been read yet, if the source knows them.
    ghost remaining: { Self → Option (List ℕ) };

    /// The number of reads that have failed since the source was made.
    ghost failures: { Self → ℕ };

    /// Reads into the start of the buffer. `Ok(n)` means that `n` bytes were read into the first
    /// `n` bytes of the buffer; `n` is 0 only at the end of input, or if the buffer is empty. Fewer
    /// than `u64::MAX` reads may have failed before.
    ///
    /// # Errors
    ///
    /// `DeviceFailed` if the read failed; then no byte was read.
    fn read(&mut self, buffer: &mut [u8]) -> Result<usize, DeviceFailed>
        requires { failures self.old < u64.MAX }
        ensures bound { ReadsAtMost result buffer.new }
        ensures bytes { ReadConsumes (remaining self.old) (remaining self.new) result buffer.new }
        ensures count { CountsFailure (failures self.old) (failures self.new) result };
}

/// A borrowed source. What is read from it is read from the source itself.
impl<S: ByteSource> ByteSource for &mut S {
    ghost remaining = { λ s. S.remaining s.now };

    ghost failures = { λ s. S.failures s.now };

    fn read(&mut self, buffer: &mut [u8]) -> Result<usize, DeviceFailed> {
        (**self).read(buffer)
    }
}

/// Why an input couldn't be read to its end.
#[derive(Clone, Copy, Debug, PartialEq, Eq, Hash, Error)]
pub enum ReadError {
    /// The input is longer than the limit.
    #[error("TooLong")]
    TooLong,
    /// A read of the source failed.
    #[error("ReadFailed")]
    ReadFailed,
    /// An allocation failed.
    #[error("Memory")]
    Memory,
}

impl From<AllocError> for ReadError {
    ghost from_gives = { λ _ e. e ≡ Memory };

    fn from(_error: AllocError) -> ReadError {
        ReadError::Memory
    }
}

impl<T: Drop> From<AllocFailed<T>> for ReadError {
    ghost from_gives = { λ _ e. e ≡ Memory };

    fn from(_error: AllocFailed<T>) -> ReadError {
        ReadError::Memory
    }
}

/// Reads until the source ends, and returns all its bytes. Each read has a buffer of 4,096 bytes.
/// Before the call, the source must have failed fewer than `u64::MAX` times.
///
/// # Errors
///
/// `TooLong` as soon as more than `limit` bytes have been read, `ReadFailed` as soon as a read
/// fails, and `Memory` if an allocation failed.
pub fn read_all<S: ByteSource, A: Allocator>(
    alloc: A,
    source: &mut S,
    limit: u64,
) -> Result<Vec<u8, A>, ReadError>
    requires { S.failures source.old < u64.MAX }
    ensures came { IfOk result (λ bytes.
        Consumes (S.remaining source.old) (S.remaining source.new) bytes.items) }
    ensures end { OnOk result (IsAtEnd (S.remaining source.new)) }
    ensures within { IfOk result (λ bytes. length bytes.items ≤ limit) }
    ensures healthy { OnOk result (S.failures source.new ≡ S.failures source.old) }
    ensures amid { IfErr result (λ e. (bytes : List ℕ)
        × (Consumes (S.remaining source.old) (S.remaining source.new) bytes
        × spec.EndsAmid limit bytes e)) }
    ensures count { IfErr result (λ e. S.failures source.new
        ≡ S.failures source.old + spec.failed_reads e) }
{
    let mut bytes = Vec::new(alloc);
    let mut buffer = [0u8; 4096];
    'reads: loop {
        match source.read(&mut buffer) {
            Err(DeviceFailed) => return Err(ReadError::ReadFailed),
            Ok(0) => return Ok(bytes),
            Ok(n) => {
                bytes.extend_from_slice(&buffer[..n])?;
                if bytes.len() as u64 > limit {
                    return Err(ReadError::TooLong);
                }
            }
        }
    }
}

/// A source over a reader. Every error of the reader, even an interrupted read, counts as a failed
/// read.
#[derive(Debug, Drop)]
pub struct ReaderSource<R> {
    reader: R,
    failed_reads: u64,
}

impl<R: Read> ReaderSource<R> {
    /// Wraps a reader.
    pub fn new(reader: R) -> ReaderSource<R>
        ensures bytes { ⟦<ReaderSource<R> as ByteSource>⟧.remaining result ≡ R.remaining reader }
        ensures healthy { ⟦<ReaderSource<R> as ByteSource>⟧.failures result ≡ 0 }
    {
        ReaderSource {
            reader,
            failed_reads: 0,
        }
    }

    /// Returns the reader. It still has every byte that the source would have returned.
    pub fn into_inner(self) -> R
        ensures { R.remaining result ≡ ⟦<ReaderSource<R> as ByteSource>⟧.remaining self }
    {
        self.reader
    }
}

impl<R: Read> ByteSource for ReaderSource<R> {
    ghost remaining = { λ s. R.remaining s.reader };

    ghost failures = { λ s. s.failed_reads };

    fn read(&mut self, buffer: &mut [u8]) -> Result<usize, DeviceFailed> {
        let answer = self.reader.read(buffer);
        answer_read(answer, &mut self.failed_reads)
    }
}

/// Converts the result of a reader to that of the source: an error of the reader is a failed read,
/// and nothing else is.
fn answer_read<E: Drop>(
    answer: Result<usize, E>,
    failed_reads: &mut u64,
) -> Result<usize, DeviceFailed>
    requires { failed_reads.old < u64.MAX }
    ensures { AnswersRead answer failed_reads.old failed_reads.new result }
{
    match answer {
        Ok(n) => Ok(n),
        Err(_) => {
            *failed_reads += 1;
            Err(DeviceFailed)
        }
    }
}
