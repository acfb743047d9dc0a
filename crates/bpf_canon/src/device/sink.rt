//! Sinks of bytes: the trait, writing all bytes to a sink, and a sink over any writer, for example
//! standard output.
//!
//! The contract of `Write` doesn't say when a call fails, so the sink over a writer passes the
//! result of the call to `answer_write`, whose contract says what is returned and counted for each
//! result. No call is repeated, even if it was interrupted, and nothing is buffered.

ghost use Rattle.std.specs.Prelude.{◌≡◌, ◌<◌, ℕ, List, Option, length, take, IfErr, IfOk, OnOk};
ghost use Rattle.std.specs.Io.{WritesAtMost, KnownBytes.Appends, KnownBytes.WriteAppends};
ghost use Rattle.bpf_canon.specs.device.Device.{AnswersWrite, CountsFailure};

use crate::device::DeviceFailed;
use std::io::Write;

/// A sink of bytes. A write may accept fewer bytes than it is offered.
pub trait ByteSink {
    /// The bytes that the sink has accepted, if it knows them.
    ghost contents: { Self → Option (List ℕ) };

    /// The number of writes that have failed since the sink was made.
    ghost failures: { Self → ℕ };

    /// Writes a prefix of the slice. `Ok(n)` means that the first `n` bytes were accepted, at least
    /// one unless the slice is empty. Fewer than `u64::MAX` writes may have failed before.
    ///
    /// # Errors
    ///
    /// `DeviceFailed` if the write failed; then nothing was accepted.
    fn write(&mut self, bytes: &[u8]) -> Result<usize, DeviceFailed>
        requires { failures self.old < u64.MAX }
        ensures bound { WritesAtMost result bytes.now }
        ensures progress { IfOk result (λ n. 0 < length bytes.now → 0 < n) }
        ensures bytes { WriteAppends (contents self.old) (contents self.new) result bytes.now }
        ensures count { CountsFailure (failures self.old) (failures self.new) result };
}

/// A borrowed sink. What is written to it is written to the sink itself.
impl<W: ByteSink> ByteSink for &mut W {
    ghost contents = { λ s. W.contents s.now };

    ghost failures = { λ s. W.failures s.now };

    fn write(&mut self, bytes: &[u8]) -> Result<usize, DeviceFailed> {
        (**self).write(bytes)
    }
}

/// Writes all the bytes. Each write offers all the remaining bytes. Before the call, the sink must
/// have failed fewer than `u64::MAX` times.
///
/// # Errors
///
/// `Err(n)` if a write fails; the sink has then accepted exactly the first `n` bytes.
pub fn put_all<W: ByteSink>(sink: &mut W, bytes: &[u8]) -> Result<(), u64>
    requires { W.failures sink.old < u64.MAX }
    ensures ok { OnOk result (Appends (W.contents sink.old) (W.contents sink.new) bytes.now) }
    ensures taken { IfErr result (λ n. (n < length bytes.now)
        × Appends (W.contents sink.old) (W.contents sink.new) (take n bytes.now)) }
    ensures count { CountsFailure (W.failures sink.old) (W.failures sink.new) result }
{
    let mut taken = 0;
    while taken < bytes.len() {
        taken += sink.write(&bytes[taken..]).map_err(|_| taken as u64)?;
    }
    Ok(())
}

/// A sink over a writer. Every error of the writer, even an interrupted write, counts as a failed
/// write, and so does a write that accepts 0 of one or more bytes.
#[derive(Debug, Drop)]
pub struct WriterSink<W> {
    writer: W,
    failed_writes: u64,
}

impl<W: Write> WriterSink<W> {
    /// Wraps a writer.
    pub fn new(writer: W) -> WriterSink<W>
        ensures bytes { ⟦<WriterSink<W> as ByteSink>⟧.contents result ≡ W.contents writer }
        ensures healthy { ⟦<WriterSink<W> as ByteSink>⟧.failures result ≡ 0 }
    {
        WriterSink {
            writer,
            failed_writes: 0,
        }
    }

    /// Returns the writer, which has received every byte that the sink accepted.
    pub fn into_inner(self) -> W
        ensures { W.contents result ≡ ⟦<WriterSink<W> as ByteSink>⟧.contents self }
    {
        self.writer
    }
}

impl<W: Write> ByteSink for WriterSink<W> {
    ghost contents = { λ s. W.contents s.writer };

    ghost failures = { λ s. s.failed_writes };

    fn write(&mut self, bytes: &[u8]) -> Result<usize, DeviceFailed> {
        let answer = self.writer.write(bytes);
        answer_write(answer, bytes.len(), &mut self.failed_writes)
    }
}

/// Converts the result of a writer that was offered `offered` bytes to that of the sink: an error
/// of the writer is a failed write, and so is `Ok(0)` for one byte or more. `Ok(0)` for no bytes
/// succeeds.
fn answer_write<E: Drop>(
    answer: Result<usize, E>,
    offered: usize,
    failed_writes: &mut u64,
) -> Result<usize, DeviceFailed>
    requires { failed_writes.old < u64.MAX }
    ensures { AnswersWrite answer offered failed_writes.old failed_writes.new result }
{
    match answer {
        Ok(n) if n > 0 || offered == 0 => Ok(n),
        _ => {
            *failed_writes += 1;
            Err(DeviceFailed)
        }
    }
}
