//! Sources and sinks of bytes, which an engine reads and writes.
//!
//! They have traits of their own, whose contracts count the calls that failed; those of `Read` and
//! `Write` in `std` don't say when a call fails. So the contracts of the engines can say that each
//! failure is reported, and nothing else as one.
//!
//! `source.rt` has the trait of sources, the call that reads one to its end, and the source over a
//! reader; `sink.rt` the same for sinks and writers. `memory.rt` has devices over slices and
//! vectors.

mod memory;
mod sink;
mod source;

pub use memory::{MemSink, MemSource};
pub use sink::{ByteSink, WriterSink, put_all};
pub use source::{ByteSource, ReadError, ReaderSource, read_all};
use thiserror::Error;

/// A read of a source or a write to a sink failed. The reason isn't kept.
#[derive(Clone, Copy, Debug, PartialEq, Eq, Hash, Error)]
#[error("DeviceFailed")]
pub struct DeviceFailed;
