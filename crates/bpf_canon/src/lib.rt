//! Canonical bytes of eBPF instructions and of BTF, for byte slices and from a source to a sink.
//!
//! The files that a file of types goes through, and what happens to the offset of a name in each:
//!
//! ```text
//! btf/run.rt                  reads the source to its end
//! btf_types                   checks the file: that name_off is in the string section, for example
//! btf/canon.rt                asks for the canonical bytes of the checked types
//! btf/write/table.rt          chooses the algorithm: by sections, or by texts (btf/names.rt)
//! btf/write/sections.rt       reads the records, and passes each name_off in use, in order, to
//! btf/strings/used_offsets.rt   which notes it, and numbers the offsets in use
//! btf/strings/ranked_texts.rt   sorts the longest names from their ends, which ranks them
//! btf/strings/shared_offsets.rt  finds the host of a name by its rank, and its offset in the table
//! btf/write/sections.rt       reads the records again, and writes each with its new name_off
//! btf/write/head_words.rt       the header before them, and the words of a record
//! ```
//!
//! A canonical object file has another string table, in which no names share bytes. Its offsets are
//! found by `btf/strings/distinct_offsets.rt`, and its records written by `btf/write/sections.rt`.

#![tactic(auto)]

mod btf;
mod device;
mod engine;
mod insn;

pub use bpf_insn::{InsnError, Order, first_fault};
pub use btf::btf_laws;
pub use btf::canon::{canon_btf, recode_btf, same_btf};
pub use btf::run::{BTF_LIMIT, run_btf};
pub use btf::strings::distinct_offsets::DistinctOffsets;
pub use btf::strings::used_offsets::FirstUses;
pub use btf::write::head_words::push_header;
pub use btf::write::sections::{note_names, push_types};
pub use btf::write::table::write_btf;
pub use device::{
    ByteSink, ByteSource, DeviceFailed, MemSink, MemSource, ReadError, ReaderSource, WriterSink,
    put_all, read_all,
};
pub use engine::{RunCause, RunError, SideError};
pub use insn::canon::{canon_insns, recode_insns, same_insns, write_insns};
pub use insn::feed::InsnFeed;
pub use insn::insn_laws;
pub use insn::run::{INSN_LIMIT, run_insns};
