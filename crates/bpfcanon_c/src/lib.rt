//! The proved calls of bpfcanon for C. `capi/proved.h` declares them, only for `capi/bpfcanon.c`:
//! each slice is a pointer that is never null, followed by its length. The public calls of
//! `capi/bpfcanon.h` are C around these.
//!
//! No call keeps or returns memory: output goes into a buffer of the caller. Offsets are in bytes
//! from the start of the input, and statuses and causes are numbers.
//!
//! The calls are a crate of their own. In `bpf_canon` every executable that links it would export
//! them, and it would depend on `bpf_text`.

#![tactic(auto)]

mod answer;
mod btf;
mod btf_decode;
mod btf_encode;
mod btf_plain;
mod btf_rows;
mod front;
mod insn;
mod insn_decode;
mod insn_encode;
mod insn_rows;
mod listing;
mod object;
mod opcode_rows;
mod types_text;

pub use answer::{Answer, Ending, FaultCode};
pub use btf_decode::RowsEnding;
pub use btf_rows::{ItemRow, TypeRow};
pub use front::FrontEnding;
pub use insn_rows::InsnRow;
