//! Canonical bytes of instructions: of a complete file, from pieces, from a source to a sink, and
//! comparison.

pub(crate) mod canon;
pub(crate) mod feed;
pub mod insn_laws;
pub(crate) mod run;
