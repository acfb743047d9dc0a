//! Canonical bytes of BTF: of a file, of a table of types, from a source to a sink, and comparison.

pub mod btf_laws;
pub(crate) mod canon;
pub(crate) mod names;
pub(crate) mod run;
pub(crate) mod strings;
mod suffixes;
pub(crate) mod write;
