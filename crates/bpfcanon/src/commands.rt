//! The commands, and the code that they share.

pub(crate) mod btf_show;
mod errors;
pub(crate) mod insn_show;
pub(crate) mod one_file;
pub(crate) mod pieces;
pub(crate) mod reply;
pub(crate) mod two_files;
