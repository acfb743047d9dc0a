//! A command with its options.

use crate::verb::Verb;
use bpf_words::Order;

/// A command and the values of its options. Options that the command doesn't accept are `Little`
/// or 0.
#[derive(Clone, Copy, Debug, PartialEq, Eq)]
pub struct Job {
    /// The command.
    pub verb: Verb,
    /// `--order`: the byte order of the input, or of the first file.
    pub order: Order,
    /// `--to`: the byte order of the output.
    pub to: Order,
    /// `--other`: the byte order of the second file.
    pub other: Order,
    /// `--split`: the length of the first file in bytes.
    pub split: u64,
}
