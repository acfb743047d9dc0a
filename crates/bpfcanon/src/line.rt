//! The command line: its options, and the job that its arguments describe.

pub(crate) mod options;
pub(crate) mod parse;
