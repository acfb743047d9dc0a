//! Command lines and their jobs. The lines that are refused are rows of `vectors`, and those of each choice of options are in `options`.

use super::expect::holds;
use super::runner::words_of;
use crate::job::Job;
use crate::line::parse::{LineError, parse_line};
use crate::verb::Verb;
use bpf_words::Order;
use std::alloc::{AllocError, Global};
use std::process::Abort;
use std::test::Fail;

/// Compares the job of a line.
pub fn check_line(
    rt: &impl Abort,
    alloc: Global,
    line: &str,
    job: Result<Job, LineError>,
) -> Result<(), AllocError> {
    let words = words_of(alloc, line)?;
    let is_right = !words.is_empty() && parse_line(alloc, words.as_slice()) == job;
    holds(rt, is_right, (line, 0));
    Ok(())
}

/// The job of a command in little-endian order.
fn little(verb: Verb, split: u64) -> Job {
    Job {
        verb,
        order: Order::Little,
        to: Order::Little,
        other: Order::Little,
        split,
    }
}

#[test]
fn lines_ask_for_jobs(rt: HostRuntime) -> Result<(), Fail> {
    for (line, job) in [
        ("", Ok(little(Verb::InsnCanon, 0))),
        ("insn-same --split +8", Ok(little(Verb::InsnSame, 8))),
        ("insn-same", Err(LineError::Usage)),
        ("insn-canon --order middle", Err(LineError::Usage)),
        ("insn-same --split 8", Ok(little(Verb::InsnSame, 8))),
        ("btf-same --split 45", Ok(little(Verb::BtfSame, 45))),
    ] {
        check_line(&rt, rt.alloc(), line, job)?;
    }
    Ok(())
}

#[test]
fn errors_have_the_names_of_their_variants(rt: HostRuntime) -> Result<(), Fail> {
    let text = format!(in rt.alloc(); "{} {}", LineError::Usage, LineError::Memory)?;
    holds(&rt, text.as_str() == "Usage Memory", ("errors", 2));
    Ok(())
}
