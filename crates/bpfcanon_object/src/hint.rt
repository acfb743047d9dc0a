//! What helps with command lines that people try, and what clap says that doesn't.

use crate::words::REVIEW;
use std::alloc::{AllocError, Global};

/// What is said of the output of a command that has one.
const OUTPUT: &str = "only canon has --output: the other commands write to standard output";

/// What is said of a byte order.
const ORDER: &str = "a canonical file has the byte order of its original";

/// What is said of a file in the place of a command.
const FIRST: &str = "the command comes before the files, as in bpfcanon-object key FILE";

/// Whether a word gives an output.
fn is_output(word: &str) -> bool {
    word.starts_with("-o") || word.starts_with("--output")
}

/// Whether a word gives a byte order, as those of bpfcanon do.
fn is_order(word: &str) -> bool {
    word.starts_with("--to") || word.starts_with("--order")
}

/// What helps with words behind one of the commands that are refused, if anything does.
fn hint_behind(verb: &str, words: &[String]) -> Option<&'static str> {
    if words.iter().any(|word| is_order(word.as_str())) {
        return Some(ORDER);
    }
    if verb != "canon" && words.iter().any(|word| is_output(word.as_str())) {
        return Some(OUTPUT);
    }
    None
}

/// What helps with words that are refused, if anything does.
pub fn hint(words: &[String]) -> Option<&'static str> {
    let verb = words.get(1)?.as_str();
    match verb {
        "diff" | "show" | "list" => Some(REVIEW),
        "canon" | "key" | "same" | "check" => hint_behind(verb, words),
        _ if verb.ends_with(".o") => Some(FIRST),
        _ => None,
    }
}

/// A line of clap's text as it is printed, if it is. A word that is no option isn't meant as a file,
/// and `--version` is near to too many words.
fn shown_line(line: &str) -> Option<&str> {
    if line.starts_with("  tip: to pass '")
        || line == "  tip: a similar argument exists: '--version'"
    {
        None
    } else if line.starts_with("Usage: bpfcanon-object --") {
        Some("Usage: bpfcanon-object <COMMAND>")
    } else {
        Some(line)
    }
}

/// clap's text without the tips that mislead.
pub fn without_tips(alloc: Global, text: &str) -> Result<String, AllocError> {
    let mut shown = String::new(alloc);
    let mut is_blank = false;
    for line in text.lines() {
        if let Some(line) = shown_line(line) {
            if !(is_blank && line.is_empty()) {
                shown.push_str(line)?;
                shown.push('\n')?;
            }
            is_blank = line.is_empty();
        }
    }
    Ok(shown)
}
