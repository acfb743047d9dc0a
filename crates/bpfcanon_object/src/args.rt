//! The words of the command line of the process.

use crate::desk::Stop;
use crate::words::NOT_TEXT;
use std::alloc::Global;
use std::env::FillError;
use std::rt::Env;
use std::str;

/// How many bytes a word is given at first.
const CAPACITY: usize = 256;

/// The text of a word. One that isn't UTF-8 ends with a NUL, which no word has.
fn text_of(alloc: Global, word: &[u8]) -> Result<String, Stop> {
    if let Ok(text) = str::from_utf8(word) {
        return Ok(String::from_str(alloc, text)?);
    }
    let mut text = String::from_utf8_lossy(alloc, word)?;
    text.push(NOT_TEXT)?;
    Ok(text)
}

/// A word, if there are so many.
fn word_at<R: Env + AllocGlobal>(rt: &R, i: usize) -> Result<Option<String>, Stop> {
    let mut capacity = CAPACITY;
    for _ in 0..usize::BITS {
        let mut word = vec![in rt.alloc(); 0u8; capacity]?;
        match rt.arg(i, word.as_mut_slice()) {
            Ok(len) => {
                word.truncate(len);
                return Ok(Some(text_of(rt.alloc(), word.as_slice())?));
            }
            Err(FillError::NotPresent) => return Ok(None),
            Err(FillError::TooLong) => capacity = capacity.saturating_add(capacity),
        }
    }
    // No word is so long: memory for it was refused above.
    Ok(None)
}

/// The words of the process, with its name.
pub fn read_words<R: Env + AllocGlobal>(rt: &R) -> Result<Vec<String>, Stop> {
    let mut words = Vec::new(rt.alloc());
    for i in 0..usize::MAX {
        let Some(word) = word_at(rt, i)? else {
            break;
        };
        words.push(word)?;
    }
    Ok(words)
}
