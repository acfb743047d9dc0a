//! Comparisons for tests. A call of one is proved in a fraction of the time of an `assert!`, which builds its own message and its
//! own ways to end at each use. Unlike an `assert!` it leaves no fact for the proof of what follows.

use super::runner::Ran;
use std::process::Abort;

/// Ends the test if a condition doesn't hold, and prints the case: what was tried, and a number that tells the cases of it apart.
pub fn holds(rt: &impl Abort, condition: bool, case: (&str, usize)) {
    assert!(rt; condition, "{case:?}");
}

/// Whether this is the answer of a command: its status, its output and its line on standard error.
pub fn is_answer(ran: &Ran, status: u8, output: &[u8], fault: &[u8]) -> bool {
    ran.status == status && ran.output.as_slice() == output && ran.faults.as_slice() == fault
}

/// Whether this is the result of a command whose device failed: its message, and its output with the first `taken` bytes of the complete output.
pub fn is_failure(ran: &Ran, fault: &[u8], whole: &[u8], taken: usize) -> bool {
    is_answer(ran, 3, &whole[..taken.min(whole.len())], fault) && taken <= whole.len()
}
