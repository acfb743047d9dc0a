//! What each call answers to headers, strings, names and frames.

mod causes;
mod frames;
mod headers;
mod strings;

use btf_raw::{BtfCause, BtfFault};
use std::fmt::Debug;
use std::process::Abort;

fn fault(pos: u64, cause: BtfCause) -> BtfFault {
    BtfFault { pos, cause }
}

/// Ends the test if a value isn't the one that is wanted, and names the case.
fn equal<T: PartialEq + Debug>(rt: &impl Abort, value: &T, wanted: &T, case: &impl Debug) {
    assert_eq!(rt; value, wanted, "{case:?}");
}
