//! Worked examples, faulty listings, and refused allocations.

mod largest;
mod listings;
mod memory;
mod types;

use std::fmt::Debug;
use std::process::Abort;

/// Ends the test if a value isn't the one that is wanted, with the case in the message.
fn equal<T: PartialEq + Debug>(rt: &impl Abort, value: &T, wanted: &T, case: &impl Debug) {
    assert_eq!(rt; value, wanted, "{case:?}");
}
