//! Comparisons of tests. A call of these is proved in a fraction of the time of an `assert_eq!`, which is proved with its text and its
//! ends wherever it is written. Unlike it they add no fact to the proof.

use std::fmt::Debug;
use std::process::Abort;

/// Ends the test if a value isn't the one that is wanted, and names the case.
pub(crate) fn equal<T: PartialEq + Debug>(
    rt: &impl Abort,
    value: &T,
    wanted: &T,
    case: &impl Debug,
) {
    holds(rt, *value == *wanted, &(value, wanted, case));
}

/// Ends the test if something isn't so, and names the case.
pub(crate) fn holds(rt: &impl Abort, is_so: bool, case: &impl Debug) {
    assert!(rt; is_so, "{case:?}");
}
