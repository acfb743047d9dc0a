//! Comparisons of tests. A call of these is proved in a fraction of the time of an `assert_eq!`, which is proved with its text and its
//! ends wherever it is written. Unlike it they add no fact to the proof.

use std::fmt::Debug;
use std::process::Abort;

/// Ends the test if something isn't so, and names the case.
pub(crate) fn holds(rt: &impl Abort, is_so: bool, case: &impl Debug) {
    assert!(rt; is_so, "{case:?}");
}

/// Ends the test if a value isn't the expected one, and names both and the case.
pub(crate) fn equal<T: PartialEq + Debug>(
    rt: &impl Abort,
    value: &T,
    wanted: &T,
    case: &impl Debug,
) {
    holds(rt, *value == *wanted, &(value, wanted, case));
}

/// Likewise for bytes.
pub(crate) fn equal_bytes(rt: &impl Abort, bytes: &[u8], wanted: &[u8], case: &impl Debug) {
    holds(rt, bytes == wanted, &(bytes, wanted, case));
}

/// Whether a call returned these bytes.
pub(crate) fn is_bytes<E: Drop>(answer: Result<Vec<u8>, E>, wanted: &[u8]) -> bool {
    match answer {
        Ok(bytes) => bytes.as_slice() == wanted,
        Err(_) => false,
    }
}

/// Ends the test if a call didn't return these bytes, or this error.
pub(crate) fn returns<E: PartialEq + Debug + Drop>(
    rt: &impl Abort,
    answer: Result<Vec<u8>, E>,
    wanted: Result<&[u8], E>,
    case: &impl Debug,
) {
    match answer {
        Ok(bytes) => equal(rt, &Ok(bytes.as_slice()), &wanted, case),
        Err(error) => equal(rt, &Err(error), &wanted, case),
    }
}
