//! Assertions. Each comparison is a function of its own: written out in a test, it costs the prover as much as several calls.

use std::fmt::Debug;
use std::process::Abort;

/// Asserts that the value found is the expected one.
pub(crate) fn equal<T: PartialEq + Debug + Drop>(rt: &impl Abort, found: T, expected: T) {
    assert_eq!(rt; found, expected);
}

/// Asserts that the value found is the expected one, in one of several cases. Prints the case if it fails.
pub(crate) fn equal_at<C: Debug + Drop, T: PartialEq + Debug + Drop>(
    rt: &impl Abort,
    case: C,
    found: T,
    expected: T,
) {
    assert_eq!(rt; found, expected, "{case:?}");
}
