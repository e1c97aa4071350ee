//! Assertions. Each comparison is a function of its own: written out in a test, it costs the prover as much as several calls.

use std::fmt::Debug;
use std::process::Abort;
use std::test::Fail;

/// Asserts that the value found is the expected one.
pub(crate) fn equal<T: PartialEq + Debug + Drop>(rt: &impl Abort, found: T, expected: T) {
    assert_eq!(rt; found, expected);
}

/// Asserts that the value found is the expected one, in one of several cases. Prints the case if it fails.
pub(crate) fn equal_at<C: Debug + Drop, T: PartialEq + Debug + Drop>(
    rt: &impl Abort,
    case: C,
    found: T,
    expected: T,
) {
    assert_eq!(rt; found, expected, "{case:?}");
}

/// Asserts that the bytes found are the expected ones.
pub(crate) fn equal_bytes(rt: &impl Abort, found: &[u8], expected: &[u8]) {
    assert_eq!(rt; found, expected);
}

/// Asserts that the text found is the expected one.
pub(crate) fn equal_text(rt: &impl Abort, found: &[u8], expected: &str) -> Result<(), Fail> {
    assert_eq!(rt; str::from_utf8(found)?, expected);
    Ok(())
}

/// Asserts that this holds.
pub(crate) fn holds(rt: &impl Abort, condition: bool) {
    assert!(rt; condition);
}
