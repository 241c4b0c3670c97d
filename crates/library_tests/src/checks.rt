//! One comparison for all tests.
use std::fmt::Debug;
use std::process::Abort;

/// Asserts that what was found in a case is what is wanted.
pub(crate) fn check<T: Debug + PartialEq>(rt: &impl Abort, case: &impl Debug, found: &T, want: &T) {
    assert_eq!(rt; found, want, "{case:?}");
}
