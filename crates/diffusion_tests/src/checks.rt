//! The one assertion of these tests.
use std::fmt::Debug;
use std::process::Abort;

/// Stops the test where a call did not give what was wanted.
pub(crate) fn same<T: PartialEq + Debug>(rt: &impl Abort, at: &str, got: &T, want: &T) {
    assert_eq!(rt; *got, *want, "at {at}");
}
