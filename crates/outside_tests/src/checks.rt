//! Comparisons of what a call returned with what was expected.
use std::fmt::Debug;
use std::process::Abort;

/// Stops the test where a call did not give what was wanted.
pub fn same<T: PartialEq + Debug>(rt: &impl Abort, at: &str, got: &T, want: &T) {
    assert_eq!(rt; *got, *want, "at {at}");
}

/// The same of bytes.
pub fn same_bytes(rt: &impl Abort, at: &str, got: &[u8], want: &[u8]) {
    assert_eq!(rt; got, want, "at {at}");
}
