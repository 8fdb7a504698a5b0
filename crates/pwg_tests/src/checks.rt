//! The printer for which pages are read, and comparisons of what a call returned with what was expected.
use pwg_header::Wanted;
use std::fmt::Debug;
use std::process::Abort;

/// What a printer without margins wants, at 360 dots an inch.
pub const WANT: Wanted = Wanted {
    hdpi: 360,
    vdpi: 360,
    least_width: 1,
    most_width: 8191,
    least_height: 1,
    most_height: 7920,
};

/// Stops the test where a call did not give what was wanted.
pub fn same<T: PartialEq + Debug>(rt: &impl Abort, at: &str, got: &T, want: &T) {
    assert_eq!(rt; *got, *want, "at {at}");
}

/// The same of bytes.
pub fn same_bytes(rt: &impl Abort, at: &str, got: &[u8], want: &[u8]) {
    assert_eq!(rt; got, want, "at {at}");
}
