//! What the tests compare, and how they set dots.
use dot_planes::Planes;
use std::fmt::Debug;
use std::process::Abort;

/// Stops the test where a call did not give what was wanted.
pub(crate) fn same<T: PartialEq + Debug>(rt: &impl Abort, at: &str, got: &T, want: &T) {
    assert_eq!(rt; *got, *want, "at {at}");
}

/// Turns on dots, each an ink, a column and a row.
pub(crate) fn turn_on(rt: &impl Abort, planes: &mut Planes, dots: &[(u8, u32, u32)]) {
    for (ink, x, y) in dots {
        assert!(rt; *ink < planes.inks() && *x < planes.width() && *y < planes.rows());
        planes.turn_on(*ink, *x, *y);
    }
}

/// Row y of an ink.
pub(crate) fn row<'a>(rt: &impl Abort, planes: &'a Planes, ink: u8, y: u32) -> &'a [u8] {
    assert!(rt; ink < planes.inks() && y < planes.rows());
    planes.row(ink, y)
}

/// An ink, a row, and its bytes.
pub(crate) type Row = (u8, u32, &'static [u8]);

/// Stops the test where one of these rows of planes has other bytes.
pub(crate) fn has_rows(rt: &impl Abort, planes: &Planes, rows: &[Row]) {
    for (ink, y, bytes) in rows {
        assert!(rt; row(rt, planes, *ink, *y) == *bytes, "row {y} of ink {ink}");
    }
}
