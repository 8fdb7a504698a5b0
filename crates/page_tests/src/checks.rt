//! What the tests compare, and the pages that they may print.
ghost use Rattle.pwg_definitions.specs.Header.{IsWanted};
ghost use Rattle.separation_definitions.specs.Windows.{wanted_by};
ghost use Rattle.std.specs.Prelude.{IsTrue};

use printer_profile::{PageForm, Profile};
use std::fmt::Debug;
use std::process::Abort;

/// Stops the test where a call did not give what was wanted.
pub fn same<T: PartialEq + Debug>(rt: &impl Abort, at: &str, got: &T, want: &T) {
    assert_eq!(rt; *got, *want, "at {at}");
}

/// Whether the printer takes a page.
pub fn is_taken(p: &Profile, f: PageForm) -> bool
    ensures { IsTrue result → IsWanted (wanted_by p.now) f }
{
    let wanted = p.wanted();
    wanted.least_width <= f.width
        && f.width <= wanted.most_width
        && wanted.least_height <= f.height
        && f.height <= wanted.most_height
        && f.bytes_per_line as usize == f.kind.line_bytes(f.width as usize)
}
