//! Numbers in a line.
ghost use Rattle.arrayvec.specs.ArrayString.{array_string_len};
ghost use Rattle.job_lister.specs.Listing.{numbers};
ghost use Rattle.std.specs.Fmt.{decimal};
ghost use Rattle.std.specs.Prelude.{[], ◌∷◌, ◌*◌, ◌+◌, ◌++◌, ◌≡◌, ◌≤◌, length};

use crate::line::Line;
use itoa::Buffer;

/// Appends an offset in decimal.
pub fn push_place(place: u64, out: &mut Line)
    requires { array_string_len out.old + 20 ≤ 128 }
    ensures bytes { out.new.bytes ≡ out.old.bytes ++ decimal place }
    ensures len { array_string_len out.new ≤ array_string_len out.old + 20 }
{
    let mut buffer = Buffer::new();
    out.push_str(buffer.format(place));
}

/// Appends a number in decimal, after a blank.
pub fn push_number(n: u32, out: &mut Line)
    requires { array_string_len out.old + 11 ≤ 128 }
    ensures bytes { out.new.bytes ≡ out.old.bytes ++ numbers (n ∷ []) }
    ensures len { array_string_len out.new ≤ array_string_len out.old + 11 }
{
    let mut buffer = Buffer::new();
    out.push_str(" ");
    out.push_str(buffer.format(n));
}

/// Appends numbers in decimal, each after a blank.
pub fn push_numbers(ns: &[u32], out: &mut Line)
    requires { array_string_len out.old + 11 * length ns.now ≤ 128 }
    ensures bytes { out.new.bytes ≡ out.old.bytes ++ numbers ns.now }
    ensures len { array_string_len out.new ≤ array_string_len out.old + 11 * length ns.now }
{
    for n in ns {
        push_number(*n, out);
    }
}
