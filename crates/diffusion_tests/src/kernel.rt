//! The dot and the error of one pixel.
ghost use Rattle.diffusion_definitions.specs.Diffusion.{EachInRange, InRange};
ghost use Rattle.std.specs.Prelude.{◌<◌};

use diffusion_kernel::{Dot, Kernel, Near};

// One error near a pixel. The places are x - 1 and x - 2 of its row, then x - 2 to x + 2 one row above, and then two.
fn one_error(place: usize, err: i16) -> Near
    requires place { place < 12 }
    requires err { InRange err }
    ensures same { EachInRange result.same }
    ensures up1 { EachInRange result.up1 }
    ensures up2 { EachInRange result.up2 }
{
    let mut near = Near {
        same: [0, 0],
        up1: [0, 0, 0, 0, 0],
        up2: [0, 0, 0, 0, 0],
    };
    if place < 2 {
        near.same[place] = err;
    } else if place < 7 {
        near.up1[place - 2] = err;
    } else {
        near.up2[place - 7] = err;
    }
    near
}

// The errors to the left of a pixel in the first row of a page.
fn in_first_row(left: i16, left2: i16) -> Near
    requires left { InRange left }
    requires left2 { InRange left2 }
    ensures same { EachInRange result.same }
    ensures up1 { EachInRange result.up1 }
    ensures up2 { EachInRange result.up2 }
{
    Near {
        same: [left, left2],
        up1: [0, 0, 0, 0, 0],
        up2: [0, 0, 0, 0, 0],
    }
}

// A pixel of the first row of a page: its kernel, its amount, the errors at x - 1 and x - 2, and its dot and error.
type Case = (Kernel, u8, i16, i16, bool, i16);

// Rows of halves, the least sum that has a dot, and sums below 0, which are rounded down.
const CASES: [Case; 17] = [
    (Kernel::Floyd, 128, 0, 0, true, -2032),
    (Kernel::Floyd, 128, -2032, 0, false, 1159),
    (Kernel::Floyd, 128, 1159, -2032, true, -1525),
    (Kernel::Floyd, 128, -1525, 1159, false, 1380),
    (Kernel::Jarvis, 128, 0, 0, true, -2032),
    (Kernel::Jarvis, 128, -2032, 0, false, 1751),
    (Kernel::Jarvis, 128, 1751, -2032, true, -1989),
    (Kernel::Stucki, 128, 0, 0, true, -2032),
    (Kernel::Stucki, 128, -2032, 0, false, 1660),
    (Kernel::Stucki, 128, 1660, -2032, true, -1910),
    (Kernel::Floyd, 127, 0, 0, false, 2032),
    (Kernel::Floyd, 127, 18, 0, false, 2039),
    (Kernel::Floyd, 127, 19, 0, true, -2040),
    (Kernel::Floyd, 128, 0, 0, true, -2032),
    (Kernel::Floyd, 0, -1, 0, false, -1),
    (Kernel::Jarvis, 0, -1, 0, false, -1),
    (Kernel::Stucki, 0, -1, 0, false, -1),
];

#[test]
fn pixels_of_a_first_row_have_their_dots_and_errors(rt: HostRuntime) {
    for &(kernel, amount, left, left2, on, err) in &CASES {
        let inside = -2040 <= left && left < 2040 && -2040 <= left2 && left2 < 2040;
        let right = inside && kernel.pixel(amount, &in_first_row(left, left2)) == Dot { on, err };
        assert!(rt; right, "{kernel:?} at {amount} after {left} and {left2}");
    }
}

// A kernel, how many weights it has, the sum of their shares, and what an error of as much gives from each place.
type Table = (Kernel, usize, u8, [i16; 12]);

const TABLES: [Table; 3] = [
    (Kernel::Floyd, 4, 16, [7, 0, 0, 1, 5, 3, 0, 0, 0, 0, 0, 0]),
    (Kernel::Jarvis, 12, 48, [7, 5, 3, 5, 7, 5, 3, 1, 3, 5, 3, 1]),
    (Kernel::Stucki, 12, 42, [8, 4, 2, 4, 8, 4, 2, 1, 2, 4, 2, 1]),
];

// What an error gives to a pixel from a place.
fn given(kernel: Kernel, place: usize, err: u8) -> Option<Dot> {
    if 12 <= place {
        return None;
    }
    Some(kernel.pixel(0, &one_error(place, i16::from(err))))
}

// How many weights a kernel has, and their sum.
fn counted(kernel: Kernel) -> (usize, u64) {
    let mut total = 0u64;
    for weight in kernel.weights() {
        total = total.saturating_add(u64::from(weight.share));
    }
    (kernel.weights().len(), total)
}

#[test]
fn the_weights_are_all_shares_and_each_place_gives_its_own(rt: HostRuntime) {
    for &(kernel, entries, whole, shares) in &TABLES {
        assert!(rt;
            counted(kernel) == (entries, u64::from(whole)),
            "{kernel:?}"
        );
        for (place, err) in shares.iter().enumerate() {
            let dot = Dot {
                on: false,
                err: *err,
            };
            assert!(rt;
                given(kernel, place, whole) == Some(dot),
                "{kernel:?} at {place}"
            );
        }
    }
}
