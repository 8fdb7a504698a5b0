//! The dot and the error of one pixel.
ghost use Rattle.diffusion_definitions.specs.Diffusion.{EachInRange, InRange, IsParts, divisor, error_of, is_dot};
ghost use Rattle.diffusion_definitions.specs.Diffusion.{mirrored, value, weighted, weighted_from};
ghost use Rattle.diffusion_kernel.specs.Rows.{at_places, five_of};
ghost use Rattle.diffusion_kernel.specs.Tables.{table_from, table_of};
ghost use Rattle.std.specs.Int.{int_div_euclid};
ghost use Rattle.std.specs.Prelude.{negsuc, pos, ◌*ℤ◌, ◌+ℤ◌, ◌≡◌, ◌≤ℤ◌, ◌≤◌};

use crate::tables::{Kernel, Shares};

/// The errors near the pixel at x, each from -2040 to 2039.
#[derive(Clone, Copy, Debug, PartialEq, Eq)]
pub struct Near {
    /// At x - 1 and x - 2 of its row.
    pub same: [i16; 2],
    /// At x - 2 to x + 2, one row above.
    pub up1: [i16; 5],
    /// At x - 2 to x + 2, two rows above.
    pub up2: [i16; 5],
}

/// The dot and the error of a pixel.
#[derive(Clone, Copy, Debug, PartialEq, Eq)]
pub struct Dot {
    /// Whether a dot is printed.
    pub on: bool,
    /// The error, of which later pixels take their shares: -2040 to 2039.
    pub err: i16,
}

// A share of an error, in parts.
#[inline]
fn parts(share: u8, err: i16) -> i32
    requires { InRange err }
    ensures parts { result ≡ pos share *ℤ err }
    ensures in_range { IsParts 255 result }
{
    i32::from(share) * i32::from(err)
}

// What a row above gives, in parts: its errors from the right, each times a share from the left.
#[inline]
fn row_parts(shares: &[u8; 5], errs: &[i16; 5]) -> i32
    requires { EachInRange errs.now }
    ensures parts { result ≡ weighted_from 0 (five_of shares.now) (mirrored errs.now) }
    ensures in_range { IsParts 1275 result }
{
    parts(shares[0], errs[4])
        + parts(shares[1], errs[3])
        + parts(shares[2], errs[2])
        + parts(shares[3], errs[1])
        + parts(shares[4], errs[0])
}

// What the errors near a pixel give to it, in parts.
#[inline]
fn weigh(shares: &Shares, errs: &Near) -> i32
    requires same { EachInRange errs.now.same }
    requires up1 { EachInRange errs.now.up1 }
    requires up2 { EachInRange errs.now.up2 }
    ensures parts { result ≡ weighted (at_places (table_from shares.now)) errs.now.same errs.now.up1 errs.now.up2 }
    ensures in_range { IsParts (divisor (at_places (table_from shares.now))) result }
{
    parts(shares.right[0], errs.same[0])
        + parts(shares.right[1], errs.same[1])
        + row_parts(&shares.below, &errs.up1)
        + row_parts(&shares.below2, &errs.up2)
}

// Parts of errors divided by the sum of all shares, rounded down.
#[inline]
fn quotient(parts: i32, divisor: u32) -> i32
    requires parts { IsParts divisor parts }
    requires some { 1 ≤ divisor }
    requires most { divisor ≤ 48 }
    ensures floor { result ≡ int_div_euclid parts (pos divisor) }
    ensures in_range { InRange result }
{
    // parts of errors are -2040 x divisor or more: the raised number is not negative, so the division rounds down
    let raised = (parts + 2040 * divisor as i32) as u32;
    (raised / divisor) as i32 - 2040
}

// The dot of a value in sixteenths of an amount.
#[inline]
fn dot_of(v: i32) -> Dot
    requires low { negsuc 2039 ≤ℤ v }
    requires high { v ≤ℤ pos 6119 }
    ensures on { result.on ≡ is_dot v }
    ensures err { result.err ≡ error_of v }
{
    if v >= 2040 {
        Dot {
            on: true,
            err: (v - 4080) as i16,
        }
    } else {
        Dot {
            on: false,
            err: v as i16,
        }
    }
}

impl Kernel {
    // What the errors near a pixel give to it, in sixteenths of an amount.
    #[inline]
    fn carried(self, errs: &Near) -> i32
        requires same { EachInRange errs.now.same }
        requires up1 { EachInRange errs.now.up1 }
        requires up2 { EachInRange errs.now.up2 }
        ensures floor { result ≡ int_div_euclid (weighted (table_of self) errs.now.same errs.now.up1 errs.now.up2)
            (pos (divisor (table_of self))) }
        ensures in_range { InRange result }
    {
        let shares = self.shares();
        quotient(weigh(&shares, errs), u32::from(shares.divisor))
    }

    /// The dot and the error of a pixel of amount `a`. Errors beside the plane and above the page are 0.
    #[inline]
    #[tactic(auto, unfolding(diffusion_definitions::specs::Diffusion::value))]
    pub fn pixel(self, a: u8, errs: &Near) -> Dot
        requires same { EachInRange errs.now.same }
        requires up1 { EachInRange errs.now.up1 }
        requires up2 { EachInRange errs.now.up2 }
        ensures on { result.on ≡ is_dot (value (table_of self) a errs.now.same errs.now.up1 errs.now.up2) }
        ensures err { result.err ≡ error_of (value (table_of self) a errs.now.same errs.now.up1 errs.now.up2) }
        ensures in_range { InRange result.err }
    {
        dot_of(16 * i32::from(a) + self.carried(errs))
    }
}
