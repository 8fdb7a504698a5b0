//! Sixteen rows of sixteen bytes, transposed.
ghost use Rattle.std.specs.Prelude.{length, slice_index, ◌%◌, ◌*◌, ◌+◌, ◌/◌, ◌++◌, ◌<◌, ◌≡◌, ℕ};
ghost use Rattle.raw_rows.specs.Squares.{IsSquare, lane};

use std::simd::prelude::*;

// The lanes of two vectors, interleaved.
#[inline(always)]
fn interleaved(a: u8x16, b: u8x16) -> (u8x16, u8x16)
    requires a { length a ≡ 16 }
    requires b { length b ≡ 16 }
    ensures long { length result.0 ≡ 16 }
    ensures long_high { length result.1 ≡ 16 }
    ensures low { (m : ℕ) → m < 16 → slice_index result.0 m ≡ slice_index (a ++ b) (m / 2 + 16 * (m % 2)) }
    ensures high { (m : ℕ) → m < 16 → slice_index result.1 m ≡ slice_index (a ++ b) (8 + (m / 2 + 16 * (m % 2))) }
{
    a.interleave(b)
}

// Interleaves each of the first eight rows with the row eight further on. Done four times, this transposes.
#[inline(always)]
fn riffle(x: &[u8x16; 16]) -> [u8x16; 16]
    requires { IsSquare x.now }
    ensures square { IsSquare result }
    ensures lanes { (i m : ℕ) → i < 16 → m < 16
        → lane result i m ≡ lane x.now (i / 2 + 8 * (m % 2)) (8 * (i % 2) + m / 2) }
{
    let mut y = *x;
    for i in 0..8 {
        let (low, high) = interleaved(x[i], x[i + 8]);
        y[2 * i] = low;
        y[2 * i + 1] = high;
    }
    y
}

/// Makes rows columns.
#[inline(always)]
pub(crate) fn transposed(x: &[u8x16; 16]) -> [u8x16; 16]
    requires { IsSquare x.now }
    ensures square { IsSquare result }
    ensures lanes { (i m : ℕ) → i < 16 → m < 16 → lane result i m ≡ lane x.now m i }
{
    riffle(&riffle(&riffle(&riffle(x))))
}
