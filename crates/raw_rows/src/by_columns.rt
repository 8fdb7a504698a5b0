//! Rows of bytes by columns, sixteen rows and sixteen columns at a time.
ghost use Rattle.raw_rows.specs.Squares.{HasColumns, HasHalf, HasRows, HaveBytes, IsPutInto, IsSquare};
ghost use Rattle.std.specs.Prelude.{length, ◌*◌, ◌+◌, ◌≡◌, ◌≤◌};
ghost use lib.Lanes.{chunk, put_chunk};

use crate::transpose::transposed;
use dot_planes::TILE_BYTES;
use std::simd::prelude::*;

/// Where each of a tile's 32 rows begins in bytes.
pub(crate) type Starts = [usize; 32];

/// Bytes by columns: 32 of each, one of each row.
pub(crate) type Columns = [u8; TILE_BYTES];

// Sixteen bytes from place x on.
#[inline(always)]
fn part_of(bytes: &[u8], x: usize) -> u8x16
    requires { x + 16 ≤ length bytes.now }
    ensures long { length result ≡ 16 }
    ensures is { result ≡ chunk x 16 bytes.now }
{
    u8x16::from_slice(&bytes[x..])
}

// Puts sixteen bytes.
#[inline(always)]
fn put_part(columns: &mut [u8], at: usize, part: u8x16)
    requires at { at + 16 ≤ length columns.old }
    requires part { length part ≡ 16 }
    ensures { columns.new ≡ put_chunk at columns.old part }
{
    part.copy_to_slice(&mut columns[at..]);
}

// Sixteen rows from row `first` on, sixteen bytes of each from byte `from` on.
#[inline(always)]
fn square_of(bytes: &[u8], starts: &Starts, first: usize, from: usize) -> [u8x16; 16]
    requires first { first ≤ 16 }
    requires rows { HaveBytes bytes.now starts.now (from + 16) }
    ensures square { IsSquare result }
    ensures rows { HasRows bytes.now starts.now first from 16 result }
{
    let mut square = [u8x16::splat(0); 16];
    for i in 0..16 {
        square[i] = part_of(bytes, starts[first + i] + from);
    }
    square
}

// Puts sixteen columns of sixteen rows.
#[inline(always)]
fn put_square(columns: &mut Columns, first: usize, from: usize, square: &[u8x16; 16])
    requires first { first ≤ 16 }
    requires from { from ≤ 240 }
    requires square { IsSquare square.now }
    ensures { IsPutInto square.now first from 16 columns.old columns.new }
{
    for i in 0..16 {
        put_part(columns, 32 * (from + i) + first, square[i]);
    }
}

// Puts sixteen columns of sixteen rows from row `first` on.
#[inline(always)]
fn put_half(bytes: &[u8], starts: &Starts, first: usize, from: usize, columns: &mut Columns)
    requires first { first ≤ 16 }
    requires from { from ≤ 240 }
    requires rows { HaveBytes bytes.now starts.now (from + 16) }
    ensures { HasHalf bytes.now starts.now first from columns.old columns.new }
{
    let rows = square_of(bytes, starts, first, from);
    put_square(columns, first, from, &transposed(&rows));
}

/// Puts 16 `stretches` bytes of each row by columns.
// Not inlined: a tile takes one call.
#[inline(never)]
pub(crate) fn put_columns(bytes: &[u8], starts: &Starts, stretches: usize, columns: &mut Columns)
    requires most { stretches ≤ 16 }
    requires rows { HaveBytes bytes.now starts.now (16 * stretches) }
    ensures { HasColumns bytes.now starts.now (16 * stretches) columns.new }
{
    for n in 0..stretches {
        put_half(bytes, starts, 0, 16 * n, columns);
        put_half(bytes, starts, 16, 16 * n, columns);
    }
}
