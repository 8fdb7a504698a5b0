//! The edges of a tile, into its field and out of it.
ghost use Rattle.diffusion_definitions.specs.Diffusion.{EachInRange, InRange};
ghost use Rattle.std.specs.Prelude.{pos, slice_index, slice_index_or, ◌%◌, ◌*◌, ◌+◌, ◌-◌, ◌/◌, ◌<◌, ◌≡◌, ◌≢◌, ◌≤◌, ℕ};
ghost use Rattle.tile_lanes.specs.Held.{HeldInRange, error_held};
ghost use Rattle.tile_lanes.specs.Paces.{cell_of};

use super::pace::Pace;

// An error with 2040 added.
#[inline(always)]
fn hold(error: i16) -> u16
    requires { InRange error }
    ensures most { result ≤ 4079 }
    ensures is { error_held result ≡ error }
{
    (error + 2040) as u16
}

// An error without the 2040 that was added.
#[inline(always)]
fn release(held: u16) -> i16
    requires { held ≤ 4079 }
    ensures in_range { InRange result }
    ensures is { result ≡ error_held held }
{
    held as i16 - 2040
}

/// Puts the errors above the tile.
#[inline(always)]
pub(crate) fn put_above(pace: Pace, field: &mut [u16; 3502], above: &[i16; 128])
    requires field { HeldInRange field.old }
    requires above { EachInRange above.now }
    ensures in_range { HeldInRange field.new }
    ensures there { (n : ℕ) → n < 128 → error_held (slice_index field.new (cell_of pace (n / 64) (6 + n % 64)))
        ≡ slice_index_or above.now n (pos 0) }
{
    for t in 0..2 {
        for i in 0..64 {
            field[pace.cell(t, 6 + i)] = hold(above[64 * t + i]);
        }
    }
}

/// Puts the corner edge, left of the errors above the tile.
#[inline(always)]
pub(crate) fn put_corner(pace: Pace, field: &mut [u16; 3502], corner: &[i16; 12])
    requires field { HeldInRange field.old }
    requires corner { EachInRange corner.now }
    ensures in_range { HeldInRange field.new }
    ensures there { (n : ℕ) → n < 12 → error_held (slice_index field.new (cell_of pace (n / 6) (n % 6)))
        ≡ slice_index_or corner.now n (pos 0) }
    ensures kept { (m : ℕ) → ((n : ℕ) → n < 12 → m ≢ cell_of pace (n / 6) (n % 6))
        → slice_index field.new m ≡ slice_index field.old m }
{
    for n in 0..12 {
        field[pace.cell(n / 6, n % 6)] = hold(corner[n]);
    }
}

/// Puts the left edge.
#[inline(always)]
pub(crate) fn put_left(pace: Pace, field: &mut [u16; 3502], left: &[i16; 192])
    requires field { HeldInRange field.old }
    requires left { EachInRange left.now }
    ensures in_range { HeldInRange field.new }
    ensures there { (n : ℕ) → n < 192 → error_held (slice_index field.new (cell_of pace (2 + n / 6) (n % 6)))
        ≡ slice_index_or left.now n (pos 0) }
    ensures kept { (m : ℕ) → ((n : ℕ) → n < 192 → m ≢ cell_of pace (2 + n / 6) (n % 6))
        → slice_index field.new m ≡ slice_index field.old m }
{
    for t in 0..32 {
        for i in 0..6 {
            field[pace.cell(2 + t, i)] = hold(left[6 * t + i]);
        }
    }
}

/// Takes the right edge.
#[inline(always)]
pub(crate) fn take_right(pace: Pace, field: &[u16; 3502], right: &mut [i16; 192])
    requires field { HeldInRange field.now }
    ensures in_range { EachInRange right.new }
    ensures there { (n : ℕ) → n < 192 → slice_index_or right.new n (pos 0)
        ≡ error_held (slice_index field.now (cell_of pace (2 + n / 6) (64 + n % 6))) }
{
    for t in 0..32 {
        for i in 0..6 {
            right[6 * t + i] = release(field[pace.cell(2 + t, 64 + i)]);
        }
    }
}

/// Takes the bottom edge.
#[inline(always)]
pub(crate) fn take_bottom(pace: Pace, field: &[u16; 3502], bottom: &mut [i16; 128])
    requires field { HeldInRange field.now }
    ensures in_range { EachInRange bottom.new }
    ensures there { (n : ℕ) → n < 128 → slice_index_or bottom.new n (pos 0)
        ≡ error_held (slice_index field.now (cell_of pace (32 + n / 64) (6 + n % 64))) }
{
    for t in 0..2 {
        for i in 0..64 {
            bottom[64 * t + i] = release(field[pace.cell(32 + t, 6 + i)]);
        }
    }
}

/// Takes the corner edge: the last six errors of both rows of the bottom edge.
#[inline(always)]
pub(crate) fn take_lower_corner(pace: Pace, field: &[u16; 3502], corner: &mut [i16; 12])
    requires field { HeldInRange field.now }
    ensures in_range { EachInRange corner.new }
    ensures there { (n : ℕ) → n < 12 → slice_index_or corner.new n (pos 0)
        ≡ error_held (slice_index field.now (cell_of pace (32 + n / 6) (64 + n % 6))) }
{
    for t in 0..2 {
        for i in 0..6 {
            corner[6 * t + i] = release(field[pace.cell(32 + t, 64 + i)]);
        }
    }
}
