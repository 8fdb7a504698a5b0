//! One step of a tile: one pixel of each row. None reads the error of another.
ghost use Rattle.std.specs.Prelude.{length, true, false, ◌%◌, ◌*◌, ◌+◌, ◌-◌, ◌<◌, ◌≡◌, ◌≤◌, ℕ};
ghost use Rattle.tile_lanes.specs.Done.{plane_with};
ghost use Rattle.tile_lanes.specs.Held.{HeldInRange, IsHeld, same_in, same_of, up1_in, up1_of, up2_in, up2_of};
ghost use Rattle.tile_lanes.specs.Lanes.{AreCleared, IsCleared, IsStep};
ghost use Rattle.tile_lanes.specs.Paces.{delay_of, pace_of};
ghost use Rattle.tile_lanes.specs.Rows.{is_place};

use super::pace::Pace;
use super::value::{Around, held_error, held_value, shows_dot};
use diffusion_kernel::Kernel;
use tile_shape::{Place, Shape};

// The errors near the pixel whose own stands at a place of the field. Where rows are level, the one two places to the
// right in the row above is not there yet, and another stands for it.
#[inline(always)]
fn around(pace: Pace, field: &[u16; 3502], at: usize) -> Around
    requires low { 274 ≤ at }
    requires high { at < 3502 }
    requires in_range { HeldInRange field.now }
    ensures held { IsHeld result }
    ensures same { same_of result ≡ same_in field.now at }
    ensures up1 { up1_of result ≡ up1_in pace field.now at }
    ensures up2 { up2_of result ≡ up2_in pace field.now at }
{
    match pace {
        Pace::Level => Around {
            left: field[at - 34],
            left2: field[at - 68],
            up_left2: field[at - 137],
            up_left: field[at - 103],
            up: field[at - 69],
            up_right: field[at - 35],
            up_right2: field[at - 35],
            top_left2: field[at - 206],
            top_left: field[at - 172],
            top: field[at - 138],
            top_right: field[at - 104],
            top_right2: field[at - 70],
        },
        Pace::Lagging => Around {
            left: field[at - 34],
            left2: field[at - 68],
            up_left2: field[at - 171],
            up_left: field[at - 137],
            up: field[at - 103],
            up_right: field[at - 69],
            up_right2: field[at - 35],
            top_left2: field[at - 274],
            top_left: field[at - 240],
            top: field[at - 206],
            top_right: field[at - 172],
            top_right2: field[at - 138],
        },
    }
}

// The error of a row's pixel at a step, or the error that is there already where the row is still left of the tile.
// Both sides of the test have 16 bits, as the lanes have. Where all rows are in the tile, it is left out.
#[inline(always)]
fn entered(all: bool, step: usize, delay: usize, error: u16, before: u16) -> u16
    requires step { step < 103 }
    requires delay { delay < 32 }
    requires all { all ≡ true → delay + 8 ≤ step }
    requires error { error ≤ 4079 }
    requires before { before ≤ 4079 }
    ensures most { result ≤ 4079 }
    ensures inside { delay + 8 ≤ step → result ≡ error }
    ensures left { step < delay + 8 → result ≡ before }
{
    if all || delay as u16 + 8 <= step as u16 {
        error
    } else {
        before
    }
}

// Diffuses the pixels of sixteen rows at a step, also where the window has none. Errors left of the tile stay.
#[inline(always)]
fn diffuse_rows(
    all: bool,
    kernel: Kernel,
    amounts: &[u8],
    field: &mut [u16; 3502],
    dots: &mut [u16; 32],
    step: usize,
    first: usize,
)
    requires low { 8 ≤ step }
    requires high { step < 103 }
    requires first { first ≤ 16 }
    requires amounts { 32 * (step - 8) + 32 ≤ length amounts.now }
    requires all { all ≡ true → delay_of (pace_of kernel) (first + 15) + 8 ≤ step }
    requires in_range { HeldInRange field.old }
    ensures in_range { HeldInRange field.new }
    ensures step { IsStep kernel amounts.now step first 16 field.old dots.old field.new dots.new }
{
    let pace = Pace::of(kernel);
    for i in 0..16 {
        let r = first + i;
        let at = 34 * step + 2 + r;
        let near = around(pace, field, at);
        let value = held_value(kernel, amounts[32 * (step - 8) + r], near);
        field[at] = entered(all, step, pace.delay(r), held_error(value), field[at]);
        dots[r] = (dots[r] << 1).wrapping_add(u16::from(shows_dot(value)));
    }
}

// The same, but leaves out steps before the rows enter the tile and after they leave it.
#[inline(always)]
fn diffuse_half(
    kernel: Kernel,
    amounts: &[u8],
    field: &mut [u16; 3502],
    dots: &mut [u16; 32],
    step: usize,
    first: usize,
)
    requires low { 8 ≤ step }
    requires high { step < 103 }
    requires first { first ≤ 16 }
    requires amounts { 32 * (step - 8) + 32 ≤ length amounts.now }
    requires in_range { HeldInRange field.old }
    ensures in_range { HeldInRange field.new }
    ensures step { IsStep kernel amounts.now step first 16 field.old dots.old field.new dots.new }
{
    let pace = Pace::of(kernel);
    let (start, all) = (pace.delay(first) + 8, pace.delay(first + 15) + 8);
    if start <= step && step < all {
        diffuse_rows(false, kernel, amounts, field, dots, step, first);
    } else if all <= step && step < all + 64 {
        diffuse_rows(true, kernel, amounts, field, dots, step, first);
    }
}

/// Diffuses the pixels of a step.
#[inline(always)]
pub(crate) fn diffuse_step(
    kernel: Kernel,
    amounts: &[u8],
    field: &mut [u16; 3502],
    dots: &mut [u16; 32],
    step: usize,
)
    requires low { 8 ≤ step }
    requires high { step < 103 }
    requires amounts { 32 * (step - 8) + 32 ≤ length amounts.now }
    requires in_range { HeldInRange field.old }
    ensures in_range { HeldInRange field.new }
    ensures step { IsStep kernel amounts.now step 0 32 field.old dots.old field.new dots.new }
{
    diffuse_half(kernel, amounts, field, dots, step, 0);
    diffuse_half(kernel, amounts, field, dots, step, 16);
}

// Rows of a step, from the first to before the end.
#[derive(Clone, Copy)]
struct Span {
    first: usize,
    end: usize,
}

// The rows of a step that have a pixel. Rows above them are right of the window, rows below them left of it or below
// it.
fn span_of(pace: Pace, shape: Shape, place: Place, step: usize) -> Span
    requires low { 8 ≤ step }
    requires high { step < 103 }
    ensures order { result.first ≤ result.end }
    ensures most { result.end ≤ 32 }
    ensures inside { (amount : ℕ → ℕ → ℕ) (r o : ℕ) → result.first ≤ r → r < result.end → o + delay_of pace r + 8 ≡ step
        → is_place (plane_with shape amount) place.j r (64 * place.c + o) ≡ true }
    ensures before { (amount : ℕ → ℕ → ℕ) (r o : ℕ) → r < result.first → o + delay_of pace r + 8 ≡ step
        → is_place (plane_with shape amount) place.j r (64 * place.c + o) ≡ false }
    ensures after { (amount : ℕ → ℕ → ℕ) (r o : ℕ) → result.end ≤ r → r < 32 → o + delay_of pace r + 8 ≡ step
        → is_place (plane_with shape amount) place.j r (64 * place.c + o) ≡ false }
{
    // the column of row 0's pixel; each further row's is 2 less, or 3 where it lags
    let x = 64 * place.c as usize + (step - 8);
    let high = (shape.height as usize).saturating_sub(32 * place.j as usize);
    let width = shape.width as usize;
    let (end, past) = match pace {
        Pace::Level => (x / 2 + 1, (x + 2).saturating_sub(width) / 2),
        Pace::Lagging => (x / 3 + 1, (x + 3).saturating_sub(width) / 3),
    };
    let end = end.min(high).min(32);
    Span {
        first: past.min(end),
        end,
    }
}

// Clears the errors and dots of rows of a step.
fn clear_rows(field: &mut [u16; 3502], dots: &mut [u16; 32], step: usize, first: usize, end: usize)
    requires high { step < 103 }
    requires order { first ≤ end }
    requires most { end ≤ 32 }
    requires in_range { HeldInRange field.old }
    ensures in_range { HeldInRange field.new }
    ensures cleared { AreCleared step first end field.old dots.old field.new dots.new }
{
    for r in first..end {
        field[34 * step + 2 + r] = 2040;
        dots[r] -= dots[r] % 2;
    }
}

// How many rows have entered the tile at a step. The others are left of it.
fn entered_rows(pace: Pace, step: usize) -> usize
    requires low { 8 ≤ step }
    ensures most { result ≤ 32 }
    ensures inside { (r : ℕ) → r < 32 → delay_of pace r + 8 ≤ step → r < result }
    ensures left { (r : ℕ) → r < 32 → step < delay_of pace r + 8 → result ≤ r }
{
    match pace {
        Pace::Level => 32,
        Pace::Lagging => (step - 7).min(32),
    }
}

/// Clears the errors and dots of a step where the window has no pixel.
// Not inlined: whole tiles do not pay for its spans.
#[inline(never)]
pub(crate) fn clear_step(
    pace: Pace,
    shape: Shape,
    place: Place,
    field: &mut [u16; 3502],
    dots: &mut [u16; 32],
    step: usize,
)
    requires low { 8 ≤ step }
    requires high { step < 103 }
    requires in_range { HeldInRange field.old }
    ensures in_range { HeldInRange field.new }
    ensures cleared { (amount : ℕ → ℕ → ℕ) → IsCleared pace (plane_with shape amount) place.c place.j step
        field.old dots.old field.new dots.new }
{
    let last = entered_rows(pace, step);
    let span = span_of(pace, shape, place, step);
    clear_rows(field, dots, step, 0, span.first.min(last));
    clear_rows(field, dots, step, span.end.min(last), last);
}
