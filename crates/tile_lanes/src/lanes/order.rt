//! Amounts of a tile by steps, where each row is one step behind the row above it. A vector of sixteen rows at a step
//! is blended from four offsets, so that rows are behind by the remainder of their number divided by 4. Its lanes are
//! put in fours, each four steps after the four before.
ghost use Rattle.std.specs.Prelude.{List, length, slice_index, ◌*◌, ◌+◌, ◌<◌, ◌≡◌, ◌≤◌, ℕ};
ghost use Rattle.tile_lanes.specs.Lanes.{HasSteps};
ghost use Rattle.tile_lanes.specs.Order.{AreAllBehind, AreBehind, AreSpread, IsBlend, IsPut, IsRead, KeepsOthers};
ghost use Rattle.tile_lanes.specs.Paces.{amounts_of};
ghost use Rattle.tile_lanes.specs.declared.lanes.pace.Pace.TheVariants.{Lagging};

use super::pace::Pace;
use std::simd::prelude::*;

// The offsets that rows read at a step which are none to three steps behind.
#[derive(Clone, Copy)]
struct Offsets {
    here: usize,
    before: usize,
    before2: usize,
    before3: usize,
}

// Sixteen amounts.
#[inline(always)]
fn part_of(amounts: &[u8], at: usize) -> u8x16
    requires { at + 16 ≤ length amounts.now }
    ensures long { length result ≡ 16 }
    ensures lanes { (m : ℕ) → m < 16 → slice_index result m ≡ slice_index amounts.now (at + m) }
{
    u8x16::from_slice(&amounts[at..])
}

// The odd lanes from the vector `before`, all others from `here`.
#[inline(always)]
fn blended(pairs: bool, before: u8x16, here: u8x16) -> u8x16
    requires before { length before ≡ 16 }
    requires here { length here ≡ 16 }
    ensures long { length result ≡ 16 }
    ensures blend { IsBlend pairs before here result }
{
    if pairs {
        before.shuffle(
            here,
            [16, 17, 2, 3, 20, 21, 6, 7, 24, 25, 10, 11, 28, 29, 14, 15],
        )
    } else {
        before.shuffle(
            here,
            [16, 1, 18, 3, 20, 5, 22, 7, 24, 9, 26, 11, 28, 13, 30, 15],
        )
    }
}

// Puts four amounts.
#[inline(always)]
fn put_four(amounts: &mut [u8], at: usize, four: u8x4)
    requires at { at + 4 ≤ length amounts.old }
    requires four { length four ≡ 4 }
    ensures { IsPut four at amounts.old amounts.new }
{
    four.copy_to_slice(&mut amounts[at..]);
}

// Puts sixteen amounts, each four of them four steps after those before.
#[inline(always)]
fn put_spread(amounts: &mut [u8; 3072], at: usize, part: u8x16)
    requires at { at + 400 ≤ 3072 }
    requires part { length part ≡ 16 }
    ensures { AreSpread part at amounts.old amounts.new }
{
    put_four(amounts, at, part.extract::<0, 4>());
    put_four(amounts, at + 132, part.extract::<4, 4>());
    put_four(amounts, at + 264, part.extract::<8, 4>());
    put_four(amounts, at + 396, part.extract::<12, 4>());
}

// Puts what sixteen rows from row `first` on read at a step.
#[inline(always)]
fn put_rows(
    tile: &[u8; 2048],
    step: usize,
    offsets: Offsets,
    first: usize,
    amounts: &mut [u8; 3072],
)
    requires step { step < 67 }
    requires here { IsRead step 0 offsets.here }
    requires before { IsRead step 1 offsets.before }
    requires before2 { IsRead step 2 offsets.before2 }
    requires before3 { IsRead step 3 offsets.before3 }
    requires first { first ≤ 16 }
    ensures behind { AreBehind tile.now first step amounts.old → AreBehind tile.now first (step + 1) amounts.new }
    ensures others { KeepsOthers first amounts.old amounts.new }
{
    let here = part_of(tile, 32 * offsets.here + first);
    let before = part_of(tile, 32 * offsets.before + first);
    let before2 = part_of(tile, 32 * offsets.before2 + first);
    let before3 = part_of(tile, 32 * offsets.before3 + first);
    let near = blended(false, before, here);
    let far = blended(false, before3, before2);
    put_spread(
        amounts,
        32 * (first + step) + first,
        blended(true, far, near),
    );
}

// Puts what all rows read at a step.
#[inline(always)]
fn put_step(tile: &[u8; 2048], step: usize, offsets: Offsets, amounts: &mut [u8; 3072])
    requires step { step < 67 }
    requires here { IsRead step 0 offsets.here }
    requires before { IsRead step 1 offsets.before }
    requires before2 { IsRead step 2 offsets.before2 }
    requires before3 { IsRead step 3 offsets.before3 }
    ensures { AreAllBehind tile.now step amounts.old → AreAllBehind tile.now (step + 1) amounts.new }
{
    put_rows(tile, step, offsets, 0, amounts);
    put_rows(tile, step, offsets, 16, amounts);
}

// Puts what rows read at the steps at which no lane reads outside of the tile.
#[inline(always)]
fn put_inner_steps(tile: &[u8; 2048], amounts: &mut [u8; 3072])
    ensures { AreAllBehind tile.now 3 amounts.old → AreAllBehind tile.now 64 amounts.new }
{
    for step in 3..64 {
        let offsets = Offsets {
            here: step,
            before: step - 1,
            before2: step - 2,
            before3: step - 3,
        };
        put_step(tile, step, offsets, amounts);
    }
}

// The offsets of a step, or others near them where these are outside of the tile.
#[inline(always)]
fn offsets_at(step: usize) -> Offsets
    requires { step < 67 }
    ensures here { IsRead step 0 result.here }
    ensures before { IsRead step 1 result.before }
    ensures before2 { IsRead step 2 result.before2 }
    ensures before3 { IsRead step 3 result.before3 }
{
    Offsets {
        here: step.min(63),
        before: step.saturating_sub(1).min(63),
        before2: step.saturating_sub(2).min(63),
        before3: step.saturating_sub(3),
    }
}

// Puts the amounts of a tile by steps where rows lag.
// Not inlined: its callers, which are inlined for each kernel, would be too large for that.
#[inline(never)]
fn order_lagging(tile: &[u8; 2048], amounts: &mut [u8; 3072])
    ensures { HasSteps Lagging tile.now amounts.new }
{
    put_step(tile, 0, offsets_at(0), amounts);
    put_step(tile, 1, offsets_at(1), amounts);
    put_step(tile, 2, offsets_at(2), amounts);
    put_inner_steps(tile, amounts);
    put_step(tile, 64, offsets_at(64), amounts);
    put_step(tile, 65, offsets_at(65), amounts);
    put_step(tile, 66, offsets_at(66), amounts);
}

/// Puts the amounts of a tile, 32 of each offset, by steps, 32 in each. Level rows have them so already, and nothing is
/// put.
#[inline(always)]
pub(crate) fn order_by_steps(pace: Pace, tile: &[u8; 2048], amounts: &mut [u8; 3072])
    ensures { pace ≡ Lagging → HasSteps pace tile.now amounts.new }
{
    match pace {
        Pace::Level => {}
        Pace::Lagging => order_lagging(tile, amounts),
    }
}

/// The amounts of a tile by steps: the tile itself, or those that `order_by_steps` put.
#[inline(always)]
pub(crate) fn steps_of<'a>(pace: Pace, tile: &'a [u8; 2048], ordered: &'a [u8; 3072]) -> &'a [u8]
    requires { pace ≡ Lagging → HasSteps pace tile.now ordered.now }
    ensures steps { HasSteps pace tile.now result.now }
    ensures long { amounts_of pace ≤ length result.now }
{
    match pace {
        Pace::Level => tile,
        Pace::Lagging => ordered,
    }
}
