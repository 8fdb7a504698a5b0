//! Packed rows laid over other packed rows, from any column on.
ghost use Rattle.dot_planes.specs.Laying.{has_dot as has_dot_of, is_in_bytes, laid_dot};
ghost use Rattle.dot_planes.specs.Tables.{row_dot, row_len};
ghost use Rattle.base_definitions.specs.Packed.{bit_at};
ghost use Rattle.base_definitions.specs.Limits.{most_columns, most_row_bytes};
ghost use Rattle.std.specs.List.{list_any};
ghost use Rattle.std.specs.Prelude.{length, nat_lt, slice_index, true, ℕ, ◌&&◌, ◌*◌, ◌+◌};
ghost use Rattle.std.specs.Prelude.{◌-◌, ◌/◌, ◌<◌, ◌||◌, ◌≡◌, ◌≤◌};
ghost use Rattle.base_definitions.specs.Counting.{count_from};

use crate::eights::eight_from;
use crate::places::are_bytes;

// Eight dots of a row from bit `by` of byte i on. Byte i + 1 exists.
#[inline(always)]
pub(crate) fn row_eight(bytes: &[u8], i: usize, by: usize) -> u8
    requires by { by ≤ 8 }
    requires next { i + 1 < length bytes.now }
    ensures { (j : ℕ) → j < 8 → bit_at result j ≡ row_dot bytes.now (8 * i + by + j) }
{
    eight_from(bytes[i], bytes[i + 1], by)
}

// The eight dots of a row from column x on; past the row's end there is no dot.
#[inline(always)]
fn window(bytes: &[u8], x: usize) -> u8
    requires { x / 8 < length bytes.now }
    ensures { (j : ℕ) → j < 8 → bit_at result j ≡ row_dot bytes.now (x + j) }
{
    let place = x / 8;
    let next = if place + 1 < bytes.len() {
        bytes[place + 1]
    } else {
        0
    };
    eight_from(bytes[place], next, x % 8)
}

// The dots of byte i of a row that has `dots` dots. Bits past the last dot are cleared.
#[inline(always)]
pub(crate) fn row_part(row: &[u8], dots: usize, i: usize) -> u8
    requires i { i < length row.now }
    requires some { 8 * i < dots }
    ensures { (j : ℕ) → j < 8 → bit_at result j ≡ (nat_lt (8 * i + j) dots && row_dot row.now (8 * i + j)) }
{
    let left = dots - 8 * i;
    if left < 8 {
        row[i] >> (8 - left) << (8 - left)
    } else {
        row[i]
    }
}

// The same for any byte; a byte past the row's end has no dots.
#[inline]
fn part_or_none(row: &[u8], dots: usize, i: usize) -> u8
    requires { length row.now ≡ row_len dots }
    ensures { (j : ℕ) → j < 8 → bit_at result j ≡ (nat_lt (8 * i + j) dots && row_dot row.now (8 * i + j)) }
{
    if i < row.len() {
        row_part(row, dots, i)
    } else {
        0
    }
}

// Byte i of a row of `dots` dots whose first dot is bit `before` of byte 0.
#[inline]
fn laid_byte(row: &[u8], dots: usize, before: usize, i: usize) -> u8
    requires before { before < 8 }
    requires len { length row.now ≡ row_len dots }
    requires small { i ≤ most_row_bytes }
    ensures { (j : ℕ) → j < 8 → bit_at result j ≡ laid_dot row.now dots before (8 * i + j) }
{
    let left = match i.checked_sub(1) {
        Some(last) => part_or_none(row, dots, last),
        None => 0,
    };
    let here = part_or_none(row, dots, i);
    eight_from(left, here, 8 - before)
}

// Turns on those dots of a row, laid from column x on, that fall into bytes `from` to `to` - 1, counted from the byte
// of column x.
fn lay_part(over: &mut [u8], x: usize, row: &[u8], dots: usize, from: usize, to: usize)
    requires inside { x + dots ≤ 8 * length over.old }
    requires small { x + dots ≤ most_columns }
    requires len { length row.now ≡ row_len dots }
    requires order { from ≤ to }
    requires most { to ≤ length row.now + 1 }
    ensures dots { (c : ℕ) → row_dot over.new c
        ≡ (row_dot over.old c || is_in_bytes (x / 8 + from) (x / 8 + to) c && laid_dot row.now dots x c) }
    ensures len { length over.new ≡ length over.old }
{
    let place = x / 8;
    for i in from..to {
        if place + i < over.len() {
            over[place + i] |= laid_byte(row, dots, x % 8, i);
        }
    }
}

// The same for the `many` bytes after the first one, each of which takes eight dots of the row. The steps are
// independent, so that the compiler can vectorise them.
fn lay_whole(over: &mut [u8], x: usize, row: &[u8], dots: usize, many: usize)
    requires inside { x + dots ≤ 8 * length over.old }
    requires small { x + dots ≤ most_columns }
    requires len { length row.now ≡ row_len dots }
    requires whole { 8 * many ≤ dots - 8 }
    ensures dots { (c : ℕ) → row_dot over.new c
        ≡ (row_dot over.old c || is_in_bytes (x / 8 + 1) (x / 8 + 1 + many) c && laid_dot row.now dots x c) }
    ensures len { length over.new ≡ length over.old }
{
    let next = x / 8 + 1;
    let by = 8 - x % 8;
    for i in 0..many {
        over[next + i] |= row_eight(row, i, by);
    }
}

/// Turns on the first `dots` dots of a packed row in another, from column x on.
pub(crate) fn lay_row(over: &mut [u8], x: usize, row: &[u8], dots: usize)
    requires inside { x + dots ≤ 8 * length over.old }
    requires small { x + dots ≤ most_columns }
    requires len { length row.now ≡ row_len dots }
    ensures dots { (c : ℕ) → row_dot over.new c ≡ (row_dot over.old c || laid_dot row.now dots x c) }
    ensures len { length over.new ≡ length over.old }
    ensures bytes { (k : ℕ) → slice_index over.new k < 256 }
{
    let many = row.len().saturating_sub(2);
    lay_part(over, x, row, dots, 0, 1);
    lay_whole(over, x, row, dots, many);
    lay_part(over, x, row, dots, many + 1, row.len() + 1);
    are_bytes(over);
}

// Whether one of the first 8 * `many` dots of a row is on in both, with the row's first dot at column x of the other.
fn bytes_meet(other: &[u8], x: usize, row: &[u8], many: usize) -> bool
    requires inside { x + 8 * many < 8 * length other.now }
    requires small { x + 8 * many ≤ most_columns }
    requires some { many ≤ length row.now }
    ensures { result ≡ list_any (λ k. row_dot row.now k && row_dot other.now (x + k)) (count_from 0 (8 * many)) }
{
    let place = x / 8;
    let by = x % 8;
    let mut both = 0;
    for i in 0..many {
        both |= row[i] & row_eight(other, place + i, by);
    }
    both != 0
}

/// Whether one of the first `dots` dots of a row is on in both, with the row's first dot at column x of the other.
pub(crate) fn row_meets(other: &[u8], x: usize, row: &[u8], dots: usize) -> bool
    requires inside { x + dots ≤ 8 * length other.now }
    requires small { x + dots ≤ most_columns }
    requires len { length row.now ≡ row_len dots }
    ensures { result ≡ list_any (λ k. row_dot row.now k && row_dot other.now (x + k)) (count_from 0 dots) }
{
    let Some(last) = row.len().checked_sub(1) else {
        return false;
    };
    if bytes_meet(other, x, row, last) {
        return true;
    }
    row_part(row, dots, last) & window(other, x + 8 * last) != 0
}

/// Whether one of the first `dots` dots of a packed row is on.
pub fn has_dot(row: &[u8], dots: usize) -> bool
    requires { length row.now ≡ row_len dots }
    ensures { result ≡ has_dot_of row.now dots }
{
    for i in 0..row.len() {
        if row_part(row, dots, i) != 0 {
            return true;
        }
    }
    false
}
