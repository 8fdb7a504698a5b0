//! Where the first literal of a row ends, found from the bytes that follow it.
ghost use Rattle.escp2_definitions.specs.Least.{equal_at};
ghost use Rattle.escp2_rows.specs.Literals.{IsLongest};
ghost use Rattle.escp2_rows.specs.Passing.{EndsAt, GoesOn, IsLevel, OnEnds, OnGoes, are_three, first_of_sixteen, run_of};
ghost use Rattle.std.specs.List.{take_while};
ghost use Rattle.std.specs.Prelude.{IfSome, drop, false, length, slice_index, true, ℕ, ◌+◌, ◌<◌, ◌==◌, ◌≡◌, ◌≢◌, ◌≤◌};

use crate::costs::MOST_BYTES;
use std::simd::prelude::*;

// The most equal bytes that a literal goes on over.
const MOST_PASSED: usize = 3;

// The lowest bit that is set of a mask of sixteen; sixteen where none is.
#[inline(always)]
fn first_set(mask: u64) -> usize
    ensures { result ≡ first_of_sixteen mask }
{
    if mask == 0 {
        16
    } else {
        mask.trailing_zeros() as usize
    }
}

// How many of the first sixteen bytes, from the front, are this byte.
#[inline(always)]
fn sixteen_same(row: &[u8], byte: u8) -> usize
    requires { 16 ≤ length row.now }
    ensures few { result ≤ 16 }
    ensures same { (i : ℕ) → i < result → slice_index row.now i ≡ byte }
    ensures other { result < 16 → slice_index row.now result ≢ byte }
{
    let bytes = u8x16::from_slice(row);
    first_set(bytes.simd_ne(u8x16::splat(byte)).to_bitmask())
}

// At how many of the first sixteen places, from the front, no three equal bytes begin.
#[inline(always)]
fn places_before_three(row: &[u8]) -> usize
    requires { 18 ≤ length row.now }
    ensures few { result ≤ 16 }
    ensures apart { (i : ℕ) → i < result → are_three row.now i ≡ false }
    ensures three { result < 16 → are_three row.now result ≡ true }
{
    let first = u8x16::from_slice(row);
    let second = u8x16::from_slice(&row[1..]);
    let third = u8x16::from_slice(&row[2..]);
    first_set((first.simd_eq(second) & second.simd_eq(third)).to_bitmask())
}

// How many bytes at the beginning are this byte, one by one.
#[inline]
fn few_copies(row: &[u8], byte: u8) -> usize
    ensures { result ≡ length (take_while (λ other. other == byte) row.now) }
{
    row.iter().take_while(|other| **other == byte).count()
}

// How many bytes at the beginning are this byte.
#[inline]
fn copies(row: &[u8], byte: u8) -> usize
    ensures { result ≡ length (take_while (λ other. other == byte) row.now) }
{
    let mut count = 0;
    'sixteens: while row.len() - count >= 16 {
        let more = sixteen_same(&row[count..], byte);
        count += more;
        if more < 16 {
            return count;
        }
    }
    count + few_copies(&row[count..], byte)
}

/// How many bytes at the beginning are equal, up to `MOST_BYTES`.
#[inline]
pub(crate) fn equal_bytes(row: &[u8]) -> usize
    requires { 0 < length row.now }
    ensures is { result ≡ equal_at row.now }
    ensures few { result ≤ 128 }
    ensures within { result ≤ length row.now }
{
    copies(&row[..row.len().min(MOST_BYTES)], row[0])
}

/// Whether the first three bytes are equal.
#[inline]
pub(crate) fn is_three(row: &[u8]) -> bool
    requires { 3 ≤ length row.now }
    ensures { result ≡ are_three row.now 0 }
{
    row[0] == row[1] && row[1] == row[2]
}

// The first place from this one on at which three equal bytes begin, one by one; or the row's end.
#[inline]
fn few_triple(row: &[u8], from: usize) -> usize
    requires { from ≤ length row.now }
    ensures from { from ≤ result }
    ensures within { result ≤ length row.now }
    ensures few { (i : ℕ) → from ≤ i → i < result → equal_at (drop i row.now) ≤ 2 }
    ensures three { result < length row.now → 3 ≤ equal_at (drop result row.now) }
{
    let mut at = from;
    'places: while row.len() - at >= 3 {
        if is_three(&row[at..]) {
            return at;
        }
        at += 1;
    }
    row.len()
}

// The first place from this one on at which three equal bytes begin, or the row's end. Past `MOST_BYTES` it may be any
// place up to which there is none.
#[inline]
fn next_triple(row: &[u8], from: usize) -> usize
    requires { from ≤ length row.now }
    ensures from { from ≤ result }
    ensures within { result ≤ length row.now }
    ensures few { (i : ℕ) → from ≤ i → i < result → equal_at (drop i row.now) ≤ 2 }
    ensures three { result ≤ 128 → result < length row.now → 3 ≤ equal_at (drop result row.now) }
{
    let mut at = from;
    'sixteens: while at <= MOST_BYTES && row.len() - at >= 18 {
        let before = places_before_three(&row[at..]);
        at += before;
        if before < 16 {
            return at;
        }
    }
    if at > MOST_BYTES {
        return at;
    }
    few_triple(row, at)
}

// Whether the row begins with two equal bytes and no more.
#[inline]
fn is_pair(row: &[u8]) -> bool
    ensures { result ≡ true → equal_at row.now ≡ 2 }
{
    if row.len() < 2 {
        return false;
    }
    if row[0] != row[1] {
        return false;
    }
    row.len() == 2 || row[1] != row[2]
}

// The end of the pairs that follow each other from this place on.
#[inline]
fn behind_pairs(row: &[u8], from: usize) -> usize
    requires { from ≤ length row.now }
    ensures { IsLevel row.now from result }
{
    let mut at = from;
    'pairs: while is_pair(&row[at..]) {
        at += 2;
    }
    at
}

// How many bytes at the beginning are equal.
#[inline]
fn equal_run(row: &[u8]) -> usize
    requires { 0 < length row.now }
    ensures { result ≡ run_of row.now }
{
    copies(row, row[0])
}

// What the bytes tell of a literal that comes to a run of three or more.
#[derive(Clone, Copy)]
enum Behind {
    // It ends before the run.
    Ends,
    // It goes on up to this place.
    Goes(usize),
    // They do not tell it.
    Unknown,
}

// What the bytes from a run of three or more on tell of a literal that comes to it.
fn behind_run(row: &[u8], three: usize) -> Behind
    requires three { 3 ≤ equal_at (drop three row.now) }
    requires within { three < length row.now }
    requires goes { GoesOn row.now three }
    ensures ends { OnEnds result (EndsAt 1 row.now three) }
    ensures goes { OnGoes result (GoesOn row.now) }
    ensures after { OnGoes result (λ at. three < at) }
{
    let equal = equal_run(&row[three..]);
    if equal % MOST_BYTES > MOST_PASSED {
        return Behind::Ends;
    }
    if equal > MOST_PASSED {
        return Behind::Unknown;
    }
    let place = behind_pairs(row, three + 3);
    if place == row.len() {
        return Behind::Ends;
    }
    let next = equal_run(&row[place..]);
    if next == 1 {
        return Behind::Goes(place + 1);
    }
    if next % MOST_BYTES >= MOST_PASSED {
        Behind::Ends
    } else {
        Behind::Unknown
    }
}

// The same as `literal_end`, from the first run of three or more on.
fn end_from(row: &[u8], first: usize) -> Option<usize>
    requires alone { equal_at row.now ≡ 1 }
    requires goes { GoesOn row.now first }
    requires three { first ≤ 128 → first < length row.now → 3 ≤ equal_at (drop first row.now) }
    ensures { IfSome result (IsLongest row.now) }
{
    let mut three = first;
    'runs: while three <= MOST_BYTES && three < row.len() {
        match behind_run(row, three) {
            Behind::Ends => return Some(three),
            Behind::Goes(at) => three = next_triple(row, at),
            Behind::Unknown => return None,
        }
    }
    if three <= MOST_BYTES {
        Some(three)
    } else {
        None
    }
}

/// The length of the longest literal of least cost at the beginning of a row whose first two bytes differ. `None` if
/// the bytes do not tell the length without the costs of the row.
pub(crate) fn literal_end(row: &[u8]) -> Option<usize>
    requires { equal_at row.now ≡ 1 }
    ensures { IfSome result (IsLongest row.now) }
{
    let first = next_triple(row, 0);
    if first <= MOST_BYTES {
        return end_from(row, first);
    }
    if row[MOST_BYTES - 1] != row[MOST_BYTES] {
        Some(MOST_BYTES)
    } else {
        None
    }
}
