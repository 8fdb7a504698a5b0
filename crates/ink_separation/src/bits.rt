//! Pixels of one bit.
ghost use Rattle.base_definitions.specs.Packed.{bit_at, worth};
ghost use Rattle.std.specs.Int.RustNames.{bit_and};
ghost use Rattle.std.specs.Prelude.{length, slice_index, ℕ, ◌%◌, ◌*◌, ◌+◌, ◌-◌, ◌/◌, ◌<◌, ◌^◌, ◌≡◌, ◌≢◌, ◌≤◌};

use crate::pixels::{PIXELS, Values};
use std::simd::prelude::*;

// The byte of each of 72 pixels: 64 of them, and up to seven before these in the first byte.
const BYTES: [u8; 72] = [
    0, 0, 0, 0, 0, 0, 0, 0, 1, 1, 1, 1, 1, 1, 1, 1, 2, 2, 2, 2, 2, 2, 2, 2, 3, 3, 3, 3, 3, 3, 3, 3,
    4, 4, 4, 4, 4, 4, 4, 4, 5, 5, 5, 5, 5, 5, 5, 5, 6, 6, 6, 6, 6, 6, 6, 6, 7, 7, 7, 7, 7, 7, 7, 7,
    8, 8, 8, 8, 8, 8, 8, 8,
];

// The bit of each of them in its byte.
const BITS: [u8; 72] = [
    128, 64, 32, 16, 8, 4, 2, 1, 128, 64, 32, 16, 8, 4, 2, 1, 128, 64, 32, 16, 8, 4, 2, 1, 128, 64,
    32, 16, 8, 4, 2, 1, 128, 64, 32, 16, 8, 4, 2, 1, 128, 64, 32, 16, 8, 4, 2, 1, 128, 64, 32, 16,
    8, 4, 2, 1, 128, 64, 32, 16, 8, 4, 2, 1, 128, 64, 32, 16, 8, 4, 2, 1,
];

// Sixteen numbers of a table from place `first` on.
#[inline(always)]
fn sixteen_of(table: &[u8; 72], first: usize) -> u8x16
    requires { first ≤ 56 }
    ensures len { length result ≡ 16 }
    ensures lanes { (k : ℕ) → k < 16 → slice_index result k ≡ slice_index table.now (first + k) }
{
    u8x16::from_slice(&table[first..])
}

// The bits of sixteen pixels from pixel `first` of the bytes on, each where it is in its byte.
#[inline(always)]
fn sixteen_bits(bytes: u8x16, first: usize) -> [u8; 16]
    requires { first ≤ 56 }
    ensures { (k : ℕ) → k < 16 → slice_index result k
        ≡ bit_and (slice_index bytes ((first + k) / 8)) (2 ^ (7 - (first + k) % 8)) }
{
    let places = sixteen_of(&BYTES, first);
    let bits = sixteen_of(&BITS, first);
    (bytes.swizzle_dyn(places) & bits).to_array()
}

// The bits of 64 pixels from pixel `first` of the bytes on.
#[inline(always)]
fn chunk_bits(bytes: u8x16, first: usize) -> Values
    requires { first < 8 }
    ensures { (x : ℕ) → x < 64 → slice_index result x
        ≡ bit_and (slice_index bytes ((first + x) / 8)) (2 ^ (7 - (first + x) % 8)) }
{
    let mut bits = [0; PIXELS];
    for n in 0..4usize {
        bits[16 * n..16 * n + 16].copy_from_slice(&sixteen_bits(bytes, first + 16 * n));
    }
    bits
}

// 255 where one of these bits is 1, else 0.
#[inline(always)]
fn full_where(bits: u8) -> u8
    ensures none { bits ≡ 0 → result ≡ 0 }
    ensures some { bits ≢ 0 → result ≡ 255 }
{
    if bits == 0 { 0 } else { 255 }
}

// 64 pixels of sixteen bytes, from bit `first` on.
#[inline(always)]
fn chunk_of(bytes: &[u8], first: usize) -> Values
    requires first { first < 8 }
    requires bytes { 16 ≤ length bytes.now }
    ensures { (x : ℕ) → x < 64 → slice_index result x
        ≡ 255 * worth (bit_at (slice_index bytes.now ((first + x) / 8)) ((first + x) % 8)) 1 }
{
    let bits = chunk_bits(u8x16::from_slice(bytes), first);
    let mut values = [0; PIXELS];
    for x in 0..PIXELS {
        values[x] = full_where(bits[x]);
    }
    values
}

// The same of fewer bytes. It is not inlined, to keep the loop over a line short.
#[inline(never)]
fn last_chunk_of(bytes: &[u8], first: usize) -> Values
    requires first { first < 8 }
    requires bytes { length bytes.now < 16 }
    ensures { (x : ℕ) → x < 64 → first + x < 8 * length bytes.now → slice_index result x
        ≡ 255 * worth (bit_at (slice_index bytes.now ((first + x) / 8)) ((first + x) % 8)) 1 }
{
    let mut padded = [0; 16];
    padded[..bytes.len()].copy_from_slice(bytes);
    chunk_of(&padded, first)
}

/// The first `many` pixels from bit `first` of the bytes on: 255 for 1, 0 for 0.
#[inline(always)]
pub(crate) fn bits_of(bytes: &[u8], first: usize, many: usize) -> Values
    requires first { first < 8 }
    requires many { many ≤ 64 }
    requires bytes { first + many ≤ 8 * length bytes.now }
    ensures { (x : ℕ) → x < many → slice_index result x
        ≡ 255 * worth (bit_at (slice_index bytes.now ((first + x) / 8)) ((first + x) % 8)) 1 }
{
    if bytes.len() >= 16 {
        chunk_of(bytes, first)
    } else {
        last_chunk_of(bytes, first)
    }
}

/// One amount for each bit that is 0, and another for each bit that is 1.
#[inline(always)]
pub(crate) fn chosen(bits: &Values, none: u8, full: u8) -> Values
    ensures none { (x : ℕ) → x < 64 → slice_index bits.now x ≡ 0 → slice_index result x ≡ none }
    ensures full { (x : ℕ) → x < 64 → slice_index bits.now x ≡ 255 → slice_index result x ≡ full }
{
    let mut amounts = [0; PIXELS];
    for x in 0..PIXELS {
        amounts[x] = if bits[x] == 0 { none } else { full };
    }
    amounts
}
