//! Pixels of one bit.
ghost use Rattle.base_definitions.specs.Packed.{bit_at, worth};
ghost use Rattle.std.specs.Int.RustNames.{bit_and};
ghost use Rattle.std.specs.Prelude.{length, min, slice_index, ℕ, ◌%◌, ◌*◌, ◌+◌, ◌-◌, ◌/◌, ◌<◌, ◌^◌, ◌≡◌, ◌≤◌};

use std::simd::prelude::*;

// The byte of each of 72 pixels: 64 of them, and up to seven before these in the first byte.
const BYTES: [u8; 72] = [
    0, 0, 0, 0, 0, 0, 0, 0, 1, 1, 1, 1, 1, 1, 1, 1, 2, 2, 2, 2, 2, 2, 2, 2, 3, 3, 3, 3, 3, 3, 3, 3,
    4, 4, 4, 4, 4, 4, 4, 4, 5, 5, 5, 5, 5, 5, 5, 5, 6, 6, 6, 6, 6, 6, 6, 6, 7, 7, 7, 7, 7, 7, 7, 7,
    8, 8, 8, 8, 8, 8, 8, 8,
];

// The bit of each of them in its byte.
const BITS: [u8; 72] = [
    128, 64, 32, 16, 8, 4, 2, 1, 128, 64, 32, 16, 8, 4, 2, 1, 128, 64, 32, 16, 8, 4, 2, 1, 128, 64,
    32, 16, 8, 4, 2, 1, 128, 64, 32, 16, 8, 4, 2, 1, 128, 64, 32, 16, 8, 4, 2, 1, 128, 64, 32, 16,
    8, 4, 2, 1, 128, 64, 32, 16, 8, 4, 2, 1, 128, 64, 32, 16, 8, 4, 2, 1,
];

// Sixteen numbers of a table from place `first` on.
#[inline(always)]
fn sixteen_of(table: &[u8; 72], first: usize) -> u8x16
    requires { first ≤ 56 }
    ensures len { length result ≡ 16 }
    ensures lanes { (k : ℕ) → k < 16 → slice_index result k ≡ slice_index table.now (first + k) }
{
    u8x16::from_slice(&table[first..])
}

// The bits of sixteen pixels from pixel `first` of the bytes on, each where it is in its byte.
#[inline(always)]
fn sixteen_bits(bytes: u8x16, first: usize) -> [u8; 16]
    requires { first ≤ 56 }
    ensures { (k : ℕ) → k < 16 → slice_index result k
        ≡ bit_and (slice_index bytes ((first + k) / 8)) (2 ^ (7 - (first + k) % 8)) }
{
    let places = sixteen_of(&BYTES, first);
    let bits = sixteen_of(&BITS, first);
    (bytes.swizzle_dyn(places) & bits).to_array()
}

// The bits of 64 pixels from pixel `first` of the bytes on.
#[inline(always)]
fn chunk_bits(bytes: u8x16, first: usize) -> [u8; 64]
    requires { first < 8 }
    ensures { (x : ℕ) → x < 64 → slice_index result x
        ≡ bit_and (slice_index bytes ((first + x) / 8)) (2 ^ (7 - (first + x) % 8)) }
{
    let mut bits = [0; 64];
    for n in 0..4usize {
        bits[16 * n..16 * n + 16].copy_from_slice(&sixteen_bits(bytes, first + 16 * n));
    }
    bits
}

// 64 pixels of sixteen bytes, from bit `first` on.
#[inline(always)]
fn chunk_of(bytes: &[u8], first: usize) -> [u8; 64]
    requires first { first < 8 }
    requires bytes { 16 ≤ length bytes.now }
    ensures { (x : ℕ) → x < 64 → min 1 (slice_index result x)
        ≡ worth (bit_at (slice_index bytes.now ((first + x) / 8)) ((first + x) % 8)) 1 }
{
    chunk_bits(u8x16::from_slice(bytes), first)
}

// The same of fewer bytes. It is not inlined, to keep the loop over a tile's rows short.
#[inline(never)]
fn last_chunk_of(bytes: &[u8], first: usize) -> [u8; 64]
    requires first { first < 8 }
    requires bytes { length bytes.now < 16 }
    ensures { (x : ℕ) → x < 64 → first + x < 8 * length bytes.now → min 1 (slice_index result x)
        ≡ worth (bit_at (slice_index bytes.now ((first + x) / 8)) ((first + x) % 8)) 1 }
{
    let mut padded = [0; 16];
    padded[..bytes.len()].copy_from_slice(bytes);
    chunk_of(&padded, first)
}

/// The first `many` pixels from bit `first` of the bytes on, a byte each: 0 for a bit 0, and any other for a bit 1.
#[inline(always)]
pub(crate) fn bits_of(bytes: &[u8], first: usize, many: usize) -> [u8; 64]
    requires first { first < 8 }
    requires many { many ≤ 64 }
    requires bytes { first + many ≤ 8 * length bytes.now }
    ensures { (x : ℕ) → x < many → min 1 (slice_index result x)
        ≡ worth (bit_at (slice_index bytes.now ((first + x) / 8)) ((first + x) % 8)) 1 }
{
    if bytes.len() >= 16 {
        chunk_of(bytes, first)
    } else {
        last_chunk_of(bytes, first)
    }
}
