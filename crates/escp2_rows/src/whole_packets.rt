//! Whole packets of rows: the piece has each byte of them. A block of bytes of the piece, and then a block of copies,
//! is put after the filled bytes of the output, past the end of what a short packet gives. What follows is put over
//! the rest of the blocks.
ghost use Rattle.base_definitions.specs.Limits.{most_row_bytes};
ghost use Rattle.escp2_rows.specs.Packets.{IsShape, ReadsRows, gave_of};
ghost use Rattle.std.specs.Prelude.{false, length, replicate, slice_index, take, true, ℕ};
ghost use Rattle.std.specs.Prelude.{◌*◌, ◌++◌, ◌+◌, ◌-◌, ◌<◌, ◌≡◌, ◌≤◌};

use std::simd::prelude::*;

/// How many bytes a block has.
pub(crate) const BLOCK: usize = 16;

// The most bytes that a packet gives.
const MOST_BYTES: usize = 128;

/// Where a reader before a packet stands: how many bytes of a piece it has used, how many bytes of the output are
/// filled, how many bytes of the current row are not yet given, and how many rows follow.
#[derive(Clone, Copy)]
pub(crate) struct Standing {
    pub used: usize,
    pub filled: usize,
    pub row_left: usize,
    pub rows_left: usize,
}

// How many bytes of a piece are used, and how many bytes of the output are filled.
#[derive(Clone, Copy)]
struct Taken {
    used: usize,
    filled: usize,
}

// What a packet gives after its control byte: the first `kept` bytes as they are, and the next one as often as it takes
// to make `count` bytes. A literal ends with one byte, once.
#[derive(Clone, Copy)]
struct Shape {
    kept: usize,
    count: usize,
}

// The shape of the packet with this control byte. At 128, which is refused, it gives more bytes than any packet.
#[inline(always)]
fn shape_of(control: u8) -> Shape
    ensures { IsShape control result.kept result.count }
{
    let number = usize::from(control);
    if control < 128 {
        Shape {
            kept: number,
            count: number + 1,
        }
    } else {
        Shape {
            kept: 0,
            count: 257 - number,
        }
    }
}

// Puts a block after the filled bytes.
#[inline(always)]
fn put_block(out: &mut [u8], filled: usize, block: u8x16)
    requires { filled + BLOCK ≤ length out.old }
    ensures { take (filled + BLOCK) out.new ≡ take filled out.old ++ block }
{
    block.copy_to_slice(&mut out[filled..]);
}

// Puts what a packet of at most a block gives after the filled bytes, and more behind it.
#[inline(always)]
fn put_short(out: &mut [u8], filled: usize, shape: Shape, bytes: &[u8])
    requires kept { shape.kept < shape.count }
    requires few { shape.count ≤ BLOCK }
    requires out { filled + 2 * BLOCK ≤ length out.old }
    requires bytes { BLOCK ≤ length bytes.now }
    ensures { take (filled + shape.count) out.new
        ≡ take filled out.old ++ gave_of shape.kept shape.count bytes.now }
{
    put_block(out, filled, u8x16::from_slice(bytes));
    put_block(out, filled + shape.kept, u8x16::splat(bytes[shape.kept]));
}

// Puts what a longer packet gives after the filled bytes.
#[inline(never)]
fn put_long(out: &mut [u8], filled: usize, shape: Shape, bytes: &[u8])
    requires literal { 0 < shape.kept → shape.count ≡ shape.kept + 1 }
    requires out { filled + shape.count ≤ length out.old }
    requires bytes { shape.kept < length bytes.now }
    ensures { take (filled + shape.count) out.new
        ≡ take filled out.old ++ gave_of shape.kept shape.count bytes.now }
{
    let places = &mut out[filled..filled + shape.count];
    if shape.kept == 0 {
        places.fill(bytes[0]);
    } else {
        places.copy_from_slice(&bytes[..shape.count]);
    }
}

// Puts what a packet gives after the filled bytes, if the packet is not refused and the bytes have all of it.
#[inline(always)]
fn put_packet(out: &mut [u8], filled: usize, shape: Shape, bytes: &[u8]) -> bool
    requires kept { shape.kept < shape.count }
    requires literal { 0 < shape.kept → shape.count ≡ shape.kept + 1 }
    requires room { filled + shape.count + 2 * BLOCK ≤ length out.old }
    requires bytes { BLOCK ≤ length bytes.now }
    ensures few { result ≡ true → shape.count ≤ MOST_BYTES }
    ensures whole { result ≡ true → shape.kept < length bytes.now }
    ensures put { result ≡ true → take (filled + shape.count) out.new
        ≡ take filled out.old ++ gave_of shape.kept shape.count bytes.now }
    ensures none { result ≡ false → out.new ≡ out.old }
{
    if shape.count <= BLOCK {
        put_short(out, filled, shape, bytes);
        return true;
    }
    if shape.count > MOST_BYTES || shape.kept >= bytes.len() {
        return false;
    }
    put_long(out, filled, shape, bytes);
    true
}

// Reads packets of one row, and puts what they give after the filled bytes, as far as `end`. It is not inlined, so that
// the loop has the registers to itself.
#[inline(never)]
fn read_row(out: &mut [u8], filled: usize, end: usize, piece: &[u8]) -> Taken
    requires filled { filled ≤ end }
    requires end { end + 2 * BLOCK ≤ length out.old }
    ensures used { result.used ≤ length piece.now }
    ensures least { filled ≤ result.filled }
    ensures most { result.filled ≤ end }
    ensures none { result.used ≡ 0 → result.filled ≡ filled }
    ensures reads { (width left m : ℕ) → end ≤ filled + left → ReadsRows width left m
        (filled + left - result.filled) m filled result.filled (take result.used piece.now) out.old out.new }
{
    let last = piece.len().saturating_sub(BLOCK);
    let mut at = Taken { used: 0, filled };
    'packets: while at.used < last {
        let rest = &piece[at.used..];
        let shape = shape_of(rest[0]);
        let next = at.filled + shape.count;
        if next > end || !put_packet(out, at.filled, shape, &rest[1..]) {
            return at;
        }
        at.used += shape.kept + 2;
        at.filled = next;
    }
    at
}

/// Reads packets of rows of `row_bytes` bytes, and puts what they give after the filled bytes. The current row has
/// `row_left` bytes left, and `rows_left` rows follow. It stops before a packet that it does not read, and before the
/// last block of the piece or the last two of the output.
pub(crate) fn read_whole(
    out: &mut [u8],
    filled: usize,
    row_left: usize,
    rows_left: usize,
    row_bytes: usize,
    piece: &[u8],
) -> Standing
    requires filled { filled + 2 * BLOCK ≤ length out.old }
    requires narrow { row_bytes ≤ most_row_bytes }
    requires wide { 1 ≤ row_bytes }
    requires short { row_left ≤ 255 * most_row_bytes }
    requires ended { row_left ≡ 0 → rows_left ≡ 0 }
    ensures used { result.used ≤ length piece.now }
    ensures filled { result.filled ≤ length out.new }
    ensures few { result.rows_left ≤ rows_left }
    ensures short { result.row_left ≤ 255 * most_row_bytes }
    ensures ended { result.row_left ≡ 0 → result.rows_left ≡ 0 }
    ensures none { result.used ≡ 0 → result.row_left ≡ row_left }
    ensures reads { ReadsRows row_bytes row_left rows_left result.row_left result.rows_left
        filled result.filled (take result.used piece.now) out.old out.new }
{
    let last = out.len() - 2 * BLOCK;
    let mut at = Standing {
        used: 0,
        filled,
        row_left,
        rows_left,
    };
    'rows: loop {
        let end = last.min(at.filled + at.row_left);
        let taken = read_row(out, at.filled, end, &piece[at.used..]);
        at.used += taken.used;
        at.row_left -= taken.filled - at.filled;
        at.filled = taken.filled;
        if at.row_left > 0 || at.rows_left == 0 {
            return at;
        }
        at.row_left = row_bytes;
        at.rows_left -= 1;
    }
}
