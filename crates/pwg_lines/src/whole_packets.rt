//! Whole packets of a line: the piece has each byte of them. A block of copies, or of bytes of the piece, is put after
//! the filled bytes, past the end of what a short packet gives. What follows is put over the rest of the block.
ghost use Rattle.pwg_lines.specs.States.{Reads, block_units};
ghost use Rattle.std.specs.Prelude.{IfNone, IfSome, length, take, ◌*◌, ◌+◌, ◌++◌, ◌-◌, ◌<◌, ◌≡◌, ◌≤◌};
ghost use Rattle.pwg_definitions.specs.Groups.{copies};
ghost use Rattle.pwg_definitions.specs.Header.{row_of};

use crate::buffer::fill_bytes;
use pwg_definitions::Kind;
use std::simd::prelude::*;

// How many bytes a block has.
const BLOCK: usize = 64;

// The byte of its unit that each byte of a block is, for units of one, three and four bytes.
const ONES: [usize; 64] = [
    0, 0, 0, 0, 0, 0, 0, 0, 0, 0, 0, 0, 0, 0, 0, 0, 0, 0, 0, 0, 0, 0, 0, 0, 0, 0, 0, 0, 0, 0, 0, 0,
    0, 0, 0, 0, 0, 0, 0, 0, 0, 0, 0, 0, 0, 0, 0, 0, 0, 0, 0, 0, 0, 0, 0, 0, 0, 0, 0, 0, 0, 0, 0, 0,
];

const THREES: [usize; 64] = [
    0, 1, 2, 0, 1, 2, 0, 1, 2, 0, 1, 2, 0, 1, 2, 0, 1, 2, 0, 1, 2, 0, 1, 2, 0, 1, 2, 0, 1, 2, 0, 1,
    2, 0, 1, 2, 0, 1, 2, 0, 1, 2, 0, 1, 2, 0, 1, 2, 0, 1, 2, 0, 1, 2, 0, 1, 2, 0, 1, 2, 0, 1, 2, 0,
];

const FOURS: [usize; 64] = [
    0, 1, 2, 3, 0, 1, 2, 3, 0, 1, 2, 3, 0, 1, 2, 3, 0, 1, 2, 3, 0, 1, 2, 3, 0, 1, 2, 3, 0, 1, 2, 3,
    0, 1, 2, 3, 0, 1, 2, 3, 0, 1, 2, 3, 0, 1, 2, 3, 0, 1, 2, 3, 0, 1, 2, 3, 0, 1, 2, 3, 0, 1, 2, 3,
];

/// Where a reader before a packet stands: how many bytes of a piece it has used, how many bytes of its line are filled,
/// and how many units come after them.
#[derive(Clone, Copy)]
pub(crate) struct Place {
    pub used: usize,
    pub filled: usize,
    pub left: usize,
}

// How many units a block holds.
#[inline(always)]
fn block_units(kind: Kind) -> usize
    ensures { result ≡ block_units kind }
{
    BLOCK / kind.unit()
}

// A block of copies of the unit that the bytes begin with.
#[inline(always)]
fn block_of(kind: Kind, bytes: u8x16) -> u8x64
    ensures len { length result ≡ BLOCK }
    ensures copies { take (block_units kind * (row_of kind).unit) result
        ≡ copies (block_units kind) (take (row_of kind).unit bytes) }
{
    match kind {
        Kind::Gray8 | Kind::Black8 | Kind::Black1 => bytes.swizzle(ONES),
        Kind::Rgb8 => bytes.swizzle(THREES),
        Kind::Cmyk8 => bytes.swizzle(FOURS),
    }
}

// Puts a block after the filled bytes.
#[inline(always)]
fn put_block(line: &mut [u8], filled: usize, block: u8x64)
    requires { filled + BLOCK ≤ length line.old }
    ensures { take (filled + BLOCK) line.new ≡ take filled line.old ++ block }
{
    block.copy_to_slice(&mut line[filled..]);
}

// Puts a block of copies of the unit that the bytes begin with.
#[inline(always)]
fn put_copies(line: &mut [u8], filled: usize, kind: Kind, bytes: &[u8])
    requires line { filled + BLOCK ≤ length line.old }
    requires bytes { 16 ≤ length bytes.now }
    ensures { take (filled + block_units kind * (row_of kind).unit) line.new
        ≡ take filled line.old ++ copies (block_units kind) (take (row_of kind).unit bytes.now) }
{
    put_block(line, filled, block_of(kind, u8x16::from_slice(bytes)));
}

// Puts the first `count` bytes after the filled ones, and more of them up to a block.
#[inline(always)]
fn put_bytes(line: &mut [u8], filled: usize, count: usize, bytes: &[u8])
    requires line { filled + BLOCK ≤ length line.old }
    requires bytes { BLOCK ≤ length bytes.now }
    requires fits { filled + count ≤ length line.old }
    requires many { count ≤ length bytes.now }
    ensures { take (filled + count) line.new ≡ take filled line.old ++ take count bytes.now }
{
    if count <= BLOCK {
        put_block(line, filled, u8x64::from_slice(bytes));
    } else {
        fill_bytes(line, filled, &bytes[..count]);
    }
}

// Reads the packet that the piece begins with, and returns how many bytes spell it and how many units it gives. It
// reads no run that is longer than a block, no white, and no literal that goes past the piece or to the line's end.
#[inline(always)]
fn put_packet(
    line: &mut [u8],
    filled: usize,
    left: usize,
    kind: Kind,
    piece: &[u8],
) -> Option<(usize, usize)>
    requires line { filled + BLOCK < length line.old }
    requires whole { filled + left * (row_of kind).unit ≡ length line.old }
    requires piece { BLOCK < length piece.now }
    ensures least { IfSome result (λ taken. 0 < taken.0) }
    ensures most { IfSome result (λ taken. taken.0 ≤ length piece.now) }
    ensures fewer { IfSome result (λ taken. taken.1 < left) }
    ensures none { IfNone result (line.new ≡ line.old) }
    ensures reads { IfSome result (λ taken. Reads (row_of kind).unit left (left - taken.1)
        (take filled line.old) (take (filled + taken.1 * (row_of kind).unit) line.new) (take taken.0 piece.now)) }
{
    let first = piece[0];
    let unit = kind.unit();
    if first < 128 {
        let units = usize::from(first) + 1;
        if units > block_units(kind) {
            return None;
        }
        put_copies(line, filled, kind, &piece[1..]);
        return Some((1 + unit, units));
    }
    if first == 128 {
        return None;
    }
    let units = 257 - usize::from(first);
    let count = units * unit;
    if count >= piece.len().min(line.len() - filled) {
        return None;
    }
    put_bytes(line, filled, count, &piece[1..]);
    Some((1 + count, units))
}

/// Reads packets after the filled bytes of a line that has `left` units left. It stops before a packet that it does not
/// read, and before the last block of the piece or of the line.
#[inline(always)]
pub(crate) fn read_whole(
    line: &mut [u8],
    filled: usize,
    left: usize,
    kind: Kind,
    piece: &[u8],
) -> Place
    requires whole { filled + left * (row_of kind).unit ≡ length line.old }
    requires some { 1 ≤ left }
    ensures used { result.used ≤ length piece.now }
    ensures whole { result.filled + result.left * (row_of kind).unit ≡ length line.new }
    ensures some { 1 ≤ result.left }
    ensures reads { Reads (row_of kind).unit left result.left
        (take filled line.old) (take result.filled line.new) (take result.used piece.now) }
{
    let unit = kind.unit();
    let mut at = Place {
        used: 0,
        filled,
        left,
    };
    'packets: while piece.len() - at.used > BLOCK && line.len() - at.filled > BLOCK {
        let Some((bytes, units)) = put_packet(line, at.filled, at.left, kind, &piece[at.used..])
        else {
            return at;
        };
        at.used += bytes;
        at.filled += units * unit;
        at.left -= units;
    }
    at
}
