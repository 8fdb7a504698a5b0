//! The lengths of an ink of a tile's edges and dots. The types have them by construction; these functions do nothing,
//! and state them in their contracts.
ghost use Rattle.std.specs.Prelude.{[], length, slice_index, slice_index_or, ℕ, ◌<◌, ◌≡◌};
ghost use Rattle.tile_border.specs.Works.{IsWholeInk};

use crate::edges::{BottomEdge, CornerEdge, RightEdge};
use dot_planes::TileBits;

// An ink of a tile's edges and dots has all its errors and bytes.
pub(crate) fn ink_is_whole(
    ink: u8,
    side: &RightEdge,
    bottom: &BottomEdge,
    corner: &CornerEdge,
    bits: &TileBits,
)
    requires side { ink < length side.now }
    requires bottom { ink < length bottom.now }
    requires corner { ink < length corner.now }
    requires bits { ink < length bits.now }
    ensures { IsWholeInk ink (record { side = side.now; bottom = bottom.now; corner = corner.now; bits = bits.now }) }
{
    are_errors(side.ink(ink));
    are_errors(bottom.ink(ink));
    are_errors(corner.ink(ink));
    dots_are_whole(bits, ink);
}

// An ink of a tile's dots has 256 values, and each is a byte.
fn dots_are_whole(bits: &TileBits, ink: u8)
    requires { ink < length bits.now }
    ensures long { length (slice_index_or bits.now ink []) ≡ 256 }
    ensures bytes { (n : ℕ) → slice_index (slice_index_or bits.now ink []) n < 256 }
{
    let bytes = bits.ink(ink);
    are_dots(bytes);
    are_bytes(bytes);
}

// The array has its length.
fn are_errors<const N: usize>(errors: &[i16; N])
    ensures { length errors.now ≡ N }
{
    let _ = errors;
}

// The array has its length.
fn are_dots(dots: &[u8; 256])
    ensures { length dots.now ≡ 256 }
{
    let _ = dots;
}

// Each value is below 256.
fn are_bytes(bytes: &[u8])
    ensures { (n : ℕ) → slice_index bytes.now n < 256 }
{
    let _ = bytes.len();
}
