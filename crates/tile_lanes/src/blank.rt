//! Tiles with nothing to diffuse.
ghost use Rattle.diffusion_definitions.specs.Diffusion.{EachInRange};
ghost use Rattle.std.specs.Prelude.{true, ◌<◌, ◌≡◌, ◌↔◌};
ghost use Rattle.tile_lanes.specs.Blank.{AreBlankOffsets, AreZero, HandsNothing, IsBlank};

// Whether four offsets of a tile have no amount.
#[inline(always)]
fn are_blank_offsets(tile: &[u8; 2048], four: usize) -> bool
    requires { four < 16 }
    ensures { (result ≡ true) ↔ AreBlankOffsets tile.now four }
{
    let mut any = 0;
    for i in 0..128 {
        any |= tile[128 * four + i];
    }
    any == 0
}

// Whether all errors of an edge are 0.
#[inline(always)]
fn are_zero(errors: &[i16]) -> bool
    requires { EachInRange errors.now }
    ensures { (result ≡ true) ↔ AreZero errors.now }
{
    let mut any = 0;
    for error in errors {
        any |= *error;
    }
    any == 0
}

/// Whether a tile has no amount. Most tiles with ink have some at their first offsets, which ends the look.
pub(crate) fn is_blank(tile: &[u8; 2048]) -> bool
    ensures { (result ≡ true) ↔ IsBlank tile.now }
{
    for four in 0..16 {
        if !are_blank_offsets(tile, four) {
            return false;
        }
    }
    true
}

/// Whether all errors that a tile is handed are 0.
pub(crate) fn hands_nothing(side: &[i16; 192], bottom: &[i16; 128], corner: &[i16; 12]) -> bool
    requires side_fits { EachInRange side.now }
    requires bottom_fits { EachInRange bottom.now }
    requires corner_fits { EachInRange corner.now }
    ensures { (result ≡ true) ↔ HandsNothing side.now bottom.now corner.now }
{
    are_zero(side) && are_zero(bottom) && are_zero(corner)
}
