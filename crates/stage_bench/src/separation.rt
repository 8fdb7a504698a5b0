//! A band of tiles as wide as A4 at 360 dots an inch, separated again and again.
ghost use Rattle.printer_profile.specs.Validity.{check};
ghost use Rattle.std.specs.Prelude.{IsOk};

use crate::lines::separate_band;
use dot_planes::{TILE_BYTES, TileAmounts};
use ink_separation::Separator;
use printer_profile::Profile;
use pwg_definitions::Kind;
use separation_definitions::Window;
use std::time::Instant;

// The columns of A4 at 360 dots an inch inside margins of 45.
const WINDOW: Window = Window {
    left: 45,
    top: 0,
    width: 2886,
    height: 1,
};

// How often the band, which has 45 tiles, is separated in a run.
const BANDS: u32 = 8;

// How many runs there are; the least time counts.
const RUNS: u32 = 100;

/// The kind of pixel that `bench/make_page.py` gives this name.
pub fn kind_named(name: &str) -> Option<Kind> {
    match name {
        "separate-gray" => Some(Kind::Gray8),
        "separate-black" => Some(Kind::Black8),
        "separate-rgb" => Some(Kind::Rgb8),
        "separate-black1" => Some(Kind::Black1),
        "separate-cmyk" => Some(Kind::Cmyk8),
        _ => None,
    }
}

/// The fewest nanoseconds that eight bands of tiles of pseudo-random bytes took to separate. `None` if there is no
/// clock.
pub fn time_separation(rt: &HostRuntime, profile: &Profile, kind: Kind) -> Option<u128>
    requires { IsOk (check profile.now) }
{
    let separator = Separator::make(profile, kind, WINDOW);
    let columns = mixed_bytes();
    let mut amounts = TileAmounts::zero();
    let mut least = u128::MAX;
    for _ in 0..RUNS {
        let start = Instant::now(rt).ok()?;
        separate_bands(&separator, &columns, &mut amounts);
        least = least.min(start.elapsed(rt).ok()?.as_nanos());
    }
    Some(least)
}

// Separates the band as often as in a run.
fn separate_bands(separator: &Separator, columns: &[u8; TILE_BYTES], amounts: &mut TileAmounts) {
    for _ in 0..BANDS {
        separate_band(separator, columns, amounts);
    }
}

// Pseudo-random bytes.
fn mixed_bytes() -> [u8; TILE_BYTES] {
    let mut bytes = [0; TILE_BYTES];
    let mut seed = 1u32;
    for byte in &mut bytes {
        seed = seed.wrapping_mul(1_664_525).wrapping_add(1_013_904_223);
        *byte = (seed >> 24) as u8;
    }
    bytes
}
