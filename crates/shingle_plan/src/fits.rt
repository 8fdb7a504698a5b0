//! Which heads can shingle.
ghost use Rattle.shingle_plan.specs.Fits.{Shingles};
ghost use Rattle.std.specs.Prelude.{IsTrue, ◌↔◌};

use base_definitions::greatest_common_divisor;

/// Whether a head of `nozzles` nozzles that are `pitch` rows apart can shingle: half its nozzles and the pitch are at
/// least 1 and are coprime.
pub fn shingle_fits(nozzles: u8, pitch: u8) -> bool
    ensures { IsTrue result ↔ Shingles nozzles pitch }
{
    let half = nozzles / 2;
    half >= 1 && pitch >= 1 && greatest_common_divisor(half, pitch) == 1
}
