//! The inverse of the pitch modulo the number of nozzles.
ghost use Rattle.std.specs.Int.{IsGcd};
ghost use Rattle.std.specs.Prelude.{◌%◌, ◌*◌, ◌<◌, ◌≡◌, ◌≤◌};

/// The number whose product with the pitch is 1 modulo the number of nozzles.
pub(crate) fn inverse_of(pitch: u8, nozzles: u8) -> u8
    requires some_nozzles { 1 ≤ nozzles }
    requires some_pitch { 1 ≤ pitch }
    requires coprime { IsGcd nozzles pitch 1 }
    ensures low { result < nozzles }
    ensures inverse { result * pitch % nozzles ≡ 1 % nozzles }
{
    let round = u32::from(nozzles);
    for inverse in 0..nozzles {
        if u32::from(inverse) * u32::from(pitch) % round == 1 % round {
            return inverse;
        }
    }
    unreachable!()
}
