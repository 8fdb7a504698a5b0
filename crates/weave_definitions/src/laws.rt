//! The law of interleaved passes, the contract of an empty function.
ghost use Rattle.std.specs.Int.{IsGcd};
ghost use Rattle.std.specs.Prelude.{ℕ, ◌≤◌};
ghost use Rattle.weave_definitions.specs.Weave.{FiresEachRowOnce, passes};

/// If the number of nozzles and the pitch are coprime, the passes of a head fire each row of a window once, and no
/// other row.
pub fn each_row_is_fired_once()
    ensures { (nozzles pitch height : ℕ) → 1 ≤ nozzles → 1 ≤ pitch → IsGcd nozzles pitch 1
        → FiresEachRowOnce height (passes nozzles pitch height) }
{}
