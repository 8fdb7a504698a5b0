//! The law, and worked heads that the checker computes, each the contract of an empty function.
ghost use Rattle.shingle_plan.specs.Examples.{one_row, six_rows, two_rows};
ghost use Rattle.shingle_plan.specs.Fits.{Shingles};
ghost use Rattle.shingle_plan.specs.Shingles.{FiresEachRowTwice, half, rows_above, shingle_count, shingles};
ghost use Rattle.std.specs.Prelude.{ℕ, ◌≡◌};

/// If half the nozzles, at least one, and the pitch are coprime, the passes of a head fire each row of a window once at
/// its even columns and once at its odd columns, and no other row.
pub fn each_row_is_fired_twice()
    ensures { (nozzles pitch height : ℕ) → Shingles nozzles pitch
        → FiresEachRowTwice (half nozzles) height (shingles nozzles pitch height) }
{}

/// Three nozzles two rows apart take eight passes over six rows.
pub fn three_nozzles_are_worked()
    ensures half { half 3 ≡ 1 }
    ensures above { rows_above 3 2 ≡ 2 }
    ensures passes { shingle_count 3 2 6 ≡ 8 }
    ensures firings { shingles 3 2 6 ≡ six_rows }
{}

/// Two nozzles three rows apart take four passes over one row.
pub fn two_nozzles_are_worked()
    ensures above { rows_above 2 3 ≡ 3 }
    ensures passes { shingle_count 2 3 1 ≡ 4 }
    ensures firings { shingles 2 3 1 ≡ one_row }
{}

/// Five nozzles three rows apart take six passes over two rows.
pub fn five_nozzles_are_worked()
    ensures half { half 5 ≡ 2 }
    ensures above { rows_above 5 3 ≡ 9 }
    ensures passes { shingle_count 5 3 2 ≡ 6 }
    ensures firings { shingles 5 3 2 ≡ two_rows }
{}
