//! The laws of strokes, each the contract of an empty function.
ghost use Rattle.dead_nozzles.specs.Dead.{has};
ghost use Rattle.dead_nozzles.specs.Examples.{first_is_dead, last_is_dead, one_is_live, three_nozzles};
ghost use Rattle.dead_nozzles.specs.Strokes.{AreLive, FiresEachOnce, Head, IsHead, StartsRise, all_strokes, head_span, make_up_strokes, missing};
ghost use Rattle.std.specs.List.{AllByRecursion};
ghost use Rattle.std.specs.Prelude.{[], Some, length, nat_lt, ℕ, ◌+◌, ◌<◌, ◌≡◌, ◌≤◌, ◌∷◌};
ghost use Rattle.weave_definitions.specs.Weave.{nozzle_row, pass_count};

/// Regular and make-up strokes fire each row of the window exactly once, and no other row.
pub fn each_row_is_fired_once()
    ensures { (h : Head) → IsHead h → FiresEachOnce (λ row. nat_lt row h.height) (all_strokes h) }
{}

/// The make-up strokes fire each missing row exactly once, and no other row.
pub fn missing_rows_are_made_up()
    ensures { (h : Head) → IsHead h → FiresEachOnce (has (missing h)) (make_up_strokes h) }
{}

/// A row is missing exactly if the nozzle that fires it in the weave is dead.
pub fn rows_of_dead_nozzles_are_missing()
    ensures { (h : Head) → IsHead h → (pass nozzle row : ℕ) → nozzle < h.nozzles
        → nozzle_row h.nozzles h.pitch h.height pass nozzle ≡ Some row → has (missing h) row ≡ has h.dead nozzle }
{}

/// Each row is fired by a live nozzle that is over it.
pub fn live_nozzles_fire()
    ensures { (h : Head) → IsHead h → AreLive h (all_strokes h) }
{}

/// Each stroke starts below the one before it, so no two strokes start at one place.
pub fn starts_rise()
    ensures { (h : Head) → IsHead h → StartsRise (all_strokes h) }
{}

/// Each stroke starts above the end of the window.
pub fn strokes_start_above_the_end()
    ensures { (h : Head) → IsHead h → AllByRecursion (λ s. s.start < head_span h + h.height) (all_strokes h) }
{}

/// There are at most as many strokes as passes of the weave and missing rows together, and at most as many missing rows
/// as rows.
pub fn strokes_are_few()
    ensures strokes { (h : Head) → IsHead h
        → length (all_strokes h) ≤ pass_count h.nozzles h.pitch h.height + length (missing h) }
    ensures rows { (h : Head) → length (missing h) ≤ h.height }
{}

/// The worked strokes are those of three nozzles of which the last, the first, or all but the last are dead.
pub fn strokes_are_worked()
    ensures last { all_strokes (three_nozzles (2 ∷ [])) ≡ last_is_dead }
    ensures first { all_strokes (three_nozzles (0 ∷ [])) ≡ first_is_dead }
    ensures one { all_strokes (three_nozzles (0 ∷ 1 ∷ [])) ≡ one_is_live }
{}
