//! The law of the canonical spelling. Its function has no code: it is a contract with its proof.
ghost use Rattle.pwg_lines.specs.Canonical.{canonical};
ghost use Rattle.std.specs.Prelude.{List, length, ℕ, ◌*◌, ◌≡◌, ◌≤◌};
ghost use Rattle.pwg_definitions.specs.Groups.{SpellsGroup};
ghost use Rattle.pwg_definitions.specs.Header.{KindRow};
ghost use Rattle.pwg_definitions.specs.Limits.{most_repeats};

/// The canonical bytes of a group spell the group.
pub fn canonical_spells()
    ensures { (row : KindRow) (units left repeats : ℕ) (line : List ℕ) → 1 ≤ row.unit → length line ≡ units * row.unit
        → 1 ≤ repeats → repeats ≤ most_repeats → repeats ≤ left
        → SpellsGroup row units left (canonical row.unit repeats line) repeats line }
{}
