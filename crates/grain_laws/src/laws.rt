//! The laws of the grain.
ghost use Rattle.diffusion_definitions.specs.Diffusion.{Table, errors, no_top, on};
ghost use Rattle.grain_laws.specs.Times.{times_along};
ghost use Rattle.page_definitions.specs.Dots.{halftone};
ghost use Rattle.printer_definitions.specs.Printer.{Printer};
ghost use Rattle.printer_definitions.specs.declared.inks.Ink.{Ink};
ghost use Rattle.pwg_definitions.specs.Stream.{Page};
ghost use Rattle.separation_definitions.specs.Amounts.{ink_plane};
ghost use Rattle.separation_definitions.specs.Grain.{grained, grained_plane, reach};
ghost use Rattle.std.specs.Prelude.{ℕ, ◌*◌, ◌+◌, ◌-◌, ◌/◌, ◌<◌, ◌≡◌, ◌≤◌, ◌⊎◌};

/// Without grain the amounts of a page are those of its pixels.
pub fn no_grain_moves_no_amount()
    ensures { (page : Page) (p : Printer) (ink : Ink) → grained_plane page p 0 ink ≡ ink_plane page p ink }
{}

/// Without grain the dots of a page are those that diffusion sets for the amounts of its pixels.
pub fn no_grain_changes_no_dot()
    ensures { (page : Page) (p : Printer) (table : Table) (ink : Ink) (y x : ℕ)
        → (halftone page p (record { table = table; grain = 0 })).dot ink y x
        ≡ on table (ink_plane page p ink) (errors table (ink_plane page p ink) no_top) y x }
{}

/// White and full ink stay, whatever the grain.
pub fn ends_stay()
    ensures white { (grain limit place : ℕ) → place < 65536 → grained grain limit place 0 ≡ 0 }
    ensures full { (grain limit place : ℕ) → place < 65536 → grained grain limit place limit ≡ limit }
{}

/// An amount within the limit stays within it, and moves by at most the grain.
pub fn amounts_stay_near()
    ensures limit { (grain limit place a : ℕ) → place < 65536 → a ≤ limit → grained grain limit place a ≤ limit }
    ensures up { (grain limit place a : ℕ) → place < 65536 → grained grain limit place a ≤ a + grain }
    ensures down { (grain limit place a : ℕ) → place < 65536 → a ≤ grained grain limit place a + grain }
{}

/// The mean is kept: along 65,536 columns of a row each amount that is at most `reach` from a given amount replaces it
/// equally often, or once more.
pub fn mean_is_kept()
    ensures { (grain limit a x y : ℕ) (ink : Ink) (step : ℕ) → step ≤ 2 * reach grain limit a
        → let shares = 65536 / (2 * reach grain limit a + 1) in
        let times = times_along ink x y grain limit a (a + step - reach grain limit a) in
        (times ≡ shares) ⊎ (times ≡ shares + 1) }
{}
