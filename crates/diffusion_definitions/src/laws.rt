//! Laws of every plane. Rows of errors count from two above the plane: those of row y are at y + 2.
ghost use Rattle.diffusion_definitions.specs.Diffusion.{Errors, HasAmounts, InRange, Plane, Solves, Table, TopInRange};
ghost use Rattle.diffusion_definitions.specs.Diffusion.{cut, divisor, errors, on, rest, value_at, weighted_from};
ghost use Rattle.std.specs.Int.{int_div_euclid};
ghost use Rattle.std.specs.Prelude.{length, pos, ◌*◌, ◌+ℤ◌, ◌+◌, ◌-◌, ◌<◌, ◌≡◌, ◌≤◌, ℕ};

/// A pixel takes the error at (x - dx, y - dy) by the share at (dx, dy), where dx is i + 1 in the row `right` of a
/// table and i - 2 in the two rows below. Columns of errors count from four left of the plane: that of x is at x + 4.
pub fn each_share_comes_from_its_place()
    ensures { (k : Table) (p : Plane) (e : Errors) (y x : ℕ)
        → length k.right ≤ 2 → length k.below ≤ 5 → length k.below2 ≤ 5
        → value_at k p e y x ≡ pos (16 * p.amount y x) +ℤ int_div_euclid
        (weighted_from 0 k.right (λ i. e (y + 2) (x + 3 - i))
        +ℤ (weighted_from 0 k.below (λ i. e (y + 1) (x + 6 - i)) +ℤ weighted_from 0 k.below2 (λ i. e y (x + 6 - i))))
        (pos (divisor k)) }
{}

/// The errors of the definition solve the rule at each pixel, and above the plane they are those of the top.
#[tactic(auto, using(crate::proofs::Solve::errors_solve))]
pub fn errors_solve_the_rule()
    ensures solve { (k : Table) (p : Plane) (top : Errors) → Solves k p (errors k p top) }
    ensures top { (k : Table) (p : Plane) (top : Errors) (n : ℕ)
        → (errors k p top 0 n ≡ top 0 n) × (errors k p top 1 n ≡ top 1 n) }
{}

/// The rule has one solution below a top.
pub fn the_rule_has_one_solution()
    ensures { (k : Table) (p : Plane) (e f : Errors) → Solves k p e → Solves k p f
        → ((n : ℕ) → e 0 n ≡ f 0 n) → ((n : ℕ) → e 1 n ≡ f 1 n)
        → (y n : ℕ) → e y n ≡ f y n }
{}

/// The rows of a plane from row s on are diffused as a plane of their own, below the errors of the two rows above row
/// s.
#[tactic(auto, using(crate::proofs::Slab::slab))]
pub fn rest_below_two_rows()
    ensures { (k : Table) (p : Plane) (top : Errors) (s y : ℕ)
        → errors k (rest s p) (λ t. errors k p top (s + t)) y ≡ errors k p top (s + y) }
{}

/// If the errors of the rows from row s on are those of the whole plane, so are their dots.
#[tactic(auto, using(crate::proofs::SlabDots::slab_dots))]
pub fn dots_of_the_rest()
    ensures { (k : Table) (p : Plane) (e f : Errors) (s : ℕ) → ((y n : ℕ) → f y n ≡ e (s + y) n)
        → (y x : ℕ) → on k (rest s p) f y x ≡ on k p e (s + y) x }
{}

/// The errors of the first h rows do not depend on the rows below.
#[tactic(auto, using(crate::proofs::Slab::first_rows))]
pub fn first_rows()
    ensures { (k : Table) (p : Plane) (top : Errors) (h : ℕ) → h ≤ p.height
        → (y : ℕ) → y < h + 2 → errors k (cut h p) top y ≡ errors k p top y }
{}

/// The dots of the first h rows do not depend on the rows below.
#[tactic(auto, using(crate::proofs::SlabDots::first_dots))]
pub fn dots_of_the_first_rows()
    ensures { (k : Table) (p : Plane) (e f : Errors) (h : ℕ) → h ≤ p.height → ((y n : ℕ) → y < h + 2 → f y n ≡ e y n)
        → (y x : ℕ) → y < h → on k (cut h p) f y x ≡ on k p e y x }
{}

/// Errors stay in range below a top in range, by any table that has a share above 0.
pub fn errors_stay_in_range()
    ensures { (k : Table) (p : Plane) (top : Errors) → 0 < divisor k → HasAmounts p → TopInRange top
        → (y n : ℕ) → InRange (errors k p top y n) }
{}
