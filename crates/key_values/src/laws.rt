//! A law of numbers: the function does nothing; its contract is the law.
ghost use Rattle.key_values.specs.Numbers.{number_within};
ghost use Rattle.std.specs.Fmt.{decimal};
ghost use Rattle.std.specs.Prelude.{Some, ℕ, ◌<◌, ◌^◌, ◌≡◌, ◌≤◌};

/// A number written in decimal is read back within any bounds that include it.
pub fn written_number_is_read()
    ensures { (low high n : ℕ) → low ≤ n → n ≤ high → high < 2 ^ 64 → number_within low high (decimal n) ≡ Some n }
{}
