//! Common divisors of two numbers.
ghost use Rattle.std.specs.Int.{IsGcd};

/// The greatest common divisor, by Euclid's algorithm; 0 for two zeros.
pub fn greatest_common_divisor(first: u8, second: u8) -> u8
    ensures { IsGcd first second result }
{
    let mut larger = first;
    let mut smaller = second;
    while smaller != 0 {
        let rest = larger % smaller;
        larger = smaller;
        smaller = rest;
    }
    larger
}
