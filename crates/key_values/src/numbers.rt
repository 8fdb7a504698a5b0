//! Numbers within bounds.
ghost use Rattle.key_values.specs.Numbers.{has_leading_zero as has_leading_zero_of, number_within as number_of};
ghost use Rattle.std.specs.Prelude.{IfSome, ◌≡◌, ◌≤◌};

fn has_leading_zero(text: &[u8]) -> bool
    ensures { result ≡ has_leading_zero_of text.now }
{
    text.len() > 1 && text[0] == b'0'
}

/// The number that a text spells in decimal digits, without a sign, a blank or a leading zero. `None` if the text
/// spells no such number, or a number out of bounds. A number too long for any type is out of bounds.
pub fn number_within(low: u64, high: u64, text: &[u8]) -> Option<u64>
    ensures number { result ≡ number_of low high text.now }
    ensures most { IfSome result (λ number. number ≤ high) }
{
    if text.is_empty() || has_leading_zero(text) {
        return None;
    }
    let most = u128::from(high);
    let mut number = 0u128;
    'digits: for byte in text {
        if !byte.is_ascii_digit() {
            return None;
        }
        number = number * 10 + u128::from(*byte - b'0');
        if number > most {
            return None;
        }
    }
    let number = number as u64;
    if number < low {
        return None;
    }
    Some(number)
}
