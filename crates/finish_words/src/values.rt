//! The values of keys.
ghost use Rattle.job_words.specs.Values.{shingle_value};
ghost use Rattle.std.specs.Prelude.{length, nat_le, ◌&&◌, ◌≡◌};

use job_words::MOST_NAME;

/// Whether a text may be the name of a text: 1 to 255 bytes.
pub fn is_name(text: &str) -> bool
    ensures { result ≡ (nat_le 1 (length text.now) && nat_le (length text.now) 255) }
{
    1 <= text.len() && text.len() <= MOST_NAME
}

/// Whether a flag is set: `0` or `1`.
pub fn flag_value(text: &str) -> Option<bool>
    ensures { result ≡ shingle_value text.now }
{
    match text {
        "0" => Some(false),
        "1" => Some(true),
        _ => None,
    }
}
