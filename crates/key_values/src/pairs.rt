//! Texts cut in two.
ghost use Rattle.key_values.specs.Pairs.{IsCut, is_key_value, key_of as key_in, value_of as value_in};
ghost use Rattle.std.specs.List.{position};
ghost use Rattle.std.specs.Option.{option_map};
ghost use Rattle.std.specs.Prelude.{MatchOption, false, true, ◌==◌, ◌≡◌};

fn place_of(byte: u8, text: &[u8]) -> Option<usize>
    ensures { result ≡ position (λ b. b == byte) text.now }
{
    text.iter().position(|b| *b == byte)
}

/// The text before the first such byte and the text after it, or `None` if there is no such byte.
pub fn cut_at(byte: u8, text: &[u8]) -> Option<(&[u8], &[u8])>
    ensures { IsCut (λ b. b == byte) text.now
        (option_map (λ parts. (parts.0.now, parts.1.now)) result) }
{
    match place_of(byte, text) {
        Some(place) => Some((&text[..place], &text[place + 1..])),
        None => None,
    }
}

/// The key and the value of a word, cut at its first `=`, or `None` if it has no `=`.
pub fn cut_word(word: &str) -> Option<(&str, &str)>
    ensures { MatchOption result (is_key_value word.now ≡ false) (λ parts. (is_key_value word.now ≡ true)
        × (parts.0.now ≡ key_in word.now) × (parts.1.now ≡ value_in word.now)) }
{
    word.split_once('=')
}

/// The key of a word, or the whole word if it has no `=`.
pub fn key_of(word: &str) -> &str
    ensures { result.now ≡ key_in word.now }
{
    match cut_word(word) {
        Some((key, _)) => key,
        None => word,
    }
}

/// The value of a word. Empty if the word has no `=`.
pub fn value_of(word: &str) -> &str
    ensures { result.now ≡ value_in word.now }
{
    match cut_word(word) {
        Some((_, value)) => value,
        None => "",
    }
}
