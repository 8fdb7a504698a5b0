//! What words give.
ghost use Rattle.finish_words.specs.Meaning.{flag_of, given_stop_word};
ghost use Rattle.finish_words.specs.Rows.{key_row};
ghost use Rattle.job_words.specs.Meaning.{given, gives as gives_of};
ghost use Rattle.std.specs.List.{list_any};
ghost use Rattle.std.specs.Option.{option_map};
ghost use Rattle.std.specs.Prelude.{length, take, unwrap_or, ◌≡◌, ◌≤◌};

use crate::keys::KeyName;
use crate::values::flag_value;
use key_values::{key_of, value_of};
use weave_base::Words;

// Whether a word gives this key.
fn gives(key: KeyName, word: &str) -> bool
    ensures { result ≡ gives_of (key_row key) word.now }
{
    key_of(word) == key.name()
}

/// Whether a word before this place gives the key.
pub fn is_given_before(place: u32, words: &Words, key: KeyName) -> bool
    requires { place ≤ length words.now }
    ensures { result ≡ list_any (gives_of (key_row key)) (take place words.now) }
{
    for i in 0..place {
        if gives(key, words.get(i)) {
            return true;
        }
    }
    false
}

// The value that the words give the key.
fn value_given(words: &Words, key: KeyName) -> Option<&str>
    ensures { option_map (λ value. value.now) result ≡ given (key_row key) words.now }
{
    for i in 0..words.len() {
        let word = words.get(i);
        if gives(key, word) {
            return Some(value_of(word));
        }
    }
    None
}

/// Whether the words set the key to 1.
pub fn is_set(words: &Words, key: KeyName) -> bool
    ensures { result ≡ flag_of (key_row key) words.now }
{
    value_given(words, key)
        .and_then(flag_value)
        .unwrap_or(false)
}

/// The number of the first word that gives the name of the text that stops the run, counted from 1; 0 where none does.
pub fn stop_word(words: &Words) -> u32
    ensures { result ≡ unwrap_or (given_stop_word words.now) 0 }
{
    for i in 0..words.len() {
        if gives(KeyName::Stop, words.get(i)) {
            return i + 1;
        }
    }
    0
}
