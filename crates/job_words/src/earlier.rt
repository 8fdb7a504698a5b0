//! The values that words give, and the earlier words that repeat or exclude a word.
ghost use Rattle.job_words.specs.Meaning.{asks_for_shingles, excludes as excludes_of, given, given_profile_word};
ghost use Rattle.job_words.specs.Meaning.{gives as gives_of};
ghost use Rattle.job_words.specs.Rows.{key_row};
ghost use Rattle.std.specs.List.{list_any};
ghost use Rattle.std.specs.Option.{option_map};
ghost use Rattle.std.specs.Prelude.{drop, length, take, unwrap_or, ◌-◌, ◌≡◌, ◌≤◌};

use crate::keys::JobKey;
use key_values::{key_of, value_of};
use weave_base::Words;

// Whether a word gives this key.
fn gives(key: JobKey, word: &str) -> bool
    ensures { result ≡ gives_of (key_row key) word.now }
{
    key_of(word) == key.name()
}

// Whether a word asks for shingled passes.
fn is_shingled(word: &str) -> bool
    ensures { result ≡ asks_for_shingles word.now }
{
    gives(JobKey::Shingle, word) && value_of(word) == "1"
}

// Whether two words exclude each other.
fn excludes(word: &str, other: &str) -> bool
    ensures { result ≡ excludes_of word.now other.now }
{
    is_shingled(word) && gives(JobKey::Dead, other)
        || gives(JobKey::Dead, word) && is_shingled(other)
}

/// Whether a word between the command and this place gives the key.
pub fn is_given_before(place: u32, words: &Words, key: JobKey) -> bool
    requires some { 1 ≤ place }
    requires within { place ≤ length words.now }
    ensures { result ≡ list_any (gives_of (key_row key)) (take (place - 1) (drop 1 words.now)) }
{
    for i in 1..place {
        if gives(key, words.get(i)) {
            return true;
        }
    }
    false
}

/// Whether a word between the command and this place excludes the word.
pub fn is_excluded_before(place: u32, words: &Words, word: &str) -> bool
    requires some { 1 ≤ place }
    requires within { place ≤ length words.now }
    ensures { result ≡ list_any (excludes_of word.now) (take (place - 1) (drop 1 words.now)) }
{
    for i in 1..place {
        if excludes(word, words.get(i)) {
            return true;
        }
    }
    false
}

/// The number of the first word after the command that gives the profile, counted from 1, or 0 if no word gives it.
pub fn profile_word(words: &Words) -> u32
    ensures { result ≡ unwrap_or (given_profile_word (drop 1 words.now)) 0 }
{
    for i in 1..words.len() {
        if gives(JobKey::Profile, words.get(i)) {
            return i + 1;
        }
    }
    0
}

/// The value that the words after the command give the key.
pub fn value_given(words: &Words, key: JobKey) -> Option<&str>
    ensures { option_map (λ value. value.now) result ≡ given (key_row key) (drop 1 words.now) }
{
    for i in 1..words.len() {
        let word = words.get(i);
        if gives(key, word) {
            return Some(value_of(word));
        }
    }
    None
}
