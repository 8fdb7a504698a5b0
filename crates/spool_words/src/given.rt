//! What words give.
ghost use Rattle.job_words.specs.Meaning.{given, gives as gives_of};
ghost use Rattle.spool_words.specs.Meaning.{given_profile_word};
ghost use Rattle.spool_words.specs.Rows.{key_row};
ghost use Rattle.std.specs.Option.{option_map};
ghost use Rattle.std.specs.Prelude.{count_by, length, take, unwrap_or, ◌≡◌, ◌≤◌};

use crate::keys::KeyName;
use key_values::{key_of, value_of};
use weave_base::Words;

/// Whether a word gives this key.
pub fn gives(key: KeyName, word: &str) -> bool
    ensures { result ≡ gives_of (key_row key).row word.now }
{
    key_of(word) == key.name()
}

/// How many words before this place give the key.
pub fn count_before(place: u32, words: &Words, key: KeyName) -> u32
    requires { place ≤ length words.now }
    ensures { result ≡ count_by (gives_of (key_row key).row) (take place words.now) }
{
    let mut count = 0;
    for i in 0..place {
        if gives(key, words.get(i)) {
            count += 1;
        }
    }
    count
}

/// The number of the first word that gives the profile, counted from 1; 0 if none does.
pub fn profile_word(words: &Words) -> u32
    ensures { result ≡ unwrap_or (given_profile_word words.now) 0 }
{
    for i in 0..words.len() {
        if gives(KeyName::Profile, words.get(i)) {
            return i + 1;
        }
    }
    0
}

/// The value that the words give the key.
pub fn value_given(words: &Words, key: KeyName) -> Option<&str>
    ensures { option_map (λ value. value.now) result ≡ given (key_row key).row words.now }
{
    for i in 0..words.len() {
        let word = words.get(i);
        if gives(key, word) {
            return Some(value_of(word));
        }
    }
    None
}
