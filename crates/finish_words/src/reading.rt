//! Reading the words of the finisher.
ghost use Rattle.finish_words.specs.Keys.{key_table};
ghost use Rattle.finish_words.specs.Meaning.{faults_on, finish_meaning, request_of, stop_named};
ghost use Rattle.job_words.specs.Meaning.{refused, word_fault};
ghost use Rattle.std.specs.Option.{option_map};
ghost use Rattle.std.specs.Prelude.{IfErr, Ok, OnOk, Some, [], length, slice_get, take, ◌≡◌, ◌≤◌};

use crate::given::{is_given_before, is_set, stop_word};
use crate::keys::KeyName;
use job_words::{UsageCause, UsageFault};
use key_values::{cut_word, value_of};
use weave_base::Words;

/// What the words of the finisher ask for, besides the name of a text.
#[derive(Clone, Copy, Debug, PartialEq, Eq)]
pub struct FinishRequest {
    /// Whether a line tells each whole page.
    pub pages: bool,
    /// Whether a line tells each tenth of a page.
    pub progress: bool,
    /// The number of the word `stop=..`, counted from 1; 0 where no word gives the name of a text.
    pub stop_word: u32,
}

// Why a word is refused, if it is, where the words before this place stand before it.
fn refusal(words: &Words, place: u32, word: &str) -> Option<UsageCause>
    requires { place ≤ length words.now }
    ensures { result ≡ word_fault key_table (take place words.now) word.now }
{
    let Some((name, value)) = cut_word(word) else {
        return Some(UsageCause::NotKeyValue);
    };
    let Some(key) = KeyName::named(name) else {
        return Some(UsageCause::UnknownKey);
    };
    if is_given_before(place, words, key) {
        Some(UsageCause::RepeatedKey)
    } else if !key.takes(value) {
        Some(UsageCause::BadValue)
    } else {
        None
    }
}

// Refuses the first bad word.
fn check_words(words: &Words) -> Result<(), UsageFault>
    ensures accepted { OnOk result (refused faults_on words.now [] ≡ []) }
    ensures fault { IfErr result (λ fault. slice_get (refused faults_on words.now []) 0 ≡ Some fault) }
{
    for i in 0..words.len() {
        if let Some(cause) = refusal(words, i, words.get(i)) {
            return Err(UsageFault { word: i + 1, cause });
        }
    }
    Ok(())
}

/// Reads the words of the finisher, which are `key=value` in any order, and are counted from 1. The keys are `pages`,
/// `progress` and `stop`, each once at most. The answer is the request, or the first refused word with its first cause
/// in the order `NotKeyValue`, `UnknownKey`, `RepeatedKey`, `BadValue`.
pub fn read_finish_words(words: &Words) -> Result<FinishRequest, UsageFault>
    ensures { result ≡ finish_meaning words.now }
{
    check_words(words)?;
    Ok(FinishRequest {
        pages: is_set(words, KeyName::Pages),
        progress: is_set(words, KeyName::Progress),
        stop_word: stop_word(words),
    })
}

/// The name of the text that stops the run, of 1 to 255 bytes; `None` where no word gives it. The request must be the
/// one that was read from these words.
pub fn stop_name<'a>(words: &'a Words, request: &FinishRequest) -> Option<&'a str>
    requires { finish_meaning words.now ≡ Ok request.now }
    ensures { option_map (λ name. name.now) result ≡ stop_named words.now }
{
    if request.stop_word == 0 {
        return None;
    }
    Some(value_of(words.get(request.stop_word - 1)))
}
