//! Reading the words of the spool.
ghost use Rattle.job_words.specs.Meaning.{refused};
ghost use Rattle.spool_words.specs.Meaning.{faults_on, profile_named, request_of, sender_count, spool_meaning};
ghost use Rattle.spool_words.specs.Meaning.{word_fault};
ghost use Rattle.std.specs.Prelude.{IfErr, Ok, OnOk, Some, [], length, slice_get, take, ◌≡◌, ◌≤◌};

use crate::faults::{SpoolCause, SpoolFault};
use crate::given::{count_before, profile_word, value_given};
use crate::keys::KeyName;
use crate::values::{grain_value, kernel_named, worker_count};
use diffusion_kernel::Kernel;
use job_words::DEFAULT_PROFILE;
use key_values::{cut_word, value_of};
use weave_base::Words;

/// What the words of the spool ask for, besides the names of files.
#[derive(Clone, Copy, Debug, PartialEq, Eq)]
pub struct SpoolRequest {
    /// The number of the word `profile=..`, counted from 1; 0 if no word gives a profile, and the built-in profile is
    /// meant.
    pub profile_word: u32,
    /// The kernel of error diffusion.
    pub kernel: Kernel,
    /// How much grain is applied to amounts: 0 to 32.
    pub grain: u8,
    /// How many workers: 1 to 64.
    pub workers: u8,
    /// How many senders: 1 to 8, one for each word `send=..`.
    pub senders: u8,
}

// Why a word is refused, if it is, where the words before this place stand before it.
fn refusal(words: &Words, place: u32, word: &str) -> Option<SpoolCause>
    requires { place ≤ length words.now }
    ensures { result ≡ word_fault (take place words.now) word.now }
{
    let Some((name, value)) = cut_word(word) else {
        return Some(SpoolCause::NotKeyValue);
    };
    let Some(key) = KeyName::named(name) else {
        return Some(SpoolCause::UnknownKey);
    };
    if count_before(place, words, key) >= key.most() {
        Some(key.excess())
    } else if !key.takes(value) {
        Some(SpoolCause::BadValue)
    } else {
        None
    }
}

// Refuses the first bad word.
fn check_words(words: &Words) -> Result<(), SpoolFault>
    ensures accepted { OnOk result (refused faults_on words.now [] ≡ []) }
    ensures fault { IfErr result (λ fault. slice_get (refused faults_on words.now []) 0 ≡ Some fault) }
{
    for i in 0..words.len() {
        if let Some(cause) = refusal(words, i, words.get(i)) {
            return Err(SpoolFault { word: i + 1, cause });
        }
    }
    Ok(())
}

// The request of accepted words: for each key its value, or its default.
fn request_given(words: &Words, senders: u8) -> SpoolRequest
    requires { senders ≡ sender_count words.now }
    ensures { result ≡ request_of words.now }
{
    SpoolRequest {
        profile_word: profile_word(words),
        kernel: value_given(words, KeyName::Kernel)
            .and_then(kernel_named)
            .unwrap_or(Kernel::Floyd),
        grain: value_given(words, KeyName::Grain)
            .and_then(grain_value)
            .unwrap_or(0),
        workers: value_given(words, KeyName::Workers)
            .and_then(worker_count)
            .unwrap_or(1),
        senders,
    }
}

/// Reads the words of the spool. The words are `key=value` in any order, and are counted from 1. The keys are
/// `profile`, `kernel`, `grain` and `workers`, each once at most, and `send` for each sender, up to eight times.
/// Returns the request, or the first refused word with its first cause in the order of `SpoolCause`. If no word is
/// refused and none gives a sender, returns `NoSend` at the number after the last word.
pub fn read_spool_words(words: &Words) -> Result<SpoolRequest, SpoolFault>
    ensures { result ≡ spool_meaning words.now }
{
    check_words(words)?;
    let senders = count_before(words.len(), words, KeyName::Send);
    if senders == 0 {
        return Err(SpoolFault {
            word: words.len() + 1,
            cause: SpoolCause::NoSend,
        });
    }
    Ok(request_given(words, senders as u8))
}

/// The name of the profile, of 1 to 255 bytes. If no word gives a profile, the name is `p360cmyk`, a built-in profile.
/// The request must be the one that was read from these words.
pub fn profile_name<'a>(words: &'a Words, request: &SpoolRequest) -> &'a str
    requires { spool_meaning words.now ≡ Ok request.now }
    ensures { result.now ≡ profile_named words.now }
{
    if request.profile_word == 0 {
        return DEFAULT_PROFILE;
    }
    value_of(words.get(request.profile_word - 1))
}
