//! Reading the words of a command line.
ghost use Rattle.job_words.specs.DeadLists.{dead_value as dead_of};
ghost use Rattle.job_words.specs.Meaning.{faults_on, given_as, job_meaning, job_of, profile_named};
ghost use Rattle.job_words.specs.Meaning.{refused, word_fault};
ghost use Rattle.job_words.specs.Rows.{command_row};
ghost use Rattle.job_words.specs.Table.{dead_key};
ghost use Rattle.std.specs.Prelude.{IfErr, OnOk, [], drop, length, slice_get, take, unwrap_or};
ghost use Rattle.std.specs.Prelude.{◌-◌, ◌≡◌, ◌≤◌};

use crate::dead_lists::dead_value;
use crate::earlier::{is_excluded_before, is_given_before, profile_word, value_given};
use crate::keys::JobKey;
use crate::table::Verb;
use crate::usage::{UsageCause, UsageFault};
use crate::values::{
    GREATEST_MOST, cap_value, grain_value, height_value, kernel_named, kind_named, most_value,
    page_count, seed_value, shingle_value, width_value, worker_count,
};
use dead_nozzles::DeadNozzles;
use diffusion_kernel::Kernel;
use key_values::{cut_word, value_of};
use pwg_definitions::Kind;
use weave_base::Words;

/// The profile if no word gives one.
pub const DEFAULT_PROFILE: &str = "p360cmyk";

// Pixels across and lines down a made page where no word gives them.
const DEFAULT_WIDTH: u32 = 256;

const DEFAULT_HEIGHT: u32 = 300;

/// What a command line asks for.
#[derive(Clone, Debug, PartialEq, Eq, Drop)]
pub struct Job {
    /// The command.
    pub verb: Verb,
    /// The number of the word `profile=..`, counted from 1, or 0 for the built-in profile if no word gives one.
    pub profile_word: u32,
    /// The kernel of error diffusion.
    pub kernel: Kernel,
    /// How much grain is applied to amounts: 0 to 32.
    pub grain: u8,
    /// How many workers: 1 to 64.
    pub workers: u8,
    /// The most dots that the meters may count, or `None` if no word gives a cap.
    pub cap: Option<u64>,
    /// The most bytes of a job that are read, at most 16 GiB.
    pub most: u64,
    /// Whether each row is fired by two passes, one on its even and one on its odd columns.
    pub shingle: bool,
    /// The dead nozzles, counted from 0, in rising order.
    pub dead: DeadNozzles,
    /// The seed of the pages that are made.
    pub seed: u32,
    /// How many pages are made: 1 to 16.
    pub pages: u8,
    /// Pixels across a made page: 1 to `MOST_COLUMNS`.
    pub width: u32,
    /// Lines down a made page: 1 to `MOST_ROWS`.
    pub height: u32,
    /// The kind of the made pages.
    pub kind: Kind,
}

// Why a word is refused, if it is, where the words between the command and this place stand before it.
fn refusal(verb: Verb, words: &Words, place: u32, word: &str) -> Option<UsageCause>
    requires some { 1 ≤ place }
    requires within { place ≤ length words.now }
    ensures { result ≡ word_fault (command_row verb).keys (take (place - 1) (drop 1 words.now)) word.now }
{
    let Some((name, value)) = cut_word(word) else {
        return Some(UsageCause::NotKeyValue);
    };
    let Some(key) = verb.key(name) else {
        return Some(UsageCause::UnknownKey);
    };
    if is_given_before(place, words, key) {
        Some(UsageCause::RepeatedKey)
    } else if !key.takes(value) {
        Some(UsageCause::BadValue)
    } else if is_excluded_before(place, words, word) {
        Some(UsageCause::Together)
    } else {
        None
    }
}

// Refuses the first bad word after the command.
fn check_words(verb: Verb, words: &Words) -> Result<(), UsageFault>
    ensures accepted { OnOk result (refused (faults_on (command_row verb).keys) (drop 1 words.now) [] ≡ []) }
    ensures fault { IfErr result (λ fault.
        slice_get (refused (faults_on (command_row verb).keys) (drop 1 words.now) []) 0 ≡ Some fault) }
{
    for i in 1..words.len() {
        if let Some(cause) = refusal(verb, words, i, words.get(i)) {
            return Err(UsageFault { word: i + 1, cause });
        }
    }
    Ok(())
}

// The dead nozzles that the words list; none where no word lists them.
fn dead_given(words: &Words) -> DeadNozzles
    ensures { result.items ≡ unwrap_or (given_as dead_key dead_of (drop 1 words.now)) [] }
{
    value_given(words, JobKey::Dead)
        .and_then(dead_value)
        .unwrap_or_default()
}

// The job of accepted words: for each key its value, or its default.
fn job_given(verb: Verb, words: &Words) -> Job
    ensures { result ≡ job_of (command_row verb) (drop 1 words.now) }
{
    Job {
        verb,
        profile_word: profile_word(words),
        kernel: value_given(words, JobKey::Kernel)
            .and_then(kernel_named)
            .unwrap_or(Kernel::Floyd),
        grain: value_given(words, JobKey::Grain)
            .and_then(grain_value)
            .unwrap_or(0),
        workers: value_given(words, JobKey::Workers)
            .and_then(worker_count)
            .unwrap_or(1),
        cap: value_given(words, JobKey::Cap).and_then(cap_value),
        most: value_given(words, JobKey::Most)
            .and_then(most_value)
            .unwrap_or(GREATEST_MOST),
        shingle: value_given(words, JobKey::Shingle)
            .and_then(shingle_value)
            .unwrap_or(false),
        dead: dead_given(words),
        seed: value_given(words, JobKey::Seed)
            .and_then(seed_value)
            .unwrap_or(1),
        pages: value_given(words, JobKey::Pages)
            .and_then(page_count)
            .unwrap_or(1),
        width: value_given(words, JobKey::Width)
            .and_then(width_value)
            .unwrap_or(DEFAULT_WIDTH),
        height: value_given(words, JobKey::Height)
            .and_then(height_value)
            .unwrap_or(DEFAULT_HEIGHT),
        kind: value_given(words, JobKey::Kind)
            .and_then(kind_named)
            .unwrap_or(Kind::Gray8),
    }
}

/// Reads the words of a command line as a job: the command, then `key=value` in any order. Words are numbered from 1.
/// Returns the job, or the first refused word with its first cause in the order of `UsageCause`.
pub fn read_words(words: &Words) -> Result<Job, UsageFault>
    ensures { result ≡ job_meaning words.now }
{
    if words.is_empty() {
        return Err(UsageFault {
            word: 1,
            cause: UsageCause::NoCommand,
        });
    }
    let Some(verb) = Verb::named(words.get(0)) else {
        return Err(UsageFault {
            word: 1,
            cause: UsageCause::UnknownCommand,
        });
    };
    check_words(verb, words)?;
    Ok(job_given(verb, words))
}

/// The name of the job's profile, of 1 to 255 bytes. If no word gives one, the name is `p360cmyk`, which is built in.
/// The job must be the one that was read from these words.
pub fn profile_name<'a>(words: &'a Words, job: &Job) -> &'a str
    requires { job_meaning words.now ≡ Ok job.now }
    ensures { result.now ≡ profile_named words.now }
{
    if job.profile_word == 0 {
        return DEFAULT_PROFILE;
    }
    value_of(words.get(job.profile_word - 1))
}
