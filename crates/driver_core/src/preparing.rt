//! Prepares what a command line asks for.
ghost use Rattle.driver_core.specs.Caps.{with_cap};
ghost use Rattle.driver_core.specs.Outside.{Outside, meters_of, texts_of};
ghost use Rattle.driver_core.specs.Runs.Fitting.{IsProfileOf, way_of};
ghost use Rattle.driver_core.specs.Runs.Outcome.{LacksProfile, Outcome};
ghost use Rattle.driver_core.specs.Runs.Prepared.{IsPrepared, job_in};
ghost use Rattle.job_words.specs.Meaning.{job_meaning, profile_named};
ghost use Rattle.page_definitions.specs.Ways.{CanGo};
ghost use Rattle.printer_profile.specs.Profiles.{built_in};
ghost use Rattle.printer_profile.specs.Validity.{check};
ghost use Rattle.std.specs.Io.KnownBytes.{Keeps};
ghost use Rattle.std.specs.Prelude.{IfErr, IfOk, IsErr, IsOk, IsSome, Ok, map, ◌≡◌};

use crate::fitting::{check_way, job_way};
use crate::print::set_caps;
use driver_answer::Answer;
use ink_meter::Meter;
use job_profile::find_profile;
use job_words::{Job, Verb, profile_name, read_words};
use printer_profile::Profile;
use std::alloc::Global;
use weave_base::{Shelf, Words};

/// A command that is ready: its job, and its profile, which passes its checks. `list` takes no profile.
#[derive(Drop)]
pub enum Prepared {
    Print { job: Job, profile: Profile },
    Dots { job: Job, profile: Profile },
    List { job: Job },
    Profile { job: Job, profile: Profile },
    Trial { job: Job, profile: Profile },
}

// The profile that a job takes, which passes its checks, and whose head can go over pages as the job asks.
fn profile_of<F: Shelf>(
    alloc: Global,
    words: &Words,
    job: &Job,
    shelf: &mut F,
) -> Result<Profile, Answer>
    requires { job_meaning words.now ≡ Ok job.now }
    ensures is { IfOk result (λ p. IsProfileOf job.now (F.files shelf.old) (profile_named words.now) (Ok p)) }
    ensures checked { IfOk result (λ p. IsOk (check p)) }
    ensures way { IfOk result (λ p. CanGo (way_of job.now) p) }
    ensures lacks { IfErr result (λ a. LacksProfile job.now (profile_named words.now)
        (texts_of F.files F.faults shelf.old shelf.new) a) }
    ensures unasked { IsSome (built_in (profile_named words.now)) → (shelf.new ≡ shelf.old) }
{
    let profile = find_profile(alloc, shelf, profile_name(words, job))?;
    match check_way(&job_way(job), &profile) {
        Ok(()) => Ok(profile),
        Err(cause) => Err(Answer::Profile { line: 0, cause }),
    }
}

/// Reads the words of a command line, sets the caps of the meters if a word gives one, finds the profile that the
/// command takes, and checks that its head can go over pages as the job asks. `Err` has the answer if the run ends
/// here.
pub fn prepare<F: Shelf>(
    alloc: Global,
    words: &Words,
    shelf: &mut F,
    meters: &mut Vec<Box<dyn Meter>>,
) -> Result<Prepared, Answer>
    ensures prepared { IfOk result (IsPrepared words.now (F.files shelf.old)) }
    ensures caps { IfOk result (λ prepared. map (λ meter. account meter) meters.new.items
        ≡ with_cap (job_in prepared).cap (map (λ meter. account meter) meters.old.items)) }
    // If neither the input nor the output was used, this is the outcome of the run.
    ensures answered { IfErr result (λ a. (input out : Outside) → Keeps input.before input.now → Keeps out.before out.now
        → Outcome words.now
        (record {
          shelf = texts_of F.files F.faults shelf.old shelf.new;
          input = input;
          out = out;
          meters = meters_of (λ meter. account meter) meters.old.items meters.new.items;
        }) a) }
    ensures unasked { IsSome (built_in (profile_named words.now)) → (shelf.new ≡ shelf.old) }
    ensures refused_unasked { IsErr (job_meaning words.now) → (shelf.new ≡ shelf.old) }
{
    let job = read_words(words)?;
    set_caps(job.cap, meters);
    match job.verb {
        Verb::List => Ok(Prepared::List { job }),
        Verb::Print => {
            let profile = profile_of(alloc, words, &job, shelf)?;
            Ok(Prepared::Print { job, profile })
        }
        Verb::Dots => {
            let profile = profile_of(alloc, words, &job, shelf)?;
            Ok(Prepared::Dots { job, profile })
        }
        Verb::Profile => {
            let profile = profile_of(alloc, words, &job, shelf)?;
            Ok(Prepared::Profile { job, profile })
        }
        Verb::Trial => {
            let profile = profile_of(alloc, words, &job, shelf)?;
            Ok(Prepared::Trial { job, profile })
        }
    }
}
