//! A run.
ghost use Rattle.driver_core.specs.Runs.AllPromises.{AllPromises};
ghost use Rattle.driver_core.specs.Outside.{meters_of, outside_of, texts_of};
ghost use Rattle.driver_core.specs.Runs.Outcome.{Outcome, Told, answer_of};
ghost use Rattle.job_words.specs.Meaning.{job_meaning, profile_named};
ghost use Rattle.printer_profile.specs.Profiles.{built_in};
ghost use Rattle.std.specs.Prelude.{IsErr, IsSome, ◌≡◌};

use crate::answers::answer_to;
use crate::performing::perform;
use crate::preparing::prepare;
use arrayvec::ArrayString;
use driver_answer::Answer;
use ink_meter::Meter;
use std::alloc::Global;
use std::thread::Threads;
use weave_base::{Shelf, Sink, Source, Words, put_all};
use worker_team::Gate;

// All of a run except the error line; `Err` is the answer of a run that is not done.
fn work<R: Threads + Sync, S: Source, K: Sink, F: Shelf, G: Gate + Sync>(
    rt: &R,
    alloc: Global,
    words: &Words,
    input: &mut S,
    out: &mut K,
    shelf: &mut F,
    gate: &G,
    meters: &mut Vec<Box<dyn Meter>>,
) -> Result<(), Answer>
    ensures outcome { Outcome words.now
        (record {
          shelf = texts_of F.files F.faults shelf.old shelf.new;
          input = outside_of S.left S.faults input.old input.new;
          out = outside_of K.held K.faults out.old out.new;
          meters = meters_of (λ meter. account meter) meters.old.items meters.new.items;
        }) (answer_of result) }
    ensures unasked { IsSome (built_in (profile_named words.now)) → (shelf.new ≡ shelf.old) }
    ensures refused_unasked { IsErr (job_meaning words.now) → (shelf.new ≡ shelf.old) }
{
    let prepared = prepare(alloc, words, shelf, meters)?;
    perform(rt, alloc, prepared, input, out, gate, meters)
}

/// Writes an answer's error line to a sink, as much of it as the sink takes.
pub fn tell<E: Sink>(answer: &Answer, err: &mut E)
    ensures { Told (outside_of E.held E.faults err.old err.new) answer.now }
{
    let mut line = ArrayString::new();
    answer.text(&mut line);
    let _ = put_all(err, line.as_bytes());
}

/// Runs a command line, and writes its output to `out`. `print` prints the pages of the input (PWG Raster, PWG 5102.4)
/// as a job of ESC/P2 commands. `dots` writes the sheets of the job in the input as images. `list` writes the commands
/// of the job in the input as lines of text. `profile` writes the text of a profile. `trial` makes pages, prints them
/// into memory, runs the job of each page, and writes a line of what it counted.
///
/// Returns the exit status: 0 done, 1 a word is refused, 2 the profile is refused, 3 the printer refuses the input or
/// the pages that `trial` makes, 4 a read of the input or of the shelf failed, 5 a write failed, 6 a page goes past the
/// cap of a meter, 7 memory ran out, 8 the job is refused. Each status but 0 writes one line to `err`, as much of it as
/// `err` takes.
///
/// The word `cap=n` sets the cap of each meter once the words are accepted. The meters are asked for room for a page
/// after its last line was read and before its first byte is written. If all meters have room, all count the dots of
/// the page. Only `print` sets caps and counts.
///
/// The word `workers=n` sets how many threads diffuse each slab of up to 256 rows, count the dots of a page and code
/// its strokes. Each thread enters the gate after it claims a tile and before it works the tile.
pub fn run<R: Threads + Sync, S: Source, K: Sink, E: Sink, F: Shelf, G: Gate + Sync>(
    rt: &R,
    alloc: Global,
    words: &Words,
    input: &mut S,
    out: &mut K,
    err: &mut E,
    shelf: &mut F,
    gate: &G,
    meters: &mut Vec<Box<dyn Meter>>,
) -> u8
    ensures promises { AllPromises words.now
        (record {
          shelf = texts_of F.files F.faults shelf.old shelf.new;
          input = outside_of S.left S.faults input.old input.new;
          out = outside_of K.held K.faults out.old out.new;
          meters = meters_of (λ meter. account meter) meters.old.items meters.new.items;
        })
        (outside_of E.held E.faults err.old err.new) result }
    // The shelf is not asked if the profile is built in, and not if a word is refused.
    ensures unasked { IsSome (built_in (profile_named words.now)) → (shelf.new ≡ shelf.old) }
    ensures refused_unasked { IsErr (job_meaning words.now) → (shelf.new ≡ shelf.old) }
{
    let answer = answer_to(work(rt, alloc, words, input, out, shelf, gate, meters));
    tell(&answer, err);
    answer.status()
}
