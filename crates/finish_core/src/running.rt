//! A run.
ghost use Rattle.buffered_bytes.specs.Outside.{outside_of};
ghost use Rattle.finish_core.specs.Outcome.{FinishOutcome, RunOutcome, answer_of};
ghost use Rattle.finish_core.specs.Promises.{FinishPromises};
ghost use Rattle.finish_core.specs.Sides.{texts_of};
ghost use Rattle.finish_words.specs.Meaning.{finish_meaning};
ghost use Rattle.std.specs.Option.{option_map};
ghost use Rattle.std.specs.Prelude.{IsErr, [], ◌≡◌, ◌≤◌};

use crate::asking::ask;
use crate::halts::{Halt, answer_of as answer_to, ends_page};
use crate::parts::Parts;
use crate::passing::{Passing, pass_job};
use crate::telling::{tell_answer, tell_cut};
use buffered_bytes::Unread;
use driver_answer::Answer;
use finish_words::{Words, read_finish_words, stop_name};
use page_tally::Telling;
use std::alloc::Global;
use weave_base::{Shelf, Sink, Source};

// Passes on the job in `input`, ends its page, and tells its lines.
fn finish<S: Source, K: Sink, E: Sink, L: Shelf>(
    how: Passing<'_>,
    input: &mut S,
    out: &mut K,
    err: &mut E,
    shelf: &mut L,
) -> Result<(), Halt>
    ensures outcome { FinishOutcome how.entry.telling (option_map (λ name. name.now) how.entry.stop) []
        (record {
          input = outside_of S.left S.faults input.old input.new;
          out = outside_of K.held K.faults out.old out.new;
          err = outside_of E.held E.faults err.old err.new;
          shelf = texts_of L.files L.faults shelf.old shelf.new;
        }) (answer_of result) }
    ensures later { E.faults err.old ≤ E.faults err.new }
{
    let mut parts = Parts::make(how.alloc)?;
    let mut unread = Unread::make(how.alloc)?;
    ask(how.alloc, how.stop, shelf)?;
    let passed = pass_job(how, &mut parts, &mut unread, input, out, err, shelf);
    if !ends_page(&passed) {
        return passed;
    }
    parts.end_page(out)?;
    tell_cut(how.telling, parts.tally(), err);
    passed
}

// All of a run except the error line.
fn work<S: Source, K: Sink, E: Sink, L: Shelf>(
    alloc: Global,
    words: &Words,
    input: &mut S,
    out: &mut K,
    err: &mut E,
    shelf: &mut L,
) -> Answer
    ensures outcome { RunOutcome words.now []
        (record {
          input = outside_of S.left S.faults input.old input.new;
          out = outside_of K.held K.faults out.old out.new;
          err = outside_of E.held E.faults err.old err.new;
          shelf = texts_of L.files L.faults shelf.old shelf.new;
        }) result }
    ensures later { E.faults err.old ≤ E.faults err.new }
    ensures refused_unasked { IsErr (finish_meaning words.now) → (shelf.new ≡ shelf.old) }
{
    match read_finish_words(words) {
        Err(fault) => Answer::Usage(fault),
        Ok(request) => {
            let telling = Telling {
                pages: request.pages,
                progress: request.progress,
            };
            let how = Passing {
                alloc,
                telling,
                stop: stop_name(words, &request),
            };
            answer_to(finish(how, input, out, err, shelf))
        }
    }
}

/// Runs the words of a command line: passes on the job in `input` to `out`, command by command, and ends its page where
/// the input ends, fails, or is no longer a command.
///
/// `pages=1` writes a line for each whole page, and for a page that was cut, to `err`; `progress=1` a line for each
/// tenth of a page's length. `stop=NAME` asks the shelf for that text before each page, and ends the run if it is
/// there.
///
/// Returns the exit status: 0 done, 1 a word is refused, 4 a read of the input or of the shelf failed, 5 a write
/// failed, 7 memory ran out, 8 the job is refused. Each status but 0 writes one line to `err`, as much of it as `err`
/// takes.
pub fn run<S: Source, K: Sink, E: Sink, L: Shelf>(
    alloc: Global,
    words: &Words,
    input: &mut S,
    out: &mut K,
    err: &mut E,
    shelf: &mut L,
) -> u8
    ensures promises { FinishPromises words.now
        (record {
          input = outside_of S.left S.faults input.old input.new;
          out = outside_of K.held K.faults out.old out.new;
          err = outside_of E.held E.faults err.old err.new;
          shelf = texts_of L.files L.faults shelf.old shelf.new;
        }) result }
    // The shelf is not asked if a word is refused.
    ensures refused_unasked { IsErr (finish_meaning words.now) → (shelf.new ≡ shelf.old) }
{
    let answer = work(alloc, words, input, out, err, shelf);
    tell_answer(&answer, err);
    answer.status()
}
