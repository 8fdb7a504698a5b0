//! A run of the spool.
ghost use Rattle.page_halftoner.specs.Screenings.{screening_of};
ghost use Rattle.driver_core.specs.Outside.{meters_of, outside_of, texts_of};
ghost use Rattle.spool_core.specs.Desks.{IsDesk};
ghost use Rattle.spool_core.specs.Outcome.{PrintingOutcome, SpoolOutcome};
ghost use Rattle.spool_core.specs.Prepared.{AreFew, CanPrintWoven, sent_in};
ghost use Rattle.spool_core.specs.Senders.{lists_in};
ghost use Rattle.spool_core.specs.Promises.{SpoolPromises};
ghost use Rattle.spool_words.specs.Meaning.{spool_meaning};
ghost use Rattle.std.specs.Prelude.{IsErr, ◌≡◌};

use crate::answer::SpoolAnswer;
use crate::desks::Desk;
use crate::preparing::{PreparedSpool, prepare};
use crate::printing::{answer_for, print_jobs};
use crate::report::{Ran, SpoolReport, tell};
use crate::senders::send_all;
use driver_core::{Gate, PrintSetup};
use ink_meter::Meter;
use std::alloc::Global;
use std::sync::Wait;
use std::thread::Threads;
use weave_base::{Shelf, Sink, Words};

// How a run ended, and the jobs that ran.
#[derive(Drop)]
struct Finished {
    answer: SpoolAnswer,
    done: Vec<Ran>,
}

// The senders send all that the desk has, and then the printer takes and prints it.
fn run_desk<R: Threads + Wait + Sync, K: Sink, G: Gate + Sync>(
    rt: &R,
    alloc: Global,
    how: &PrintSetup,
    desk: Desk,
    out: &mut K,
    gate: &G,
    meters: &mut Vec<Box<dyn Meter>>,
) -> Finished
    requires can { CanPrintWoven how.now }
    requires desk { IsDesk (lists_in desk.works.items) desk }
    ensures { PrintingOutcome how.now.profile (screening_of how.now.kernel how.now.grain) (lists_in desk.works.items)
        (outside_of K.held K.faults out.old out.new)
        (meters_of (λ meter. account meter) meters.old.items meters.new.items) result.done.items result.answer }
{
    let Desk {
        spool,
        works,
        mut printer,
        count,
        ended,
        mut done,
    } = desk;
    let ended = send_all(rt, &spool, works, ended);
    let printed = print_jobs(
        rt,
        alloc,
        how,
        &spool,
        &mut printer,
        count,
        out,
        gate,
        meters,
        &mut done,
    );
    spool.settle(ended, printer);
    let answer = answer_for(printed, &done);
    Finished { answer, done }
}

// Prints what was prepared.
fn perform<R: Threads + Wait + Sync, K: Sink, G: Gate + Sync>(
    rt: &R,
    alloc: Global,
    prepared: PreparedSpool,
    out: &mut K,
    gate: &G,
    meters: &mut Vec<Box<dyn Meter>>,
) -> Finished
    requires can { CanPrintWoven prepared.how }
    requires few { AreFew (sent_in prepared) }
    ensures { PrintingOutcome prepared.how.profile (screening_of prepared.how.kernel prepared.how.grain) (sent_in prepared)
        (outside_of K.held K.faults out.old out.new)
        (meters_of (λ meter. account meter) meters.old.items meters.new.items) result.done.items result.answer }
{
    let PreparedSpool { how, lists } = prepared;
    match Desk::make(alloc, lists) {
        Ok(desk) => run_desk(rt, alloc, &how, desk, out, gate, meters),
        Err(_) => Finished {
            answer: SpoolAnswer::Memory,
            done: Vec::new(alloc),
        },
    }
}

// All of a run except its lines.
fn work<R: Threads + Wait + Sync, K: Sink, F: Shelf, G: Gate + Sync>(
    rt: &R,
    alloc: Global,
    words: &Words,
    out: &mut K,
    shelf: &mut F,
    gate: &G,
    meters: &mut Vec<Box<dyn Meter>>,
) -> Finished
    ensures outcome { SpoolOutcome words.now
        (record {
          shelf = texts_of F.files F.faults shelf.old shelf.new;
          out = outside_of K.held K.faults out.old out.new;
          meters = meters_of (λ meter. account meter) meters.old.items meters.new.items;
        }) result.done.items result.answer }
    ensures refused_unasked { IsErr (spool_meaning words.now) → (shelf.new ≡ shelf.old) }
{
    match prepare(alloc, words, shelf) {
        Ok(prepared) => perform(rt, alloc, prepared, out, gate, meters),
        Err(answer) => Finished {
            answer,
            done: Vec::new(alloc),
        },
    }
}

/// Runs the spool. The words name a profile, a kernel, a grain, a number of workers, and the files of each of up to
/// eight senders. The files are page streams (PWG Raster, PWG 5102.4), and each is a job. All files are read from the
/// shelf, and the senders submit them. The printer prints the jobs one after another as ESC/P2 commands on `out`, each
/// as the driver's `print` does. A sender's jobs are printed in its order; which sender's job is printed first is left
/// open.
///
/// The status of the report is the exit status: 0 every job was printed, 1 a word is refused, 2 the profile is refused,
/// 3 a file is absent or too long, 4 a read of the shelf failed, 5 a write failed, 7 memory ran out, 9 all jobs ran,
/// and the input of some was refused or went past the cap of a meter. `err` gets a line for each job that ran, and then
/// one for the status unless the status is 0.
///
/// After a failed write no further job is printed. A job for which memory runs out is noted, and the next is printed.
pub fn run_spool<R: Threads + Wait + Sync, K: Sink, E: Sink, F: Shelf, G: Gate + Sync>(
    rt: &R,
    alloc: Global,
    words: &Words,
    out: &mut K,
    err: &mut E,
    shelf: &mut F,
    gate: &G,
    meters: &mut Vec<Box<dyn Meter>>,
) -> SpoolReport
    ensures promises { SpoolPromises words.now
        (record {
          shelf = texts_of F.files F.faults shelf.old shelf.new;
          out = outside_of K.held K.faults out.old out.new;
          meters = meters_of (λ meter. account meter) meters.old.items meters.new.items;
        })
        (outside_of E.held E.faults err.old err.new) result.status result.answer result.done.items }
    // Nothing is read from the shelf if a word is refused.
    ensures refused_unasked { IsErr (spool_meaning words.now) → (shelf.new ≡ shelf.old) }
{
    let Finished { answer, done } = work(rt, alloc, words, out, shelf, gate, meters);
    tell(&done, &answer, err);
    SpoolReport {
        status: answer.status(),
        answer,
        done,
    }
}
