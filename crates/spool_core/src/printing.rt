//! The printer: it takes jobs from the spool, and prints each.
ghost use Rattle.page_halftoner.specs.Screenings.{screening_of};
ghost use Rattle.spool_core.specs.Outcome.{AnswersJobs, HasPlainStatus, WriteStopped};
ghost use Rattle.spool_core.specs.Prepared.{CanPrintWoven};
ghost use Rattle.spool_core.specs.Printed.{AreDone, PrintsStream, between};
ghost use Rattle.spool_queue.specs.Passes.{IsPrinterOf, senders_of, taken_of};
ghost use Rattle.std.specs.Prelude.{All, IfErr, OnErr, OnOk, [], length, map, vec_capacity, ◌<◌, ◌^◌, ◌≡◌, ◌≢◌, ◌≤◌};
ghost use Rattle.weave_base.specs.Causes.{Rose};

use crate::answer::SpoolAnswer;
use crate::report::Ran;
use crate::source::StreamSource;
use driver_answer::Answer;
use driver_core::{Gate, PrintSetup, Printed, print_stream};
use ink_meter::Meter;
use spool_queue::{PrintPass, Spool, SpoolJob, StreamBytes};
use std::alloc::Global;
use std::sync::Wait;
use std::thread::Threads;
use weave_base::Sink;

// Prints one stream from memory.
fn print_bytes<R: Threads + Sync, K: Sink, G: Gate + Sync>(
    rt: &R,
    alloc: Global,
    how: &PrintSetup,
    stream: StreamBytes,
    out: &mut K,
    gate: &G,
    meters: &mut Vec<Box<dyn Meter>>,
) -> Printed
    requires { CanPrintWoven how.now }
    ensures prints { PrintsStream how.now.profile (screening_of how.now.kernel how.now.grain) stream result.pages result.answer
        (between (K.held out.old) (K.faults out.old) (map (λ meter. account meter) meters.old.items))
        (between (K.held out.new) (K.faults out.new) (map (λ meter. account meter) meters.new.items)) }
    ensures later { K.faults out.old ≤ K.faults out.new }
{
    let mut input = StreamSource::make(stream);
    print_stream(rt, alloc, how, &mut input, out, gate, meters)
}

/// Takes and prints `count` jobs, and notes in `done` what was done of each. A job whose write fails is the last, and
/// `Err` has the answer. `done` is empty, and has room for all jobs.
pub fn print_jobs<R: Threads + Wait + Sync, K: Sink, G: Gate + Sync>(
    rt: &R,
    alloc: Global,
    how: &PrintSetup,
    spool: &Spool,
    printer: &mut PrintPass,
    count: u32,
    out: &mut K,
    gate: &G,
    meters: &mut Vec<Box<dyn Meter>>,
    done: &mut Vec<Ran>,
) -> Result<(), SpoolAnswer>
    requires can { CanPrintWoven how.now }
    requires pass { IsPrinterOf spool.now printer.old }
    requires none_taken { taken_of printer.old ≡ [] }
    requires count { count < 2 ^ 31 }
    requires none_done { done.old.items ≡ [] }
    requires room { count ≤ vec_capacity done.old }
    ensures pass { IsPrinterOf spool.now printer.new }
    ensures senders { senders_of printer.new ≡ senders_of printer.old }
    ensures prints { AreDone how.now.profile (screening_of how.now.kernel how.now.grain) (taken_of printer.new) done.new.items
        (between (K.held out.old) (K.faults out.old) (map (λ meter. account meter) meters.old.items))
        (between (K.held out.new) (K.faults out.new) (map (λ meter. account meter) meters.new.items)) }
    ensures every { OnOk result (length (taken_of printer.new) ≡ count) }
    ensures fine { OnOk result (All (λ ran. ran.status ≢ 5) done.new.items) }
    ensures write { IfErr result (WriteStopped done.new.items) }
    ensures cause { OnErr result (Rose (K.faults out.old) (K.faults out.new)) }
{
    for _ in 0..count {
        let SpoolJob {
            sender,
            number,
            stream,
        } = spool.take(rt, printer);
        let printed = print_bytes(rt, alloc, how, stream, out, gate, meters);
        done.push_reserved(Ran {
            sender,
            number,
            pages: printed.pages,
            status: printed.answer.status(),
        });
        if let Answer::Write { page } = printed.answer {
            return Err(SpoolAnswer::Write {
                sender,
                job: number,
                page,
            });
        }
    }
    Ok(())
}

// Statuses of jobs (`Answer::status`).
const INPUT_REFUSED: u8 = 3;

const OVER_CAP: u8 = 6;

const OUT_OF_MEMORY: u8 = 7;

// The answer where all jobs ran, and no write failed: `Memory` where it ran out in one of them; else how many were
// refused, if any were.
fn sum_up(done: &[Ran]) -> SpoolAnswer
    requires few { length done.now < 2 ^ 31 }
    requires plain { All HasPlainStatus done.now }
    ensures { AnswersJobs done.now result }
{
    if done.iter().any(|ran| ran.status == OUT_OF_MEMORY) {
        return SpoolAnswer::Memory;
    }
    let count = done
        .iter()
        .filter(|ran| ran.status == INPUT_REFUSED || ran.status == OVER_CAP)
        .count() as u32;
    if count == 0 {
        SpoolAnswer::Done
    } else {
        SpoolAnswer::Failed { count }
    }
}

/// The answer for what the printer did: the answer of its failed write, else the answer for the jobs that ran.
pub fn answer_for(printed: Result<(), SpoolAnswer>, done: &[Ran]) -> SpoolAnswer
    requires few { length done.now < 2 ^ 31 }
    requires plain { OnOk printed (All HasPlainStatus done.now) }
    ensures ran { OnOk printed (AnswersJobs done.now result) }
    ensures stopped { IfErr printed (λ stop. result ≡ stop) }
{
    match printed {
        Ok(()) => sum_up(done),
        Err(stop) => stop,
    }
}
