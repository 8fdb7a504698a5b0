//! Performs what a command line asks for.
ghost use Rattle.driver_core.specs.Outside.{meters_of, outside_of};
ghost use Rattle.driver_core.specs.Runs.Outcome.{answer_of};
ghost use Rattle.driver_core.specs.Runs.Prepared.{DoneOutcome, IsReady};

use crate::answers::work_of;
use crate::dots::play;
use crate::list::list;
use crate::preparing::Prepared;
use crate::print::print_one;
use crate::profile::show_profile;
use crate::trial::try_pages;
use driver_answer::Answer;
use ink_meter::Meter;
use std::alloc::Global;
use std::thread::Threads;
use weave_base::{Sink, Source};
use worker_team::{Gate, Team};

/// Performs a prepared command. `Err` has the answer if the command is not done.
pub fn perform<R: Threads + Sync, S: Source, K: Sink, G: Gate + Sync>(
    threads: &R,
    alloc: Global,
    prepared: Prepared,
    input: &mut S,
    out: &mut K,
    gate: &G,
    meters: &mut Vec<Box<dyn Meter>>,
) -> Result<(), Answer>
    requires { IsReady prepared }
    ensures { DoneOutcome prepared
        (outside_of S.left S.faults input.old input.new)
        (outside_of K.held K.faults out.old out.new)
        (meters_of (λ meter. account meter) meters.old.items meters.new.items) (answer_of result) }
{
    match prepared {
        Prepared::Print { job, profile } => {
            let printed = print_one(threads, alloc, &job, &profile, input, out, gate, meters);
            work_of(printed.answer)
        }
        Prepared::Dots { job, profile } => play(alloc, &profile, job.most, input, out),
        Prepared::List { job } => list(alloc, job.most, input, out),
        Prepared::Profile { profile, .. } => show_profile(alloc, &profile, out),
        Prepared::Trial { job, profile } => {
            let team = Team {
                threads,
                workers: job.workers,
                gate,
            };
            try_pages(&team, alloc, &profile, &job, out)
        }
    }
}
