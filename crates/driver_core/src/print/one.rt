//! Printing one stream.
ghost use Rattle.page_halftoner.specs.Screenings.{screening_of};
ghost use Rattle.driver_answer.specs.Answers.{status_of};
ghost use Rattle.driver_core.specs.Outside.{meters_of, outside_of};
ghost use Rattle.driver_core.specs.Printing.Setup.{CanBePrinted, setup_of};
ghost use Rattle.driver_core.specs.Printing.One.{AnswersBy, IsCapped, IsFaulty, IsValid};
ghost use Rattle.driver_core.specs.Printing.Outcome.{PrintedOutcome};
ghost use Rattle.driver_core.specs.Runs.Fitting.{job_screening, way_of};
ghost use Rattle.std.specs.Prelude.{◌≤◌};

use crate::answers::answer_to;
use crate::print::{PrintSetup, job_setup, print_pages};
use driver_answer::Answer;
use ink_meter::Meter;
use job_words::Job;
use printer_profile::Profile;
use std::alloc::Global;
use std::thread::Threads;
use weave_base::{Sink, Source};
use worker_team::{Gate, Team};

/// How the printing of a stream ended, and how many of its pages were written whole.
#[derive(Clone, Copy, Debug, PartialEq, Eq)]
pub struct Printed {
    pub answer: Answer,
    pub pages: u32,
}

/// Prints the pages of one stream (PWG Raster, PWG 5102.4). A page is written once it is read to its last line and
/// every meter has room for it.
///
/// The answer is never `Usage`, `Profile` or `Job`. If memory runs out, the answer is `Memory`.
pub fn print_stream<R: Threads + Sync, S: Source, K: Sink, G: Gate + Sync>(
    threads: &R,
    alloc: Global,
    how: &PrintSetup,
    input: &mut S,
    out: &mut K,
    gate: &G,
    meters: &mut Vec<Box<dyn Meter>>,
) -> Printed
    requires can { CanBePrinted how.now }
    ensures outcome { PrintedOutcome how.now.way how.now.profile (screening_of how.now.kernel how.now.grain)
        (outside_of S.left S.faults input.old input.new)
        (outside_of K.held K.faults out.old out.new)
        (meters_of (λ meter. account meter) meters.old.items meters.new.items) result.pages result.answer }
    ensures later { K.faults out.old ≤ K.faults out.new }
    // If nothing outside fails and memory does not run out, a valid stream is printed, a faulty stream is refused, and
    // so is a page that goes past a cap.
    ensures valid { AnswersBy IsValid 0 how.now.profile (screening_of how.now.kernel how.now.grain)
        (outside_of S.left S.faults input.old input.new)
        (outside_of K.held K.faults out.old out.new)
        (meters_of (λ meter. account meter) meters.old.items meters.new.items) (status_of result.answer) }
    ensures refused { AnswersBy IsFaulty 3 how.now.profile (screening_of how.now.kernel how.now.grain)
        (outside_of S.left S.faults input.old input.new)
        (outside_of K.held K.faults out.old out.new)
        (meters_of (λ meter. account meter) meters.old.items meters.new.items) (status_of result.answer) }
    ensures capped { AnswersBy IsCapped 6 how.now.profile (screening_of how.now.kernel how.now.grain)
        (outside_of S.left S.faults input.old input.new)
        (outside_of K.held K.faults out.old out.new)
        (meters_of (λ meter. account meter) meters.old.items meters.new.items) (status_of result.answer) }
{
    let team = Team {
        threads,
        workers: how.workers,
        gate,
    };
    let mut pages = 0;
    let printed = print_pages(&team, alloc, how, input, out, meters, &mut pages);
    Printed {
        answer: answer_to(printed),
        pages,
    }
}

/// Prints the pages of one stream by a profile, as `run` does once its words and its profile are accepted. `job` gives
/// the kernel, the grain, the number of workers, and the way of the head over a page. The other words of `job` are
/// ignored. See `print_stream`.
pub fn print_one<R: Threads + Sync, S: Source, K: Sink, G: Gate + Sync>(
    threads: &R,
    alloc: Global,
    job: &Job,
    profile: &Profile,
    input: &mut S,
    out: &mut K,
    gate: &G,
    meters: &mut Vec<Box<dyn Meter>>,
) -> Printed
    requires { CanBePrinted (setup_of job.now profile.now) }
    ensures outcome { PrintedOutcome (way_of job.now) profile.now (job_screening job.now)
        (outside_of S.left S.faults input.old input.new)
        (outside_of K.held K.faults out.old out.new)
        (meters_of (λ meter. account meter) meters.old.items meters.new.items) result.pages result.answer }
    ensures later { K.faults out.old ≤ K.faults out.new }
    // If nothing outside fails and memory does not run out, a valid stream is printed, a faulty stream is refused, and
    // so is a page that goes past a cap.
    ensures valid { AnswersBy IsValid 0 profile.now (job_screening job.now)
        (outside_of S.left S.faults input.old input.new)
        (outside_of K.held K.faults out.old out.new)
        (meters_of (λ meter. account meter) meters.old.items meters.new.items) (status_of result.answer) }
    ensures refused { AnswersBy IsFaulty 3 profile.now (job_screening job.now)
        (outside_of S.left S.faults input.old input.new)
        (outside_of K.held K.faults out.old out.new)
        (meters_of (λ meter. account meter) meters.old.items meters.new.items) (status_of result.answer) }
    ensures capped { AnswersBy IsCapped 6 profile.now (job_screening job.now)
        (outside_of S.left S.faults input.old input.new)
        (outside_of K.held K.faults out.old out.new)
        (meters_of (λ meter. account meter) meters.old.items meters.new.items) (status_of result.answer) }
{
    let how = job_setup(job, profile);
    print_stream(threads, alloc, &how, input, out, gate, meters)
}
