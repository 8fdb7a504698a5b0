//! Printing the pages of a stream.
ghost use Rattle.page_halftoner.specs.Screenings.{screening_of};
ghost use Rattle.driver_core.specs.Outside.{meters_of, outside_of};
ghost use Rattle.driver_core.specs.Printing.Setup.{CanBePrinted};
ghost use Rattle.driver_core.specs.Printing.Outcome.{PrintedOutcome, stream_answer as stream_answer_of};
ghost use Rattle.driver_core.specs.Runs.Outcome.{answer_of};
ghost use Rattle.std.specs.Prelude.{◌≡◌, ◌≤◌};

use crate::print::charging::charge;
use crate::print::counting::count_inks;
use crate::print::setup::PrintSetup;
use driver_answer::Answer;
use halftone_reader::read_page;
use ink_meter::Meter;
use page_writer::{WriteStop, write_by_way};
use pwg_stream::{MOST_PAGES, PageReader, StreamStop};
use std::alloc::Global;
use std::thread::Threads;
use weave_base::{Sink, Source};
use worker_team::{Gate, Team};

/// The answer for a stream that stops.
pub fn stream_answer(stop: StreamStop) -> Answer
    ensures { result ≡ stream_answer_of stop }
{
    match stop {
        StreamStop::Input { page, line, cause } => Answer::Input { page, line, cause },
        StreamStop::Read => Answer::Read,
        StreamStop::Memory => Answer::Memory,
    }
}

/// Prints the pages of the input. A page is written once it is read to its last line and every meter has room for it.
/// The team diffuses each slab, counts the dots and codes each page. `pages` becomes the number of pages that were
/// written whole. `Err` has the answer if printing stops.
pub fn print_pages<R: Threads + Sync, S: Source, K: Sink, G: Gate + Sync>(
    team: &Team<'_, R, G>,
    alloc: Global,
    how: &PrintSetup,
    input: &mut S,
    out: &mut K,
    meters: &mut Vec<Box<dyn Meter>>,
    pages: &mut u32,
) -> Result<(), Answer>
    requires { CanBePrinted how.now }
    ensures outcome { PrintedOutcome how.now.way how.now.profile (screening_of how.now.kernel how.now.grain)
        (outside_of S.left S.faults input.old input.new)
        (outside_of K.held K.faults out.old out.new)
        (meters_of (λ meter. account meter) meters.old.items meters.new.items) pages.new (answer_of result) }
    ensures later { K.faults out.old ≤ K.faults out.new }
{
    prove!(how.profile.nozzles <= 255);
    *pages = 0;
    let mut reader = match PageReader::begin(alloc, input) {
        Ok(reader) => reader,
        Err(stop) => return Err(stream_answer(stop)),
    };
    'pages: for number in 1..MOST_PAGES + 2 {
        let page = match read_page(
            team,
            alloc,
            &mut reader,
            &how.profile,
            how.kernel,
            how.grain,
            input,
        ) {
            Ok(Some(page)) => page,
            Ok(None) => return Ok(()),
            Err(stop) => return Err(stream_answer(stop)),
        };
        charge(
            number,
            &count_inks(team, how.profile.inks, &page.planes),
            meters,
        )?;
        match write_by_way(
            team,
            alloc,
            &how.profile,
            &how.way,
            page.form,
            &page.planes,
            out,
        ) {
            Err(WriteStop::Write) => return Err(Answer::Write { page: number }),
            Err(WriteStop::Memory) => return Err(Answer::Memory),
            Ok(_) => *pages = number,
        }
    }
    unreachable!()
}
