//! Printing and executing made pages.
ghost use Rattle.page_halftoner.specs.Screenings.{screening_of};
ghost use Rattle.driver_core.specs.Outside.{outside_of};
ghost use Rattle.driver_core.specs.Runs.Outcome.{answer_of};
ghost use Rattle.driver_core.specs.Printing.Setup.{CanBePrinted, setup_of};
ghost use Rattle.job_words.specs.Jobs.{IsWithinBounds};
ghost use Rattle.driver_answer.specs.declared.answer.Answer.TheVariants as answer;
ghost use Rattle.driver_core.specs.Trying.Outcome.{TrialOutcome};
ghost use Rattle.driver_core.specs.Trying.Pages.{StopsTrying, TriesAll, TriesPage};
ghost use Rattle.job_player.specs.Counting.{IsBetweenPages, counts_of, sheets_of};
ghost use Rattle.page_definitions.specs.Dots.{Halftone};
ghost use Rattle.page_writer.specs.Shows.{Shows};
ghost use Rattle.printer_definitions.specs.Inks.{inks_of};
ghost use Rattle.printer_definitions.specs.Printer.{row_units};
ghost use Rattle.pwg_definitions.specs.Header.{IsWanted};
ghost use Rattle.separation_definitions.specs.Windows.{wanted_by, window_of};
ghost use Rattle.std.specs.Prelude.{IfErr, IfOk, length, ◌*◌, ◌<◌, ◌^◌, ◌≡◌};

use crate::print::{PrintSetup, job_setup, stream_answer};
use crate::trial::page_bytes::PageBytes;
use crate::trial::summary::{Totals, write_summary};
use driver_answer::Answer;
use halftone_reader::{HalftonedPage, read_page};
use job_player::JobCounter;
use job_words::Job;
use page_maker::{PageMaker, made_form};
use page_writer::{PageSum, write_by_way};
use printer_profile::{Profile, checked_can_print};
use pwg_stream::{MOST_PAGES, PageReader};
use std::alloc::Global;
use std::thread::Threads;
use weave_base::Sink;
use worker_team::{Gate, Team};

// The bytes and the rasters of the job so far.
#[derive(Clone, Copy)]
struct Written {
    bytes: u64,
    rasters: u64,
}

// Prints a page into memory and executes its job. It gives the size of the job.
fn try_page<R: Threads + Sync, G>(
    team: &Team<'_, R, G>,
    alloc: Global,
    how: &PrintSetup,
    page: &HalftonedPage,
    bytes: &mut PageBytes,
    counter: &mut JobCounter,
) -> Result<PageSum, Answer>
    requires printed { CanBePrinted how.now }
    requires wanted { IsWanted (wanted_by how.now.profile) page.now.form }
    requires width { page.now.planes.width ≡ (window_of page.now.form how.now.profile).width }
    requires rows { page.now.planes.rows ≡ (window_of page.now.form how.now.profile).height }
    requires inks { page.now.planes.inks ≡ length (inks_of how.now.profile.inks) }
    requires shown { (h : Halftone) × Shows how.now.profile page.now.planes h }
    requires between { IsBetweenPages how.now.profile counter.old }
    requires room { sheets_of counter.old < 2 ^ 16 }
    ensures ok { (h : Halftone) → Shows how.now.profile page.now.planes h → IfOk result
        (TriesPage how.now.way how.now.profile h (page.now.form.height * row_units how.now.profile) counter.old counter.new) }
    ensures err { IfErr result (λ a. a ≡ answer.Memory) }
{
    checked_can_print(how.profile);
    bytes.clear();
    let written = write_by_way(
        team,
        alloc,
        &how.profile,
        &how.way,
        page.form,
        &page.planes,
        bytes,
    );
    let Ok(sum) = written else {
        return Err(Answer::Memory);
    };
    match counter.execute_page(bytes.bytes()) {
        Ok(()) => Ok(sum),
        Err(_) => Err(Answer::Memory),
    }
}

// The totals of so many pages.
fn totals(pages: u32, written: Written, counter: &JobCounter) -> Totals
    ensures { result ≡ record {
      pages = pages;
      sheets = sheets_of counter.now;
      bytes = written.bytes;
      rasters = written.rasters;
      dots = counts_of counter.now;
    } }
{
    Totals {
        pages,
        sheets: counter.sheets(),
        bytes: written.bytes,
        rasters: written.rasters,
        dots: counter.dots(),
    }
}

// Prints and executes the pages of a made stream, one after another.
fn try_stream<R: Threads + Sync, G: Gate + Sync>(
    team: &Team<'_, R, G>,
    alloc: Global,
    how: &PrintSetup,
    maker: &mut PageMaker,
    counter: &mut JobCounter,
) -> Result<Totals, Answer>
    requires printed { CanBePrinted how.now }
    requires between { IsBetweenPages how.now.profile counter.old }
    requires sheets { sheets_of counter.old ≡ 0 }
    requires counts { counts_of counter.old ≡ record { k = 0; c = 0; m = 0; y = 0 } }
    ensures ok { IfOk result (TriesAll how.now.way how.now.profile (screening_of how.now.kernel how.now.grain) maker.old) }
    ensures err { IfErr result (StopsTrying how.now.profile maker.old) }
{
    prove!(how.profile.nozzles <= 255);
    let mut reader = match PageReader::begin(alloc, maker) {
        Ok(reader) => reader,
        Err(stop) => return Err(stream_answer(stop)),
    };
    let mut bytes = PageBytes::new(alloc);
    let mut written = Written {
        bytes: 0,
        rasters: 0,
    };
    'pages: for number in 1..MOST_PAGES + 2 {
        let page = match read_page(
            team,
            alloc,
            &mut reader,
            &how.profile,
            how.kernel,
            how.grain,
            maker,
        ) {
            Ok(Some(page)) => page,
            Ok(None) => return Ok(totals(number - 1, written, counter)),
            Err(stop) => return Err(stream_answer(stop)),
        };
        let sum = try_page(team, alloc, how, &page, &mut bytes, counter)?;
        written.bytes += sum.bytes;
        written.rasters += u64::from(sum.rasters);
    }
    unreachable!()
}

/// Makes the pages that a job asks for, prints and executes each page, and writes the summary. `Err` has the answer if
/// the trial stops.
pub fn try_pages<R: Threads + Sync, K: Sink, G: Gate + Sync>(
    team: &Team<'_, R, G>,
    alloc: Global,
    profile: &Profile,
    job: &Job,
    out: &mut K,
) -> Result<(), Answer>
    requires printed { CanBePrinted (setup_of job.now profile.now) }
    requires made { IsWithinBounds job.now }
    ensures { TrialOutcome job.now profile.now
        (outside_of K.held K.faults out.old out.new) (answer_of result) }
{
    checked_can_print(*profile);
    let (hdpi, vdpi) = (u32::from(profile.hdpi), u32::from(profile.vdpi));
    let form = made_form(job.width, job.height, job.kind);
    let Ok(mut maker) = PageMaker::make(alloc, job.seed, job.pages, form, hdpi, vdpi) else {
        return Err(Answer::Memory);
    };
    let mut counter = JobCounter::make(alloc, profile);
    let how = job_setup(job, profile);
    let totals = try_stream(team, alloc, &how, &mut maker, &mut counter)?;
    match write_summary(&totals, out) {
        Ok(()) => Ok(()),
        Err(_) => Err(Answer::Write { page: 0 }),
    }
}
