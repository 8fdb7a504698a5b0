//! The stages of printing, over the first page of an input.
ghost use Rattle.printer_profile.specs.Validity.{check};
ghost use Rattle.pwg_stream.specs.Reading.{lines_left_of};
ghost use Rattle.std.specs.Prelude.{IsOk, ◌≡◌, ◌≤◌};

use crate::lines::{Lines, Page};
use diffusion_kernel::Kernel;
use dot_planes::Planes;
use halftone_reader::read_page;
use printer_profile::Profile;
use pwg_definitions::MOST_ROWS;
use pwg_stream::{PageReader, StreamStop};
use std::alloc::Global;
use std::thread::Threads;
use weave_base::Source;
use worker_team::{OpenGate, Team};

/// How far a page is taken.
#[derive(Clone, Copy, PartialEq, Eq)]
pub enum PageStage {
    /// Its lines are read.
    Read,
    /// Its inks are also separated.
    Separate,
    /// It is halftoned, as the driver does it.
    Slabs,
}

/// The stage of a name.
pub fn stage_named(name: &str) -> Option<PageStage> {
    match name {
        "read" => Some(PageStage::Read),
        "separate" => Some(PageStage::Separate),
        "slabs" => Some(PageStage::Slabs),
        _ => None,
    }
}

/// Takes the first page of the input as far as a stage, and counts the page's lines, or its dots if it is halftoned.
/// `workers` workers diffuse its slabs. The count is 0 if the stream has no page.
pub fn run_stage<R: Threads + Sync, S: Source>(
    rt: &R,
    alloc: Global,
    stage: PageStage,
    profile: &Profile,
    kernel: Kernel,
    grain: u8,
    workers: u8,
    input: &mut S,
) -> Result<u64, StreamStop>
    requires checked { IsOk (check profile.now) }
    requires some_workers { 1 ≤ workers }
    requires most_workers { workers ≤ 64 }
{
    let mut reader = PageReader::begin(alloc, input)?;
    if stage == PageStage::Slabs {
        let team = Team {
            threads: rt,
            workers,
            gate: &OpenGate,
        };
        let page = read_page(&team, alloc, &mut reader, profile, kernel, grain, input)?;
        return match page {
            None => Ok(0),
            Some(page) => Ok(count_dots(&page.planes)),
        };
    }
    take_lines(stage, profile, &mut reader, input)
}

// Reads the next page line by line, and takes each line as far as the stage.
fn take_lines<S: Source>(
    stage: PageStage,
    profile: &Profile,
    reader: &mut PageReader,
    input: &mut S,
) -> Result<u64, StreamStop>
    requires checked { IsOk (check profile.now) }
    requires none_left { lines_left_of reader.old ≡ 0 }
{
    let Some(page) = next_page(profile, reader, input)? else {
        return Ok(0);
    };
    let mut lines = Lines::make(stage, page, profile);
    for _ in 0..MOST_ROWS {
        if reader.lines_left() == 0 {
            break;
        }
        let repeats = reader.next_line(input)?;
        lines.take(reader.line(), repeats);
    }
    Ok(lines.count())
}

// The form and the window of the next page.
fn next_page<S: Source>(
    profile: &Profile,
    reader: &mut PageReader,
    input: &mut S,
) -> Result<Option<Page>, StreamStop>
    requires checked { IsOk (check profile.now) }
    requires none_left { lines_left_of reader.old ≡ 0 }
{
    let Some(form) = reader.next_page(input, profile.wanted())? else {
        return Ok(None);
    };
    let window = profile.window(form);
    Ok(Some(Page { form, window }))
}

// How many dots there are in all inks.
fn count_dots(planes: &Planes) -> u64 {
    let mut dots = 0u64;
    for ink in 0..planes.inks() {
        dots = dots.saturating_add(planes.count(ink));
    }
    dots
}
