//! Counting the sheets of jobs and the dots on them.
ghost use Rattle.dot_emulator.specs.Runs.{IsSheet};
ghost use Rattle.escp2_definitions.specs.Machine.{Dot, Sheet as PrintedSheet};
ghost use Rattle.ink_meter.specs.Counts.{ink_dots};
ghost use Rattle.job_player.specs.Totals.{AreDistinct, AreFew};
ghost use Rattle.page_definitions.specs.Exact.{Exactly};
ghost use Rattle.printer_definitions.specs.Printer.{Printer, column_step, row_step};
ghost use Rattle.printer_profile.specs.Validity.{check};
ghost use Rattle.std.specs.Prelude.{IsOk, List, OnOk, ◌+◌, ◌<◌, ◌≡◌, ◌≤◌, ◌^◌};

use dot_emulator::{Emulator, EmulatorStop, Sheet};
use escp2_reader::{HeardState, JobReader};
use ink_meter::{InkCounts, InkSet, count_dots};
use printer_profile::Profile;
use std::alloc::Global;
use weave_base::Memory;

/// Runs the jobs of pages on one printer, one after another, and counts their sheets and the dots on them.
#[derive(Drop)]
pub struct JobCounter {
    alloc: Global,
    emulator: Emulator,
    sheets: u32,
    dots: InkCounts,
    ghost few: { AreFew sheets dots },
}

// The dots of each ink on a sheet.
fn sheet_dots(sheet: &Sheet) -> InkCounts
    ensures are { (p : Printer) (s : PrintedSheet) (dots : List Dot)
        → 1 ≤ column_step p → 1 ≤ row_step p → IsSheet p s sheet.now → Exactly s.dots dots → AreDistinct dots
        → result ≡ ink_dots dots }
    ensures few { AreFew 1 result }
{
    // Read for its bound: the rows fit 32 bits.
    let _rows = sheet.rows;
    count_dots(InkSet::Cmyk, &sheet.planes)
}

impl JobCounter {
    ghost use Rattle.ink_meter.specs.Accounts.{together};
    ghost use Rattle.job_player.specs.Counting.{CountsPage, IsBetweenPages, TakesPage, counts_of, sheets_of};
    ghost use Rattle.page_definitions.specs.Printing.{GivesSheet};

    /// A printer whose profile passes its checks, before any page. `make` allocates no memory; `execute_page` does.
    pub fn make(alloc: Global, profile: &Profile) -> JobCounter
        requires { IsOk (check profile.now) }
        ensures between { IsBetweenPages profile.now result }
        ensures sheets { sheets_of result ≡ 0 }
        ensures counts { counts_of result ≡ record { k = 0; c = 0; m = 0; y = 0 } }
    {
        JobCounter {
            alloc,
            emulator: Emulator::make(alloc, profile),
            sheets: 0,
            dots: InkCounts {
                k: 0,
                c: 0,
                m: 0,
                y: 0,
            },
        }
    }

    /// How many sheets were counted.
    pub fn sheets(&self) -> u32
        ensures { result ≡ sheets_of self.now }
    {
        self.sheets
    }

    /// The dots of each ink on these sheets.
    pub fn dots(&self) -> InkCounts
        ensures { result ≡ counts_of self.now }
    {
        self.dots
    }

    /// Runs the job of a page, and counts its sheet and the dots on the sheet. Takes the memory for the rows of a
    /// raster and for the dots of the sheet. After `Memory` the counter is of no more use.
    pub fn execute_page(&mut self, bytes: &[u8]) -> Result<(), Memory>
        requires room { sheets_of self.old < 2 ^ 16 }
        requires page { TakesPage self.old bytes.now }
        ensures { OnOk result ((p : Printer) (dots : List Dot)
            → IsBetweenPages p self.old → GivesSheet p bytes.now dots → CountsPage p dots self.old self.new) }
    {
        let mut reader = JobReader::make(self.alloc)?;
        let mut rest = bytes;
        'commands: while !rest.is_empty() {
            let heard = reader.feed(rest);
            rest = &rest[heard.used..];
            let command = match heard.state {
                HeardState::One(command) => command,
                HeardState::More | HeardState::Fault { .. } => unreachable!(),
            };
            match self.emulator.run(&command, reader.rows()) {
                Ok(None) => {}
                Ok(Some(sheet)) => self.add(&sheet),
                Err(EmulatorStop::Memory) => return Err(Memory),
                Err(EmulatorStop::Refused(_)) => unreachable!(),
            }
        }
        Ok(())
    }

    // Counts a sheet.
    fn add(&mut self, sheet: &Sheet)
        requires { self.old.sheets < 2 ^ 16 }
        ensures emulator { self.new.emulator ≡ self.old.emulator }
        ensures sheets { self.new.sheets ≡ self.old.sheets + 1 }
        ensures dots { (p : Printer) (s : PrintedSheet) (dots : List Dot)
            → 1 ≤ column_step p → 1 ≤ row_step p → IsSheet p s sheet.now → Exactly s.dots dots → AreDistinct dots
            → self.new.dots ≡ together self.old.dots (ink_dots dots) }
    {
        let more = sheet_dots(sheet);
        self.sheets += 1;
        self.dots.k += more.k;
        self.dots.c += more.c;
        self.dots.m += more.m;
        self.dots.y += more.y;
    }
}
