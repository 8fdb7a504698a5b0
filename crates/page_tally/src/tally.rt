//! What is counted of a job while its commands pass.
ghost use Rattle.escp2_definitions.specs.Commands.{in_table, rows_len};
ghost use Rattle.escp2_definitions.specs.declared.command.Command.TheVariants as escp2_command;
ghost use Rattle.page_tally.specs.Tallies.{counted_after, counts_after, no_counts, no_tally, tally_after};
ghost use Rattle.std.specs.Prelude.{[], length, true, ◌*◌, ◌≡◌};

use escp2_definitions::Command;
use finish_definitions::PageState;
use job_lister::raster_dots;
use printer_definitions::{Ink, InkCounts};

/// What is counted of a job, after whole commands. Lengths are in 1/3600 inch.
#[derive(Clone, Copy, Debug, PartialEq, Eq)]
pub struct Tally {
    /// Where the job stands in its page.
    pub state: PageState,
    /// How many sheets were ejected, at most 2^32 - 1.
    pub sheets: u32,
    /// The dots on the sheet in hand. A count stops at 2^64 - 1.
    pub counts: InkCounts,
    /// The ink that rasters fire.
    pub colour: Ink,
    /// The unit of lengths and positions, 0 if none is set.
    pub unit: u8,
    /// The length of the page, 0 if none is set.
    pub length: u32,
    /// The top margin, from the paper's top.
    pub top: u32,
    /// The position of the head, from the top margin, at most 2^32 - 1.
    pub down: u32,
}

// No dots.
fn no_dots() -> InkCounts
    ensures { result ≡ no_counts }
{
    InkCounts {
        k: 0,
        c: 0,
        m: 0,
        y: 0,
    }
}

// The dots with so many more of an ink.
fn with_dots(dots: InkCounts, ink: Ink, more: u32) -> InkCounts
    ensures { result ≡ counts_after dots ink more }
{
    let more = u64::from(more);
    let mut counts = dots;
    match ink {
        Ink::Black => counts.k = dots.k.saturating_add(more),
        Ink::Cyan => counts.c = dots.c.saturating_add(more),
        Ink::Magenta => counts.m = dots.m.saturating_add(more),
        Ink::Yellow => counts.y = dots.y.saturating_add(more),
    }
    counts
}

// The length of n units, in 1/3600 inch.
fn units(n: u16, unit: u8) -> u32
    ensures { result ≡ n * unit }
{
    u32::from(n) * u32::from(unit)
}

impl Tally {
    /// The tally at the start of a job: black is the colour, and no unit, length or margin is set.
    pub fn start() -> Tally
        ensures { result ≡ no_tally }
    {
        Tally {
            state: PageState::Between,
            sheets: 0,
            counts: no_dots(),
            colour: Ink::Black,
            unit: 0,
            length: 0,
            top: 0,
            down: 0,
        }
    }

    /// Takes the next command of the job. `rows` has the rows of a raster, and is empty for each other command.
    pub fn see(&mut self, command: Command, rows: &[u8])
        requires in_range { in_table command ≡ true }
        requires rows_fit { length rows.now ≡ rows_len command }
        ensures { self.new ≡ tally_after self.old command rows.now }
    {
        let state = self.state.after(command);
        self.count(command, rows);
        self.state = state;
    }

    // What a command changes, the state left aside.
    fn count(&mut self, command: Command, rows: &[u8])
        requires in_range { in_table command ≡ true }
        requires rows_fit { length rows.now ≡ rows_len command }
        ensures { self.new ≡ counted_after self.old command rows.now }
    {
        match command {
            Command::Init => *self = self.reset(),
            Command::Unit { m } => self.unit = m,
            Command::Length { n } => *self = self.begun(units(n, self.unit)),
            Command::Margins { top, .. } => *self = self.opened(units(top, self.unit)),
            Command::DownTo { n } => self.down = units(n, self.unit),
            Command::DownBy { n } => self.down = self.down.saturating_add(units(n, self.unit)),
            Command::Eject => *self = self.ejected(),
            Command::Colour { ink } => self.colour = ink,
            Command::Raster { head: header } => {
                self.counts = with_dots(self.counts, self.colour, raster_dots(&header, rows));
            }
            Command::Graphics
            | Command::MicroWeave { .. }
            | Command::OneWay { .. }
            | Command::Across { .. }
            | Command::Return => {}
        }
    }

    // After a reset.
    fn reset(self) -> Tally
        ensures { result ≡ counted_after self escp2_command.Init [] }
    {
        let mut next = Tally::start();
        next.sheets = self.sheets;
        next
    }

    // A page of this length begins.
    fn begun(self, length: u32) -> Tally
        ensures { result ≡ record self { length = length; top = 0; down = 0 } }
    {
        let mut next = self;
        next.length = length;
        next.top = 0;
        next.down = 0;
        next
    }

    // The page opens, with this top margin.
    fn opened(self, top: u32) -> Tally
        ensures { result ≡ record self { top = top; down = 0 } }
    {
        let mut next = self;
        next.top = top;
        next.down = 0;
        next
    }

    // The sheet is ejected.
    fn ejected(self) -> Tally
        ensures { result ≡ counted_after self escp2_command.Eject [] }
    {
        let mut next = self;
        next.sheets = self.sheets.saturating_add(1);
        next.counts = no_dots();
        next.down = 0;
        next
    }
}
