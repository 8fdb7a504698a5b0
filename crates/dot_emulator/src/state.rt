//! The state of a printer, except the dots of its sheet.
ghost use Rattle.dot_emulator.specs.Bounds.{farthest_across};
ghost use Rattle.dot_emulator.specs.Margins.{bottom_or, top_of};
ghost use Rattle.escp2_definitions.specs.Commands.{last_column};
ghost use Rattle.escp2_definitions.specs.Machine.{bottom_margin, longest_page, page_length, start, top_margin, units};
ghost use Rattle.std.specs.Prelude.{[], unwrap_or, ◌*◌, ◌≡◌, ◌≤◌};

use printer_definitions::Ink;

/// Margins from the paper's top, in 1/3600 inch.
#[derive(Clone, Copy)]
pub(crate) struct Margins {
    pub(crate) top: u32,
    pub(crate) bottom: u32,
}

/// The state of a printer without its dots. Lengths and places are in 1/3600 inch.
#[derive(Clone, Copy)]
pub(crate) struct State {
    pub(crate) graphics: bool,
    pub(crate) unit: Option<u8>,
    pub(crate) page: Option<u32>,
    pub(crate) margins: Option<Margins>,
    pub(crate) colour: Ink,
    /// From the top margin.
    pub(crate) down: u32,
    /// From the left margin.
    pub(crate) across: u32,
    /// How many columns the sheet has so far.
    pub(crate) columns: u32,
    ghost page_most: { unwrap_or page 0 ≤ longest_page },
    ghost down_most: { down ≤ longest_page },
    ghost top_most: { top_of margins ≤ longest_page },
    ghost across_most: { across ≤ farthest_across },
    ghost columns_most: { columns ≤ last_column },
    ghost columns_some: { 1 ≤ columns },
    ghost unit_some: { 1 ≤ unwrap_or unit 1 },
    ghost bottom_some: { 1 ≤ bottom_or 1 margins },
    ghost bottom_on_page: { bottom_or 0 margins ≤ unwrap_or page 0 },
}

impl State {
    ghost use Rattle.dot_emulator.specs.States.{machine_of};

    /// The state at the start of a job.
    pub(crate) fn start() -> State
        ensures { machine_of result [] ≡ start }
    {
        State {
            graphics: false,
            unit: None,
            page: None,
            margins: None,
            colour: Ink::Black,
            down: 0,
            across: 0,
            columns: 1,
        }
    }

    /// `n` units.
    pub(crate) fn units(&self, n: u16) -> u32
        ensures is { result ≡ units (machine_of self.now []) n }
        ensures most { result ≤ 65535 * 255 }
    {
        match self.unit {
            Some(unit) => u32::from(n) * u32::from(unit),
            None => 0,
        }
    }

    /// The page's length; 0 if not set.
    pub(crate) fn page_length(&self) -> u32
        ensures { result ≡ page_length (machine_of self.now []) }
    {
        self.page.unwrap_or(0)
    }

    /// The top margin; 0 if not set.
    pub(crate) fn top(&self) -> u32
        ensures { result ≡ top_margin (machine_of self.now []) }
    {
        match self.margins {
            Some(margins) => margins.top,
            None => 0,
        }
    }

    /// The bottom margin; 0 if not set.
    pub(crate) fn bottom(&self) -> u32
        ensures is { result ≡ bottom_margin (machine_of self.now []) }
        ensures on_page { result ≤ unwrap_or self.now.page 0 }
        ensures most { result ≤ longest_page }
    {
        match self.margins {
            Some(margins) => margins.bottom,
            None => 0,
        }
    }
}
