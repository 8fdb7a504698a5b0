//! The lines of a page, each taken as far as the stage.
ghost use Rattle.printer_profile.specs.Validity.{check};
ghost use Rattle.std.specs.Prelude.{IsOk};

use crate::stages::PageStage;
use dot_planes::{TILE_BYTES, TileAmounts};
use ink_separation::Separator;
use printer_profile::Profile;
use pwg_definitions::PageForm;
use separation_definitions::Window;

/// The form of a page, and its window.
#[derive(Clone, Copy)]
pub struct Page {
    pub form: PageForm,
    pub window: Window,
}

/// What was made of the lines so far.
#[derive(Drop)]
pub struct Lines {
    stage: PageStage,
    page: Page,
    separator: Separator,
    // How many lines there were.
    lines: u64,
    // The bytes of a tile's pixels, by columns. Which they are does not matter for the time.
    columns: [u8; TILE_BYTES],
    // The tile's amounts.
    amounts: TileAmounts,
}

impl Lines {
    /// No lines yet, for a printer with this profile.
    pub fn make(stage: PageStage, page: Page, profile: &Profile) -> Lines
        requires checked { IsOk (check profile.now) }
    {
        Lines {
            stage,
            page,
            separator: Separator::make(profile, page.form.kind, page.window),
            lines: 0,
            columns: [0; TILE_BYTES],
            amounts: TileAmounts::zero(),
        }
    }

    /// Takes a line this many times.
    pub fn take(&mut self, line: &[u8], repeats: u32) {
        for _ in 0..repeats {
            self.take_once(line);
        }
    }

    // Takes a line. One in the margins is only counted. With every 32nd line a band of tiles is separated.
    fn take_once(&mut self, line: &[u8]) {
        let window = self.page.window;
        let top = u64::from(window.top);
        let printed = top <= self.lines && self.lines - top < u64::from(window.height);
        self.lines = self.lines.saturating_add(1);
        if self.stage == PageStage::Read || !printed || self.lines % 32 != 0 {
            return;
        }
        put_first(&mut self.columns, line);
        separate_band(&self.separator, &self.columns, &mut self.amounts);
    }

    /// How many lines there were.
    pub fn count(&self) -> u64 {
        self.lines
    }
}

// Puts the first bytes of a line among the columns.
fn put_first(columns: &mut [u8; TILE_BYTES], line: &[u8]) {
    let many = line.len().min(TILE_BYTES);
    columns[..many].copy_from_slice(&line[..many]);
}

/// Separates as many tiles, of 32 rows of 64 pixels, as the window has whole in a band. All have the same bytes.
pub fn separate_band(separator: &Separator, columns: &[u8; TILE_BYTES], amounts: &mut TileAmounts) {
    for _ in 0..separator.window().width / 64 {
        separator.separate_columns(columns, amounts);
    }
}
