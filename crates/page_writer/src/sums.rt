//! The size of a page's job.
ghost use Rattle.page_definitions.specs.declared.way.Way.TheVariants.{Woven};
ghost use Rattle.page_writer.specs.Sums.{most_ink, most_of_page, most_of_pass as most_of_pass_of, most_pass};
ghost use Rattle.base_definitions.specs.Limits.{most_columns, most_rows};
ghost use Rattle.separation_definitions.specs.CanPrint.{CanPrint};
ghost use Rattle.std.specs.Prelude.{◌*◌, ◌+◌, ◌/◌, ◌≡◌, ◌≤◌};

use crate::coding::STEP;
use crate::prologue::{END, PROLOGUE};
use printer_profile::{Profile, Window};
use weave_definitions::Plan;

/// The bytes of a page's job before and after its strokes.
pub(crate) const FRAME: u64 = PROLOGUE + END;

// The bytes of an ink in a stroke before its rows: its colour, the return to the left margin, and a raster's head.
const INK_HEAD: u64 = 12;

/// The size of what was written of a page.
#[derive(Clone, Copy, Debug, PartialEq, Eq)]
pub struct PageSum {
    /// Bytes of the page's job.
    pub bytes: u64,
    /// Rasters of the page's job: at most one for each ink in each pass.
    pub rasters: u32,
}

// The most bytes of an ink in a pass: its colour, the return to the left margin, and a raster whose coded rows are
// twice as long as the rows.
fn most_of_ink(nozzles: u8, width: u32) -> u64
    requires { width ≤ most_columns }
    ensures is { result ≡ 12 + 2 * nozzles * ((width + 7) / 8) }
    ensures most { result ≤ most_ink }
{
    INK_HEAD + 2 * u64::from(nozzles) * ((u64::from(width) + 7) / 8)
}

/// The most bytes of a pass over this many columns: a step down, and each ink.
pub(crate) fn most_of_pass(profile: &Profile, width: u32) -> u64
    requires { width ≤ most_columns }
    ensures is { result ≡ most_of_pass_of profile.now width }
    ensures most { result ≤ most_pass }
{
    STEP as u64 + u64::from(profile.inks.count()) * most_of_ink(profile.nozzles, width)
}

/// The most bytes that `write_page` writes for a page with this window: 49, and for each pass of the head 7, and for
/// each ink of a pass 12 plus twice the bytes of a row for each nozzle.
pub fn most_bytes(profile: &Profile, window: Window) -> u64
    requires can { CanPrint profile.now }
    requires width { window.width ≤ most_columns }
    requires some_rows { 1 ≤ window.height }
    requires most_rows { window.height ≤ most_rows }
    ensures { result ≡ most_of_page Woven profile.now window.width window.height }
{
    let plan = Plan::make(profile.nozzles, profile.pitch, window.height);
    FRAME + u64::from(plan.passes()) * most_of_pass(profile, window.width)
}
