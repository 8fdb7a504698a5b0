//! Counting the dots of planes.
ghost use Rattle.dot_planes.specs.Tables.{dot};
ghost use Rattle.ink_meter.specs.Accounts.{all_inks};
ghost use Rattle.page_definitions.specs.Dots.{Halftone, HasDots};
ghost use Rattle.ink_meter.specs.Counts.{halftone_dots};
ghost use Rattle.printer_definitions.specs.Inks.{inks_of};
ghost use Rattle.printer_definitions.specs.Printer.{Printer};
ghost use Rattle.base_definitions.specs.Limits.{most_columns};
ghost use Rattle.std.specs.Prelude.{length, ◌<◌, ◌^◌, ◌≡◌, ◌≤◌};

use dot_planes::Planes;
use printer_definitions::{InkCounts, InkSet};

/// The number of dots of each ink in planes of these inks. An ink outside the set has none.
pub fn count_dots(inks: InkSet, planes: &Planes) -> InkCounts
    requires planes { planes.now.inks ≡ length (inks_of inks) }
    requires width { planes.now.width ≤ most_columns }
    ensures dots { (p : Printer) (h : Halftone) → p.inks ≡ inks
        → HasDots p h planes.now.width planes.now.rows planes.now.inks (dot planes.now) → result ≡ halftone_dots p h }
    ensures most { all_inks result < 2 ^ 64 }
{
    // Read for its bound: the rows fit 32 bits.
    let _rows = planes.rows();
    match inks {
        InkSet::K => InkCounts {
            k: planes.count(0),
            c: 0,
            m: 0,
            y: 0,
        },
        InkSet::Cmy => InkCounts {
            k: 0,
            c: planes.count(0),
            m: planes.count(1),
            y: planes.count(2),
        },
        InkSet::Cmyk => InkCounts {
            k: planes.count(0),
            c: planes.count(1),
            m: planes.count(2),
            y: planes.count(3),
        },
    }
}
