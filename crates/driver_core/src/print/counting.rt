//! Counting the dots of a page by a team.
ghost use Rattle.dot_planes.specs.Tables.{dot};
ghost use Rattle.ink_meter.specs.Accounts.{all_inks};
ghost use Rattle.ink_meter.specs.Counts.{halftone_dots};
ghost use Rattle.page_definitions.specs.Dots.{Halftone, HasDots};
ghost use Rattle.printer_definitions.specs.Inks.{inks_of};
ghost use Rattle.printer_definitions.specs.Printer.{Printer};
ghost use Rattle.base_definitions.specs.Limits.{most_columns};
ghost use Rattle.std.specs.Prelude.{length, ◌<◌, ◌^◌, ◌≡◌, ◌≤◌};

use crate::print::ink_count::InkCount;
use dot_planes::Planes;
use ink_meter::{InkCounts, InkSet, count_dots};
use std::thread::Threads;
use worker_team::{Team, run_beside};

/// Counts the dots of each ink in planes of these inks. An ink outside the set has 0 dots. If there are at least as
/// many workers as inks, each ink is counted by one worker.
pub fn count_inks<R: Threads + Sync, G>(
    team: &Team<'_, R, G>,
    inks: InkSet,
    planes: &Planes,
) -> InkCounts
    requires planes { planes.now.inks ≡ length (inks_of inks) }
    requires width { planes.now.width ≤ most_columns }
    ensures dots { (p : Printer) (h : Halftone) → p.inks ≡ inks
        → HasDots p h planes.now.width planes.now.rows planes.now.inks (dot planes.now) → result ≡ halftone_dots p h }
    ensures most { all_inks result < 2 ^ 64 }
{
    // Read for its bound: the rows fit 32 bits.
    let _rows = planes.rows();
    if team.workers < planes.inks() {
        return count_dots(inks, planes);
    }
    match inks {
        InkSet::K => count_dots(inks, planes),
        InkSet::Cmy => {
            let mut counts = [
                InkCount::of(planes, 0),
                InkCount::of(planes, 1),
                InkCount::of(planes, 2),
            ];
            run_beside(team.threads, &mut counts, &mut || ());
            InkCounts {
                k: 0,
                c: counts[0].dots,
                m: counts[1].dots,
                y: counts[2].dots,
            }
        }
        InkSet::Cmyk => {
            let mut counts = [
                InkCount::of(planes, 0),
                InkCount::of(planes, 1),
                InkCount::of(planes, 2),
                InkCount::of(planes, 3),
            ];
            run_beside(team.threads, &mut counts, &mut || ());
            InkCounts {
                k: counts[0].dots,
                c: counts[1].dots,
                m: counts[2].dots,
                y: counts[3].dots,
            }
        }
    }
}
