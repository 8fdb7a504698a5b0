//! Pages from planes of their dots, by the way of the head.
ghost use Rattle.buffered_bytes.specs.Outside.{outside_of};
ghost use Rattle.dead_nozzles.specs.Dead.{IsRising, checked as checked_dead};
ghost use Rattle.page_definitions.specs.Ways.{CanGo};
ghost use Rattle.page_definitions.specs.declared.way.Way.TheVariants as way;
ghost use Rattle.page_writer.specs.Writes.{WritesPage};
ghost use Rattle.printer_definitions.specs.Inks.{inks_of};
ghost use Rattle.printer_profile.specs.Validity.{check};
ghost use Rattle.pwg_definitions.specs.Header.{IsWanted};
ghost use Rattle.separation_definitions.specs.Windows.{wanted_by, window_of};
ghost use Rattle.shingle_plan.specs.Fits.{Shingles};
ghost use Rattle.std.specs.Prelude.{IsOk, Ok, length, ◌≡◌};

use crate::strokes::{WriteStop, write_strokes};
use crate::sums::PageSum;
use dead_nozzles::StrokePlan;
use dot_planes::Planes;
use page_definitions::Way;
use printer_profile::{PageForm, Profile, checked_can_print};
use shingle_plan::ShinglePlan;
use std::alloc::Global;
use std::thread::Threads;
use weave_base::Sink;
use weave_definitions::Plan;
use worker_team::Team;

/// Writes the job of a page whose dots are in planes, by the way of the head, and returns the number of bytes and
/// rasters. The job is graphics mode and the sheet, then the strokes over the page's window that have a dot, and the
/// end of the sheet (ESC/P Reference Manual, graphics commands). Rows of rasters are coded.
///
/// All memory is taken before the first byte: the memory of `write_strokes`, and around dead nozzles the plan of the
/// strokes. On `Write` the sink took a proper prefix of the bytes.
pub fn write_by_way<R: Threads + Sync, G, K: Sink>(
    team: &Team<'_, R, G>,
    alloc: Global,
    profile: &Profile,
    way: &Way,
    form: PageForm,
    planes: &Planes,
    sink: &mut K,
) -> Result<PageSum, WriteStop>
    requires checked { IsOk (check profile.now) }
    requires way { CanGo way.now profile.now }
    requires wanted { IsWanted (wanted_by profile.now) form }
    requires width { planes.now.width ≡ (window_of form profile.now).width }
    requires rows { planes.now.rows ≡ (window_of form profile.now).height }
    requires inks { planes.now.inks ≡ length (inks_of profile.now.inks) }
    ensures { WritesPage way.now profile.now form planes.now (outside_of K.held K.faults sink.old sink.new) result }
{
    checked_can_print(*profile);
    match way {
        Way::Woven => {
            let passes = Plan::make(profile.nozzles, profile.pitch, planes.rows());
            write_strokes(team, alloc, profile, form, planes, &passes, sink)
        }
        Way::Shingled => {
            let shingles = ShinglePlan::make(profile.nozzles, profile.pitch, planes.rows());
            write_strokes(team, alloc, profile, form, planes, &shingles, sink)
        }
        Way::Healed(dead) => {
            let Ok(strokes) = StrokePlan::make(
                alloc,
                profile.nozzles,
                profile.pitch,
                planes.rows(),
                dead,
            ) else {
                return Err(WriteStop::Memory);
            };
            write_strokes(team, alloc, profile, form, planes, &strokes, sink)
        }
    }
}

/// Writes the job of a page in interleaved passes of the head, as `write_by_way` does.
pub fn write_page<R: Threads + Sync, G, K: Sink>(
    team: &Team<'_, R, G>,
    alloc: Global,
    profile: &Profile,
    form: PageForm,
    planes: &Planes,
    sink: &mut K,
) -> Result<PageSum, WriteStop>
    requires checked { IsOk (check profile.now) }
    requires wanted { IsWanted (wanted_by profile.now) form }
    requires width { planes.now.width ≡ (window_of form profile.now).width }
    requires rows { planes.now.rows ≡ (window_of form profile.now).height }
    requires inks { planes.now.inks ≡ length (inks_of profile.now.inks) }
    ensures { WritesPage way.Woven profile.now form planes.now (outside_of K.held K.faults sink.old sink.new) result }
{
    write_by_way(team, alloc, profile, &Way::Woven, form, planes, sink)
}

/// Writes the job of a page in shingled passes, as `write_by_way` does. Each row is printed in two passes of the head:
/// one has its even columns, the other its odd columns. `shingle_fits` tests whether a head can shingle.
pub fn write_shingled<R: Threads + Sync, G, K: Sink>(
    team: &Team<'_, R, G>,
    alloc: Global,
    profile: &Profile,
    form: PageForm,
    planes: &Planes,
    sink: &mut K,
) -> Result<PageSum, WriteStop>
    requires checked { IsOk (check profile.now) }
    requires fits { Shingles profile.now.nozzles profile.now.pitch }
    requires wanted { IsWanted (wanted_by profile.now) form }
    requires width { planes.now.width ≡ (window_of form profile.now).width }
    requires rows { planes.now.rows ≡ (window_of form profile.now).height }
    requires inks { planes.now.inks ≡ length (inks_of profile.now.inks) }
    ensures { WritesPage way.Shingled profile.now form planes.now (outside_of K.held K.faults sink.old sink.new) result }
{
    write_by_way(team, alloc, profile, &Way::Shingled, form, planes, sink)
}

/// Writes the job of a page around the nozzles of `dead`, as `write_by_way` does: the passes of the head without these
/// nozzles, and make-up strokes, in which live nozzles fire the rows of dead ones. The numbers in `dead` rise, and
/// `check_dead` tests them.
pub fn write_healed<R: Threads + Sync, G, K: Sink>(
    team: &Team<'_, R, G>,
    alloc: Global,
    profile: &Profile,
    form: PageForm,
    planes: &Planes,
    dead: &[u8],
    sink: &mut K,
) -> Result<PageSum, WriteStop>
    requires checked { IsOk (check profile.now) }
    requires rising { IsRising dead.now }
    requires nozzles { checked_dead profile.now.nozzles dead.now ≡ Ok tt }
    requires wanted { IsWanted (wanted_by profile.now) form }
    requires width { planes.now.width ≡ (window_of form profile.now).width }
    requires rows { planes.now.rows ≡ (window_of form profile.now).height }
    requires inks { planes.now.inks ≡ length (inks_of profile.now.inks) }
    ensures { WritesPage (way.Healed (record { items = dead.now })) profile.now form planes.now
        (outside_of K.held K.faults sink.old sink.new) result }
{
    checked_can_print(*profile);
    write_by_way(team, alloc, profile, &Way::around(dead), form, planes, sink)
}
