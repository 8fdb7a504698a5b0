//! Pages that are read and halftoned.
ghost use Rattle.halftone_reader.specs.Reading.{IsBetween, ReadsHalftone};
ghost use Rattle.page_halftoner.specs.Screenings.{screening_of};
ghost use Rattle.printer_profile.specs.Validity.{check};
ghost use Rattle.pwg_definitions.specs.Limits.{most_pages};
ghost use Rattle.pwg_definitions.specs.Stream.StreamEnd.{Fault};
ghost use Rattle.pwg_definitions.specs.Stream.{pages_from};
ghost use Rattle.pwg_stream.specs.Reading.{has_ended, page_of, text_of};
ghost use Rattle.pwg_stream.specs.Stops.{OnInput};
ghost use Rattle.pwg_stream.specs.Taken.{TakesNoPage};
ghost use Rattle.buffered_bytes.specs.Text.{UsesSome};
ghost use Rattle.pwg_stream.specs.declared.stops.StreamStop.TheVariants as stop;
ghost use Rattle.separation_definitions.specs.Windows.{wanted_by};
ghost use Rattle.std.specs.Io.KnownBytes.{IsAtEnd};
ghost use Rattle.std.specs.Prelude.{IfNone, IfOk, IfSome, IsErrOf, IsOk, [], false, ◌+◌, ◌-◌, ◌≡◌, ◌≤◌};
ghost use Rattle.weave_base.specs.Causes.{Rose};

use crate::slabs::{fill, next_slab};
use diffusion_kernel::Kernel;
use dot_planes::Planes;
use page_halftoner::{Diffuser, Filler};
use printer_profile::Profile;
use pwg_definitions::PageForm;
use pwg_stream::{PageReader, StreamStop};
use std::alloc::Global;
use std::thread::Threads;
use weave_base::Source;
use worker_team::{Gate, Team};

/// A page that was read.
#[derive(Drop)]
pub struct HalftonedPage {
    /// What its header says.
    pub form: PageForm,
    /// The dots of its halftone, inside the margins.
    pub planes: Planes,
}

/// Reads the next page with all its lines, and halftones the page with this grain, 0 for none. The team diffuses the
/// page's slabs. Returns `None` at the end of the stream.
pub fn read_page<R: Threads + Sync, S: Source, G: Gate + Sync>(
    team: &Team<'_, R, G>,
    alloc: Global,
    reader: &mut PageReader,
    profile: &Profile,
    kernel: Kernel,
    grain: u8,
    source: &mut S,
) -> Result<Option<HalftonedPage>, StreamStop>
    requires checked { IsOk (check profile.now) }
    requires between { IsBetween reader.old }
    requires unended { has_ended reader.old ≡ false }
    ensures page { IfOk result (λ o. IfSome o (λ page.
        ReadsHalftone profile.now (screening_of kernel grain) reader.old reader.new (S.left source.old) (S.left source.new)
        page.form page.planes)) }
    ensures none { IfOk result
        (λ o. IfNone o (IsAtEnd (text_of reader.old (S.left source.old))
        × IsAtEnd (text_of reader.new (S.left source.new)))) }
    ensures between { IfOk result (λ o. IfSome o (λ page. IsBetween reader.new)) }
    ensures input { OnInput result (λ number line cause. IfSome (text_of reader.old (S.left source.old)) (λ text.
        pages_from (wanted_by profile.now) (most_pages - page_of reader.old) (page_of reader.old + 1) text
        ≡ record { pages = []; end = Fault number line cause })) }
    ensures place { OnInput result (λ number line cause. number ≡ page_of reader.old + 1) }
    ensures read { IsErrOf result stop.Read → Rose (S.faults source.old) (S.faults source.new) }
    ensures taken { IsErrOf result stop.Read
        → TakesNoPage (wanted_by profile.now) (page_of reader.old)
        (text_of reader.old (S.left source.old)) (S.left source.new) }
    ensures used { UsesSome (text_of reader.old (S.left source.old)) (text_of reader.new (S.left source.new)) }
    ensures later { S.faults source.old ≤ S.faults source.new }
{
    let Some(form) = reader.next_page(source, profile.wanted())? else {
        return Ok(None);
    };
    let mut filler = Filler::begin(alloc, profile, form)?;
    let mut diffuser = Diffuser::begin(alloc, profile, form, kernel, grain)?;
    let mut spare = filler.spare(alloc, team.workers)?;
    fill(&mut filler, reader, source)?;
    'slabs: while filler.is_full() {
        next_slab(team, &mut filler, &mut diffuser, &mut spare, reader, source)?;
    }
    let planes = diffuser.finish();
    Ok(Some(HalftonedPage { form, planes }))
}
