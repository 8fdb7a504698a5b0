//! Slabs of a page, filled by its lines.
ghost use Rattle.halftone_reader.specs.SoFar.{FillsSlab, MayReadOn, ReadsOn};
ghost use Rattle.page_halftoner.specs.Halftones.{HasRoom, HoldsRows, IsFull, IsSpare};
ghost use Rattle.pwg_stream.specs.declared.stops.StreamStop.TheVariants as stop;
ghost use Rattle.pwg_stream.specs.Reading.{lines_left_of};
ghost use Rattle.std.specs.Prelude.{IfSome, IsErrOf, OnOk, ◌+◌, ◌≡◌, ◌≤◌, ◌⊎◌};
ghost use Rattle.wavefront_team.specs.Dots.{IsSameSize};
ghost use Rattle.wavefront_team.specs.SoFar.{dots_in};
ghost use Rattle.weave_base.specs.Causes.{Rose};

use page_halftoner::{Diffuser, Filler};
use pwg_stream::{PageReader, StreamStop};
use raw_rows::RawRows;
use std::thread::Threads;
use weave_base::Source;
use worker_team::{Gate, Team};

/// Reads lines of the page into the slab until the slab is full or the page has no more lines. If the slab before had
/// no room for the last repeats of a line, these repeats come first.
pub(crate) fn fill<S: Source>(
    filler: &mut Filler,
    reader: &mut PageReader,
    source: &mut S,
) -> Result<(), StreamStop>
    requires { MayReadOn reader.old filler.old }
    ensures fills { FillsSlab reader.old reader.new (S.left source.old) (S.left source.new)
        filler.old filler.new result }
    ensures read { IsErrOf result stop.Read → Rose (S.faults source.old) (S.faults source.new) }
    ensures later { S.faults source.old ≤ S.faults source.new }
{
    let pending = filler.lines_left() - reader.lines_left();
    filler.put(reader.line(), pending);
    'groups: while !filler.is_full() && 0 < reader.lines_left() {
        let repeats = reader.next_line(source)?;
        filler.put(reader.line(), repeats);
    }
    Ok(())
}

/// Diffuses the full slab by the team, and reads lines of the page into the next slab: into the spare slab while the
/// team works, or, if there is no spare, into the same slab afterwards.
pub(crate) fn next_slab<R: Threads + Sync, S: Source, G: Gate + Sync>(
    team: &Team<'_, R, G>,
    filler: &mut Filler,
    diffuser: &mut Diffuser,
    spare: &mut Option<RawRows>,
    reader: &mut PageReader,
    source: &mut S,
) -> Result<(), StreamStop>
    requires full { IsFull filler.old }
    requires rows { HoldsRows filler.old }
    requires room { HasRoom filler.old.form filler.old.profile (dots_in diffuser.old.dots) }
    requires spare { IfSome spare.old (IsSpare filler.old) }
    requires lines { MayReadOn reader.old filler.old }
    ensures reads { ReadsOn reader.old reader.new (S.left source.old) (S.left source.new) filler.old filler.new
        diffuser.old diffuser.new result }
    ensures done { OnOk result (IsFull filler.new ⊎ (filler.new.count ≡ filler.new.form.height)) }
    ensures below { OnOk result (filler.new.first ≡ filler.old.first + filler.old.slab.rows) }
    ensures page { OnOk result ((filler.new.form ≡ filler.old.form) × (filler.new.profile ≡ filler.old.profile)) }
    ensures size { IsSameSize (dots_in diffuser.old.dots) (dots_in diffuser.new.dots) }
    ensures spare { OnOk result (IfSome spare.new (IsSpare filler.new)) }
    ensures read { IsErrOf result stop.Read → Rose (S.faults source.old) (S.faults source.new) }
    ensures later { S.faults source.old ≤ S.faults source.new }
{
    match spare {
        None => read_after(team, filler, diffuser, reader, source),
        Some(slab) => read_beside(team, filler, diffuser, slab, reader, source),
    }
}

// Diffuses the full slab by the team, and then reads lines of the page into the same slab.
fn read_after<R: Threads + Sync, S: Source, G: Gate + Sync>(
    team: &Team<'_, R, G>,
    filler: &mut Filler,
    diffuser: &mut Diffuser,
    reader: &mut PageReader,
    source: &mut S,
) -> Result<(), StreamStop>
    requires full { IsFull filler.old }
    requires rows { HoldsRows filler.old }
    requires room { HasRoom filler.old.form filler.old.profile (dots_in diffuser.old.dots) }
    requires lines { MayReadOn reader.old filler.old }
    ensures reads { ReadsOn reader.old reader.new (S.left source.old) (S.left source.new) filler.old filler.new
        diffuser.old diffuser.new result }
    ensures done { OnOk result (IsFull filler.new ⊎ (filler.new.count ≡ filler.new.form.height)) }
    ensures below { OnOk result (filler.new.first ≡ filler.old.first + filler.old.slab.rows) }
    ensures page { OnOk result ((filler.new.form ≡ filler.old.form) × (filler.new.profile ≡ filler.old.profile)) }
    ensures size { IsSameSize (dots_in diffuser.old.dots) (dots_in diffuser.new.dots) }
    ensures read { IsErrOf result stop.Read → Rose (S.faults source.old) (S.faults source.new) }
    ensures later { S.faults source.old ≤ S.faults source.new }
{
    let mut none = || {};
    let (slab, first) = (filler.slab(), filler.first());
    diffuser.diffuse_beside(team, slab, first, &mut none)?;
    filler.go_on();
    fill(filler, reader, source)
}

// Diffuses the full slab by the team, and reads lines of the page into the spare one meanwhile.
fn read_beside<R: Threads + Sync, S: Source, G: Gate + Sync>(
    team: &Team<'_, R, G>,
    filler: &mut Filler,
    diffuser: &mut Diffuser,
    spare: &mut RawRows,
    reader: &mut PageReader,
    source: &mut S,
) -> Result<(), StreamStop>
    requires full { IsFull filler.old }
    requires rows { HoldsRows filler.old }
    requires room { HasRoom filler.old.form filler.old.profile (dots_in diffuser.old.dots) }
    requires spare { IsSpare filler.old spare.old }
    requires lines { MayReadOn reader.old filler.old }
    ensures reads { ReadsOn reader.old reader.new (S.left source.old) (S.left source.new) filler.old filler.new
        diffuser.old diffuser.new result }
    ensures done { OnOk result (IsFull filler.new ⊎ (filler.new.count ≡ filler.new.form.height)) }
    ensures below { OnOk result (filler.new.first ≡ filler.old.first + filler.old.slab.rows) }
    ensures page { OnOk result ((filler.new.form ≡ filler.old.form) × (filler.new.profile ≡ filler.old.profile)) }
    ensures size { IsSameSize (dots_in diffuser.old.dots) (dots_in diffuser.new.dots) }
    ensures spare { OnOk result (IsSpare filler.new spare.new) }
    ensures read { IsErrOf result stop.Read → Rose (S.faults source.old) (S.faults source.new) }
    ensures later { S.faults source.old ≤ S.faults source.new }
{
    let first = filler.first();
    filler.swap(spare);
    let mut errand = || -> Result<(), StreamStop>
        requires { MayReadOn reader.now filler.now }
        ensures { FillsSlab reader.entry.now reader.exit.now (S.left source.entry.now) (S.left source.exit.now)
            filler.entry.now filler.exit.now result
            × (IsErrOf result stop.Read → Rose (S.faults source.entry.now) (S.faults source.exit.now))
            × (S.faults source.entry.now ≤ S.faults source.exit.now) }
    { fill(filler, reader, source) };
    diffuser.diffuse_beside(team, spare, first, &mut errand)?
}
