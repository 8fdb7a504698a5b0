//! A whole page, from the strokes of a head.
ghost use Rattle.buffered_bytes.specs.Outside.{outside_of};
ghost use Rattle.page_writer.specs.Heads.{Suits, strokes_over};
ghost use Rattle.page_writer.specs.Outlets.{GathersPart, outlet_of};
ghost use Rattle.page_writer.specs.Pieces.{HaveRoom, SendsStrokes, sent_bytes};
ghost use Rattle.page_writer.specs.StrokeBytes.{end_bytes, head_bytes};
ghost use Rattle.page_writer.specs.Sums.{SumsStrokes, most_of_pass as most_of_pass_of};
ghost use Rattle.page_writer.specs.Writes.{WritesStrokes};
ghost use Rattle.page_writer.specs.declared.waiting.TheConstants.{MOST_WAITING};
ghost use Rattle.printer_definitions.specs.Printer.{row_units as row_units_of};
ghost use Rattle.pwg_definitions.specs.Header.{IsWanted};
ghost use Rattle.separation_definitions.specs.Windows.{wanted_by, window_of};
ghost use Rattle.std.specs.Io.KnownBytes.{Appends};
ghost use Rattle.std.specs.Prelude.{IfOk, IfSome, OnErr, OnOk, []};
ghost use Rattle.std.specs.Prelude.{vec_capacity, vec_len, ◌*◌, ◌++◌, ◌+◌, ◌≡◌, ◌≤◌};
ghost use Rattle.weave_base.specs.Causes.{HasCause};
ghost use Rattle.weave_base.specs.Parts.{AppendsPart};

use crate::alone::put_alone;
use crate::batches::put_batches;
use crate::coded::{Coded, Sent};
use crate::head::Head;
use crate::numbers::sheet_of;
use crate::page_strokes::{PageStrokes, Strokes};
use crate::prologue::{END, append_end, append_prologue};
use crate::room::{Batches, cut};
use crate::sums::{FRAME, PageSum, most_of_pass};
use crate::waiting::{MOST_WAITING, flush, make_room};
use base_definitions::Memory;
use dot_planes::Planes;
use printer_profile::{PageForm, Profile};
use std::alloc::Global;
use std::thread::Threads;
use weave_base::{Failed, Sink};
use worker_team::Team;

/// Why a page was not written whole.
#[derive(Clone, Copy, Debug, PartialEq, Eq)]
pub enum WriteStop {
    /// A write failed.
    Write,
    /// Memory ran out, before the first byte was written.
    Memory,
}

// Sends the strokes of a page: coded by all workers where there is room for their batches, else by the caller alone.
fn put_by_all<R: Threads + Sync, H: Head + Sync, K: Sink>(
    threads: &R,
    page: &PageStrokes<'_, H>,
    batches: Option<Batches<'_, PageStrokes<'_, H>>>,
    coded: &mut Coded,
    waiting: &mut Vec<u8>,
    sink: &mut K,
) -> Result<Sent, Failed>
    requires suits { Suits page.now.profile.now (H.strokes page.now.head.now) page.now.planes.now }
    requires batches { IfSome batches (HaveRoom
        (λ it. record { p = it.profile.now; head = H.strokes it.head.now; t = it.planes.now })
        (record { p = page.now.profile.now; head = H.strokes page.now.head.now; t = page.now.planes.now })) }
    requires room { most_of_pass_of page.now.profile.now page.now.planes.now.width ≤ vec_capacity coded.old.code }
    requires waiting { MOST_WAITING ≤ vec_capacity waiting.old }
    ensures ok { IfOk result (SendsStrokes
        (record { p = page.now.profile.now; head = H.strokes page.now.head.now; t = page.now.planes.now })
        0 0 (H.strokes page.now.head.now).count
        (outlet_of (K.held sink.old) waiting.old.items) (outlet_of (K.held sink.new) waiting.new.items)) }
    ensures part { OnErr result (GathersPart (outlet_of (K.held sink.old) waiting.old.items) (K.held sink.new)
        (sent_bytes
        (record { p = page.now.profile.now; head = H.strokes page.now.head.now; t = page.now.planes.now })
        0 0 (H.strokes page.now.head.now).count)) }
    ensures cause { HasCause (K.faults sink.old) (K.faults sink.new) result }
    ensures capacity { vec_capacity waiting.old ≤ vec_capacity waiting.new }
{
    match batches {
        Some(batches) => put_batches(threads, page, batches, waiting, sink),
        None => put_alone(page, coded, waiting, sink),
    }
}

// Writes what waits of a page and then its end, so that no byte waits any longer.
fn put_end<K: Sink>(waiting: &mut Vec<u8>, sink: &mut K) -> Result<(), Failed>
    requires waiting { MOST_WAITING ≤ vec_capacity waiting.old }
    ensures ok { OnOk result (Appends (K.held sink.old) (K.held sink.new) (waiting.old.items ++ end_bytes)) }
    ensures part { OnErr result (AppendsPart (K.held sink.old) (K.held sink.new) (waiting.old.items ++ end_bytes)) }
    ensures cause { HasCause (K.faults sink.old) (K.faults sink.new) result }
{
    make_room(END as usize, waiting, sink)?;
    append_end(waiting);
    flush(waiting, sink)
}

// Writes a page whose room is reserved: its prologue, its strokes, and its end.
fn put_page<R: Threads + Sync, H: Head + Sync, K: Sink>(
    threads: &R,
    page: &PageStrokes<'_, H>,
    batches: Option<Batches<'_, PageStrokes<'_, H>>>,
    form: PageForm,
    coded: &mut Coded,
    waiting: &mut Vec<u8>,
    sink: &mut K,
) -> Result<PageSum, Failed>
    requires suits { Suits page.now.profile.now (H.strokes page.now.head.now) page.now.planes.now }
    requires wanted { IsWanted (wanted_by page.now.profile.now) form }
    requires rows { page.now.planes.now.rows ≡ (window_of form page.now.profile.now).height }
    requires batches { IfSome batches (HaveRoom
        (λ it. record { p = it.profile.now; head = H.strokes it.head.now; t = it.planes.now })
        (record { p = page.now.profile.now; head = H.strokes page.now.head.now; t = page.now.planes.now })) }
    requires empty { waiting.old.items ≡ [] }
    requires none { vec_len waiting.old ≡ 0 }
    requires waiting { MOST_WAITING ≤ vec_capacity waiting.old }
    requires room { most_of_pass_of page.now.profile.now page.now.planes.now.width ≤ vec_capacity coded.old.code }
    ensures ok { OnOk result (Appends (K.held sink.old) (K.held sink.new) (head_bytes page.now.profile.now
        (H.strokes page.now.head.now) page.now.planes.now (form.height * row_units_of page.now.profile.now))) }
    ensures sum { IfOk result (SumsStrokes page.now.profile.now page.now.planes.now.width page.now.planes.now.rows
        (form.height * row_units_of page.now.profile.now)
        (strokes_over page.now.profile.now (H.strokes page.now.head.now) page.now.planes.now)) }
    ensures part { OnErr result (AppendsPart (K.held sink.old) (K.held sink.new) (head_bytes page.now.profile.now
        (H.strokes page.now.head.now) page.now.planes.now (form.height * row_units_of page.now.profile.now))) }
    ensures cause { HasCause (K.faults sink.old) (K.faults sink.new) result }
    ensures short { IfOk result (λ sum. sum.bytes
        ≤ 49 + (H.strokes page.now.head.now).count * most_of_pass_of page.now.profile.now page.now.planes.now.width) }
{
    append_prologue(sheet_of(page.profile, form, page.head.above()), waiting);
    let strokes = put_by_all(threads, page, batches, coded, waiting, sink)?;
    put_end(waiting, sink)?;
    Ok(PageSum {
        bytes: FRAME + strokes.bytes,
        rasters: strokes.rasters,
    })
}

// Room for the batches of these workers. `None` says that the caller codes alone: one worker does as well, or there is
// no memory for more.
fn batches_of<'a, H: Head>(
    alloc: Global,
    workers: u8,
    page: &'a PageStrokes<'a, H>,
    most: u64,
) -> Option<Batches<'a, PageStrokes<'a, H>>>
    requires workers { workers ≤ 64 }
    requires some { 1 ≤ most }
    requires most { most_of_pass_of page.now.profile.now page.now.planes.now.width ≤ most }
    ensures batches { IfSome result (HaveRoom
        (λ it. record { p = it.profile.now; head = H.strokes it.head.now; t = it.planes.now })
        (record { p = page.now.profile.now; head = H.strokes page.now.head.now; t = page.now.planes.now })) }
{
    let cut = cut(workers, page.count(), most)?;
    match Batches::make(alloc, page, cut, most as usize) {
        Ok(batches) => Some(batches),
        Err(Memory) => None,
    }
}

/// Writes the job of a page from the strokes of a head over planes of its dots, and returns the number of bytes and
/// rasters. The job is graphics mode and the sheet, then the strokes that have a dot, and the end of the sheet (ESC/P
/// Reference Manual, graphics commands). Rows of rasters are coded.
///
/// All memory is taken before the first byte: room for one stroke and for bytes that wait, and for several workers room
/// for two batches. On `Write` the sink took a proper prefix of the bytes.
pub fn write_strokes<R: Threads + Sync, G, H: Head + Sync, K: Sink>(
    team: &Team<'_, R, G>,
    alloc: Global,
    profile: &Profile,
    form: PageForm,
    planes: &Planes,
    head: &H,
    sink: &mut K,
) -> Result<PageSum, WriteStop>
    requires suits { Suits profile.now (H.strokes head.now) planes.now }
    requires wanted { IsWanted (wanted_by profile.now) form }
    requires rows { planes.now.rows ≡ (window_of form profile.now).height }
    ensures { WritesStrokes profile.now (H.strokes head.now) planes.now (form.height * row_units_of profile.now)
        (outside_of K.held K.faults sink.old sink.new) result }
{
    let most = most_of_pass(profile, planes.width());
    let Ok(mut coded) = Coded::make(alloc, most as usize) else {
        return Err(WriteStop::Memory);
    };
    let Ok(mut waiting) = Vec::with_capacity(alloc, MOST_WAITING) else {
        return Err(WriteStop::Memory);
    };
    let page = PageStrokes {
        profile,
        planes,
        head,
    };
    let batches = batches_of(alloc, team.workers, &page, most);
    match put_page(
        team.threads,
        &page,
        batches,
        form,
        &mut coded,
        &mut waiting,
        sink,
    ) {
        Ok(sum) => Ok(sum),
        Err(Failed) => Err(WriteStop::Write),
    }
}
