//! A job that is passed on and told, event by event.
ghost use Rattle.buffered_bytes.specs.Outside.{outside_of};
ghost use Rattle.finish_core.specs.Passing.{GoesOn, IsHalt, IsPieceEnd, IsReading, PassesJob, Reads, fed_parts, job_of};
ghost use Rattle.finish_core.specs.Passing.{most_job};
ghost use Rattle.finish_core.specs.Sides.{IsLater, moment_of};
ghost use Rattle.std.specs.Option.{option_map};
ghost use Rattle.std.specs.Prelude.{IfErr, IfOk, IsOk, List, [], length, take, ℕ, ◌++◌, ◌+◌, ◌<◌, ◌≡◌, ◌≤◌, ◌^◌};

use crate::asking::ask_behind;
use crate::halts::Halt;
use crate::parts::Parts;
use crate::telling::tell_seen;
use buffered_bytes::Unread;
use driver_answer::JobStop;
use page_tally::Telling;
use std::alloc::Global;
use weave_base::{Shelf, Sink, Source};

/// The most bytes of a job.
pub const MOST_JOB: u64 = 4_611_686_018_427_387_904;

/// How a job is passed on: where memory comes from, which lines are told, and which text stops the run.
#[derive(Clone, Copy)]
pub struct Passing<'a> {
    pub alloc: Global,
    pub telling: Telling,
    pub stop: Option<&'a str>,
}

// Passes on the next bytes of a job up to the end of the next event, tells its lines, and asks the shelf behind a
// reset. It returns how many bytes it passed on.
fn pass_event<K: Sink, E: Sink, L: Shelf>(
    how: Passing<'_>,
    parts: &mut Parts,
    piece: &[u8],
    out: &mut K,
    err: &mut E,
    shelf: &mut L,
) -> Result<usize, Halt>
    requires reading { IsReading parts.old }
    requires room { fed_parts parts.old + length piece.now < 2 ^ 63 }
    requires some { 0 < length piece.now }
    ensures some { IfOk result (λ used. 0 < used) }
    ensures used { IfOk result (λ used. used ≤ length piece.now) }
    ensures reads { IfOk result (λ used. (sofar : List ℕ) → Reads parts.old sofar
        → Reads parts.new (sofar ++ take used piece.now)) }
    ensures goes { IfOk result (λ used. (sofar : List ℕ) → Reads parts.old sofar
        → GoesOn how.entry.telling
        (moment_of K.held K.faults E.held E.faults L.faults out.old err.old shelf.old)
        (moment_of K.held K.faults E.held E.faults L.faults out.new err.new shelf.new)
        sofar (sofar ++ take used piece.now)) }
    ensures halt { IfErr result (λ why. (sofar full : List ℕ) → Reads parts.old sofar
        → job_of full ≡ sofar ++ piece.now
        → IsHalt how.entry.telling (option_map (λ name. name.now) how.entry.stop) (L.files shelf.old) parts.new
        (moment_of K.held K.faults E.held E.faults L.faults out.old err.old shelf.old)
        (moment_of K.held K.faults E.held E.faults L.faults out.new err.new shelf.new) sofar full why) }
    ensures later { IsLater
        (moment_of K.held K.faults E.held E.faults L.faults out.old err.old shelf.old)
        (moment_of K.held K.faults E.held E.faults L.faults out.new err.new shelf.new) }
    ensures stay { L.files shelf.new ≡ L.files shelf.old }
{
    let seen = parts.pass_on(piece, how.telling, out)?;
    tell_seen(how.telling, parts.tally(), seen.state, err);
    ask_behind(how.alloc, how.stop, seen.state, shelf)?;
    Ok(seen.used)
}

// Passes on the next bytes of a job, event by event.
fn pass_events<K: Sink, E: Sink, L: Shelf>(
    how: Passing<'_>,
    parts: &mut Parts,
    piece: &[u8],
    out: &mut K,
    err: &mut E,
    shelf: &mut L,
) -> Result<(), Halt>
    requires reading { IsReading parts.old }
    requires room { fed_parts parts.old + length piece.now < 2 ^ 63 }
    ensures ends { (sofar full : List ℕ) → Reads parts.old sofar → job_of full ≡ sofar ++ piece.now
        → IsPieceEnd how.entry.telling (option_map (λ name. name.now) how.entry.stop) (L.files shelf.old) parts.new
        (moment_of K.held K.faults E.held E.faults L.faults out.old err.old shelf.old)
        (moment_of K.held K.faults E.held E.faults L.faults out.new err.new shelf.new) sofar full result }
    ensures later { IsLater
        (moment_of K.held K.faults E.held E.faults L.faults out.old err.old shelf.old)
        (moment_of K.held K.faults E.held E.faults L.faults out.new err.new shelf.new) }
    ensures stay { L.files shelf.new ≡ L.files shelf.old }
{
    let mut at = 0;
    'events: while at < piece.len() {
        at += pass_event(how, parts, &piece[at..], out, err, shelf)?;
    }
    Ok(())
}

// Passes on a piece of a job after `fed` bytes, as far as the job may have them.
fn pass_piece<K: Sink, E: Sink, L: Shelf>(
    how: Passing<'_>,
    parts: &mut Parts,
    piece: &[u8],
    fed: u64,
    out: &mut K,
    err: &mut E,
    shelf: &mut L,
) -> Result<(), Halt>
    requires within { fed ≤ most_job }
    requires reading { (sofar : List ℕ) × Reads parts.old sofar × (length sofar ≡ fed) }
    ensures within { IsOk result → fed + length piece.now ≤ most_job }
    ensures ends { (sofar : List ℕ) → Reads parts.old sofar → length sofar ≡ fed
        → IsPieceEnd how.entry.telling (option_map (λ name. name.now) how.entry.stop) (L.files shelf.old) parts.new
        (moment_of K.held K.faults E.held E.faults L.faults out.old err.old shelf.old)
        (moment_of K.held K.faults E.held E.faults L.faults out.new err.new shelf.new)
        sofar (sofar ++ piece.now) result }
    ensures later { IsLater
        (moment_of K.held K.faults E.held E.faults L.faults out.old err.old shelf.old)
        (moment_of K.held K.faults E.held E.faults L.faults out.new err.new shelf.new) }
    ensures stay { L.files shelf.new ≡ L.files shelf.old }
{
    let room = MOST_JOB - fed;
    pass_events(how, parts, first_bytes(piece, room), out, err, shelf)?;
    if room < piece.len() as u64 {
        return Err(Halt::Job {
            offset: MOST_JOB,
            cause: JobStop::TooLong,
        });
    }
    Ok(())
}

// The first `count` bytes, or all if there are fewer.
fn first_bytes(bytes: &[u8], count: u64) -> &[u8]
    ensures { result.now ≡ take count bytes.now }
{
    if count < bytes.len() as u64 {
        &bytes[..count as usize]
    } else {
        bytes
    }
}

/// Passes on the job in `input`, read by read, and tells its lines.
pub fn pass_job<S: Source, K: Sink, E: Sink, L: Shelf>(
    how: Passing<'_>,
    parts: &mut Parts,
    unread: &mut Unread,
    input: &mut S,
    out: &mut K,
    err: &mut E,
    shelf: &mut L,
) -> Result<(), Halt>
    requires anew { Reads parts.old [] }
    requires empty { unread.old ≡ [] }
    ensures passes { PassesJob how.entry.telling (option_map (λ name. name.now) how.entry.stop) (L.files shelf.old) parts.new
        (outside_of S.left S.faults input.old input.new)
        (moment_of K.held K.faults E.held E.faults L.faults out.old err.old shelf.old)
        (moment_of K.held K.faults E.held E.faults L.faults out.new err.new shelf.new) result }
    ensures later { IsLater
        (moment_of K.held K.faults E.held E.faults L.faults out.old err.old shelf.old)
        (moment_of K.held K.faults E.held E.faults L.faults out.new err.new shelf.new) }
    ensures stay { L.files shelf.new ≡ L.files shelf.old }
{
    let mut fed = 0;
    'reads: loop {
        let count = match unread.more(input) {
            Ok(0) => return Ok(()),
            Ok(count) => count,
            Err(_failed) => return Err(Halt::Read),
        };
        pass_piece(how, parts, unread.bytes(), fed, out, err, shelf)?;
        unread.use_up(count);
        fed += count as u64;
    }
}
