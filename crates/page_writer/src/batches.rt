//! Batches of pieces: the workers code one batch while the caller sends the batch before.
ghost use Rattle.page_writer.specs.Heads.{HeadPage, IsPage};
ghost use Rattle.page_writer.specs.Outlets.{GathersPart, outlet_of};
ghost use Rattle.page_writer.specs.Pieces.{AllRoomy, AreCoded, Each, HaveRoom, IsAssigned, IsFilled, IsRoomy};
ghost use Rattle.page_writer.specs.Pieces.{SendsBatch, SendsStrokes, batch_bytes, bound_of, sent_bytes};
ghost use Rattle.page_writer.specs.declared.waiting.TheConstants.{MOST_WAITING};
ghost use Rattle.std.specs.Prelude.{IfOk, OnErr, OnOk, length, vec_capacity};
ghost use Rattle.std.specs.Prelude.{◌+◌, ◌-◌, ◌≡◌, ◌≤◌};
ghost use Rattle.weave_base.specs.Causes.{HasCause};

use crate::coded::{Piece, Run, Sent};
use crate::coder::Coder;
use crate::page_strokes::Strokes;
use crate::room::Batches;
use crate::sending::put_coded_strokes;
use std::mem;
use std::thread::Threads;
use weave_base::{Failed, Sink};
use worker_team::run_beside;

impl Run {
    /// Where the strokes of a piece begin, and the strokes of the piece before it end.
    pub(crate) fn bound(&self, piece: usize) -> u32
        requires { piece ≤ 64 }
        ensures { result ≡ bound_of self.now piece }
    {
        let begin = u64::from(self.first) + piece as u64 * u64::from(self.each);
        begin.min(u64::from(self.count)) as u32
    }

    /// The strokes behind the first `pieces` pieces.
    fn behind(&self, pieces: usize) -> Run
        requires { pieces ≤ 64 }
        ensures { result ≡ record { first = bound_of self.now pieces; each = self.now.each; count = self.now.count } }
    {
        Run {
            first: self.bound(pieces),
            each: self.each,
            count: self.count,
        }
    }
}

// Sends a piece whose strokes from `first` to before `end` are coded.
fn put_piece<S: Strokes, K: Sink>(
    page: &S,
    first: u32,
    end: u32,
    piece: &mut Piece,
    last: u32,
    waiting: &mut Vec<u8>,
    sink: &mut K,
) -> Result<Sent, Failed>
    requires page { IsPage (S.page page.now) }
    requires rising { first ≤ end }
    requires low { end ≤ (S.page page.now).head.count }
    requires within { end ≤ first + length piece.old.strokes.items }
    requires coded { AreCoded (S.page page.now) first end piece.old.strokes.items }
    requires room { AllRoomy (S.page page.now) piece.old.strokes.items }
    requires waiting { MOST_WAITING ≤ vec_capacity waiting.old }
    ensures ok { IfOk result (SendsStrokes (S.page page.now) last first (end - first)
        (outlet_of (K.held sink.old) waiting.old.items) (outlet_of (K.held sink.new) waiting.new.items)) }
    ensures part { OnErr result (GathersPart (outlet_of (K.held sink.old) waiting.old.items) (K.held sink.new)
        (sent_bytes (S.page page.now) last first (end - first))) }
    ensures cause { HasCause (K.faults sink.old) (K.faults sink.new) result }
    ensures many { length piece.new.strokes.items ≡ length piece.old.strokes.items }
    ensures room { AllRoomy (S.page page.now) piece.new.strokes.items }
    ensures capacity { vec_capacity waiting.old ≤ vec_capacity waiting.new }
{
    let strokes = piece.strokes.as_mut_slice();
    put_coded_strokes(page, first, end, strokes, last, waiting, sink)
}

/// Pieces of a page, and the strokes of these pieces.
#[derive(Drop)]
pub(crate) struct Batch<'a, S> {
    pub(crate) run: Run,
    pub(crate) coders: Vec<Coder<'a, S>>,
}

// Gives each piece its strokes of this run to code.
fn assign<S: Strokes>(run: Run, coders: &mut Vec<Coder<'_, S>>)
    requires few { length coders.old.items ≤ 64 }
    ensures assigned { (page : HeadPage)
        → Each (λ k coder. IsRoomy page run.each (S.page coder.page.now) coder.piece) coders.old.items
        → Each (λ k coder. IsAssigned page run k (S.page coder.page.now) coder.piece) coders.new.items }
    ensures many { length coders.new.items ≡ length coders.old.items }
{
    'pieces: for i in 0..coders.len() {
        let piece = &mut coders[i].piece;
        piece.first = run.bound(i);
        piece.end = run.bound(i + 1);
    }
}

// Sends the strokes of a batch whose pieces are coded. The head is on row `last`.
fn put_batch<S: Strokes, K: Sink>(
    page: &S,
    batch: &mut Batch<'_, S>,
    last: u32,
    waiting: &mut Vec<u8>,
    sink: &mut K,
) -> Result<Sent, Failed>
    requires page { IsPage (S.page page.now) }
    requires few { length batch.old.coders.items ≤ 64 }
    requires low { batch.old.run.count ≤ (S.page page.now).head.count }
    requires first { batch.old.run.first ≤ batch.old.run.count }
    requires filled { Each (λ k coder. IsFilled (S.page page.now) batch.old.run k (S.page coder.page.now) coder.piece)
        batch.old.coders.items }
    requires waiting { MOST_WAITING ≤ vec_capacity waiting.old }
    ensures ok { IfOk result (SendsBatch (S.page page.now) last batch.old.run (length batch.old.coders.items)
        (outlet_of (K.held sink.old) waiting.old.items) (outlet_of (K.held sink.new) waiting.new.items)) }
    ensures part { OnErr result (GathersPart (outlet_of (K.held sink.old) waiting.old.items) (K.held sink.new)
        (batch_bytes (S.page page.now) last batch.old.run (length batch.old.coders.items))) }
    ensures cause { HasCause (K.faults sink.old) (K.faults sink.new) result }
    ensures run { batch.new.run ≡ batch.old.run }
    ensures many { length batch.new.coders.items ≡ length batch.old.coders.items }
    ensures room { OnOk result (Each (λ k coder. IsRoomy (S.page page.now) batch.old.run.each (S.page coder.page.now)
        coder.piece) batch.new.coders.items) }
    ensures capacity { vec_capacity waiting.old ≤ vec_capacity waiting.new }
{
    let run = batch.run;
    let mut sent = Sent::nothing(last);
    'pieces: for i in 0..batch.coders.len() {
        let piece = &mut batch.coders[i].piece;
        let one = put_piece(
            page,
            run.bound(i),
            run.bound(i + 1),
            piece,
            sent.last,
            waiting,
            sink,
        )?;
        sent = sent.and_then(one);
    }
    Ok(sent)
}

// Codes the strokes of the batch ahead by all workers, while the caller sends those of the batch behind, whose pieces
// are coded. The head is on row `last`.
fn code_beside<R: Threads + Sync, S: Strokes + Sync, K: Sink>(
    threads: &R,
    page: &S,
    ahead: &mut Batch<'_, S>,
    behind: &mut Batch<'_, S>,
    last: u32,
    waiting: &mut Vec<u8>,
    sink: &mut K,
) -> Result<Sent, Failed>
    requires page { IsPage (S.page page.now) }
    requires ahead_few { length ahead.old.coders.items ≤ 64 }
    requires ahead_low { ahead.old.run.count ≤ (S.page page.now).head.count }
    requires ahead_room { Each (λ k coder. IsRoomy (S.page page.now) ahead.old.run.each (S.page coder.page.now)
        coder.piece) ahead.old.coders.items }
    requires few { length behind.old.coders.items ≤ 64 }
    requires low { behind.old.run.count ≤ (S.page page.now).head.count }
    requires first { behind.old.run.first ≤ behind.old.run.count }
    requires filled { Each (λ k coder. IsFilled (S.page page.now) behind.old.run k (S.page coder.page.now) coder.piece)
        behind.old.coders.items }
    requires waiting { MOST_WAITING ≤ vec_capacity waiting.old }
    ensures ok { IfOk result (SendsBatch (S.page page.now) last behind.old.run (length behind.old.coders.items)
        (outlet_of (K.held sink.old) waiting.old.items) (outlet_of (K.held sink.new) waiting.new.items)) }
    ensures part { OnErr result (GathersPart (outlet_of (K.held sink.old) waiting.old.items) (K.held sink.new)
        (batch_bytes (S.page page.now) last behind.old.run (length behind.old.coders.items))) }
    ensures cause { HasCause (K.faults sink.old) (K.faults sink.new) result }
    ensures run { behind.new.run ≡ behind.old.run }
    ensures many { length behind.new.coders.items ≡ length behind.old.coders.items }
    ensures room { OnOk result (Each (λ k coder. IsRoomy (S.page page.now) behind.old.run.each (S.page coder.page.now)
        coder.piece) behind.new.coders.items) }
    ensures capacity { vec_capacity waiting.old ≤ vec_capacity waiting.new }
    ensures ahead_run { ahead.new.run ≡ ahead.old.run }
    ensures ahead_many { length ahead.new.coders.items ≡ length ahead.old.coders.items }
    ensures ahead_filled { Each (λ k coder. IsFilled (S.page page.now) ahead.old.run k (S.page coder.page.now)
        coder.piece) ahead.new.coders.items }
{
    assign(ahead.run, &mut ahead.coders);
    let mut errand = || -> Result<Sent, Failed>
        requires { IsPage (S.page page.now) × (length behind.now.coders.items ≤ 64)
            × (behind.now.run.count ≤ (S.page page.now).head.count) × (behind.now.run.first ≤ behind.now.run.count)
            × Each (λ k coder. IsFilled (S.page page.now) behind.now.run k (S.page coder.page.now) coder.piece)
            behind.now.coders.items
            × (MOST_WAITING ≤ vec_capacity waiting.now) }
        ensures { IfOk result (SendsBatch (S.page page.entry.now) last behind.entry.now.run
            (length behind.entry.now.coders.items) (outlet_of (K.held sink.entry.now) waiting.entry.now.items)
            (outlet_of (K.held sink.exit.now) waiting.exit.now.items))
            × OnErr result (GathersPart (outlet_of (K.held sink.entry.now) waiting.entry.now.items)
            (K.held sink.exit.now)
            (batch_bytes (S.page page.entry.now) last behind.entry.now.run (length behind.entry.now.coders.items)))
            × HasCause (K.faults sink.entry.now) (K.faults sink.exit.now) result
            × (behind.exit.now.run ≡ behind.entry.now.run)
            × (length behind.exit.now.coders.items ≡ length behind.entry.now.coders.items)
            × OnOk result (Each (λ k coder. IsRoomy (S.page page.entry.now) behind.entry.now.run.each
            (S.page coder.page.now) coder.piece) behind.exit.now.coders.items)
            × (vec_capacity waiting.entry.now ≤ vec_capacity waiting.exit.now) }
    { put_batch(page, behind, last, waiting, sink) };
    run_beside(threads, ahead.coders.as_mut_slice(), &mut errand)
}

/// Sends the strokes of a page, which the workers code in batches while the caller sends.
pub(crate) fn put_batches<R: Threads + Sync, S: Strokes + Sync, K: Sink>(
    threads: &R,
    page: &S,
    batches: Batches<'_, S>,
    waiting: &mut Vec<u8>,
    sink: &mut K,
) -> Result<Sent, Failed>
    requires page { IsPage (S.page page.now) }
    requires batches { HaveRoom (λ it. S.page it) (S.page page.now) batches }
    requires waiting { MOST_WAITING ≤ vec_capacity waiting.old }
    ensures ok { IfOk result (SendsStrokes (S.page page.now) 0 0 (S.page page.now).head.count
        (outlet_of (K.held sink.old) waiting.old.items) (outlet_of (K.held sink.new) waiting.new.items)) }
    ensures part { OnErr result (GathersPart (outlet_of (K.held sink.old) waiting.old.items) (K.held sink.new)
        (sent_bytes (S.page page.now) 0 0 (S.page page.now).head.count)) }
    ensures cause { HasCause (K.faults sink.old) (K.faults sink.new) result }
    ensures capacity { vec_capacity waiting.old ≤ vec_capacity waiting.new }
{
    let Batches {
        each,
        ahead: coders,
        behind: others,
    } = batches;
    let count = page.count();
    let run = Run {
        first: 0,
        each,
        count,
    };
    let none = Run {
        first: 0,
        each,
        count: 0,
    };
    let mut ahead = Batch { run, coders };
    let mut behind = Batch {
        run: none,
        coders: others,
    };
    let mut sent = Sent::nothing(0);
    'batches: while behind.run.first < count {
        let one = code_beside(
            threads,
            page,
            &mut ahead,
            &mut behind,
            sent.last,
            waiting,
            sink,
        )?;
        sent = sent.and_then(one);
        behind.run = ahead.run.behind(ahead.coders.len());
        mem::swap(&mut ahead, &mut behind);
    }
    Ok(sent)
}
