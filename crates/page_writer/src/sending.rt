//! Sends coded strokes.
ghost use Rattle.page_writer.specs.Heads.{IsPage};
ghost use Rattle.page_writer.specs.Outlets.{GathersPart, outlet_of};
ghost use Rattle.page_writer.specs.Pieces.{AllRoomy, AreCoded, HasRoom, IsCoded, SendsStrokes, sent_both, sent_bytes};
ghost use Rattle.page_writer.specs.declared.waiting.TheConstants.{MOST_WAITING};
ghost use Rattle.std.specs.Prelude.{IfOk, OnErr, length, vec_capacity, ◌+◌, ◌-◌, ◌<◌, ◌^◌, ◌≡◌, ◌≤◌};
ghost use Rattle.weave_base.specs.Causes.{HasCause};

use crate::coded::{Coded, Sent};
use crate::page_strokes::Strokes;
use crate::waiting::send;
use weave_base::{Failed, Sink};

impl Sent {
    /// Nothing was sent, and the head is on row `last`.
    pub(crate) fn nothing(last: u32) -> Sent
        ensures { result ≡ record { bytes = 0; rasters = 0; last = last } }
    {
        Sent {
            bytes: 0,
            rasters: 0,
            last,
        }
    }

    /// What was sent so far, and then more.
    pub(crate) fn and_then(self, more: Sent) -> Sent
        requires bytes { self.bytes + more.bytes < 2 ^ 64 }
        requires rasters { self.rasters + more.rasters < 2 ^ 32 }
        ensures { result ≡ sent_both self more }
    {
        Sent {
            bytes: self.bytes + more.bytes,
            rasters: self.rasters + more.rasters,
            last: more.last,
        }
    }
}

/// Sends a stroke, or nothing if no ink has a dot in the stroke. The head is on row `last`.
pub(crate) fn put_coded<S: Strokes, K: Sink>(
    page: &S,
    stroke: u32,
    coded: &mut Coded,
    last: u32,
    waiting: &mut Vec<u8>,
    sink: &mut K,
) -> Result<Sent, Failed>
    requires page { IsPage (S.page page.now) }
    requires stroke { stroke < (S.page page.now).head.count }
    requires coded { IsCoded (S.page page.now) stroke coded.old }
    requires room { HasRoom (S.page page.now) coded.old }
    requires waiting { MOST_WAITING ≤ vec_capacity waiting.old }
    ensures ok { IfOk result (SendsStrokes (S.page page.now) last stroke 1
        (outlet_of (K.held sink.old) waiting.old.items) (outlet_of (K.held sink.new) waiting.new.items)) }
    ensures part { OnErr result (GathersPart (outlet_of (K.held sink.old) waiting.old.items) (K.held sink.new)
        (sent_bytes (S.page page.now) last stroke 1)) }
    ensures cause { HasCause (K.faults sink.old) (K.faults sink.new) result }
    ensures room { HasRoom (S.page page.now) coded.new }
    ensures capacity { vec_capacity waiting.old ≤ vec_capacity waiting.new }
{
    if coded.rasters == 0 {
        return Ok(Sent::nothing(last));
    }
    let row = page.start(stroke);
    let rasters = coded.rasters;
    let code = coded.code.as_mut_slice();
    let begin = page.put_step(row, last, code);
    send(&code[begin..], waiting, sink)?;
    Ok(Sent {
        bytes: (code.len() - begin) as u64,
        rasters,
        last: row,
    })
}

/// Sends the coded strokes from `first` to before `end`. The head is on row `last`.
pub(crate) fn put_coded_strokes<S: Strokes, K: Sink>(
    page: &S,
    first: u32,
    end: u32,
    strokes: &mut [Coded],
    last: u32,
    waiting: &mut Vec<u8>,
    sink: &mut K,
) -> Result<Sent, Failed>
    requires page { IsPage (S.page page.now) }
    requires rising { first ≤ end }
    requires low { end ≤ (S.page page.now).head.count }
    requires within { end ≤ first + length strokes.old }
    requires coded { AreCoded (S.page page.now) first end strokes.old }
    requires room { AllRoomy (S.page page.now) strokes.old }
    requires waiting { MOST_WAITING ≤ vec_capacity waiting.old }
    ensures ok { IfOk result (SendsStrokes (S.page page.now) last first (end - first)
        (outlet_of (K.held sink.old) waiting.old.items) (outlet_of (K.held sink.new) waiting.new.items)) }
    ensures part { OnErr result (GathersPart (outlet_of (K.held sink.old) waiting.old.items) (K.held sink.new)
        (sent_bytes (S.page page.now) last first (end - first))) }
    ensures cause { HasCause (K.faults sink.old) (K.faults sink.new) result }
    ensures room { AllRoomy (S.page page.now) strokes.new }
    ensures capacity { vec_capacity waiting.old ≤ vec_capacity waiting.new }
{
    let mut sent = Sent::nothing(last);
    'strokes: for stroke in first..end {
        let coded = &mut strokes[(stroke - first) as usize];
        let one = put_coded(page, stroke, coded, sent.last, waiting, sink)?;
        sent = sent.and_then(one);
    }
    Ok(sent)
}
