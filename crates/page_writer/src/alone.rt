//! Strokes that the caller alone codes and sends, one after another.
ghost use Rattle.page_writer.specs.Heads.{IsPage};
ghost use Rattle.page_writer.specs.Outlets.{GathersPart, outlet_of};
ghost use Rattle.page_writer.specs.Pieces.{HasRoom, SendsStrokes, sent_bytes};
ghost use Rattle.page_writer.specs.declared.waiting.TheConstants.{MOST_WAITING};
ghost use Rattle.std.specs.Prelude.{IfOk, OnErr, vec_capacity, ◌≤◌};
ghost use Rattle.weave_base.specs.Causes.{HasCause};

use crate::coded::{Coded, Sent};
use crate::coding::code_stroke;
use crate::page_strokes::Strokes;
use crate::sending::put_coded;
use base_definitions::MOST_ROW_BYTES;
use weave_base::{Failed, Sink};

/// Codes and sends the strokes of a page, one after another.
pub(crate) fn put_alone<S: Strokes, K: Sink>(
    page: &S,
    coded: &mut Coded,
    waiting: &mut Vec<u8>,
    sink: &mut K,
) -> Result<Sent, Failed>
    requires page { IsPage (S.page page.now) }
    requires room { HasRoom (S.page page.now) coded.old }
    requires waiting { MOST_WAITING ≤ vec_capacity waiting.old }
    ensures ok { IfOk result (SendsStrokes (S.page page.now) 0 0 (S.page page.now).head.count
        (outlet_of (K.held sink.old) waiting.old.items)
        (outlet_of (K.held sink.new) waiting.new.items)) }
    ensures part { OnErr result (GathersPart (outlet_of (K.held sink.old) waiting.old.items) (K.held sink.new)
        (sent_bytes (S.page page.now) 0 0 (S.page page.now).head.count)) }
    ensures cause { HasCause (K.faults sink.old) (K.faults sink.new) result }
    ensures capacity { vec_capacity waiting.old ≤ vec_capacity waiting.new }
{
    let mut row = [0u8; MOST_ROW_BYTES];
    let mut sent = Sent::nothing(0);
    'strokes: for stroke in 0..page.count() {
        code_stroke(page, stroke, &mut row, coded);
        let one = put_coded(page, stroke, coded, sent.last, waiting, sink)?;
        sent = sent.and_then(one);
    }
    Ok(sent)
}
