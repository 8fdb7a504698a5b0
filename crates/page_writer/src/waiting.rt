//! Bytes of a page that wait for its outlet, which so gets few and large writes.
ghost use Rattle.page_writer.specs.Outlets.{Gathers, GathersPart, outlet_of};
ghost use Rattle.page_writer.specs.declared.waiting.TheConstants.{MOST_WAITING};
ghost use Rattle.std.specs.Io.KnownBytes.{Appends};
ghost use Rattle.std.specs.Prelude.{[], OnErr, OnOk, vec_capacity, vec_len, ◌+◌, ◌≡◌, ◌≤◌};
ghost use Rattle.weave_base.specs.Causes.{HasCause};
ghost use Rattle.weave_base.specs.Parts.{AppendsPart};

use weave_base::{Failed, Sink, put_all};

/// The most bytes that wait.
pub(crate) const MOST_WAITING: usize = 65_536;

// The fewest bytes that are written from where they are, so that they are not copied.
const LEAST_WRITTEN: usize = 16_384;

/// Writes the bytes that wait.
pub(crate) fn flush<K: Sink>(waiting: &mut Vec<u8>, sink: &mut K) -> Result<(), Failed>
    ensures ok { OnOk result (Appends (K.held sink.old) (K.held sink.new) waiting.old.items) }
    ensures empty { OnOk result (waiting.new.items ≡ []) }
    ensures none { OnOk result (vec_len waiting.new ≡ 0) }
    ensures part { OnErr result (AppendsPart (K.held sink.old) (K.held sink.new) waiting.old.items) }
    ensures cause { HasCause (K.faults sink.old) (K.faults sink.new) result }
    ensures capacity { vec_capacity waiting.old ≤ vec_capacity waiting.new }
{
    put_all(sink, waiting)?;
    waiting.clear();
    Ok(())
}

/// Makes room for `most` bytes to wait. If there is less room, it writes the bytes that wait.
pub(crate) fn make_room<K: Sink>(
    most: usize,
    waiting: &mut Vec<u8>,
    sink: &mut K,
) -> Result<(), Failed>
    requires most { most ≤ MOST_WAITING }
    requires waiting { MOST_WAITING ≤ vec_capacity waiting.old }
    ensures ok { OnOk result (Gathers (outlet_of (K.held sink.old) waiting.old.items)
        (outlet_of (K.held sink.new) waiting.new.items) []) }
    ensures room { OnOk result (vec_len waiting.new + most ≤ MOST_WAITING) }
    ensures part { OnErr result (AppendsPart (K.held sink.old) (K.held sink.new) waiting.old.items) }
    ensures cause { HasCause (K.faults sink.old) (K.faults sink.new) result }
    ensures capacity { vec_capacity waiting.old ≤ vec_capacity waiting.new }
{
    if waiting.len() + most <= MOST_WAITING {
        return Ok(());
    }
    flush(waiting, sink)
}

/// Sends bytes. Few bytes wait behind those that already do. Many are not copied: they are written behind those that
/// wait.
pub(crate) fn send<K: Sink>(bytes: &[u8], waiting: &mut Vec<u8>, sink: &mut K) -> Result<(), Failed>
    requires waiting { MOST_WAITING ≤ vec_capacity waiting.old }
    ensures ok { OnOk result (Gathers (outlet_of (K.held sink.old) waiting.old.items)
        (outlet_of (K.held sink.new) waiting.new.items) bytes.now) }
    ensures part { OnErr result (GathersPart (outlet_of (K.held sink.old) waiting.old.items) (K.held sink.new)
        bytes.now) }
    ensures cause { HasCause (K.faults sink.old) (K.faults sink.new) result }
    ensures capacity { vec_capacity waiting.old ≤ vec_capacity waiting.new }
{
    if bytes.len() >= LEAST_WRITTEN {
        flush(waiting, sink)?;
        return put_all(sink, bytes);
    }
    make_room(bytes.len(), waiting, sink)?;
    waiting.extend_from_slice(bytes).unwrap();
    Ok(())
}
