//! The bytes of a command in hand.
ghost use Rattle.job_finisher.specs.Hearing.{left_behind, made_whole, most_held};
ghost use Rattle.std.specs.Io.KnownBytes.{Appends};
ghost use Rattle.std.specs.Prelude.{IfOk, IfSome, OnErr, OnOk, [], length, vec_capacity, vec_len, ◌++◌, ◌+◌, ◌≡◌, ◌≤◌};
ghost use Rattle.weave_base.specs.Causes.{HasCause};
ghost use Rattle.weave_base.specs.Parts.{AppendsPart};

use base_definitions::MOST_ROW_BYTES;
use std::alloc::Global;
use weave_base::{Failed, Memory, Sink, put_all};

// More than the bytes of a part of a command: 8, and twice those of a raster's rows.
const MOST_HELD: usize = 8 + 2 * (255 * MOST_ROW_BYTES);

/// The bytes of a command in hand, for a caller that reads the commands of the job itself.
#[derive(Drop)]
pub struct HeldCommand {
    bytes: Vec<u8>,
    ghost room: { most_held ≤ vec_capacity bytes },
}

impl HeldCommand {
    ghost use Rattle.job_finisher.specs.Holding.{held_in};

    /// No bytes. It allocates all memory; no other call allocates any.
    pub fn make(alloc: Global) -> Result<HeldCommand, Memory>
        ensures { IfOk result (λ hand. held_in hand ≡ []) }
    {
        Ok(HeldCommand {
            bytes: Vec::with_capacity(alloc, MOST_HELD)?,
        })
    }

    /// Writes the bytes in hand and the first `whole` bytes of the piece behind them, which are whole commands. If no
    /// command became whole, it writes nothing.
    pub fn write_whole<K: Sink>(
        &self,
        piece: &[u8],
        whole: Option<usize>,
        out: &mut K,
    ) -> Result<(), Failed>
        requires { IfSome whole (λ end. end ≤ length piece.now) }
        ensures ok { OnOk result (Appends (K.held out.old) (K.held out.new)
            (made_whole whole (held_in self.now) piece.now)) }
        ensures part { OnErr result (AppendsPart (K.held out.old) (K.held out.new)
            (made_whole whole (held_in self.now) piece.now)) }
        ensures cause { HasCause (K.faults out.old) (K.faults out.new) result }
    {
        match whole {
            None => Ok(()),
            Some(end) => put_two(&self.bytes, &piece[..end], out),
        }
    }

    /// Keeps the bytes behind the whole commands, at most those of a part of a command.
    pub fn keep_rest(&mut self, piece: &[u8], whole: Option<usize>)
        requires within { IfSome whole (λ end. end ≤ length piece.now) }
        requires room { length (left_behind whole (held_in self.old) piece.now) ≤ most_held }
        ensures { held_in self.new ≡ left_behind whole (held_in self.old) piece.now }
    {
        match whole {
            None => push_bytes(&mut self.bytes, piece),
            Some(end) => {
                self.bytes.clear();
                push_bytes(&mut self.bytes, &piece[end..]);
            }
        }
    }
}

// Writes two pieces.
fn put_two<K: Sink>(first: &[u8], second: &[u8], out: &mut K) -> Result<(), Failed>
    ensures ok { OnOk result (Appends (K.held out.old) (K.held out.new) (first.now ++ second.now)) }
    ensures part { OnErr result (AppendsPart (K.held out.old) (K.held out.new) (first.now ++ second.now)) }
    ensures cause { HasCause (K.faults out.old) (K.faults out.new) result }
{
    put_all(out, first)?;
    put_all(out, second)
}

// Appends bytes for which there is room.
fn push_bytes(held: &mut Vec<u8>, bytes: &[u8])
    requires { vec_len held.old + length bytes.now ≤ vec_capacity held.old }
    ensures items { held.new.items ≡ held.old.items ++ bytes.now }
    ensures capacity { vec_capacity held.old ≤ vec_capacity held.new }
{
    held.extend_from_slice(bytes).unwrap();
}
