//! Where bytes go.
ghost use Rattle.std.specs.Io.{WritesAtMost};
ghost use Rattle.std.specs.Io.KnownBytes.{Appends, WriteAppends};
ghost use Rattle.std.specs.Prelude.{IfOk, List, OnErr, OnOk, Option, length, ℕ, ◌+◌, ◌<◌};
ghost use Rattle.weave_base.specs.Causes.{HasCause};
ghost use Rattle.weave_base.specs.Parts.{AppendsPart};

use crate::Failed;

/// Takes bytes, and appends each piece to those before it.
pub trait Sink {
    /// The bytes that were written, or `None` if the sink does not show what it holds.
    ghost held: { Self → Option (List ℕ) };

    /// How many writes failed. The count never falls, and saturates at the greatest value of 64 bits.
    ghost faults: { Self → ℕ };

    /// Appends a prefix of the piece and returns its length: at least one byte of a piece that is not empty.
    ///
    /// `Err` takes no byte, and comes only if the count of faults rose. The sink may then be written to again.
    fn write(&mut self, piece: &[u8]) -> Result<usize, Failed>
        ensures bound { WritesAtMost result piece.now }
        ensures some { IfOk result (λ n. 0 < length piece.now → 0 < n) }
        ensures bytes { WriteAppends (held self.old) (held self.new) result piece.now }
        ensures cause { HasCause (faults self.old) (faults self.new) result };
}

/// Writes the whole piece, in as many writes as the sink needs. The call ends at the first write that fails; the sink
/// has then taken a proper prefix of the piece.
pub fn put_all<K: Sink>(k: &mut K, piece: &[u8]) -> Result<(), Failed>
    ensures ok { OnOk result (Appends (K.held k.old) (K.held k.new) piece.now) }
    ensures part { OnErr result (AppendsPart (K.held k.old) (K.held k.new) piece.now) }
    ensures cause { HasCause (K.faults k.old) (K.faults k.new) result }
{
    let mut at = 0;
    while at < piece.len() {
        at += k.write(&piece[at..])?;
    }
    Ok(())
}
