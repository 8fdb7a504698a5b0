//! Bytes that are gathered before they are written.
ghost use Rattle.buffered_bytes.specs.declared.gathered.TheConstants.{MOST_GATHERED};
ghost use Rattle.std.specs.Io.KnownBytes.{Appends};
ghost use Rattle.std.specs.Prelude.{[], OnErr, OnOk, length, ◌++◌, ◌+◌, ◌≡◌, ◌≤◌};
ghost use Rattle.weave_base.specs.Causes.{HasCause};
ghost use Rattle.weave_base.specs.Parts.{AppendsPart};

use weave_base::{Failed, Sink, put_all};

/// The most bytes that are gathered.
pub const MOST_GATHERED: usize = 8192;

/// Bytes that are gathered before they are written, so that a sink gets few writes. It allocates no memory.
#[derive(Drop)]
pub struct Gathered {
    bytes: [u8; MOST_GATHERED],
    len: usize,
    ghost within: { len ≤ MOST_GATHERED },
}

impl Gathered {
    ghost use Rattle.buffered_bytes.specs.Gathering.{Passes, Writes, gathered};

    /// No bytes.
    pub fn new() -> Gathered
        ensures is { gathered result ≡ [] }
        ensures len { result.len ≡ 0 }
    {
        Gathered {
            bytes: [0; MOST_GATHERED],
            len: 0,
        }
    }

    /// Appends bytes for which there is room.
    pub fn push(&mut self, bytes: &[u8])
        requires { self.old.len + length bytes.now ≤ MOST_GATHERED }
        ensures is { gathered self.new ≡ gathered self.old ++ bytes.now }
        ensures len { self.new.len ≡ self.old.len + length bytes.now }
    {
        let end = self.len + bytes.len();
        self.bytes[self.len..end].copy_from_slice(bytes);
        self.len = end;
    }

    /// Makes room for `most` bytes. If there is less room, it writes the gathered bytes.
    pub fn make_room<K: Sink>(&mut self, most: usize, k: &mut K) -> Result<(), Failed>
        requires { most ≤ MOST_GATHERED }
        ensures ok { OnOk result (Passes (K.held k.old) (K.held k.new) (gathered self.old) (gathered self.new)) }
        ensures room { OnOk result (self.new.len + most ≤ MOST_GATHERED) }
        ensures part { OnErr result (AppendsPart (K.held k.old) (K.held k.new) (gathered self.old)) }
        ensures kept { OnErr result (gathered self.new ≡ gathered self.old) }
        ensures cause { HasCause (K.faults k.old) (K.faults k.new) result }
    {
        if most <= MOST_GATHERED - self.len {
            return Ok(());
        }
        self.put(k)?;
        self.len = 0;
        Ok(())
    }

    /// Appends bytes. If there is no room for them, it first writes the gathered bytes.
    pub fn write<K: Sink>(&mut self, bytes: &[u8], k: &mut K) -> Result<(), Failed>
        requires { length bytes.now ≤ MOST_GATHERED }
        ensures ok { OnOk result
            (Writes (K.held k.old) (K.held k.new) (gathered self.old) (gathered self.new) bytes.now) }
        ensures part { OnErr result (AppendsPart (K.held k.old) (K.held k.new) (gathered self.old)) }
        ensures kept { OnErr result (gathered self.new ≡ gathered self.old) }
        ensures cause { HasCause (K.faults k.old) (K.faults k.new) result }
    {
        self.make_room(bytes.len(), k)?;
        self.push(bytes);
        Ok(())
    }

    /// Writes the gathered bytes.
    pub fn put<K: Sink>(&self, k: &mut K) -> Result<(), Failed>
        ensures ok { OnOk result (Appends (K.held k.old) (K.held k.new) (gathered self.now)) }
        ensures part { OnErr result (AppendsPart (K.held k.old) (K.held k.new) (gathered self.now)) }
        ensures cause { HasCause (K.faults k.old) (K.faults k.new) result }
    {
        put_all(k, &self.bytes[..self.len])
    }
}
