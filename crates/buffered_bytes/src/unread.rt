//! The bytes that were taken from a source and are not yet used.
ghost use Rattle.buffered_bytes.specs.Text.{Grows, text_behind};
ghost use Rattle.buffered_bytes.specs.declared.unread.TheConstants.{MOST_UNREAD};
ghost use Rattle.std.specs.Io.KnownBytes.{IsAtEnd, Keeps};
ghost use Rattle.std.specs.Prelude.{IfOk, List, OnErr, OnOk, [], drop, length, slice_index, take, vec_len, ℕ, ◌-◌, ◌<◌};
ghost use Rattle.std.specs.Prelude.{◌≡◌, ◌≤◌};
ghost use Rattle.weave_base.specs.Causes.{HasCause};

use std::alloc::Global;
use std::marker::Model;
use weave_base::{Failed, Memory, Source};

/// The most bytes that are kept.
pub const MOST_UNREAD: usize = 65536;

/// The bytes that were taken from a source and are not yet used, in a buffer of fixed size. Contracts see their list.
#[derive(Drop)]
pub struct Unread {
    buffer: Vec<u8>,
    start: usize,
    end: usize,
}

impl Model for Unread {
    ghost Value = { List ℕ };

    ghost view = { λ u. take (u.end - u.start) (drop u.start u.buffer.items) };

    ghost invariant = { λ u. (u.start ≤ u.end) × (u.end ≤ MOST_UNREAD) × (vec_len u.buffer ≡ MOST_UNREAD) };
}

// The bytes of a buffer from one place to another.
fn between(buffer: &[u8], start: usize, end: usize) -> &[u8]
    requires ordered { start ≤ end }
    requires inside { end ≤ length buffer.now }
    ensures bytes { result.now ≡ take (end - start) (drop start buffer.now) }
    ensures are { (k : ℕ) → slice_index result.now k < 256 }
{
    &buffer[start..end]
}

impl Unread {
    /// No bytes. `make` allocates the buffer; no other call allocates memory.
    pub fn make(alloc: Global) -> Result<Unread, Memory>
        ensures { IfOk result (λ u. u ≡ []) }
    {
        Ok(Unread {
            buffer: vec![in alloc; 0; MOST_UNREAD]?,
            start: 0,
            end: 0,
        })
    }

    /// The bytes, at most `MOST_UNREAD`.
    pub fn bytes(&self) -> &[u8]
        ensures bytes { result.now ≡ self.now }
        ensures most { length result.now ≤ MOST_UNREAD }
        ensures are { (k : ℕ) → slice_index result.now k < 256 }
    {
        between(&self.buffer, self.start, self.end)
    }

    /// Drops the first `count` bytes, which were used.
    pub fn use_up(&mut self, count: usize)
        requires { count ≤ length self.old }
        ensures { self.new ≡ drop count self.old }
    {
        self.start += count;
    }

    /// Reads once, appends the bytes read, and returns their number: 0 only at the end of the source.
    pub fn more<S: Source>(&mut self, source: &mut S) -> Result<usize, Failed>
        requires { length self.old < MOST_UNREAD }
        ensures grown { IfOk result (Grows self.old self.new) }
        ensures end { IfOk result (λ count. count ≡ 0 → IsAtEnd (S.left source.new)) }
        ensures same { OnErr result (self.new ≡ self.old) }
        ensures text { Keeps (text_behind self.old (S.left source.old)) (text_behind self.new (S.left source.new)) }
        ensures cause { HasCause (S.faults source.old) (S.faults source.new) result }
    {
        self.buffer.copy_within(self.start..self.end, 0);
        self.end -= self.start;
        self.start = 0;
        let count = source.read(&mut self.buffer[self.end..])?;
        self.end += count;
        Ok(count)
    }

    /// Reads until there are `need` bytes or more, or the source is at its end.
    pub fn fill<S: Source>(&mut self, source: &mut S, need: usize) -> Result<(), Failed>
        requires { need ≤ MOST_UNREAD }
        ensures end { OnOk result (length self.new < need → IsAtEnd (S.left source.new)) }
        ensures short { OnErr result (length self.new < need) }
        ensures text { Keeps (text_behind self.old (S.left source.old)) (text_behind self.new (S.left source.new)) }
        ensures cause { HasCause (S.faults source.old) (S.faults source.new) result }
    {
        'reads: while self.bytes().len() < need {
            if self.more(source)? == 0 {
                return Ok(());
            }
        }
        Ok(())
    }
}
