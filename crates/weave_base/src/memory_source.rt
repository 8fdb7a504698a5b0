//! A source in memory, which fails and gives short pieces exactly as listed.
ghost use Rattle.std.specs.Io.{ReadsAtMost};
ghost use Rattle.std.specs.Io.KnownBytes.{ReadConsumes};
ghost use Rattle.std.specs.Prelude.{All, Contains, IfOk, IsErr, Some, drop, if◌then◌else◌, is_ok, length, min, vec_len};
ghost use Rattle.std.specs.Prelude.{◌↔◌, ◌≡◌, ◌≤◌};
ghost use Rattle.weave_base.specs.Causes.{HasCause, next_count};
ghost use Rattle.weave_base.specs.InMemory.{MemoryInput, bytes_moved};

use crate::bounds::{bytes_moved, is_listed};
use crate::{Failed, Source};
use std::marker::Model;

/// A source in memory. Contracts see the bytes that are left, the reads so far, the faults, and the two lists.
#[derive(Drop)]
pub struct MemSource {
    bytes: Vec<u8>,
    at: usize,
    pieces: Vec<u32>,
    fails: Vec<u32>,
    calls: u64,
    faults: u64,
}

impl Model for MemSource {
    ghost Value = { MemoryInput };

    ghost view = { λ s. record {
      left = drop s.at s.bytes.items;
      calls = s.calls;
      faults = s.faults;
      pieces = s.pieces.items;
      fails = s.fails.items;
    } };

    ghost invariant = { λ s. (s.at ≤ vec_len s.bytes) × All (λ n. 1 ≤ n) s.pieces.items };
}

impl MemSource {
    /// A source of these bytes. Read `k`, counted from 1, fails if `fails` has `k`. Any other read gives at most entry
    /// `(k - 1) mod pieces.len()` of `pieces`, or as many bytes as the buffer takes if `pieces` is empty.
    pub fn make(bytes: Vec<u8>, pieces: Vec<u32>, fails: Vec<u32>) -> MemSource
        requires { All (λ n. 1 ≤ n) pieces.items }
        ensures { result ≡ record {
          left = bytes.items;
          calls = 0;
          faults = 0;
          pieces = pieces.items;
          fails = fails.items;
        } }
    {
        MemSource {
            bytes,
            at: 0,
            pieces,
            fails,
            calls: 0,
            faults: 0,
        }
    }
}

impl Source for MemSource {
    ghost left = { λ s. Some s.left };

    ghost faults = { λ s. s.faults };

    fn read(&mut self, buf: &mut [u8]) -> Result<usize, Failed>
        ensures bound { ReadsAtMost result buf.new }
        ensures bytes { ReadConsumes (Some self.old.left) (Some self.new.left) result buf.new }
        ensures cause { HasCause self.old.faults self.new.faults result }

        // exactly the listed calls fail, and every other gives as many bytes as it may
        ensures fails { IsErr result ↔ Contains self.old.fails self.new.calls }
        ensures count { IfOk result (λ n.
            n ≡ bytes_moved self.old.pieces self.new.calls (min (length buf.new) (length self.old.left))) }

        // the counts, and what stays
        ensures calls { self.new.calls ≡ next_count self.old.calls }
        ensures faults { self.new.faults ≡
            (if is_ok result then self.old.faults else next_count self.old.faults) }
        ensures pieces_stay { self.new.pieces ≡ self.old.pieces }
        ensures fails_stay { self.new.fails ≡ self.old.fails }
    {
        self.calls = self.calls.saturating_add(1);
        if is_listed(self.calls, &self.fails) {
            self.faults = self.faults.saturating_add(1);
            return Err(Failed);
        }
        let most = buf.len().min(self.bytes.len() - self.at);
        let count = bytes_moved(self.calls, &self.pieces, most);
        buf[..count].copy_from_slice(&self.bytes[self.at..self.at + count]);
        self.at += count;
        Ok(count)
    }
}
