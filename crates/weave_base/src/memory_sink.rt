//! A sink in memory, which fails and takes short pieces exactly as listed.
ghost use Rattle.std.specs.Io.{WritesAtMost};
ghost use Rattle.std.specs.Io.KnownBytes.{WriteAppends};
ghost use Rattle.std.specs.Prelude.{All, Contains, IfOk, IsErr, Some, [], if◌then◌else◌, is_ok, length, min};
ghost use Rattle.std.specs.Prelude.{vec_capacity, vec_len, ◌-◌, ◌<◌, ◌↔◌, ◌⊎◌, ◌≡◌, ◌≤◌};
ghost use Rattle.weave_base.specs.Causes.{HasCause, next_count};
ghost use Rattle.weave_base.specs.InMemory.{MemoryOutput, bytes_moved};

use crate::bounds::{bytes_moved, is_listed};
use crate::{Failed, Memory, Sink};
use std::alloc::Global;
use std::marker::Model;

/// A sink in memory. Contracts see the bytes that it holds, the most that it may hold, the writes so far, the faults,
/// and the two lists.
#[derive(Drop)]
pub struct MemSink {
    bytes: Vec<u8>,
    room: usize,
    takes: Vec<u32>,
    fails: Vec<u32>,
    calls: u64,
    faults: u64,
}

impl Model for MemSink {
    ghost Value = { MemoryOutput };

    ghost view = { λ s. record {
      held = s.bytes.items;
      room = s.room;
      calls = s.calls;
      faults = s.faults;
      takes = s.takes.items;
      fails = s.fails.items;
    } };

    ghost invariant = { λ s. (vec_len s.bytes ≤ s.room)
        × (s.room ≤ vec_capacity s.bytes)
        × All (λ n. 1 ≤ n) s.takes.items };
}

impl MemSink {
    /// An empty sink for `room` bytes. `make` allocates them, and a write allocates no memory. Write `k`, counted from
    /// 1, fails if `fails` has `k`, and if the piece is not empty and no room is left. Any other write takes at most
    /// entry `(k - 1) mod takes.len()` of `takes`, or as many bytes as there is room for if `takes` is empty.
    pub fn make(
        alloc: Global,
        room: usize,
        takes: Vec<u32>,
        fails: Vec<u32>,
    ) -> Result<MemSink, Memory>
        requires { All (λ n. 1 ≤ n) takes.items }
        ensures { IfOk result (λ s. s ≡ record {
          held = [];
          room = room;
          calls = 0;
          faults = 0;
          takes = takes.items;
          fails = fails.items;
        }) }
    {
        Ok(MemSink {
            bytes: Vec::with_capacity(alloc, room)?,
            room,
            takes,
            fails,
            calls: 0,
            faults: 0,
        })
    }

    /// The bytes that it holds.
    pub fn bytes(&self) -> &[u8]
        ensures { result.now ≡ self.now.held }
    {
        self.bytes.as_slice()
    }
}

impl Sink for MemSink {
    ghost held = { λ s. Some s.held };

    ghost faults = { λ s. s.faults };

    fn write(&mut self, piece: &[u8]) -> Result<usize, Failed>
        ensures bound { WritesAtMost result piece.now }
        ensures some { IfOk result (λ n. 0 < length piece.now → 0 < n) }
        ensures bytes { WriteAppends (Some self.old.held) (Some self.new.held) result piece.now }
        ensures cause { HasCause self.old.faults self.new.faults result }

        // exactly the listed calls and those that find no room fail, and every other takes as many bytes as it may
        ensures fails { IsErr result ↔ (Contains self.old.fails self.new.calls
            ⊎ ((0 < length piece.now) × (self.old.room ≤ length self.old.held))) }
        ensures count { IfOk result (λ n. n ≡ bytes_moved self.old.takes self.new.calls
            (min (length piece.now) (self.old.room - length self.old.held))) }

        // the counts, and what stays
        ensures calls { self.new.calls ≡ next_count self.old.calls }
        ensures faults { self.new.faults ≡
            (if is_ok result then self.old.faults else next_count self.old.faults) }
        ensures room_stays { self.new.room ≡ self.old.room }
        ensures takes_stay { self.new.takes ≡ self.old.takes }
        ensures fails_stay { self.new.fails ≡ self.old.fails }
    {
        self.calls = self.calls.saturating_add(1);
        let left = self.room - self.bytes.len();
        let is_full = left == 0 && !piece.is_empty();
        if is_full || is_listed(self.calls, &self.fails) {
            self.faults = self.faults.saturating_add(1);
            return Err(Failed);
        }
        let count = bytes_moved(self.calls, &self.takes, piece.len().min(left));
        self.bytes.extend_from_slice(&piece[..count]).unwrap();
        Ok(count)
    }
}
