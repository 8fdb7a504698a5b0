//! A gate at which two tiles meet.
use std::sync::atomic::{AtomicU64, Ordering};
use tile_shape::Place;
use worker_team::Gate;

// How many turns a tile waits for the other at most.
const TURNS: u32 = 100_000_000;

/// Holds two tiles, of which neither needs the other, until both have entered.
#[derive(Drop)]
pub struct MeetingGate {
    came: AtomicU64,
    met: AtomicU64,
}

impl MeetingGate {
    /// A gate that no tile has entered.
    pub fn make() -> MeetingGate {
        MeetingGate {
            came: AtomicU64::new(0),
            met: AtomicU64::new(0),
        }
    }

    /// How many of the two tiles were inside together with the other.
    pub fn met(&self) -> u64 {
        self.met.load(Ordering::SeqCst)
    }
}

impl Gate for MeetingGate {
    fn enter(&self, p: Place) {
        if p != (Place { c: 2, j: 0 }) && p != (Place { c: 0, j: 1 }) {
            return;
        }
        self.came.fetch_add(1, Ordering::SeqCst);
        for _ in 0..TURNS {
            if self.came.load(Ordering::SeqCst) == 2 {
                self.met.fetch_add(1, Ordering::SeqCst);
                return;
            }
        }
    }
}
