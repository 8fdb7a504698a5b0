//! Gates that watch the workers, or hold them back.
use dot_planes::{GatherRoom, InkRows, TileAmounts, TileRows};
use std::sync::atomic::{AtomicU64, Ordering};
use tile_shape::{Place, Shape};
use worker_team::Gate;

/// Counts how often each tile of five columns and three bands enters, in four bits each.
#[derive(Drop)]
pub(crate) struct CountingGate {
    pub(crate) entered: AtomicU64,
}

impl Gate for CountingGate {
    fn enter(&self, p: Place) {
        if p.c < 5 && p.j < 3 {
            self.entered
                .fetch_add(1 << (4 * (5 * p.j + p.c)), Ordering::SeqCst);
        }
    }
}

impl CountingGate {
    // Whether this tile has entered.
    fn has_entered(&self, p: Place) -> bool {
        let entered = self.entered.load(Ordering::SeqCst);
        p.c < 5 && p.j < 3 && (entered >> (4 * (5 * p.j + p.c))) % 16 > 0
    }
}

/// Rows that count the tiles whose work begins before they have entered the gate: work begins with the amounts.
#[derive(Drop)]
pub(crate) struct WatchedRows<'a> {
    pub(crate) rows: InkRows,
    pub(crate) gate: &'a CountingGate,
    pub(crate) early: AtomicU64,
}

impl TileRows for WatchedRows<'_> {
    ghost table = { λ watched. watched.rows };

    fn shape(&self) -> Shape {
        TileRows::shape(&self.rows)
    }

    fn inks(&self) -> u8 {
        TileRows::inks(&self.rows)
    }

    fn gather(&self, place: Place, room: &mut GatherRoom, out: &mut TileAmounts) -> bool {
        if !self.gate.has_entered(place) {
            self.early.fetch_add(1, Ordering::SeqCst);
        }
        TileRows::gather(&self.rows, place, room, out)
    }
}

/// Holds each tile for a number of turns that varies from tile to tile.
#[derive(Drop)]
pub(crate) struct HoldingGate {
    pub(crate) turns: AtomicU64,
}

impl Gate for HoldingGate {
    fn enter(&self, p: Place) {
        let n = self
            .turns
            .fetch_add(1, Ordering::SeqCst)
            .wrapping_add(u64::from(p.c));
        let held = n.wrapping_mul(6364136223846793005) >> 48;
        for _ in 0..held % 4096 {
            self.turns.load(Ordering::SeqCst);
        }
    }
}
