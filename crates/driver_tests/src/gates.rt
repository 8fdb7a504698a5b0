//! Gates that workers enter with their tiles.
use crate::fixture::{Page, hashes_to, plays_to, stream_of};
use crate::kernels::ONE_GREY;
use driver_core::{Gate, Place};
use driver_fixtures::{Left, no_files, plain, roomy, run_with};
use pwg_header::Kind;
use slab_fixtures::MeetingGate;
use std::alloc::Global;
use std::sync::atomic::{AtomicU64, Ordering};
use std::test::Fail;
use std::thread::Threads;

// Prints a page on the simplest printer with this many workers.
fn print_through<R: Threads + Sync, G: Gate + Sync>(
    rt: &R,
    alloc: Global,
    workers: &str,
    page: Vec<u8>,
    gate: &G,
) -> Result<Left, Fail> {
    let texts = ["print", "profile=tiny1", workers];
    let input = plain(alloc, page);
    let (mut out, mut shelf) = (roomy(alloc)?, no_files(alloc));
    let (status, err) = run_with(rt, alloc, &texts, input, &mut out, &mut shelf, gate)?;
    Ok(Left { status, out, err })
}

#[test]
fn two_tiles_are_inside_the_gate_at_once(rt: HostRuntime) -> Result<(), Fail> {
    let alloc = rt.alloc();
    let page = stream_of(alloc, &[ONE_GREY])?;
    let gate = MeetingGate::make();
    let by_two = print_through(&rt, alloc, "workers=2", page, &gate)?;
    hashes_to(
        &rt,
        "by two",
        &by_two,
        (0, b"", 3192, 0xDFF3_6ADB_6A87_5A1D),
    );
    assert!(rt; gate.met() == 2);
    Ok(())
}

// How many turns the gate below holds a tile.
const TURNS: u32 = 5_000_000;

// A gate for a page of one column of tiles, whose first slab has eight bands. It counts the tiles that enter in the
// order of their rows. It holds the last tile of the first slab, and counts whether another tile enters meanwhile: then
// the next slab was begun before this one ended.
#[derive(Drop)]
struct TurnGate {
    came: AtomicU64,
    in_turn: AtomicU64,
    overtaken: AtomicU64,
}

impl TurnGate {
    fn make() -> TurnGate {
        TurnGate {
            came: AtomicU64::new(0),
            in_turn: AtomicU64::new(0),
            overtaken: AtomicU64::new(0),
        }
    }

    // How many tiles entered, how many of them in turn, and how many while another was held.
    fn counts(&self) -> (u64, u64, u64) {
        let came = self.came.load(Ordering::SeqCst);
        let in_turn = self.in_turn.load(Ordering::SeqCst);
        (came, in_turn, self.overtaken.load(Ordering::SeqCst))
    }

    // Holds a tile until another enters, or for all turns.
    fn hold(&self) {
        for _ in 0..TURNS {
            if self.came.load(Ordering::SeqCst) > 8 {
                self.overtaken.fetch_add(1, Ordering::SeqCst);
                return;
            }
        }
    }
}

impl Gate for TurnGate {
    fn enter(&self, p: Place) {
        let before = self.came.fetch_add(1, Ordering::SeqCst);
        if p.c == 0 && u64::from(p.j) == before % 8 {
            self.in_turn.fetch_add(1, Ordering::SeqCst);
        }
        if before == 7 {
            self.hold();
        }
    }
}

// A page of one column and 257 lines.
const TWO_SLABS: Page<'static> = (Kind::Gray8, (1, 257), &[0xFF, 0, 0x9B, 0, 0, 0x9B]);

// The page is diffused in slabs of 256 rows, one after another, however many workers there are.
#[test]
fn errors_cross_the_slab_at_row_256(rt: HostRuntime) -> Result<(), Fail> {
    let alloc = rt.alloc();
    for workers in ["workers=1", "workers=2"] {
        let page = stream_of(alloc, &[TWO_SLABS])?;
        let gate = TurnGate::make();
        let left = print_through(&rt, alloc, workers, page, &gate)?;
        hashes_to(&rt, workers, &left, (0, b"", 1855, 0xB1BB_344A_C3B2_09A4));
        plays_to(&rt, alloc, workers, &left, (1064, 0x6523_246F_CB57_0EA5))?;
        let counts = gate.counts();
        assert!(rt; counts == (9, 9, 0), "{workers} {counts:?}");
    }
    Ok(())
}

// Seven tiles of the first slab, the first tile of the next one, and then the eighth.
#[test]
fn the_gate_tells_a_slab_that_is_begun_too_early(rt: HostRuntime) -> Result<(), Fail> {
    let gate = TurnGate::make();
    for j in [0, 1, 2, 3, 4, 5, 6, 0, 7] {
        gate.enter(Place { c: 0, j });
    }
    let counts = gate.counts();
    assert!(rt; counts == (9, 7, 0), "{counts:?}");
    Ok(())
}
