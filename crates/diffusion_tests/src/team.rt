//! Teams of several sizes, and workers that gates watch or hold back.
use crate::gates::{CountingGate, HoldingGate};
use crate::windows::{Case, early_tiles, is_right, measure_of, wrong_waiting};
use diffusion_kernel::Kernel;
use slab_fixtures::{LEVEL_SLAB, Measure, MeetingGate};
use std::sync::atomic::{AtomicU64, Ordering};
use worker_team::OpenGate;

// A slab of one ink and amounts 100: five columns and three bands of tiles.
const LEVEL: Case = Case {
    kernel: Kernel::Floyd,
    all: Some(100),
    error: 0,
    width: 200,
    inks: 1,
    slabs: &[70],
};

// A small slab.
const SMALL: Case = Case {
    all: None,
    width: 130,
    slabs: &[40],
    ..LEVEL
};

#[test]
fn any_number_of_workers_gives_the_dots_of_the_plain_program(rt: HostRuntime) {
    for &(kernel, width, inks) in &[
        (Kernel::Floyd, 200, 1),
        (Kernel::Jarvis, 66, 4),
        (Kernel::Stucki, 1, 2),
    ] {
        let case = Case::mixed(kernel, width, inks, &[64, 39]);
        for workers in [1, 2, 8, 64] {
            is_right(&rt, rt.alloc(), &case, workers, &OpenGate);
        }
    }
    for _ in 0..200 {
        is_right(&rt, rt.alloc(), &SMALL, 8, &OpenGate);
    }
}

#[test]
fn two_tiles_inside_the_gate_at_once_give_the_known_dots(rt: HostRuntime) {
    let gate = MeetingGate::make();
    is_right(&rt, rt.alloc(), &LEVEL, 2, &gate);
    let other = MeetingGate::make();
    let found = measure_of(&rt, rt.alloc(), &LEVEL, 2, &other);
    let met = (gate.met(), other.met());
    assert_eq!(rt; (found, met), (Some((LEVEL_SLAB, 5)), (2, 2)));
}

#[test]
fn each_kernel_gives_the_known_dots(rt: HostRuntime) {
    const ROWS: [(Kernel, Measure); 3] = [
        (Kernel::Floyd, LEVEL_SLAB),
        (Kernel::Jarvis, (1750, 5462, 0x5D01_39B5_D3AF_00D3)),
        (Kernel::Stucki, (1750, 5463, 0x7FC7_7ACE_F554_46DD)),
    ];
    for &(kernel, wanted) in &ROWS {
        let case = Case { kernel, ..LEVEL };
        let found = measure_of(&rt, rt.alloc(), &case, 3, &OpenGate);
        let is_known = matches!(found, Some((measure, _)) if measure == wanted);
        assert!(rt; is_known, "{kernel:?}: {found:?}");
    }
}

// Four bits for each tile of the level slab, which count once.
const ONCE: u64 = 0x0111_1111_1111_1111;

#[test]
fn each_tile_enters_the_gate_once_before_it_is_worked(rt: HostRuntime) {
    for workers in [1, 2, 8] {
        let gate = CountingGate {
            entered: AtomicU64::new(0),
        };
        is_right(&rt, rt.alloc(), &LEVEL, workers, &gate);
        let watched = CountingGate {
            entered: AtomicU64::new(0),
        };
        let early = early_tiles(&rt, rt.alloc(), &LEVEL, workers, &watched);
        let entered = (
            gate.entered.load(Ordering::SeqCst),
            watched.entered.load(Ordering::SeqCst),
        );
        assert_eq!(rt; (early, entered), (Some(0), (ONCE, ONCE)), "by {workers}");
    }
}

#[test]
fn tiles_that_are_held_back_change_nothing(rt: HostRuntime) {
    let gate = HoldingGate {
        turns: AtomicU64::new(0),
    };
    for _ in 0..20 {
        is_right(&rt, rt.alloc(), &SMALL, 8, &gate);
    }
}

#[test]
fn slabs_that_wait_are_laid_and_each_errand_is_done_once(rt: HostRuntime) {
    let mixed = Case::mixed(Kernel::Jarvis, 130, 2, &[64, 32, 39]);
    for (case, times) in [(mixed, 3), (LEVEL, 1)] {
        let mut errand = [7; 17];
        errand[0] = times;
        for workers in [1, 2, 4] {
            let found = wrong_waiting(&rt, rt.alloc(), &case, workers);
            assert!(rt;
                found == Some((0, errand)),
                "{found:?} of {case:?} by {workers}"
            );
        }
    }
}
