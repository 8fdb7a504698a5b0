//! Each small head over black windows of eight columns.
use crate::fixture::stream_of;
use crate::heads::is_coprime;
use crate::small_heads::shots::{Shot, shots_of};
use driver_fixtures::{one_file, plain, roomy, run_over};
use pwg_header::Kind;
use std::alloc::{AllocError, Global};
use std::process::Abort;
use std::test::Fail;
use std::thread::Threads;
use weave_base::{MemShelf, MemSource};

// A head and a window: how many nozzles, how many rows they stand apart, and the rows of the window.
#[derive(Clone, Copy, Debug)]
struct Work {
    nozzles: u32,
    pitch: u32,
    rows: u32,
}

impl Work {
    // The rows above the window, which the head needs.
    fn top(self) -> u32 {
        self.nozzles.saturating_sub(1).wrapping_mul(self.pitch)
    }
}

// A shelf with the profile of the head.
fn shelf_of(alloc: Global, work: Work) -> Result<MemShelf, Fail> {
    let text = format!(in alloc;
        "escp2-profile 1\nhdpi=360\nvdpi=360\nnozzles={}\npitch={}\ninks=k\ntop={}\n",
        work.nozzles,
        work.pitch,
        work.top()
    )?;
    Ok(one_file(alloc, "mine", text.as_bytes())?)
}

// A stream of one black page with the window.
fn page_of(alloc: Global, work: Work) -> Result<MemSource, AllocError> {
    let height = work.rows.wrapping_add(work.top());
    let lines = u8::try_from(height.saturating_sub(1)).unwrap_or(255);
    let page = stream_of(alloc, &[(Kind::Gray8, (8, height), &[lines, 7, 0])])?;
    Ok(plain(alloc, page))
}

// The job of a black page by these words after `print profile=mine`.
fn job_of<R: Abort + Threads + Sync>(
    rt: &R,
    alloc: Global,
    work: Work,
    word: &str,
) -> Result<Vec<u8>, Fail> {
    let (page, shelf) = (page_of(alloc, work)?, shelf_of(alloc, work)?);
    let words = ["print", "profile=mine", word];
    let left = run_over(rt, alloc, &words, page, roomy(alloc)?, shelf)?;
    assert!(rt; left.status == 0, "{work:?} {word}");
    Ok(left.out.bytes().to_vec(alloc)?)
}

// How many of these shots fire these dots in a row.
fn shots_in(shots: &[Shot], row: usize, dots: u8) -> usize {
    let mut count: usize = 0;
    for shot in shots {
        if shot.row == row && shot.dots == dots {
            count = count.saturating_add(1);
        }
    }
    count
}

// Whether one of these nozzles fired.
fn has_fired(shots: &[Shot], dead: &[usize]) -> bool {
    let mut has_fired = false;
    for shot in shots {
        has_fired |= dead.contains(&shot.nozzle);
    }
    has_fired
}

// Whether these shots fire each row of the window with each of the dots once, by live nozzles, and nothing else.
fn are_once(shots: &[Shot], work: Work, dots: &[u8], dead: &[usize]) -> bool {
    let mut once = shots.len() == dots.len().wrapping_mul(work.rows as usize);
    for row in work.top()..work.top().wrapping_add(work.rows) {
        for wanted in dots {
            once &= shots_in(shots, row as usize, *wanted) == 1;
        }
    }
    once && !has_fired(shots, dead)
}

// The word that lists dead nozzles; a word that changes nothing where there is none.
fn dead_word(alloc: Global, dead: &[usize]) -> Result<String, Fail> {
    let mut word = String::new(alloc);
    for nozzle in dead {
        let next = format!(in alloc; "{}{}", if word.is_empty() { "dead=" } else { "," }, nozzle)?;
        word.push_str(&next)?;
    }
    if word.is_empty() {
        word.push_str("workers=1")?;
    }
    Ok(word)
}

// The dead nozzles of a set, which is a sum of powers of two.
fn dead_of(alloc: Global, nozzles: u32, set: u32) -> Result<Vec<usize>, Fail> {
    let mut dead = Vec::new(alloc);
    for (nozzle, power) in (0..nozzles as usize).zip([1u32, 2, 4, 8, 16, 32]) {
        if set & power != 0 {
            dead.push(nozzle)?;
        }
    }
    Ok(dead)
}

// Prints the windows of a head around a set of dead nozzles.
fn try_set<R: Abort + Threads + Sync>(
    rt: &R,
    alloc: Global,
    (nozzles, pitch): (u32, u32),
    set: u32,
) -> Result<(), Fail> {
    let dead = dead_of(alloc, nozzles, set)?;
    let word = dead_word(alloc, &dead)?;
    for rows in 1..=30 {
        let work = Work {
            nozzles,
            pitch,
            rows,
        };
        let job = job_of(rt, alloc, work, &word)?;
        let shots = shots_of(alloc, &job, pitch as usize)?;
        assert!(rt; are_once(&shots, work, &[0xFF], &dead), "{work:?} {word}");
    }
    Ok(())
}

// Prints them around every set of dead nozzles that leaves one.
fn try_sets<R: Abort + Threads + Sync>(
    rt: &R,
    alloc: Global,
    head: (u32, u32),
    sets: u32,
) -> Result<(), Fail> {
    for set in 0..sets.saturating_sub(1) {
        try_set(rt, alloc, head, set)?;
    }
    Ok(())
}

#[test]
fn every_set_of_dead_nozzles_of_small_heads_is_made_up(rt: HostRuntime) -> Result<(), Fail> {
    for (nozzles, sets) in (1..=6).zip([2u32, 4, 8, 16, 32, 64]) {
        for pitch in 1..=6 {
            if is_coprime(nozzles, pitch) {
                try_sets(&rt, rt.alloc(), (nozzles, pitch), sets)?;
            }
        }
    }
    Ok(())
}

// Prints the windows of a head in shingled passes.
fn try_shingles<R: Abort + Threads + Sync>(
    rt: &R,
    alloc: Global,
    (nozzles, pitch): (u32, u32),
) -> Result<(), Fail> {
    for rows in 1..=40 {
        let work = Work {
            nozzles,
            pitch,
            rows,
        };
        let job = job_of(rt, alloc, work, "shingle=1")?;
        let shots = shots_of(alloc, &job, pitch as usize)?;
        assert!(rt;
            are_once(&shots, work, &[0xAA, 0x55], &[]),
            "{work:?} shingled"
        );
    }
    Ok(())
}

#[test]
fn small_heads_shingle_each_row(rt: HostRuntime) -> Result<(), Fail> {
    for nozzles in 2..=12 {
        for pitch in 1..=12 {
            if is_coprime(nozzles, pitch) && is_coprime(nozzles / 2, pitch) {
                try_shingles(&rt, rt.alloc(), (nozzles, pitch))?;
            }
        }
    }
    Ok(())
}
