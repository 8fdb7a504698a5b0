//! Runs the stages of printing by themselves, for `bench/run`, which times each:
//!
//!     stage_bench STAGE [profile=NAME] [kernel=NAME] [grain=NUMBER] [workers=NUMBER] < page.pwg
//!
//! `read` reads the lines of the first page, and `separate` also separates as many tiles of bytes by columns. `slabs`
//! halftones the page in slabs as the driver does, by this many workers. `read` and `separate` print the number of
//! lines, `slabs` the number of dots.
//!
//! `slab-team` diffuses a slab of 2976 by 256 pseudo-random amounts in the profile's inks by this many workers, and
//! prints the fewest nanoseconds of twenty runs; `slab-plain` does the same by the plain program. `separate-gray`,
//! `separate-black`, `separate-rgb`, `separate-black1` and `separate-cmyk` separate eight bands of 45 tiles of
//! pseudo-random pixels of that kind, whose bytes stand by columns, and print the fewest nanoseconds of a hundred runs.
//! These stages read no page.
//!
//! Only its safety is proved. Its stored run counts the dots of a small page.
#![tactic(auto)]

mod lines;
mod separation;
mod slab;
mod stages;

use job_profile::find_profile;
use job_words::{Words, profile_name, read_words};
use separation::{kind_named, time_separation};
use slab::{time_plainly, time_slab};
use stages::{run_stage, stage_named};
use std::env;
use std::process::ExitCode;
use std::thread::Threads;
use weave_base::{DirShelf, StdSource};

// The stage's name, and the words of a print job with up to four words after it.
fn words_of(rt: &HostRuntime) -> Option<(String, Words)> {
    let mut line = env::args(rt).ok()?.skip(1);
    let stage = line.next()?;
    let mut words = Words::make(rt.alloc());
    words.push("print").ok()?;
    for word in line.take(4) {
        if words.len() < 5 {
            words.push(&word).ok()?;
        }
    }
    Some((stage, words))
}

// The number that the words ask for: lines, dots or nanoseconds.
fn measure<R: Threads + Sync>(rt: &HostRuntime, threads: &R) -> Option<u128> {
    let (name, words) = words_of(rt)?;
    let job = read_words(&words).ok()?;
    let workers = job.workers.clamp(1, 64);
    let mut shelf = DirShelf::make(rt);
    let profile = find_profile(rt.alloc(), &mut shelf, profile_name(&words, &job)).ok()?;
    let inks = profile.inks.count();
    match name.as_str() {
        "slab-team" => return time_slab(rt, threads, job.kernel, inks, workers),
        "slab-plain" => return time_plainly(rt, job.kernel, inks),
        _ => {}
    }
    if let Some(kind) = kind_named(&name) {
        return time_separation(rt, &profile, kind);
    }
    let stage = stage_named(&name)?;
    let mut input = StdSource::make(rt.stdin());
    let count = run_stage(
        threads,
        rt.alloc(),
        stage,
        &profile,
        job.kernel,
        job.grain,
        workers,
        &mut input,
    );
    Some(u128::from(count.ok()?))
}

fn main(rt: HostRuntime) -> ExitCode {
    let Some(number) = measure(&rt, &rt) else {
        return ExitCode::from(1);
    };
    match println!(rt; "{number}") {
        Ok(()) => ExitCode::from(0),
        Err(_) => ExitCode::from(1),
    }
}
