//! Pages for which each kernel sets other dots.
use crate::fixture::{Page, hashes_to, plays_to, run_bytes, stream_of};
use driver_fixtures::{Left, no_files};
use pwg_header::Kind;
use std::alloc::{AllocError, Global};
use std::process::Abort;
use std::test::Fail;
use std::thread::Threads;

// Pseudo-random bytes: the highest ones of a linear congruential sequence.
#[derive(Drop)]
struct Draws {
    state: u32,
}

impl Draws {
    fn next(&mut self) -> u8 {
        self.state = self
            .state
            .wrapping_mul(1_664_525)
            .wrapping_add(1_013_904_223);
        (self.state >> 24) as u8
    }
}

// Appends one to four equal lines of runs of one to eight grey pixels, and gives how many lines they are.
fn add_lines(
    draws: &mut Draws,
    width: u32,
    left: u32,
    body: &mut Vec<u8>,
) -> Result<u32, AllocError> {
    let repeats = left.min(u32::from(draws.next() % 4).saturating_add(1));
    body.push(repeats.saturating_sub(1) as u8)?;
    let mut rest = width;
    for _ in 0..width {
        if rest == 0 {
            break;
        }
        let length = rest.min(u32::from(draws.next() % 8).saturating_add(1));
        body.extend_from_slice(&[length.saturating_sub(1) as u8, draws.next()])?;
        rest = rest.saturating_sub(length);
    }
    Ok(repeats)
}

// A grey page of pseudo-random runs.
fn drawn_page(alloc: Global, seed: u32, width: u32, height: u32) -> Result<Vec<u8>, AllocError> {
    let mut draws = Draws { state: seed };
    let mut body = Vec::new(alloc);
    let mut left = height;
    for _ in 0..height {
        if left == 0 {
            break;
        }
        left = left.saturating_sub(add_lines(&mut draws, width, left, &mut body)?);
    }
    stream_of(alloc, &[(Kind::Gray8, (width, height), body.as_slice())])
}

// Prints a page by a kernel, a grain and so many workers.
fn print_by<R: Threads + Sync>(
    rt: &R,
    alloc: Global,
    page: &Vec<u8>,
    (kernel, grain, workers): (&str, &str, &str),
) -> Result<Left, Fail> {
    let words = ["print", "profile=tiny1", kernel, grain, workers];
    Ok(run_bytes(rt, alloc, &words, page.clone()?, no_files(alloc))?)
}

// A kernel's word, the length and the hash of its job, and the hash of the job's images.
type Kernel = (&'static str, usize, u64, u64);

// Asserts the length and the hash of a page's job by a kernel and several numbers of workers, and those of its images.
fn prints_alike<R: Abort + Threads + Sync>(
    rt: &R,
    alloc: Global,
    page: &Vec<u8>,
    (kernel, length, hash, images): Kernel,
) -> Result<(), Fail> {
    for workers in ["workers=1", "workers=2", "workers=64"] {
        let left = print_by(rt, alloc, page, (kernel, "grain=0", workers))?;
        hashes_to(rt, kernel, &left, (0, b"", length, hash));
        plays_to(rt, alloc, kernel, &left, (7040, images))?;
    }
    Ok(())
}

// Asserts the same for each kernel.
fn try_kernels<R: Abort + Threads + Sync>(
    rt: &R,
    alloc: Global,
    page: &Vec<u8>,
    kernels: &[Kernel; 3],
) -> Result<(), Fail> {
    for kernel in kernels {
        prints_alike(rt, alloc, page, *kernel)?;
    }
    Ok(())
}

/// Seventy equal lines of two hundred columns, in one grey.
pub const ONE_GREY: Page<'static> = (Kind::Gray8, (200, 70), &[0x45, 0x7F, 0x9B, 0x47, 0x9B]);

const OF_ONE_GREY: [Kernel; 3] = [
    (
        "kernel=fs",
        3192,
        0xDFF3_6ADB_6A87_5A1D,
        0xE2B8_C381_F3B4_4E48,
    ),
    (
        "kernel=jjn",
        3094,
        0xCD4D_5F62_59C9_C274,
        0x5CBE_E0DB_842C_4FC7,
    ),
    (
        "kernel=stucki",
        3192,
        0xCA80_08C8_6316_7BFA,
        0xC2AD_322E_E446_90D1,
    ),
];

const OF_DRAWN: [Kernel; 3] = [
    (
        "kernel=fs",
        3192,
        0x4F0D_D824_B9F7_8FE3,
        0xFE38_3952_E6FA_EC6E,
    ),
    (
        "kernel=jjn",
        3192,
        0xACAF_F7A9_B719_D5D8,
        0x5F21_B0DA_BFD1_4FA7,
    ),
    (
        "kernel=stucki",
        3191,
        0xE4E0_B452_6337_5667,
        0xCBE3_2DB7_A504_C77C,
    ),
];

// The tiles give the row-by-row page.
#[test]
fn worker_counts_give_equal_bytes(rt: HostRuntime) -> Result<(), Fail> {
    let grey = stream_of(rt.alloc(), &[ONE_GREY])?;
    try_kernels(&rt, rt.alloc(), &grey, &OF_ONE_GREY)?;
    let drawn = drawn_page(rt.alloc(), 7, 200, 70)?;
    try_kernels(&rt, rt.alloc(), &drawn, &OF_DRAWN)
}

#[test]
fn worker_counts_give_equal_bytes_with_grain(rt: HostRuntime) -> Result<(), Fail> {
    let page = drawn_page(rt.alloc(), 7, 200, 300)?;
    let alone = print_by(
        &rt,
        rt.alloc(),
        &page,
        ("kernel=jjn", "grain=16", "workers=1"),
    )?;
    let together = print_by(
        &rt,
        rt.alloc(),
        &page,
        ("kernel=jjn", "grain=16", "workers=4"),
    )?;
    let (alone, together) = (alone.out.bytes(), together.out.bytes());
    assert!(rt; 1000 < alone.len() && alone == together);
    Ok(())
}
