//! Pseudo-random print jobs for the printer `tiny`, most of them with one or two sheets.
ghost use Rattle.std.specs.Prelude.{◌<◌};

use std::alloc::{AllocError, Global};

/// A generator of numbers, by shifts of 64 bits (xorshift64).
#[derive(Clone, Copy)]
pub struct Random {
    pub state: u64,
}

impl Random {
    fn next(&mut self) -> u64 {
        self.state ^= self.state << 13;
        self.state ^= self.state >> 7;
        self.state ^= self.state << 17;
        self.state
    }

    /// A number below a bound.
    pub fn below(&mut self, bound: u64) -> u64
        requires { 0 < bound }
        ensures { result < bound }
    {
        (self.next() >> 11) % bound
    }

    /// A byte below a bound.
    pub fn byte(&mut self, bound: u8) -> u8
        requires { 0 < bound }
        ensures { result < bound }
    {
        u8::try_from(self.below(u64::from(bound))).unwrap_or(0)
    }

    /// Any byte.
    pub fn any_byte(&mut self) -> u8 {
        self.next().to_be_bytes()[0]
    }

    // A byte with few dots; half of all such bytes have none.
    fn dots(&mut self) -> u8 {
        if self.below(2) == 0 {
            return 0;
        }
        self.any_byte() & self.any_byte() & self.any_byte()
    }
}

// Appends graphics mode, the unit, the page's length and its margins. The bottom margin may be past the page's end.
fn add_page(random: &mut Random, job: &mut Vec<u8>) -> Result<(), AllocError> {
    let length = 12 + random.byte(20);
    let top = [0, 0, 0, 2, 2, 2, 4, 1][random.below(8) as usize];
    let bottom = length - random.byte(9) / 4 + random.byte(24) / 23;
    job.extend_from_slice(&[0x1B, 0x28, 0x47, 1, 0, 1, 0x1B, 0x28, 0x55, 1, 0, 5])?;
    job.extend_from_slice(&[0x1B, 0x28, 0x43, 2, 0, length, 0])?;
    job.extend_from_slice(&[0x1B, 0x28, 0x63, 4, 0, top, 0, bottom, 0])
}

// Appends a row of `width` bytes, by packets of one to four.
fn add_row(random: &mut Random, width: u8, job: &mut Vec<u8>) -> Result<(), AllocError> {
    let mut left = width;
    for _ in 0..width {
        let count = left.min(1 + random.byte(4));
        let control = match (count, random.below(60)) {
            (0, _) => break,
            (_, 0) => random.any_byte(),
            (2..=4, 1..=25) => 0u8.wrapping_sub(count).wrapping_add(1),
            _ => count - 1,
        };
        job.push(control)?;
        for _ in 0..if control < 128 { count } else { 1 } {
            job.push(random.dots())?;
        }
        left -= count;
    }
    Ok(())
}

// Appends a raster of one to twenty columns. Its steps or its number of rows may differ from the printer's.
fn add_raster(random: &mut Random, job: &mut Vec<u8>) -> Result<(), AllocError> {
    let coded = random.byte(2);
    let columns = 1 + random.byte(20);
    let width = (columns + 7) / 8;
    let (v, h, m) = match random.below(64) {
        0 => (10, 10, 3),
        1 => (20, 5, 3),
        2 => (20, 10, 2),
        _ => (20, 10, 3),
    };
    job.extend_from_slice(&[0x1B, 0x2E, coded, v, h, m, columns, 0])?;
    for _ in 0..m {
        if coded == 1 {
            add_row(random, width, job)?;
        } else {
            for _ in 0..width {
                job.push(random.dots())?;
            }
        }
    }
    Ok(())
}

// Appends a command that fires no dots.
fn add_plain(random: &mut Random, job: &mut Vec<u8>) -> Result<(), AllocError> {
    let few = random.byte(12);
    match random.below(32) {
        0..=9 => job.extend_from_slice(&[0x0D]),
        10..=13 => job.extend_from_slice(&[0x1B, 0x28, 0x76, 2, 0, few / 3 * 2, 0]),
        14 => job.extend_from_slice(&[0x1B, 0x28, 0x76, 2, 0, few, 0]),
        15..=16 => job.extend_from_slice(&[0x1B, 0x28, 0x56, 2, 0, few / 2 * 2, 0]),
        17..=19 => job.extend_from_slice(&[0x1B, 0x24, few / 2 * 14, 0]),
        20 => job.extend_from_slice(&[0x1B, 0x24, few, random.byte(2)]),
        21..=23 => job.extend_from_slice(&[0x1B, 0x72, [0, 1, 2, 4][random.below(4) as usize]]),
        24..=27 => job.extend_from_slice(&[0x0C]),
        28 => job.extend_from_slice(&[0x1B, 0x40]),
        29 => {
            job.extend_from_slice(&[0x1B, 0x40])?;
            add_page(random, job)
        }
        30 => job.extend_from_slice(&[0x1B, 0x28, 0x69, 1, 0, 0, 0x1B, 0x55, few / 6]),
        _ => job.extend_from_slice(&[0x1B, random.any_byte()]),
    }
}

/// A job of pseudo-random commands.
pub fn random_job(alloc: Global, random: &mut Random) -> Result<Vec<u8>, AllocError> {
    let mut job = Vec::new(alloc);
    job.extend_from_slice(&[0x1B, 0x40])?;
    if random.below(16) > 0 {
        add_page(random, &mut job)?;
    }
    for _ in 0..4 + random.below(12) {
        if random.below(2) == 0 {
            add_raster(random, &mut job)?;
        } else {
            add_plain(random, &mut job)?;
        }
    }
    Ok(job)
}
