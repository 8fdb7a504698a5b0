//! The values of keys.
ghost use Rattle.std.specs.Prelude.{length, nat_le, ◌&&◌, ◌≡◌};
ghost use Rattle.job_words.specs.Values.{cap_value as cap_of, grain_value as grain_of, kernel_named as kernel_of};
ghost use Rattle.job_words.specs.Values.{height_value as height_of, kind_named as kind_of, most_value as most_of};
ghost use Rattle.job_words.specs.Values.{page_count as pages_of, seed_value as seed_of, shingle_value as shingle_of};
ghost use Rattle.job_words.specs.Values.{width_value as width_of, worker_count as workers_of};

use diffusion_kernel::Kernel;
use key_values::number_within;
use pwg_definitions::{Kind, MOST_COLUMNS, MOST_ROWS};
use separation_definitions::MOST_GRAIN;

/// The most bytes of a job that are read: 16 GiB.
pub const GREATEST_MOST: u64 = 17_179_869_184;

/// The most bytes of a name, which may be that of a file.
pub const MOST_NAME: usize = 255;

// The most workers of a team.
const MOST_WORKERS: u64 = 64;

// The most pages of a trial.
const MOST_PAGES: u64 = 16;

/// Whether a text may be a profile's name: 1 to 255 bytes.
pub fn is_profile_name(text: &str) -> bool
    ensures { result ≡ (nat_le 1 (length text.now) && nat_le (length text.now) 255) }
{
    1 <= text.len() && text.len() <= MOST_NAME
}

/// The kernel with this name.
pub fn kernel_named(text: &str) -> Option<Kernel>
    ensures { result ≡ kernel_of text.now }
{
    match text {
        "fs" => Some(Kernel::Floyd),
        "jjn" => Some(Kernel::Jarvis),
        "stucki" => Some(Kernel::Stucki),
        _ => None,
    }
}

/// How much grain is applied to amounts: 0 to 32.
pub fn grain_value(text: &str) -> Option<u8>
    ensures { result ≡ grain_of text.now }
{
    let number = number_within(0, u64::from(MOST_GRAIN), text.as_bytes())?;
    Some(number as u8)
}

/// The most dots that the meters may count: a number of 64 bits.
pub fn cap_value(text: &str) -> Option<u64>
    ensures { result ≡ cap_of text.now }
{
    number_within(0, u64::MAX, text.as_bytes())
}

/// The most bytes of a job that are read, at most 16 GiB.
pub fn most_value(text: &str) -> Option<u64>
    ensures { result ≡ most_of text.now }
{
    number_within(0, GREATEST_MOST, text.as_bytes())
}

/// How many workers: 1 to 64.
pub fn worker_count(text: &str) -> Option<u8>
    ensures { result ≡ workers_of text.now }
{
    let number = number_within(1, MOST_WORKERS, text.as_bytes())?;
    Some(number as u8)
}

/// Whether passes are shingled: `0` or `1`.
pub fn shingle_value(text: &str) -> Option<bool>
    ensures { result ≡ shingle_of text.now }
{
    match text {
        "0" => Some(false),
        "1" => Some(true),
        _ => None,
    }
}

/// The seed of the pages that are made: a number of 32 bits.
pub fn seed_value(text: &str) -> Option<u32>
    ensures { result ≡ seed_of text.now }
{
    let number = number_within(0, u64::from(u32::MAX), text.as_bytes())?;
    Some(number as u32)
}

/// How many pages are made: 1 to 16.
pub fn page_count(text: &str) -> Option<u8>
    ensures { result ≡ pages_of text.now }
{
    let number = number_within(1, MOST_PAGES, text.as_bytes())?;
    Some(number as u8)
}

/// Pixels across a made page, at least 1.
pub fn width_value(text: &str) -> Option<u32>
    ensures { result ≡ width_of text.now }
{
    let number = number_within(1, u64::from(MOST_COLUMNS), text.as_bytes())?;
    Some(number as u32)
}

/// Lines down a made page, at least 1.
pub fn height_value(text: &str) -> Option<u32>
    ensures { result ≡ height_of text.now }
{
    let number = number_within(1, u64::from(MOST_ROWS), text.as_bytes())?;
    Some(number as u32)
}

/// The kind of pixels with this name.
pub fn kind_named(text: &str) -> Option<Kind>
    ensures { result ≡ kind_of text.now }
{
    match text {
        "gray" => Some(Kind::Gray8),
        "black" => Some(Kind::Black8),
        "rgb" => Some(Kind::Rgb8),
        "black1" => Some(Kind::Black1),
        "cmyk" => Some(Kind::Cmyk8),
        _ => None,
    }
}
