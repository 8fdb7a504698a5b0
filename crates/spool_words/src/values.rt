//! The values of keys.
ghost use Rattle.job_words.specs.Values.{grain_value as grain_of, kernel_named as kernel_of};
ghost use Rattle.job_words.specs.Values.{worker_count as workers_of};
ghost use Rattle.spool_words.specs.Names.{are_names as are_names_of, is_name as is_name_of, names_in};
ghost use Rattle.std.specs.Prelude.{length, ◌≡◌, ◌≤◌};

use diffusion_kernel::Kernel;
use job_words::MOST_NAME;

// The most names of one sender.
const MOST_NAMES: usize = 64;

/// Whether a text may be the name of a profile or of a file: 1 to 255 bytes.
pub fn is_name(text: &str) -> bool
    ensures { result ≡ is_name_of text.now }
{
    1 <= text.len() && text.len() <= MOST_NAME
}

/// How many names a text lists, with commas between.
pub fn count_names(text: &str) -> usize
    ensures count { result ≡ length (names_in text.now) }
    ensures least { 1 ≤ result }
{
    text.split(',').count()
}

/// Whether a text lists 1 to 64 names, with commas between.
pub fn lists_names(text: &str) -> bool
    ensures { result ≡ are_names_of (names_in text.now) }
{
    count_names(text) <= MOST_NAMES && text.split(',').all(is_name)
}

// `and_then` takes no function of another crate by its name, so those of `job_words` have one here.

/// The kernel of a name.
pub fn kernel_named(text: &str) -> Option<Kernel>
    ensures { result ≡ kernel_of text.now }
{
    job_words::kernel_named(text)
}

/// How much grain is applied to amounts: 0 to 32.
pub fn grain_value(text: &str) -> Option<u8>
    ensures { result ≡ grain_of text.now }
{
    job_words::grain_value(text)
}

/// How many workers: 1 to 64.
pub fn worker_count(text: &str) -> Option<u8>
    ensures { result ≡ workers_of text.now }
{
    job_words::worker_count(text)
}
