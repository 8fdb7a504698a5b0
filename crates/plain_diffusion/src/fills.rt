//! A window: its amounts, and the errors above it.
ghost use Rattle.diffusion_definitions.specs.Diffusion.{InRange};
ghost use Rattle.plain_diffusion.specs.Fills.{AboveInRange, above_of, amount_of, hash};
ghost use Rattle.plain_diffusion.specs.declared.fills.Above.TheVariants.{Edges, Mixed};
ghost use Rattle.std.specs.Prelude.{negsuc, pos, ℕ, ◌+ℤ◌, ◌≡◌, ◌≤ℤ◌, ◌≤◌};

use diffusion_kernel::Kernel;

/// The amounts of a window.
#[derive(Clone, Copy, Debug, PartialEq, Eq)]
pub enum Amounts {
    /// By a hash of the pixel's place and of a seed, such as the ink's number.
    Mixed(u8),
    /// One amount for all pixels.
    All(u8),
}

/// The errors of the two rows above a window.
#[derive(Clone, Copy, Debug, PartialEq, Eq)]
pub enum Above {
    /// One error at each place of the bottom edges of tiles above it, which begin 60 and 62 pixels left of it; else 0.
    Edges(i16),
    /// By a hash of the place, also left and right of the window.
    Mixed,
}

/// An ink of a window, and what it is diffused by.
#[derive(Clone, Copy, Debug, PartialEq, Eq)]
pub struct InkWindow {
    /// The kernel.
    pub kernel: Kernel,
    /// The amounts.
    pub fill: Amounts,
    /// The errors above the window.
    pub above: Above,
    /// Columns, at most 65,535.
    pub width: u32,
    /// Rows, at most 65,535.
    pub height: u32,
}

/// The amount at column x and row y.
pub fn amount_at(fill: Amounts, x: u32, y: u32) -> u8
    ensures { result ≡ amount_of fill x y }
{
    match fill {
        Amounts::Mixed(seed) => (mixed(seed, x, y) >> 24) as u8,
        Amounts::All(amount) => amount,
    }
}

// A hash of a place.
fn mixed(seed: u8, x: u32, y: u32) -> u32
    ensures { result ≡ hash seed x y }
{
    let n = x
        .wrapping_mul(2654435761)
        .wrapping_add(y.wrapping_mul(2246822519))
        .wrapping_add(u32::from(seed).wrapping_mul(3266489917));
    (n ^ (n >> 15)).wrapping_mul(668265263)
}

/// The error at column x of row y above a window; its rows are -2 and -1.
pub(crate) fn error_above(above: Above, width: u32, x: i64, y: i64) -> i16
    requires above { AboveInRange above }
    requires width { width ≤ 65535 }
    requires first { negsuc 1 ≤ℤ y }
    requires last { y ≤ℤ negsuc 0 }
    ensures is { (t n : ℕ) → pos t ≡ y +ℤ pos 2 → pos n ≡ x +ℤ pos 4 → result ≡ above_of above width t n }
    ensures in_range { InRange result }
{
    match above {
        Above::Edges(error) => edge_error(error, width, x, y),
        Above::Mixed => mixed_error(x, y),
    }
}

// The error where the bottom edges of the tiles above have a place, and else 0.
fn edge_error(error: i16, width: u32, x: i64, y: i64) -> i16
    requires error { InRange error }
    requires width { width ≤ 65535 }
    requires first { negsuc 1 ≤ℤ y }
    requires last { y ≤ℤ negsuc 0 }
    ensures is { (t n : ℕ) → pos t ≡ y +ℤ pos 2 → pos n ≡ x +ℤ pos 4 → result ≡ above_of (Edges error) width t n }
    ensures in_range { InRange result }
{
    let left = 64 + 2 * y;
    let columns = (width + 125) / 64;
    if x < -left || i64::from(64 * columns) - left <= x {
        return 0;
    }
    error
}

// An error by a hash of its place.
fn mixed_error(x: i64, y: i64) -> i16
    ensures is { (t n : ℕ) → pos t ≡ y +ℤ pos 2 → pos n ≡ x +ℤ pos 4 → result ≡ above_of Mixed 0 t n }
    ensures in_range { InRange result }
{
    let (x, y) = (x.rem_euclid(65536) as u32, y.rem_euclid(65536) as u32);
    (mixed(0, x, y) % 4080) as i16 - 2040
}
