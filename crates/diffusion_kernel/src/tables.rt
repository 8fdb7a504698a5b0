//! The kernels and their published tables.

/// A published kernel of error diffusion.
#[derive(Clone, Copy, Debug, PartialEq, Eq)]
pub enum Kernel {
    /// Floyd and Steinberg 1976: four shares, in parts of 16.
    Floyd,
    /// Jarvis, Judice and Ninke 1976: twelve shares, in parts of 48.
    Jarvis,
    /// Stucki 1981: twelve shares, in parts of 42.
    Stucki,
}

/// A share of a pixel's error, and the pixel that gets it.
#[derive(Clone, Copy, Debug, PartialEq, Eq)]
pub struct Weight {
    /// How many pixels to the right: -2 to 2.
    pub dx: i8,
    /// How many rows below: 0 to 2.
    pub dy: i8,
    /// How many parts of the error, at least 1.
    pub share: u8,
}

/// The shares of a pixel's error as a published table has them, including those that are 0.
#[derive(Clone, Copy)]
pub struct Shares {
    /// The parts that the error is divided into: the sum of all shares.
    pub divisor: u8,
    /// One and two pixels to the right.
    pub right: [u8; 2],
    /// One row below, from two pixels to the left to two to the right.
    pub below: [u8; 5],
    /// The same places, two rows below.
    pub below2: [u8; 5],
}

const FLOYD: Shares = Shares {
    divisor: 16,
    right: [7, 0],
    below: [0, 3, 5, 1, 0],
    below2: [0, 0, 0, 0, 0],
};

const JARVIS: Shares = Shares {
    divisor: 48,
    right: [7, 5],
    below: [3, 5, 7, 5, 3],
    below2: [1, 3, 5, 3, 1],
};

const STUCKI: Shares = Shares {
    divisor: 42,
    right: [8, 4],
    below: [2, 4, 8, 4, 2],
    below2: [1, 2, 4, 2, 1],
};

/// The weights of a table at these places of its rows.
macro_rules! weights {
    ($table:ident, right: $($right:literal)*, below: $($below:literal)*, below2: $($below2:literal)*) => {
        [
            $(Weight { dx: $right + 1, dy: 0, share: $table.right[$right] },)*
            $(Weight { dx: $below - 2, dy: 1, share: $table.below[$below] },)*
            $(Weight { dx: $below2 - 2, dy: 2, share: $table.below2[$below2] },)*
        ]
    };
}

static FLOYD_WEIGHTS: [Weight; 4] = weights!(FLOYD, right: 0, below: 1 2 3, below2:);

static JARVIS_WEIGHTS: [Weight; 12] =
    weights!(JARVIS, right: 0 1, below: 0 1 2 3 4, below2: 0 1 2 3 4);

static STUCKI_WEIGHTS: [Weight; 12] =
    weights!(STUCKI, right: 0 1, below: 0 1 2 3 4, below2: 0 1 2 3 4);

impl Kernel {
    ghost use Rattle.diffusion_definitions.specs.Diffusion.{divisor};
    ghost use Rattle.diffusion_kernel.specs.Tables.{table_from, table_of, weights_of};
    ghost use Rattle.std.specs.Prelude.{◌≡◌, ◌≤◌};

    /// The kernel's published table.
    #[inline(always)]
    pub fn shares(self) -> Shares
        ensures table { table_from result ≡ table_of self }
        ensures divisor { result.divisor ≡ divisor (table_of self) }
        ensures some { 1 ≤ result.divisor }
        ensures most { result.divisor ≤ 48 }
    {
        match self {
            Kernel::Floyd => FLOYD,
            Kernel::Jarvis => JARVIS,
            Kernel::Stucki => STUCKI,
        }
    }

    /// The shares of the kernel, row by row from above, and in each row from the left. Places that get no share are
    /// left out.
    pub fn weights(self) -> &'static [Weight]
        ensures { result.now ≡ weights_of (table_of self) }
    {
        match self {
            Kernel::Floyd => &FLOYD_WEIGHTS,
            Kernel::Jarvis => &JARVIS_WEIGHTS,
            Kernel::Stucki => &STUCKI_WEIGHTS,
        }
    }
}
