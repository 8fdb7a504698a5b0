//! How the rows of a tile go in step, and where a field has their errors.
ghost use Rattle.std.specs.Prelude.{◌+◌, ◌<◌, ◌≡◌, ◌≤◌};
ghost use Rattle.tile_lanes.specs.Paces.{cell_of, delay_of, end_of, pace_of};

use diffusion_kernel::Kernel;

/// How the rows of a tile go in step.
#[derive(Clone, Copy)]
pub(crate) enum Pace {
    /// All rows are at one offset. No pixel may read an error at its own offset: two to the right in the row above.
    Level,
    /// Each row is one offset behind the row above it.
    Lagging,
}

impl Pace {
    /// The pace for a kernel: the fewest steps that it allows.
    #[inline(always)]
    pub(crate) fn of(kernel: Kernel) -> Pace
        ensures { result ≡ pace_of kernel }
    {
        match kernel {
            Kernel::Floyd => Pace::Level,
            Kernel::Jarvis | Kernel::Stucki => Pace::Lagging,
        }
    }

    /// How many steps row r is behind row 0.
    #[inline(always)]
    pub(crate) fn delay(self, r: usize) -> usize
        ensures is { result ≡ delay_of self r }
        ensures most { result ≤ r }
    {
        match self {
            Pace::Level => 0,
            Pace::Lagging => r,
        }
    }

    /// The step after a tile's last one.
    #[inline(always)]
    pub(crate) fn end(self) -> usize
        ensures is { result ≡ end_of self }
        ensures least { 72 ≤ result }
        ensures most { result ≤ 103 }
    {
        match self {
            Pace::Level => 72,
            Pace::Lagging => 103,
        }
    }

    /// Where a field has the error of row p, counted from two rows above the tile, at place l, counted from six left of
    /// it.
    #[inline(always)]
    pub(crate) fn cell(self, p: usize, l: usize) -> usize
        requires p { p < 34 }
        requires l { l < 70 }
        ensures is { result ≡ cell_of self p l }
        ensures few { result < 3502 }
    {
        let group = match self {
            Pace::Level => l + 2,
            Pace::Lagging => l + p,
        };
        34 * group + p
    }
}
