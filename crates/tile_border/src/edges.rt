//! The edges of a tile, ink by ink.
ghost use Rattle.diffusion_definitions.specs.Diffusion.{EachInRange};
ghost use Rattle.std.specs.Prelude.{IfOk, length, pos, replicate, slice_set, ◌<◌, ◌≡◌, ◌≤◌};
ghost use Rattle.tile_border.specs.Inks.{CutsEnds, errors_of};
ghost use Rattle.tile_edges.specs.Tops.{IsCut};

use base_definitions::Memory;
use std::alloc::Global;
use std::marker::Model;

/// An edge of a tile: N errors of each ink, of 1 to 4 inks.
/// Contracts see a list of errors for each ink, each error from -2040 to 2039; an ink past the last has the error 0
/// everywhere.
#[derive(Drop)]
pub struct Edge<const N: usize> {
    pub(crate) inks: Vec<[i16; N]>,
}

/// The errors that a tile hands to the one at its right: offsets 58 to 63 of its 32 rows, row by row.
pub type RightEdge = Edge<192>;

/// The errors of a tile's last two rows, 64 each.
pub type BottomEdge = Edge<128>;

/// The errors at offsets 58 to 63 of a tile's last two rows, row by row.
pub type CornerEdge = Edge<12>;

impl<const N: usize> Model for Edge<N> {
    ghost use Rattle.std.specs.Prelude.{List, ℤ};

    ghost Value = { List (List ℤ) };

    ghost use Rattle.tile_border.specs.Inks.{AreInks};

    ghost view = { λ edge. edge.inks.items };

    ghost invariant = { λ edge. AreInks edge.inks.items };
}

impl<const N: usize> Edge<N> {
    /// Errors 0, for 1 to 4 inks.
    pub fn zero(alloc: Global, inks: u8) -> Result<Edge<N>, Memory>
        requires some { 1 ≤ inks }
        requires most { inks ≤ 4 }
        ensures { IfOk result (λ edge. edge ≡ replicate inks (replicate N (pos 0))) }
    {
        let mut zeros = Vec::with_capacity(alloc, usize::from(inks))?;
        for _ in 0..inks {
            zeros.push_reserved([0; N]);
        }
        Ok(Edge { inks: zeros })
    }

    /// How many inks there are.
    pub fn inks(&self) -> u8
        ensures is { result ≡ length self.now }
        ensures some { 1 ≤ result }
        ensures most { result ≤ 4 }
    {
        self.inks.len() as u8
    }

    /// The errors of an ink.
    pub fn ink(&self, ink: u8) -> &[i16; N]
        requires { ink < length self.now }
        ensures is { result.now ≡ errors_of self.now ink }
        ensures fits { EachInRange result.now }
    {
        &self.inks[usize::from(ink)]
    }

    /// Sets the errors of an ink. All others stay.
    pub fn put(&mut self, ink: u8, errors: &[i16; N])
        requires ink { ink < length self.old }
        requires fits { EachInRange errors.now }
        ensures { self.new ≡ slice_set self.old ink errors.now }
    {
        self.inks[usize::from(ink)] = *errors;
    }
}

impl BottomEdge {
    /// The ends of an ink's two rows: offsets 58 to 63, as a corner edge has them.
    pub fn ends(&self, ink: u8) -> [i16; 12]
        requires { ink < length self.now }
        ensures is { IsCut (errors_of self.now ink) result }
        ensures fits { EachInRange result }
    {
        let errors = self.ink(ink);
        let mut ends = [0; 12];
        for n in 0..12 {
            ends[n] = errors[58 + 64 * (n / 6) + n % 6];
        }
        ends
    }

    /// Sets a corner edge of as many inks to the ends of each ink.
    pub fn cut_ends(&self, corner: &mut CornerEdge)
        requires { length corner.old ≡ length self.now }
        ensures { CutsEnds self.now corner.old corner.new }
    {
        for ink in 0..self.inks() {
            corner.put(ink, &self.ends(ink));
        }
    }
}
