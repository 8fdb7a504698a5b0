//! The edges above a board.
ghost use Rattle.std.specs.Prelude.{IfOk, [], length, slice_index_or, slice_set, ◌<◌, ◌≡◌, ◌≤◌};
ghost use Rattle.tile_border.specs.Tops.{IsZeroTop};

use crate::edges::BottomEdge;
use base_definitions::Memory;
use std::alloc::Global;
use std::marker::Model;

/// The bottom edges above the first band of a board, one for each column of tiles. Contracts see a list by columns, and
/// in each column a list of errors for each ink.
#[derive(Drop)]
pub struct TopEdges {
    edges: Vec<BottomEdge>,
}

impl Model for TopEdges {
    ghost use Rattle.std.specs.Prelude.{List, ℤ};

    ghost Value = { List (List (List ℤ)) };

    ghost use Rattle.tile_border.specs.Tops.{tops_of};

    ghost view = { tops_of };
}

impl TopEdges {
    /// Errors 0, as above a page, for this number of columns and 1 to 4 inks.
    pub fn zero(alloc: Global, columns: u32, inks: u8) -> Result<TopEdges, Memory>
        requires some { 1 ≤ inks }
        requires most { inks ≤ 4 }
        ensures { IfOk result (λ top. IsZeroTop columns inks top) }
    {
        let mut edges = Vec::with_capacity(alloc, columns as usize)?;
        for _ in 0..columns {
            edges.push_reserved(BottomEdge::zero(alloc, inks)?);
        }
        Ok(TopEdges { edges })
    }

    /// The edge of a column.
    pub fn at(&self, c: u32) -> &BottomEdge
        requires { c < length self.now }
        ensures { result.now ≡ slice_index_or self.now c [] }
    {
        &self.edges[c as usize]
    }

    /// Sets the edge of a column. All others stay.
    pub fn put(&mut self, c: u32, e: BottomEdge)
        requires { c < length self.old }
        ensures { self.new ≡ slice_set self.old c e }
    {
        self.edges[c as usize] = e;
    }
}
