//! Rows with grain.
ghost use Rattle.grained_rows.specs.Grained.{grained_table};
ghost use Rattle.printer_definitions.specs.Inks.{inks_of};
ghost use Rattle.std.specs.Prelude.{length, ◌≡◌};

use crate::grain::InkGrain;
use dot_planes::{GatherRoom, TileAmounts, TileRows};
use tile_shape::{Place, Shape};

/// Rows of a window with grain applied.
#[derive(Drop)]
pub struct GrainedRows<'a, A: TileRows> {
    rows: &'a A,
    grain: InkGrain,
    // The row of the window where the rows begin.
    first: u32,
    ghost inks: { (A.table rows.now).inks ≡ length (inks_of grain.inks) },
}

impl<'a, A: TileRows> GrainedRows<'a, A> {
    /// These rows with grain. The first of the rows is row `first` of the window.
    pub fn over(rows: &'a A, grain: InkGrain, first: u32) -> GrainedRows<'a, A>
        requires { (A.table rows.now).inks ≡ length (inks_of grain.inks) }
        ensures { ⟦<GrainedRows<'a, A> as TileRows>⟧.table result ≡ grained_table grain first (A.table rows.now) }
    {
        GrainedRows { rows, grain, first }
    }
}

impl<'a, A: TileRows> TileRows for GrainedRows<'a, A> {
    ghost table = { λ grained. grained_table grained.grain grained.first (A.table grained.rows.now) };

    fn shape(&self) -> Shape {
        self.rows.shape()
    }

    fn inks(&self) -> u8 {
        self.rows.inks()
    }

    fn gather(&self, place: Place, room: &mut GatherRoom, out: &mut TileAmounts) -> bool {
        // Grain leaves an amount of 0 as it is.
        if !self.rows.gather(place, room, out) {
            return false;
        }
        // Grain 0 leaves all amounts as they are.
        if self.grain.grain != 0 {
            self.grain.put_on(self.first, place, out);
        }
        true
    }
}
