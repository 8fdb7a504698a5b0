//! Heads, described by their strokes over a window.
ghost use Rattle.base_definitions.specs.Packed.{packed};
ghost use Rattle.page_writer.specs.Heads.{HeadStrokes, IsOver};
ghost use Rattle.std.specs.Prelude.{MatchOption, length, ◌+◌, ◌/◌, ◌<◌, ◌≡◌};

use dot_planes::Planes;

/// A head at work over a window. A stroke is one sweep of the head across the page. Strokes go down the page, and are
/// numbered from 0.
pub trait Head {
    /// The strokes that the methods describe.
    ghost strokes: { Self → HeadStrokes };

    /// How many rows the head's first position is above the window.
    fn above(&self) -> u32
        ensures { result ≡ (strokes self.now).above };

    /// How many strokes there are.
    fn count(&self) -> u32
        ensures { result ≡ (strokes self.now).count };

    /// The row of the first nozzle in a stroke, counted from the head's first position.
    fn start(&self, stroke: u32) -> u32
        requires { stroke < (strokes self.now).count }
        ensures { result ≡ (strokes self.now).start stroke };

    /// The packed row of an ink, by its place in the set, that a nozzle fires in a stroke. `None` if the row was put
    /// into the room instead. The room is as long as a row of the planes.
    fn fired_row<'a>(
        &self,
        planes: &'a Planes,
        stroke: u32,
        place: u8,
        nozzle: u8,
        room: &mut [u8],
    ) -> Option<&'a [u8]>
        requires over { IsOver (strokes self.now) planes.now }
        requires stroke { stroke < (strokes self.now).count }
        requires place { place < planes.now.inks }
        requires nozzle { nozzle < (strokes self.now).nozzles }
        requires room { length room.old ≡ (planes.now.width + 7) / 8 }
        ensures { MatchOption result (room.new ≡ packed ((strokes self.now).row planes.now stroke place nozzle))
            (λ row. row.now ≡ packed ((strokes self.now).row planes.now stroke place nozzle)) };
}
