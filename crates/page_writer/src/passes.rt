//! The interleaved passes of a head as strokes.
use crate::blank::plane_row;
use crate::head::Head;
use dot_planes::Planes;
use weave_definitions::Plan;

impl Head for Plan {
    ghost use Rattle.page_writer.specs.Passes.{pass_strokes};

    ghost strokes = { pass_strokes };

    fn above(&self) -> u32 {
        self.head_rows()
    }

    fn count(&self) -> u32 {
        self.passes()
    }

    fn start(&self, pass: u32) -> u32 {
        self.first_row(pass)
    }

    #[inline]
    fn fired_row<'a>(
        &self,
        planes: &'a Planes,
        pass: u32,
        place: u8,
        nozzle: u8,
        _room: &mut [u8],
    ) -> Option<&'a [u8]> {
        Some(plane_row(planes, place, self.row(pass, nozzle)))
    }
}
