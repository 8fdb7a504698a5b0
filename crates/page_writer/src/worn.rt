//! The strokes of a head with dead nozzles as strokes.
use crate::blank::plane_row;
use crate::head::Head;
use dead_nozzles::StrokePlan;
use dot_planes::Planes;

impl Head for StrokePlan {
    ghost use Rattle.page_writer.specs.Healed.{healed_strokes};

    ghost strokes = { healed_strokes };

    fn above(&self) -> u32 {
        self.head_rows()
    }

    fn count(&self) -> u32 {
        self.strokes()
    }

    fn start(&self, stroke: u32) -> u32 {
        self.start(stroke)
    }

    #[inline]
    fn fired_row<'a>(
        &self,
        planes: &'a Planes,
        stroke: u32,
        place: u8,
        nozzle: u8,
        _room: &mut [u8],
    ) -> Option<&'a [u8]> {
        Some(plane_row(planes, place, self.row(stroke, nozzle)))
    }
}
