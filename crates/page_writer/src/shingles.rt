//! The shingled passes of a head as strokes.
use crate::blank::blank_row;
use crate::halves::put_every_other;
use crate::head::Head;
use dot_planes::Planes;
use shingle_plan::ShinglePlan;

impl Head for ShinglePlan {
    ghost use Rattle.page_writer.specs.Shingles.{shingle_strokes};

    ghost strokes = { shingle_strokes };

    fn above(&self) -> u32 {
        self.above()
    }

    fn count(&self) -> u32 {
        self.passes()
    }

    fn start(&self, pass: u32) -> u32 {
        self.first_row(pass)
    }

    #[inline]
    fn fired_row<'a>(
        &self,
        planes: &'a Planes,
        pass: u32,
        place: u8,
        nozzle: u8,
        room: &mut [u8],
    ) -> Option<&'a [u8]> {
        match self.row(pass, nozzle) {
            Some(y) => {
                put_every_other(planes.row(place, y), self.fires_even(nozzle), room);
                None
            }
            None => Some(blank_row((planes.width() as usize + 7) / 8)),
        }
    }
}
