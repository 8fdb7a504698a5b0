//! The strokes of a page, whichever head they are of.
ghost use Rattle.base_definitions.specs.Limits.{most_row_bytes, most_rows};
ghost use Rattle.page_definitions.specs.PageBytes.{page_coding};
ghost use Rattle.page_definitions.specs.Strokes.{bytes_of, down_by};
ghost use Rattle.page_writer.specs.Heads.{HeadPage, IsPage, stroke_over};
ghost use Rattle.page_writer.specs.StrokeBytes.{IsStroke};
ghost use Rattle.printer_definitions.specs.Printer.{row_units as row_units_of};
ghost use Rattle.std.specs.Prelude.{drop, length, vec_capacity, vec_len, ◌*◌, ◌++◌, ◌-◌};
ghost use Rattle.std.specs.Prelude.{◌+◌, ◌/◌, ◌<◌, ◌≡◌, ◌≤◌};

use crate::head::Head;
use crate::numbers::row_units;
use crate::stroke::{append_inks, put_step};
use dot_planes::Planes;
use printer_profile::Profile;

/// The strokes of a page.
pub(crate) trait Strokes {
    /// The head, the printer and the planes of the strokes.
    ghost page: { Self → HeadPage };

    /// How many strokes there are.
    fn count(&self) -> u32
        ensures { result ≡ (page self.now).head.count };

    /// The row where a stroke begins.
    fn start(&self, stroke: u32) -> u32
        requires { stroke < (page self.now).head.count }
        ensures { result ≡ (page self.now).head.start stroke };

    /// Appends what the inks fire in a stroke, and returns the number of rasters. The room is as long as the widest
    /// row.
    fn append(&self, stroke: u32, room: &mut [u8], out: &mut Vec<u8>) -> u32
        requires page { IsPage (page self.now) }
        requires stroke { stroke < (page self.now).head.count }
        requires room { most_row_bytes ≤ length room.old }
        requires space { vec_len out.old + (page self.now).t.inks
            * (12 + 2 * (page self.now).p.nozzles * (((page self.now).t.width + 7) / 8)) ≤ vec_capacity out.old }
        ensures inks { IsStroke (page self.now).p (page self.now).t.width
            (stroke_over (page self.now).p (page self.now).head (page self.now).t stroke)
            out.old.items out.new.items result }
        ensures few { result ≤ 4 }
        ensures most { vec_len out.new ≤ vec_len out.old + (page self.now).t.inks
            * (12 + 2 * (page self.now).p.nozzles * (((page self.now).t.width + 7) / 8)) }
        ensures capacity { vec_capacity out.old ≤ vec_capacity out.new }
        ensures long { length room.new ≡ length room.old };

    /// Puts the step down to a row from the row `last` right before the code of a stroke, into the seven bytes of room
    /// in front of it, or nothing if the head is already there. Returns where the step begins.
    fn put_step(&self, row: u32, last: u32, code: &mut [u8]) -> usize
        requires page { IsPage (page self.now) }
        requires low { row * row_units_of (page self.now).p ≤ most_rows }
        requires room { 7 ≤ length code.old }
        ensures step { drop result code.new
            ≡ bytes_of page_coding.code (down_by ((row - last) * row_units_of (page self.now).p)) ++ drop 7 code.old }
        ensures within { result ≤ 7 }
        ensures long { length code.new ≡ length code.old };
}

/// The strokes of a printer's head over planes.
#[derive(Drop)]
pub(crate) struct PageStrokes<'a, H> {
    pub(crate) profile: &'a Profile,
    pub(crate) planes: &'a Planes,
    pub(crate) head: &'a H,
}

impl<'a, H: Head> Strokes for PageStrokes<'a, H> {
    ghost page = { λ page. record { p = page.profile.now; head = H.strokes page.head.now; t = page.planes.now } };

    fn count(&self) -> u32 {
        self.head.count()
    }

    fn start(&self, stroke: u32) -> u32 {
        self.head.start(stroke)
    }

    fn append(&self, stroke: u32, room: &mut [u8], out: &mut Vec<u8>) -> u32 {
        let len = (self.planes.width() as usize + 7) / 8;
        append_inks(
            self.profile,
            self.planes,
            self.head,
            stroke,
            &mut room[..len],
            out,
        )
    }

    fn put_step(&self, row: u32, last: u32, code: &mut [u8]) -> usize {
        let units = row.saturating_sub(last) as u16 * row_units(self.profile);
        put_step(units, code)
    }
}
