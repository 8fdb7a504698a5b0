//! One ink of a stroke.
ghost use Rattle.page_definitions.specs.PageBytes.{page_coding};
ghost use Rattle.page_definitions.specs.Strokes.{bytes_of};
ghost use Rattle.page_writer.specs.Heads.{IsOver, stroke_rows};
ghost use Rattle.page_writer.specs.Rows.{rows_commands};
ghost use Rattle.page_writer.specs.Sums.{rasters_in};
ghost use Rattle.std.specs.Prelude.{length, vec_capacity, vec_len, ◌*◌, ◌++◌, ◌+◌, ◌/◌, ◌<◌, ◌≡◌, ◌≤◌};

use crate::head::Head;
use crate::rows::{append_fired, has_fire};
use dot_planes::Planes;
use escp2_writer::{Command, RasterHead, append_header};
use weave_base::Ink;

/// Appends what an ink fires in a stroke: its colour, the return to the left margin, and a raster. Appends nothing if
/// the ink has no dot to fire. Returns the number of rasters.
pub fn append_ink<H: Head>(
    head: &H,
    planes: &Planes,
    header: RasterHead,
    place: u8,
    ink: Ink,
    stroke: u32,
    room: &mut [u8],
    out: &mut Vec<u8>,
) -> u32
    requires over { IsOver (H.strokes head.now) planes.now }
    requires place { place < planes.now.inks }
    requires stroke { stroke < (H.strokes head.now).count }
    requires nozzles { header.m ≡ (H.strokes head.now).nozzles }
    requires columns { header.n ≡ planes.now.width }
    requires coded { header.c ≡ page_coding.c }
    requires room { length room.old ≡ (planes.now.width + 7) / 8 }
    requires space { vec_len out.old + (12 + 2 * header.m * ((header.n + 7) / 8)) ≤ vec_capacity out.old }
    ensures rasters { result
        ≡ rasters_in (rows_commands header ink (stroke_rows (H.strokes head.now) planes.now stroke place)) }
    ensures few { result ≤ 1 }
    ensures items { out.new.items ≡ out.old.items ++ bytes_of page_coding.code
        (rows_commands header ink (stroke_rows (H.strokes head.now) planes.now stroke place)) }
    ensures most { vec_len out.new ≤ vec_len out.old + (12 + 2 * header.m * ((header.n + 7) / 8)) }
    ensures capacity { vec_capacity out.old ≤ vec_capacity out.new }
{
    if !has_fire(head, planes, stroke, place, header.m, room) {
        return 0;
    }
    append_header(&Command::Colour { ink }, out);
    append_header(&Command::Return, out);
    append_header(&Command::Raster { head: header }, out);
    'rows: for nozzle in 0..header.m {
        append_fired(head, planes, stroke, place, nozzle, room, out);
    }
    1
}
