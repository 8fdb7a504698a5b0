//! The rows that an ink's nozzles fire in a stroke.
ghost use Rattle.base_definitions.specs.Packed.{packed};
ghost use Rattle.page_definitions.specs.PageBytes.{page_coding};
ghost use Rattle.page_definitions.specs.Strokes.{has_dot};
ghost use Rattle.page_writer.specs.Heads.{IsOver, stroke_rows};
ghost use Rattle.std.specs.List.{list_all};
ghost use Rattle.std.specs.Prelude.{length, vec_capacity, vec_len, ◌*◌, ◌++◌, ◌+◌, ◌/◌, ◌<◌, ◌==◌, ◌≡◌, ◌≤◌};

use crate::blank::is_blank;
use crate::head::Head;
use dot_planes::Planes;
use escp2_writer::append_row;

// Whether the row that a nozzle fires has no dot.
#[inline]
fn fires_blank<H: Head>(
    head: &H,
    planes: &Planes,
    stroke: u32,
    place: u8,
    nozzle: u8,
    room: &mut [u8],
) -> bool
    requires over { IsOver (H.strokes head.now) planes.now }
    requires stroke { stroke < (H.strokes head.now).count }
    requires place { place < planes.now.inks }
    requires nozzle { nozzle < (H.strokes head.now).nozzles }
    requires room { length room.old ≡ (planes.now.width + 7) / 8 }
    ensures { result ≡ list_all (λ byte. byte == 0) (packed ((H.strokes head.now).row planes.now stroke place nozzle)) }
{
    match head.fired_row(planes, stroke, place, nozzle, room) {
        Some(row) => is_blank(row),
        None => is_blank(room),
    }
}

/// Whether some nozzle has a dot of an ink to fire in a stroke.
pub fn has_fire<H: Head>(
    head: &H,
    planes: &Planes,
    stroke: u32,
    place: u8,
    nozzles: u8,
    room: &mut [u8],
) -> bool
    requires over { IsOver (H.strokes head.now) planes.now }
    requires stroke { stroke < (H.strokes head.now).count }
    requires place { place < planes.now.inks }
    requires nozzles { nozzles ≡ (H.strokes head.now).nozzles }
    requires room { length room.old ≡ (planes.now.width + 7) / 8 }
    ensures { result ≡ has_dot (stroke_rows (H.strokes head.now) planes.now stroke place) }
{
    for nozzle in 0..nozzles {
        if !fires_blank(head, planes, stroke, place, nozzle, room) {
            return true;
        }
    }
    false
}

/// Appends the code of the row that a nozzle fires.
#[inline]
pub fn append_fired<H: Head>(
    head: &H,
    planes: &Planes,
    stroke: u32,
    place: u8,
    nozzle: u8,
    room: &mut [u8],
    out: &mut Vec<u8>,
)
    requires over { IsOver (H.strokes head.now) planes.now }
    requires stroke { stroke < (H.strokes head.now).count }
    requires place { place < planes.now.inks }
    requires nozzle { nozzle < (H.strokes head.now).nozzles }
    requires room { length room.old ≡ (planes.now.width + 7) / 8 }
    requires space { vec_len out.old + 2 * ((planes.now.width + 7) / 8) ≤ vec_capacity out.old }
    ensures items { out.new.items ≡ out.old.items
        ++ page_coding.code (packed ((H.strokes head.now).row planes.now stroke place nozzle)) }
    ensures most { vec_len out.new ≤ vec_len out.old + 2 * ((planes.now.width + 7) / 8) }
    ensures capacity { vec_capacity out.old ≤ vec_capacity out.new }
{
    match head.fired_row(planes, stroke, place, nozzle, room) {
        Some(row) => append_row(row, out),
        None => append_row(room, out),
    }
}
