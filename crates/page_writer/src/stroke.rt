//! One stroke of the head.
ghost use Rattle.page_definitions.specs.PageBytes.{page_coding};
ghost use Rattle.page_definitions.specs.Strokes.{bytes_of, down_by};
ghost use Rattle.page_writer.specs.Heads.{Suits, stroke_over};
ghost use Rattle.page_writer.specs.StrokeBytes.{IsStroke};
ghost use Rattle.std.specs.Prelude.{drop, length, vec_capacity, vec_len, ◌*◌, ◌++◌};
ghost use Rattle.std.specs.Prelude.{◌+◌, ◌/◌, ◌<◌, ◌≡◌, ◌≤◌};

use crate::coding::STEP;
use crate::head::Head;
use crate::ink::append_ink;
use crate::numbers::raster_header;
use dot_planes::Planes;
use escp2_writer::{Command, header_bytes};
use printer_profile::Profile;

/// Puts a step down by this many units right before the code of a stroke, into the seven bytes of room in front of it,
/// or nothing for 0. Returns where the step begins.
pub(crate) fn put_step(units: u16, code: &mut [u8]) -> usize
    requires { 7 ≤ length code.old }
    ensures step { drop result code.new ≡ bytes_of page_coding.code (down_by units) ++ drop 7 code.old }
    ensures within { result ≤ 7 }
    ensures long { length code.new ≡ length code.old }
{
    if units == 0 {
        return STEP;
    }
    let step = header_bytes(&Command::DownBy { n: units });
    code[..STEP].copy_from_slice(step.as_slice());
    0
}

/// Appends what the inks fire in a stroke, and returns the number of rasters.
pub(crate) fn append_inks<H: Head>(
    profile: &Profile,
    planes: &Planes,
    head: &H,
    stroke: u32,
    room: &mut [u8],
    out: &mut Vec<u8>,
) -> u32
    requires suits { Suits profile.now (H.strokes head.now) planes.now }
    requires stroke { stroke < (H.strokes head.now).count }
    requires room { length room.old ≡ (planes.now.width + 7) / 8 }
    requires space { vec_len out.old + planes.now.inks * (12 + 2 * profile.now.nozzles * ((planes.now.width + 7) / 8))
        ≤ vec_capacity out.old }
    ensures inks { IsStroke profile.now planes.now.width
        (stroke_over profile.now (H.strokes head.now) planes.now stroke) out.old.items out.new.items result }
    ensures few { result ≤ planes.now.inks }
    ensures most { vec_len out.new ≤
        vec_len out.old + planes.now.inks * (12 + 2 * profile.now.nozzles * ((planes.now.width + 7) / 8)) }
    ensures capacity { vec_capacity out.old ≤ vec_capacity out.new }
{
    let header = raster_header(profile, planes.width() as u16);
    let mut rasters = 0u32;
    'inks: for place in 0..planes.inks() {
        let ink = profile.inks.at(place);
        rasters += append_ink(head, planes, header, place, ink, stroke, room, out);
    }
    rasters
}
