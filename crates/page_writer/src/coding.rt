//! Codes strokes, each into its own room.
ghost use Rattle.base_definitions.specs.Limits.{most_row_bytes};
ghost use Rattle.page_writer.specs.Heads.{IsPage};
ghost use Rattle.page_writer.specs.Pieces.{AllRoomy, AreCoded, HasRoom, IsCoded};
ghost use Rattle.std.specs.Prelude.{length, vec_capacity, vec_len, ◌+◌, ◌<◌, ◌≡◌, ◌≤◌};

use crate::coded::Coded;
use crate::page_strokes::Strokes;
use base_definitions::MOST_ROW_BYTES;

/// The most bytes of a step down.
pub(crate) const STEP: usize = 7;

// Appends room for a step.
fn append_room(out: &mut Vec<u8>)
    requires { vec_len out.old + 7 ≤ vec_capacity out.old }
    ensures items { length out.new.items ≡ length out.old.items + 7 }
    ensures len { vec_len out.new ≡ vec_len out.old + 7 }
    ensures capacity { vec_capacity out.old ≤ vec_capacity out.new }
{
    let room = [0u8; STEP];
    out.extend_from_slice(&room).unwrap();
}

/// Codes a stroke. The room `row` is as long as the widest row.
pub(crate) fn code_stroke<S: Strokes>(page: &S, stroke: u32, row: &mut [u8], coded: &mut Coded)
    requires page { IsPage (S.page page.now) }
    requires stroke { stroke < (S.page page.now).head.count }
    requires row { most_row_bytes ≤ length row.old }
    requires room { HasRoom (S.page page.now) coded.old }
    ensures coded { IsCoded (S.page page.now) stroke coded.new }
    ensures room { HasRoom (S.page page.now) coded.new }
    ensures long { length row.new ≡ length row.old }
{
    coded.code.clear();
    append_room(&mut coded.code);
    coded.rasters = page.append(stroke, row, &mut coded.code);
}

/// Codes the strokes from `first` to before `end`. Allocates no memory.
pub(crate) fn code_strokes<S: Strokes>(page: &S, first: u32, end: u32, strokes: &mut [Coded])
    requires page { IsPage (S.page page.now) }
    requires low { end ≤ (S.page page.now).head.count }
    requires within { end ≤ first + length strokes.old }
    requires room { AllRoomy (S.page page.now) strokes.old }
    ensures coded { AreCoded (S.page page.now) first end strokes.new }
    ensures room { AllRoomy (S.page page.now) strokes.new }
{
    let mut row = [0u8; MOST_ROW_BYTES];
    'strokes: for stroke in first..end {
        code_stroke(
            page,
            stroke,
            &mut row,
            &mut strokes[(stroke - first) as usize],
        );
    }
}
