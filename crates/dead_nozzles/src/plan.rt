//! The plan of the strokes of a head with dead nozzles.
ghost use Rattle.base_definitions.specs.Limits.{most_rows};
ghost use Rattle.dead_nozzles.specs.Dead.{IsRising, checked};
ghost use Rattle.dead_nozzles.specs.Plans.{shot_row, stroke_in};
ghost use Rattle.dead_nozzles.specs.Strokes.{all_strokes, head_span};
ghost use Rattle.std.specs.Int.{IsGcd};
ghost use Rattle.std.specs.Prelude.{IfOk, IfSome, Ok, length, ◌*◌, ◌+◌, ◌<◌, ◌^◌, ◌≡◌, ◌≤◌};

use crate::finding::find_starts;
use crate::owners::pass_owners;
use crate::worn::WornHead;
use base_definitions::Memory;
use std::alloc::Global;
use std::marker::Model;

/// The strokes of a head with dead nozzles over a window: the passes of the weave, and strokes that make up for the
/// rows of the dead nozzles. Strokes count from 0, from the top.
#[derive(Drop)]
pub struct StrokePlan {
    head: WornHead,
    starts: Vec<u32>,
    owners: Vec<Option<u32>>,
}

impl Model for StrokePlan {
    ghost use Rattle.dead_nozzles.specs.Plans.{IsStrokePlan};
    ghost use Rattle.dead_nozzles.specs.Strokes.{Head};

    ghost Value = { Head };

    ghost view = { λ p. p.head };

    ghost invariant = { λ p. IsStrokePlan p.head p.starts.items p.owners.items };
}

impl StrokePlan {
    /// A plan for a head of `nozzles` nozzles that are `pitch` rows apart, over a window of `height` rows: at most 22
    /// inches at 720 rows an inch. `dead` has the numbers of the dead nozzles in rising order, and must pass
    /// `check_dead`. The call allocates all memory of the plan: 8 bytes for each row of the window, and 4 for each
    /// stroke in a list that grows by doubling. Together that is at most a mebibyte (`small`).
    pub fn make(
        alloc: Global,
        nozzles: u8,
        pitch: u8,
        height: u32,
        dead: &[u8],
    ) -> Result<StrokePlan, Memory>
        requires some_nozzles { 1 ≤ nozzles }
        requires some_pitch { 1 ≤ pitch }
        requires coprime { IsGcd nozzles pitch 1 }
        requires some_rows { 1 ≤ height }
        requires most_rows { height ≤ most_rows }
        requires rising { IsRising dead.now }
        requires checked { checked nozzles dead.now ≡ Ok tt }
        ensures plan { IfOk result (λ plan.
            plan ≡ record { nozzles = nozzles; pitch = pitch; height = height; dead = dead.now }) }
        ensures small { IfOk result (λ plan. 8 * height + 8 * length (all_strokes plan) ≤ 2 ^ 20) }
    {
        let head = WornHead::make(nozzles, pitch, height, dead);
        let mut owners = pass_owners(alloc, &head)?;
        let starts = find_starts(alloc, &head, &mut owners)?;
        Ok(StrokePlan {
            head,
            starts,
            owners,
        })
    }

    /// How many strokes there are.
    pub fn strokes(&self) -> u32
        ensures { result ≡ length (all_strokes self.now) }
    {
        self.starts.len() as u32
    }

    /// The row of the first nozzle in a stroke, counted from as far above the window as the head is long.
    pub fn start(&self, stroke: u32) -> u32
        requires { stroke < length (all_strokes self.now) }
        ensures { result ≡ (stroke_in (all_strokes self.now) stroke).start }
    {
        self.starts[stroke as usize]
    }

    /// The row of the window that a nozzle fires in a stroke, counted from the top, or `None` if it fires none.
    pub fn row(&self, stroke: u32, nozzle: u8) -> Option<u32>
        requires stroke { stroke < length (all_strokes self.now) }
        requires nozzle { nozzle < self.now.nozzles }
        ensures fires { result ≡ shot_row (stroke_in (all_strokes self.now) stroke).shots nozzle }
        ensures low { IfSome result (λ row. row < self.now.height) }
    {
        let start = self.start(stroke);
        let row = self.head.row_under(start, nozzle)?;
        if self.owners[row as usize] == Some(start) {
            Some(row)
        } else {
            None
        }
    }

    /// How many rows the last nozzle is below the first. The head begins this many rows above the window.
    pub fn head_rows(&self) -> u32
        ensures { result ≡ head_span self.now }
    {
        self.head.head_rows()
    }
}
