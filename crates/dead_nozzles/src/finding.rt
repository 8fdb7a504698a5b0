//! Where strokes start.
ghost use Rattle.dead_nozzles.specs.Plans.{ArePassOwners, Begins, IsStrokePlan};
ghost use Rattle.dead_nozzles.specs.Strokes.{IsHead, head_span};
ghost use Rattle.dead_nozzles.specs.Dead.{least_live};
ghost use Rattle.std.specs.Prelude.{IfOk, Some, length, ◌+◌, ◌<◌, ◌≡◌};

use crate::owners::take_rows;
use crate::worn::WornHead;
use base_definitions::Memory;
use std::alloc::Global;

// Whether a stroke starts here: a pass, or a make-up stroke where the nozzle that makes up is over a row that no
// stroke fires yet. A make-up stroke takes its rows.
fn begins(head: &WornHead, maker: u8, start: u32, owners: &mut [Option<u32>]) -> bool
    requires start { start < head_span head.now + head.now.height }
    requires maker { maker < head.now.nozzles }
    requires rows { length owners.old ≡ head.now.height }
    ensures { Begins head.now maker start owners.old owners.new result }
{
    if head.begins_pass(start) {
        return true;
    }
    let Some(row) = head.row_under(start, maker) else {
        return false;
    };
    if owners[row as usize].is_some() {
        return false;
    }
    take_rows(head, start, owners);
    true
}

/// The starts of all strokes, from the top. Each row that is made up gets its owner.
pub(crate) fn find_starts(
    alloc: Global,
    head: &WornHead,
    owners: &mut [Option<u32>],
) -> Result<Vec<u32>, Memory>
    requires head { IsHead head.now }
    requires passes { ArePassOwners head.now owners.old }
    ensures { IfOk result (λ starts. IsStrokePlan head.now starts.items owners.new) }
{
    let maker = head.least_live();
    let end = head.head_rows() + head.height();
    let mut starts = Vec::new(alloc);
    'starts: for start in 0..end {
        if begins(head, maker, start, owners) {
            let Ok(()) = starts.push(start) else {
                return Err(Memory);
            };
        }
    }
    Ok(starts)
}
