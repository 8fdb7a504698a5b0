//! Which stroke fires each row of the window.
ghost use Rattle.dead_nozzles.specs.Dead.{has};
ghost use Rattle.dead_nozzles.specs.Plans.{ArePassOwners, IsPassOwner, Takes, owner, taken};
ghost use Rattle.dead_nozzles.specs.Strokes.{IsHead, head_span, row_under};
ghost use Rattle.std.specs.Prelude.{IfOk, None, if◌then◌else◌, length, slice_set, ◌+◌, ◌<◌, ◌≡◌, ◌≤◌};

use crate::worn::WornHead;
use base_definitions::Memory;
use std::alloc::Global;
use weave_definitions::Plan;

// The start of the pass that fires a row, or `None` where the nozzle that is over it there is dead.
fn pass_owner(head: &WornHead, plan: &Plan, row: u32) -> Option<u32>
    requires row { row < head.now.height }
    requires plan { plan.now ≡ record { nozzles = head.now.nozzles; pitch = head.now.pitch; height = head.now.height } }
    ensures { IsPassOwner head.now row result }
{
    let place = plan.place_of(row);
    if head.is_dead(place.nozzle) {
        None
    } else {
        Some(plan.first_row(place.pass))
    }
}

/// The owner of each row before any row is made up: the start of the pass in which a live nozzle is over the row, or
/// `None` if the nozzle of the row's pass is dead.
pub(crate) fn pass_owners(alloc: Global, head: &WornHead) -> Result<Vec<Option<u32>>, Memory>
    requires head { IsHead head.now }
    requires some_rows { 1 ≤ head.now.height }
    ensures { IfOk result (λ owners. ArePassOwners head.now owners.items) }
{
    let plan = Plan::make(head.nozzles(), head.pitch(), head.height());
    let mut owners = Vec::with_capacity(alloc, head.height() as usize)?;
    'rows: for row in 0..head.height() {
        let owner = pass_owner(head, &plan, row);
        let Ok(()) = owners.push(owner) else {
            return Err(Memory);
        };
    }
    Ok(owners)
}

// The row under a live nozzle of a stroke.
fn live_row(head: &WornHead, start: u32, nozzle: u8) -> Option<u32>
    requires start { start < head_span head.now + head.now.height }
    requires nozzle { nozzle < head.now.nozzles }
    ensures { result ≡ (if has head.now.dead nozzle then None else row_under head.now start nozzle) }
{
    if head.is_dead(nozzle) {
        None
    } else {
        head.row_under(start, nozzle)
    }
}

// Gives a row to the stroke that starts here, if no stroke fires it yet.
fn take_row(row: u32, start: u32, owners: &mut [Option<u32>])
    requires { row < length owners.old }
    ensures { owners.new ≡ slice_set owners.old row (taken start (owner owners.old row)) }
{
    if owners[row as usize].is_none() {
        owners[row as usize] = Some(start);
    }
}

/// Gives to the stroke that starts here the rows under its live nozzles that no stroke fires yet.
pub(crate) fn take_rows(head: &WornHead, start: u32, owners: &mut [Option<u32>])
    requires start { start < head_span head.now + head.now.height }
    requires rows { length owners.old ≡ head.now.height }
    ensures { Takes head.now start owners.old owners.new }
{
    'nozzles: for nozzle in 0..head.nozzles() {
        let Some(row) = live_row(head, start, nozzle) else {
            continue;
        };
        take_row(row, start, owners);
    }
}
