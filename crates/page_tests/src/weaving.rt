//! Heads whose rows were worked out by hand, and both directions of a plan against a search.
ghost use Rattle.std.specs.Prelude.{IfSome, ◌≡◌};

use base_definitions::{MOST_ROWS, greatest_common_divisor};
use std::alloc::Global;
use weave_definitions::{PassPlace, Plan};

// A head's nozzles and its pitch, and how many rows its window has.
type Head = (u8, u8, u32);

// The plan of a head whose nozzles and pitch have no common divisor.
fn plan_of(nozzles: u8, pitch: u8, height: u32) -> Option<Plan>
    ensures nozzles { IfSome result (λ plan. plan.nozzles ≡ nozzles) }
    ensures height { IfSome result (λ plan. plan.height ≡ height) }
{
    if nozzles < 1 || pitch < 1 || height < 1 || height > MOST_ROWS {
        return None;
    }
    if greatest_common_divisor(nozzles, pitch) != 1 {
        return None;
    }
    Some(Plan::make(nozzles, pitch, height))
}

// How many passes a head takes, and the rows under its nozzles, pass by pass.
fn all_rows(alloc: Global, (nozzles, pitch, height): Head) -> Option<(u32, Vec<Option<u32>>)> {
    let plan = plan_of(nozzles, pitch, height)?;
    let mut rows = Vec::new(alloc);
    for pass in 0..plan.passes() {
        for nozzle in 0..nozzles {
            rows.push(plan.row(pass, nozzle)).ok()?;
        }
    }
    Some((plan.passes(), rows))
}

// The pass and the nozzle of each row of a window.
fn all_places(alloc: Global, (nozzles, pitch, height): Head) -> Option<Vec<(u32, u8)>> {
    let plan = plan_of(nozzles, pitch, height)?;
    let mut places = Vec::new(alloc);
    for row in 0..height {
        let place = plan.place_of(row);
        places.push((place.pass, place.nozzle)).ok()?;
    }
    Some(places)
}

// Heads, and the pass and the nozzle of each row. The first two have the rows -4, -2 and 0 in the first pass; the first
// has -1, 1 and 3 in the second, which is its last, and the second goes three further down in each pass.
const PLACES: [(Head, &[(u32, u8)]); 3] = [
    ((3, 2, 2), &[(0, 2), (1, 1)]),
    ((3, 2, 6), &[(0, 2), (1, 1), (2, 0), (1, 2), (2, 1), (3, 0)]),
    ((15, 4, 2), &[(0, 14), (3, 3)]),
];

#[test]
fn three_and_fifteen_nozzles_fire_their_rows(rt: HostRuntime) {
    const ROWS: [Option<u32>; 6] = [None, None, Some(0), None, Some(1), None];
    let are_right = match all_rows(rt.alloc(), (3, 2, 2)) {
        Some((passes, rows)) => passes == 2 && rows.as_slice() == ROWS.as_slice(),
        None => false,
    };
    assert!(rt; are_right, "the two passes of three nozzles");
    for &(head, wanted) in &PLACES {
        let places = all_places(rt.alloc(), head);
        assert!(rt; places.as_deref() == Some(wanted), "{head:?}");
    }
}

// How many passes and nozzles fire a row, and the last of them.
fn seek(plan: &Plan, nozzles: u8, row: u32) -> (u64, PassPlace)
    requires { nozzles ≡ plan.now.nozzles }
{
    let mut found = 0u64;
    let mut place = PassPlace { pass: 0, nozzle: 0 };
    for pass in 0..plan.passes() {
        for nozzle in 0..nozzles {
            if plan.row(pass, nozzle) == Some(row) {
                found = found.saturating_add(1);
                place = PassPlace { pass, nozzle };
            }
        }
    }
    (found, place)
}

// How many rows of a window a search of all passes and nozzles does not find once, where the plan says.
fn wrong_rows((nozzles, pitch, height): Head) -> Option<u32> {
    let plan = plan_of(nozzles, pitch, height)?;
    let mut wrong = 0u32;
    for row in 0..height {
        if seek(&plan, nozzles, row) != (1, plan.place_of(row)) {
            wrong = wrong.saturating_add(1);
        }
    }
    Some(wrong)
}

const HEADS: [Head; 7] = [
    (1, 1, 20),
    (3, 2, 20),
    (15, 4, 70),
    (31, 4, 70),
    (31, 8, 70),
    (2, 1, 20),
    (255, 254, 3),
];

#[test]
fn each_row_is_where_a_search_finds_it(rt: HostRuntime) {
    for &head in &HEADS {
        assert!(rt; wrong_rows(head) == Some(0), "{head:?}");
    }
}
