//! Events of a board's core by hand, and by a plain program of their rules.
ghost use Rattle.std.specs.Prelude.{◌<◌, ◌≤◌};

use crate::checks::same;
use board_core::{Core, CoreFault, Event};
use std::alloc::Global;
use std::process::Abort;
use std::test::Fail;
use tile_shape::{Dir, Place, Shape};

// A window of five columns and three bands.
const SHAPE: Shape = Shape {
    width: 200,
    height: 70,
};

fn take(c: u32, j: u32, seat: u32) -> Event {
    Event::Take {
        place: Place { c, j },
        seat,
    }
}

fn send(c: u32, j: u32, dir: Dir, seat: u32) -> Event {
    Event::Send {
        place: Place { c, j },
        dir,
        seat,
    }
}

fn post(c: u32, j: u32, seat: u32) -> Event {
    Event::Post {
        place: Place { c, j },
        seat,
    }
}

const FIRST: Place = Place { c: 0, j: 0 };

// An event, and what the core is to answer.
type Case = (Event, Result<(), CoreFault>);

fn each(rt: &impl Abort, core: &mut Core, cases: &[Case]) {
    for (event, answer) in cases {
        same(rt, "an event", &core.step(*event), answer);
    }
}

// Events before the first tile is taken, and up to its second taking.
const BEFORE: [Case; 3] = [
    (
        Event::Take {
            place: Place { c: 0, j: 1 },
            seat: 1,
        },
        Err(CoreFault::NotReady),
    ),
    (
        Event::Take {
            place: FIRST,
            seat: 1,
        },
        Ok(()),
    ),
    (
        Event::Take {
            place: FIRST,
            seat: 2,
        },
        Err(CoreFault::Taken),
    ),
];

// Events after it.
const AFTER: [Case; 5] = [
    (
        Event::Post {
            place: FIRST,
            seat: 2,
        },
        Err(CoreFault::NotYours),
    ),
    (
        Event::Post {
            place: FIRST,
            seat: 1,
        },
        Err(CoreFault::Unsent),
    ),
    (
        Event::Send {
            place: FIRST,
            dir: Dir::Right,
            seat: 1,
        },
        Ok(()),
    ),
    (
        Event::Send {
            place: FIRST,
            dir: Dir::Right,
            seat: 1,
        },
        Err(CoreFault::Sent),
    ),
    (
        Event::Send {
            place: FIRST,
            dir: Dir::Bottom,
            seat: 1,
        },
        Err(CoreFault::NoSuchTile),
    ),
];

#[test]
fn the_core_refuses_in_order(rt: HostRuntime) -> Result<(), Fail> {
    let mut core = Core::make(rt.alloc(), SHAPE)?;
    same(&rt, "the start", &core.ready(), &Some(FIRST));
    each(&rt, &mut core, &BEFORE);
    same(&rt, "the first tile taken", &core.ready(), &None);
    each(&rt, &mut core, &AFTER);
    Ok(())
}

// A tile in the plain program: 0 waits, 1 is taken, 2 is posted.
#[derive(Clone, Copy)]
struct Tile {
    work: u8,
    seat: u32,
    sent: [bool; 3],
}

const WAITING: Tile = Tile {
    work: 0,
    seat: 0,
    sent: [false; 3],
};

fn way(dir: Dir) -> usize
    ensures { result < 3 }
{
    match dir {
        Dir::Right => 0,
        Dir::Bottom => 1,
        Dir::Corner => 2,
    }
}

// Whether the window has a tile that receives this edge.
fn goes(c: usize, j: usize, dir: Dir) -> bool {
    match dir {
        Dir::Right => c < 4,
        Dir::Bottom => c > 0 && j < 2,
        Dir::Corner => j < 2,
    }
}

fn lacks(tiles: &[Tile; 15], c: usize, j: usize) -> bool
    requires c { c < 5 }
    requires j { j < 3 }
{
    let n = 5 * j + c;
    c > 0 && !tiles[n - 1].sent[0]
        || j > 0 && c < 4 && !tiles[n - 4].sent[1]
        || j > 0 && !tiles[n - 5].sent[2]
}

fn owes(tile: &Tile, c: usize, j: usize) -> bool {
    goes(c, j, Dir::Right) && !tile.sent[0]
        || goes(c, j, Dir::Bottom) && !tile.sent[1]
        || goes(c, j, Dir::Corner) && !tile.sent[2]
}

fn plain_step(tiles: &mut [Tile; 15], e: Event) -> Result<(), CoreFault> {
    let (Event::Take { place, seat }
    | Event::Send { place, seat, .. }
    | Event::Post { place, seat }) = e;
    let (c, j) = (place.c as usize, place.j as usize);
    if c >= 5 || j >= 3 {
        return Err(CoreFault::NoSuchTile);
    }
    let tile = tiles[5 * j + c];
    let yours = tile.work == 1 && tile.seat == seat;
    match e {
        Event::Take { .. } if tile.work != 0 => Err(CoreFault::Taken),
        Event::Take { .. } if lacks(tiles, c, j) => Err(CoreFault::NotReady),
        Event::Take { .. } => {
            tiles[5 * j + c].work = 1;
            tiles[5 * j + c].seat = seat;
            Ok(())
        }
        Event::Send { dir, .. } if !goes(c, j, dir) => Err(CoreFault::NoSuchTile),
        Event::Send { .. } | Event::Post { .. } if !yours => Err(CoreFault::NotYours),
        Event::Send { dir, .. } if tile.sent[way(dir)] => Err(CoreFault::Sent),
        Event::Send { dir, .. } => {
            tiles[5 * j + c].sent[way(dir)] = true;
            Ok(())
        }
        Event::Post { .. } if owes(&tile, c, j) => Err(CoreFault::Unsent),
        Event::Post { .. } => {
            tiles[5 * j + c].work = 2;
            Ok(())
        }
    }
}

fn plain_ready(tiles: &[Tile; 15]) -> Option<Place> {
    for j in 0..3 {
        for c in 0..5 {
            if tiles[5 * j + c].work == 0 && !lacks(tiles, c, j) {
                return Some(Place {
                    c: c as u32,
                    j: j as u32,
                });
            }
        }
    }
    None
}

// The next pseudo-random number.
fn drawn(last: u32) -> u32
    ensures { result < 65537 }
{
    (last % 65537 * 75 + 74) % 65537
}

fn event_of(kind: u32, at: u32) -> Event {
    let (c, j, seat) = (at % 6, at / 6 % 4, at / 24 % 2);
    match kind % 6 {
        0 => take(c, j, seat),
        1 => post(c, j, seat),
        2 => send(c, j, Dir::Right, seat),
        3 => send(c, j, Dir::Bottom, seat),
        _ => send(c, j, Dir::Corner, seat),
    }
}

// How many of this many pseudo-random events the core answers otherwise than the plain program, and how many tiles are
// posted then.
fn wrong_answers(core: &mut Core, events: u32) -> (u32, u32) {
    let mut tiles = [WAITING; 15];
    let mut wrong = 0u32;
    let mut number = 1;
    for _ in 0..events {
        let kind = drawn(number);
        number = drawn(kind);
        let e = event_of(kind, number);
        if core.step(e) != plain_step(&mut tiles, e) || core.ready() != plain_ready(&tiles) {
            wrong = wrong.wrapping_add(1);
        }
    }
    let mut posted = 0u32;
    for tile in &tiles {
        posted = posted.wrapping_add(u32::from(tile.work == 2));
    }
    (wrong, posted)
}

#[test]
fn events_at_random_go_as_the_plain_program_says(rt: HostRuntime) -> Result<(), Fail> {
    let mut core = Core::make(rt.alloc(), SHAPE)?;
    let found = wrong_answers(&mut core, 20_000);
    same(&rt, "20,000 events", &found, &(0, 15));
    Ok(())
}

// How many tiles of each band an order of bands has, before place `end` of it. Each band goes from the left.
fn tiles_of(order: &[usize; 15], end: usize) -> [usize; 3]
    requires { end ≤ 15 }
{
    let mut done = [0usize; 3];
    for band in &order[..end] {
        done[band % 3] = done[band % 3].saturating_add(1);
    }
    done
}

// Whether the next tile of a band may be taken, where this many tiles of each band are done.
fn may_follow(done: &[usize; 3], band: usize) -> bool
    requires { band < 3 }
{
    done[band] < 5 && (band == 0 || done[band - 1] >= done[band].saturating_add(2).min(5))
}

fn first_band(done: &[usize; 3]) -> usize
    ensures { result < 3 }
{
    for band in 0..3 {
        if may_follow(done, band) {
            return band;
        }
    }
    0
}

// Fills the order from a place on, each time with the uppermost band that may follow.
fn fill(order: &mut [usize; 15], from: usize)
    requires { from ≤ 15 }
{
    for k in from..15 {
        order[k] = first_band(&tiles_of(order, k));
    }
}

// Makes the order the next one, from the uppermost bands to the lowest, or answers false at the last.
fn advance(order: &mut [usize; 15]) -> bool {
    for k in (0..15).rev() {
        let done = tiles_of(order, k);
        for band in 0..3 {
            if band > order[k] && may_follow(&done, band) {
                order[k] = band;
                fill(order, k + 1);
                return true;
            }
        }
    }
    false
}

// Whether the core takes the tiles in this order, and finds the first ready one at each place.
fn is_taken(core: &mut Core, order: &[usize; 15]) -> bool {
    for k in 0..15 {
        let done = tiles_of(order, k);
        let first = first_band(&done);
        let ready = Place {
            c: done[first].min(5) as u32,
            j: first as u32,
        };
        let band = order[k] % 3;
        let (c, j, seat) = (done[band].min(5) as u32, band as u32, k as u32 % 2);
        if core.ready() != Some(ready) || core.step(take(c, j, seat)).is_err() {
            return false;
        }
        for dir in [Dir::Corner, Dir::Bottom, Dir::Right] {
            if core.step(send(c, j, dir, seat)).is_ok() != goes(c as usize, band, dir) {
                return false;
            }
        }
        if core.step(post(c, j, seat)).is_err() {
            return false;
        }
    }
    true
}

// How many orders of the 15 tiles there are, where the core takes each.
fn orders_taken(alloc: Global) -> Result<u32, Fail> {
    let mut order = [0; 15];
    fill(&mut order, 0);
    for orders in 1..1000 {
        let mut core = Core::make(alloc, SHAPE)?;
        if !is_taken(&mut core, &order) {
            return Err(Fail::from("an order is not taken"));
        }
        if !advance(&mut order) {
            return Ok(orders);
        }
    }
    Err(Fail::from("no last order"))
}

#[test]
fn each_of_the_290_orders_of_15_tiles_is_taken(rt: HostRuntime) -> Result<(), Fail> {
    let orders = orders_taken(rt.alloc())?;
    same(&rt, "the orders", &orders, &290);
    Ok(())
}
