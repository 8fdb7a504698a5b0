//! Several meters that count together.
ghost use Rattle.ink_meter.specs.Accounts.{Fits, HasRoom, IsFirstOver, added, all_inks, capped, settled, together};
ghost use Rattle.std.specs.Prelude.{All, IfErr, IfSome, IsNone, IsTrue, OnOk, map, ◌<◌, ◌^◌, ◌↔◌, ◌≡◌};

use crate::Meter;
use printer_definitions::InkCounts;

// No dots of any ink.
const NO_DOTS: InkCounts = InkCounts {
    k: 0,
    c: 0,
    m: 0,
    y: 0,
};

/// The meter that has no room.
#[derive(Clone, Copy, Debug, PartialEq, Eq)]
pub struct OverCap {
    /// The meter's place in the list, from 0.
    pub index: usize,
    /// The dots of all inks that the meter has counted.
    pub total: u64,
    /// The meter's cap.
    pub cap: u64,
}

// Whether a meter has room for these dots.
#[inline]
fn has_room(meter: &Box<dyn Meter>, dots: &InkCounts) -> bool
    ensures { IsTrue result ↔ HasRoom dots.now (account meter.now) }
{
    meter.room(dots)
}

// The dots that a meter has counted.
#[inline]
fn total_of(meter: &Box<dyn Meter>) -> InkCounts
    ensures is { result ≡ (account meter.now).totals }
    ensures fits { all_inks result < 2 ^ 64 }
{
    meter.total()
}

// The report of a meter without room, at this place of the list.
fn over_cap(index: usize, meter: &Box<dyn Meter>) -> OverCap
    ensures index { result.index ≡ index }
    ensures total { result.total ≡ all_inks (account meter.now).totals }
    ensures cap { result.cap ≡ (account meter.now).cap }
{
    let total = meter.total();
    OverCap {
        index,
        total: total.k + total.c + total.m + total.y,
        cap: meter.cap(),
    }
}

/// Asks each meter for room for these dots, and changes none. `Err` names the first meter without room.
pub fn admit(meters: &[Box<dyn Meter>], dots: &InkCounts) -> Result<(), OverCap>
    ensures room { OnOk result (All (HasRoom dots.now) (map (λ meter. account meter) meters.now)) }
    ensures over { IfErr result (IsFirstOver (map (λ meter. account meter) meters.now) dots.now) }
{
    for (index, meter) in meters.iter().enumerate() {
        if !has_room(meter, dots) {
            return Err(over_cap(index, meter));
        }
    }
    Ok(())
}

// Counts these dots on one meter.
#[inline]
fn add_one(meter: &mut Box<dyn Meter>, dots: &InkCounts)
    requires { HasRoom dots.now (account meter.old) }
    ensures { account meter.new ≡ added dots.now (account meter.old) }
{
    meter.add(dots);
}

// Sets the cap of one meter.
#[inline]
fn cap_one(meter: &mut Box<dyn Meter>, cap: u64)
    ensures { account meter.new ≡ capped cap (account meter.old) }
{
    meter.set_cap(cap);
}

/// Counts these dots on each meter, all of which have room for them (`admit`).
pub fn add_all(meters: &mut Vec<Box<dyn Meter>>, dots: &InkCounts)
    requires { All (HasRoom dots.now) (map (λ meter. account meter) meters.old.items) }
    ensures { map (λ meter. account meter) meters.new.items
        ≡ map (added dots.now) (map (λ meter. account meter) meters.old.items) }
{
    for i in 0..meters.len() {
        add_one(&mut meters[i], dots);
    }
}

/// Sets the cap of each meter.
// The type implies the condition. But without it a call from another crate counts as one that makes meters of its own.
pub fn cap_all(meters: &mut Vec<Box<dyn Meter>>, cap: u64)
    requires { cap < 2 ^ 64 }
    ensures { map (λ meter. account meter) meters.new.items
        ≡ map (capped cap) (map (λ meter. account meter) meters.old.items) }
{
    for i in 0..meters.len() {
        cap_one(&mut meters[i], cap);
    }
}

// Two counts, ink by ink.
fn sum_of(a: InkCounts, b: InkCounts) -> InkCounts
    requires { Fits (together a b) }
    ensures { result ≡ together a b }
{
    InkCounts {
        k: a.k + b.k,
        c: a.c + b.c,
        m: a.m + b.m,
        y: a.y + b.y,
    }
}

// Two counts, ink by ink, where each sum fits 64 bits.
fn checked_sum(a: InkCounts, b: InkCounts) -> Option<InkCounts>
    ensures some { IfSome result (λ sum. sum ≡ together a b) }
    ensures fits { IfSome result Fits }
    ensures none { IsNone result → Fits (together a b) → ⊥ }
{
    Some(InkCounts {
        k: a.k.checked_add(b.k)?,
        c: a.c.checked_add(b.c)?,
        m: a.m.checked_add(b.m)?,
        y: a.y.checked_add(b.y)?,
    })
}

/// Whether `settle` may be called: whether the sum of the meters' counts of each ink fits 64 bits.
pub fn can_settle(meters: &[Box<dyn Meter>]) -> bool
    ensures { IsTrue result ↔ Fits (settled (map (λ meter. account meter) meters.now)) }
{
    let mut sum = NO_DOTS;
    for meter in meters {
        let Some(next) = checked_sum(sum, total_of(meter)) else {
            return false;
        };
        sum = next;
    }
    true
}

/// Drops the meters, and returns the sum of their counts, ink by ink. Each sum must fit 64 bits.
pub fn settle(meters: Vec<Box<dyn Meter>>) -> InkCounts
    requires { Fits (settled (map (λ meter. account meter) meters.items)) }
    ensures { result ≡ settled (map (λ meter. account meter) meters.items) }
{
    let mut sum = NO_DOTS;
    for meter in &meters {
        sum = sum_of(sum, total_of(meter));
    }
    sum
}
