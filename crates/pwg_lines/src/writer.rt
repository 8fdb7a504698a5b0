//! Writing the groups of a page's lines.
ghost use Rattle.pwg_lines.specs.Canonical.{canonical, copies_at, next_packet, unequal_at};
ghost use Rattle.std.specs.Prelude.{IfOk, IsOk, List, OnErr, OnOk, length, take, vec_capacity, vec_len, ℕ, ◌%◌, ◌*◌};
ghost use Rattle.std.specs.Prelude.{◌++◌, ◌+◌, ◌<◌, ◌∷◌, ◌≡◌, ◌≤◌};
ghost use Rattle.pwg_definitions.specs.Groups.{packet_spelling, packet_units};
ghost use Rattle.pwg_definitions.specs.Limits.{most_repeats};

use base_definitions::Memory;
use std::alloc::AllocError;

// The most units of a packet.
const MOST_UNITS: usize = 128;

/// Appends the group of a line and its repeats, 1 to 256, in the canonical spelling. `unit` is the length of a unit in
/// bytes, 1, 3 or 4 in a page. On `Memory` the output is unchanged.
pub fn code_line(line: &[u8], unit: usize, repeats: u32, out: &mut Vec<u8>) -> Result<(), Memory>
    requires unit { 1 ≤ unit }
    requires whole { length line.now % unit ≡ 0 }
    requires some { 1 ≤ repeats }
    requires most { repeats ≤ most_repeats }
    ensures ok { OnOk result (out.new.items ≡ out.old.items ++ canonical unit repeats line.now) }
    ensures err { OnErr result (out.new.items ≡ out.old.items) }

    // The capacity never shrinks. One byte more than two for each byte of the line is enough.
    ensures capacity { vec_capacity out.old ≤ vec_capacity out.new }
    ensures room { vec_len out.old + 1 + 2 * length line.now ≤ vec_capacity out.old → IsOk result }
{
    let before = out.len();
    if push_group(line, unit, (repeats - 1) as u8, out).is_err() {
        out.truncate(before);
        return Err(Memory);
    }
    Ok(())
}

// Appends the group, or on `Err` some bytes. `more` is the number of repeats less one.
fn push_group(line: &[u8], unit: usize, more: u8, out: &mut Vec<u8>) -> Result<(), AllocError>
    requires unit { 1 ≤ unit }
    requires whole { length line.now % unit ≡ 0 }
    ensures ok { OnOk result (out.new.items ≡ out.old.items ++ canonical unit (more + 1) line.now) }
    ensures part { (part : List ℕ) × (out.new.items ≡ out.old.items ++ part) }
    ensures capacity { vec_capacity out.old ≤ vec_capacity out.new }
    ensures room { vec_len out.old + 1 + 2 * length line.now ≤ vec_capacity out.old → IsOk result }
{
    out.push(more)?;
    let mut rest = line;
    'packets: while !rest.is_empty() {
        let units = push_packet(rest, unit, out)?;
        rest = &rest[units * unit..];
    }
    Ok(())
}

// Appends the first packet of a line and gives the number of its units, or on `Err` appends some bytes.
fn push_packet(line: &[u8], unit: usize, out: &mut Vec<u8>) -> Result<usize, AllocError>
    requires unit { 1 ≤ unit }
    requires whole { length line.now % unit ≡ 0 }
    requires some { 0 < length line.now }
    ensures ok { OnOk result (out.new.items ≡ out.old.items ++ packet_spelling (next_packet unit line.now)) }
    ensures units { IfOk result (λ units. units ≡ packet_units 0 (next_packet unit line.now)) }
    ensures some { IfOk result (λ units. 1 ≤ units) }
    ensures within { IfOk result (λ units. units * unit ≤ length line.now) }
    ensures part { (part : List ℕ) × (out.new.items ≡ out.old.items ++ part) }
    ensures short { IfOk result (λ units. vec_len out.new ≤ vec_len out.old + 2 * (units * unit)) }
    ensures capacity { vec_capacity out.old ≤ vec_capacity out.new }
    ensures room { vec_len out.old + 2 * length line.now ≤ vec_capacity out.old → IsOk result }
{
    let run = equal_units(line, unit);
    if run > 1 {
        push_part((run - 1) as u8, &line[..unit], out)?;
        return Ok(run);
    }
    let alone = unequal_units(line, unit);
    let first = if alone == 1 { 0 } else { (257 - alone) as u8 };
    push_part(first, &line[..alone * unit], out)?;
    Ok(alone)
}

// Appends the first byte of a packet and the bytes after it, or on `Err` some bytes.
fn push_part(first: u8, bytes: &[u8], out: &mut Vec<u8>) -> Result<(), AllocError>
    ensures ok { OnOk result (out.new.items ≡ out.old.items ++ first ∷ bytes.now) }
    ensures part { (part : List ℕ) × (out.new.items ≡ out.old.items ++ part) }
    ensures len { OnOk result (vec_len out.new ≡ vec_len out.old + 1 + length bytes.now) }
    ensures capacity { vec_capacity out.old ≤ vec_capacity out.new }
    ensures room { vec_len out.old + 1 + length bytes.now ≤ vec_capacity out.old → IsOk result }
{
    out.push(first)?;
    out.extend_from_slice(bytes)
}

// How many units at the beginning of the line are equal, up to `MOST_UNITS`.
fn equal_units(line: &[u8], unit: usize) -> usize
    requires { unit ≤ length line.now }
    ensures { result ≡ copies_at MOST_UNITS (take unit line.now) line.now }
{
    let first = &line[..unit];
    let mut count = 0;
    let mut rest = line;
    'units: while count < MOST_UNITS {
        if !rest.starts_with(first) {
            return count;
        }
        count += 1;
        rest = &rest[unit..];
    }
    count
}

// How many units come before the first two that are equal, or before the end, up to `MOST_UNITS`.
fn unequal_units(line: &[u8], unit: usize) -> usize
    requires unit { 1 ≤ unit }
    requires whole { length line.now % unit ≡ 0 }
    ensures { result ≡ unequal_at MOST_UNITS unit line.now }
{
    let mut count = 0;
    let mut rest = line;
    'units: while count < MOST_UNITS && !rest.is_empty() {
        let (front, behind) = rest.split_at(unit);
        if behind.starts_with(front) {
            return count;
        }
        count += 1;
        rest = behind;
    }
    count
}
