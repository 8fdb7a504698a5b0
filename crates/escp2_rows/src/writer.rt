//! Writing the least code of a row.
ghost use Rattle.base_definitions.specs.Limits.{most_row_bytes};
ghost use Rattle.escp2_definitions.specs.Least.{costs, equal_at, least_row};
ghost use Rattle.escp2_rows.specs.Literals.{IsLongest, WritesFirst};
ghost use Rattle.std.specs.Prelude.{IfSome, length, take, ◌*◌, ◌<◌, ◌≡◌, ◌≤◌};

use crate::costs::{MOST_BYTES, MOST_PLACES, fill_costs};
use crate::literals::{equal_bytes, literal_end};

// The places of a row of 8.5 inches at 360 dots an inch, with the one behind its end.
const FEW_PLACES: usize = 384;

// The fewest bytes that are sent as a run.
const LEAST_RUN: usize = 2;

// A packet that is written: how many bytes of the row it gives, and how many bytes its code has.
#[derive(Clone, Copy)]
struct Written {
    row: usize,
    code: usize,
}

// How many bytes the longest literal at the beginning of a row has that costs least, where no run does.
#[inline]
fn literal_bytes(row: &[u8], table: &[u16]) -> usize
    requires some { 0 < length row.now }
    requires most { length row.now ≤ most_row_bytes }
    requires table { table.now ≡ costs row.now }
    requires alone { equal_at row.now ≡ 1 }
    ensures { IsLongest row.now result }
{
    let least = usize::from(table[0]);
    let mut count = row.len().min(MOST_BYTES);
    'counts: while count + 1 + usize::from(table[count]) > least {
        count -= count + 1 + usize::from(table[count]) - least;
    }
    count
}

// Writes the code of a run at the beginning of a row, which has as many bytes as may be.
#[inline]
fn write_run(row: &[u8], equal: usize, out: &mut [u8]) -> Written
    requires equal { equal ≡ equal_at row.now }
    requires some { 2 ≤ equal }
    requires room { 2 * length row.now ≤ length out.old }
    ensures { WritesFirst row.now result.row result.code out.new }
{
    out[0] = (257 - equal) as u8;
    out[1] = row[0];
    Written {
        row: equal,
        code: 2,
    }
}

// Writes the code of the longest literal at the beginning of a row that costs least.
#[inline]
fn write_literal(row: &[u8], count: usize, out: &mut [u8]) -> Written
    requires alone { equal_at row.now ≡ 1 }
    requires longest { IsLongest row.now count }
    requires room { 2 * length row.now ≤ length out.old }
    ensures { WritesFirst row.now result.row result.code out.new }
{
    out[0] = (count - 1) as u8;
    out[1..1 + count].copy_from_slice(&row[..count]);
    Written {
        row: count,
        code: 1 + count,
    }
}

// Writes the code of the first packet of a row to the beginning of `out`, by the row's costs.
fn write_packet(row: &[u8], table: &[u16], out: &mut [u8]) -> Written
    requires some { 0 < length row.now }
    requires most { length row.now ≤ most_row_bytes }
    requires table { table.now ≡ costs row.now }
    requires room { 2 * length row.now ≤ length out.old }
    ensures { WritesFirst row.now result.row result.code out.new }
{
    let equal = equal_bytes(row);
    if equal >= LEAST_RUN {
        return write_run(row, equal, out);
    }
    write_literal(row, literal_bytes(row, table), out)
}

// Writes the code of a row by its costs, and gives its length.
fn write_packets(row: &[u8], table: &[u16], out: &mut [u8]) -> usize
    requires most { length row.now ≤ most_row_bytes }
    requires table { table.now ≡ costs row.now }
    requires room { 2 * length row.now ≤ length out.old }
    ensures code { take result out.new ≡ least_row row.now }
    ensures short { result ≤ 2 * length row.now }
{
    let mut at = 0;
    let mut len = 0;
    'packets: while at < row.len() {
        let written = write_packet(&row[at..], &table[at..], &mut out[len..]);
        at += written.row;
        len += written.code;
    }
    len
}

// Writes the code of a row by the costs of its places, over what `room` has, and gives its length.
fn write_within(room: &mut [u16], row: &[u8], out: &mut [u8]) -> usize
    requires most { length row.now ≤ most_row_bytes }
    requires places { length row.now < length room.old }
    requires room { 2 * length row.now ≤ length out.old }
    ensures code { take result out.new ≡ least_row row.now }
    ensures short { result ≤ 2 * length row.now }
{
    let table = &mut room[..=row.len()];
    fill_costs(row, table);
    write_packets(row, table, out)
}

// Writes the code of a row by the costs of its places, and gives its length. A small table is cleared sooner.
fn write_by_costs(row: &[u8], out: &mut [u8]) -> usize
    requires most { length row.now ≤ most_row_bytes }
    requires room { 2 * length row.now ≤ length out.old }
    ensures code { take result out.new ≡ least_row row.now }
    ensures short { result ≤ 2 * length row.now }
{
    if row.len() < FEW_PLACES {
        write_within(&mut [0; FEW_PLACES], row, out)
    } else {
        write_within(&mut [0; MOST_PLACES], row, out)
    }
}

// Writes the code of the first packet of a row to the beginning of `out`, where the bytes tell it without the costs.
fn write_front(row: &[u8], out: &mut [u8]) -> Option<Written>
    requires some { 0 < length row.now }
    requires room { 2 * length row.now ≤ length out.old }
    ensures { IfSome result (λ written. WritesFirst row.now written.row written.code out.new) }
{
    let equal = equal_bytes(row);
    if equal >= LEAST_RUN {
        return Some(write_run(row, equal, out));
    }
    let count = literal_end(row)?;
    Some(write_literal(row, count, out))
}

/// Writes the least code of a row of at most `MOST_ROW_BYTES` bytes to the beginning of `out`, and returns the length
/// of the code, at most twice that of the row. The call allocates no memory.
pub fn code_row(row: &[u8], out: &mut [u8]) -> usize
    requires most { length row.now ≤ most_row_bytes }
    requires room { 2 * length row.now ≤ length out.old }
    ensures code { take result out.new ≡ least_row row.now }
    ensures short { result ≤ 2 * length row.now }
{
    let mut at = 0;
    let mut len = 0;
    'packets: while at < row.len() {
        let Some(written) = write_front(&row[at..], &mut out[len..]) else {
            return len + write_by_costs(&row[at..], &mut out[len..]);
        };
        at += written.row;
        len += written.code;
    }
    len
}
