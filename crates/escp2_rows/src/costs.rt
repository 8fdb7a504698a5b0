//! The costs of a row: for each place, the fewest bytes that code the row from there on.
ghost use Rattle.arrayvec.specs.ArrayVec.{array_vec_len};
ghost use Rattle.base_definitions.specs.Limits.{most_row_bytes};
ghost use Rattle.escp2_rows.specs.Ends.{IsEnd, IsFilled};
ghost use Rattle.escp2_rows.specs.Passing.{cost};
ghost use Rattle.escp2_definitions.specs.Least.{costs, equal_at};
ghost use Rattle.std.specs.Prelude.{[], drop, length, ◌+◌, ◌-◌, ◌<◌, ◌≡◌, ◌≤◌};

use crate::literals::is_three;
use arrayvec::ArrayVec;
use base_definitions::MOST_ROW_BYTES;

/// The places of the widest row, and the place after its end.
pub(crate) const MOST_PLACES: usize = MOST_ROW_BYTES + 1;

/// The costs of one row of at most `MOST_ROW_BYTES` bytes.
pub type CostTable = ArrayVec<u16, MOST_PLACES>;

/// The most bytes of a packet.
pub const MOST_BYTES: usize = 128;

// How many bytes from the front on are equal, by how many are from the second byte on.
fn equal_from(row: &[u8], behind: usize) -> usize
    requires some { 0 < length row.now }
    requires behind { behind ≡ equal_at (drop 1 row.now) }
    requires few { behind ≤ 128 }
    ensures { result ≡ equal_at row.now }
{
    if row.len() > 1 && row[0] == row[1] {
        (behind + 1).min(MOST_BYTES)
    } else {
        1
    }
}

// How many of the first bytes are equal, if no three are.
#[inline]
fn equal_two(row: &[u8]) -> usize
    requires two { 2 ≤ length row.now }
    requires few { equal_at row.now ≤ 2 }
    ensures { result ≡ equal_at row.now }
{
    if row[0] == row[1] { 2 } else { 1 }
}

// How far a table of a row's costs is filled, from the row's end on.
#[derive(Clone, Copy)]
struct Filled {
    // From this place on.
    at: usize,
    // How many bytes are equal from there on, up to `MOST_BYTES`.
    equal: usize,
    // The place where a literal from before ends best.
    end: usize,
}

// What the place before a place costs, and where a literal from before it ends best.
#[derive(Clone, Copy)]
struct Front {
    cost: u16,
    end: usize,
}

// Where a literal from before a place ends best that has a byte more. If the best end is too far away, all nearer ones
// are as good.
fn end_near(filled: Filled) -> usize
    requires { filled.at ≤ filled.end }
    ensures near { filled.end < filled.at + 128 → result ≡ filled.end }
    ensures far { filled.end ≡ filled.at + 128 → result ≡ filled.at }
{
    if filled.end - filled.at == MOST_BYTES {
        filled.at
    } else {
        filled.end
    }
}

// What the place before a place costs, by how many bytes are equal there.
fn front_of(row: &[u8], table: &[u16], filled: Filled, equal: usize) -> Front
    requires most { length row.now ≤ most_row_bytes }
    requires filled { IsFilled row.now table.now filled }
    requires some { 0 < filled.at }
    requires equal { equal ≡ equal_at (drop (filled.at - 1) row.now) }
    ensures cost { result.cost ≡ cost (drop (filled.at - 1) row.now) }
    ensures ends { IsEnd 128 row.now (filled.at - 1) result.end }
{
    let at = filled.at - 1;
    let end = end_near(filled);
    let cost = table[end] + (end - at) as u16 + 1;
    if equal >= 2 {
        let repeated = table[at + equal] + 2;
        if repeated < cost {
            return Front {
                cost: repeated,
                end: at,
            };
        }
    }
    Front { cost, end }
}

// Fills the place before a place.
#[inline]
fn fill_byte(row: &[u8], table: &mut [u16], filled: Filled) -> Filled
    requires most { length row.now ≤ most_row_bytes }
    requires filled { IsFilled row.now table.old filled }
    requires some { 0 < filled.at }
    ensures filled { IsFilled row.now table.new result }
    ensures before { result.at < filled.at }
{
    let at = filled.at - 1;
    let equal = equal_from(&row[at..], filled.equal);
    let front = front_of(row, table, filled, equal);
    table[at] = front.cost;
    Filled {
        at,
        equal,
        end: front.end,
    }
}

// Fills the places before a place for as long as a literal goes on over them: no three equal bytes begin there, and the
// place where the literal ends best is neither next to them nor too far away.
#[inline]
fn fill_literal(row: &[u8], table: &mut [u16], filled: Filled) -> Filled
    requires most { length row.now ≤ most_row_bytes }
    requires filled { IsFilled row.now table.old filled }
    requires behind { filled.at + 2 ≤ filled.end }
    ensures filled { IsFilled row.now table.new result }
    ensures before { result.at ≤ filled.at }
{
    let mut at = filled.at;
    let mut cost = table[filled.end] + (filled.end - filled.at) as u16 + 1;
    'places: while at > 0 && filled.end - at < MOST_BYTES - 1 && !is_three(&row[at - 1..]) {
        at -= 1;
        cost += 1;
        table[at] = cost;
    }
    let equal = if at < filled.at {
        equal_two(&row[at..])
    } else {
        filled.equal
    };
    Filled {
        at,
        equal,
        end: filled.end,
    }
}

// Fills the place before a place, and those before it for as long as a literal goes on over them.
#[inline]
fn fill_before(row: &[u8], table: &mut [u16], filled: Filled) -> Filled
    requires most { length row.now ≤ most_row_bytes }
    requires filled { IsFilled row.now table.old filled }
    requires some { 0 < filled.at }
    ensures filled { IsFilled row.now table.new result }
    ensures before { result.at < filled.at }
{
    let next = fill_byte(row, table, filled);
    if next.end - next.at >= 2 {
        fill_literal(row, table, next)
    } else {
        next
    }
}

/// Overwrites the table with the costs of a row.
pub fn fill_costs(row: &[u8], table: &mut [u16])
    requires most { length row.now ≤ most_row_bytes }
    requires sized { length table.old ≡ length row.now + 1 }
    ensures { table.new ≡ costs row.now }
{
    let mut filled = Filled {
        at: row.len(),
        equal: 0,
        end: row.len(),
    };
    table[filled.at] = 0;
    'bytes: while filled.at > 0 {
        filled = fill_before(row, table, filled);
    }
}

/// Writes the costs of a row of at most `MOST_ROW_BYTES` bytes into `out`, which must be empty: for each place, the
/// fewest bytes that code the row from there on (ESC/P Reference Manual, run length encoding of `ESC .`). The call
/// allocates no memory.
pub fn cost_table(row: &[u8], out: &mut CostTable)
    requires most { length row.now ≤ most_row_bytes }
    requires empty { out.old.items ≡ [] }
    ensures { out.new.items ≡ costs row.now }
{
    let zeros = [0; MOST_PLACES];
    out.try_extend_from_slice(&zeros[..=row.len()]).unwrap();
    fill_costs(row, out.as_mut_slice());
}
