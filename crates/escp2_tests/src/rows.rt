//! Rows written, and rows fed whole and in two pieces.
ghost use Rattle.std.specs.Prelude.{length, ◌≤◌};

use crate::checks::{same, same_bytes};
use escp2_rows::{CostTable, RowFed, RowReader, RowState, code_row, cost_table};
use std::alloc::Global;
use std::process::Abort;
use std::test::Fail;

// A row has this code.
fn same_code(rt: &impl Abort, at: &str, row: &[u8], code: &[u8])
    requires { length row.now ≤ 1024 }
{
    let mut out = [0; 2048];
    let len = code_row(row, &mut out);
    same_bytes(rt, at, &out[..len], code);
}

#[test]
fn a_blank_row_in_its_least_code(rt: HostRuntime) {
    same_code(&rt, "130 blank bytes", &[0; 130], &[0x81, 0x00, 0xFF, 0x00]);
}

#[test]
fn the_least_code_takes_the_longest_run(rt: HostRuntime) {
    let row = [0x00, 0x00, 0x01, 0x00, 0x00];
    let mut costs = CostTable::new();
    cost_table(&row, &mut costs);
    assert_eq!(rt; costs.as_slice(), [6, 5, 4, 2, 2, 0].as_slice());
    same_code(&rt, "two runs", &row, &[0xFF, 0x00, 0x02, 0x01, 0x00, 0x00]);
}

#[test]
fn rows_have_their_codes(rt: HostRuntime) {
    const CASES: [(&[u8], &[u8]); 8] = [
        (&[], &[]),
        (&[7], &[0x00, 7]),
        (&[7, 7], &[0xFF, 7]),
        (&[7, 8], &[0x01, 7, 8]),
        // a run of two between two runs
        (&[1, 1, 1, 2, 2, 3, 3, 3], &[0xFE, 1, 0xFF, 2, 0xFE, 3]),
        // a literal goes on over runs that save nothing
        (&[1, 2, 2, 3, 4, 4, 4, 5], &[0x07, 1, 2, 2, 3, 4, 4, 4, 5]),
        (&[0; 128], &[0x81, 0x00]),
        (&[0; 129], &[0x81, 0x00, 0x00, 0x00]),
    ];
    for &(row, code) in &CASES {
        assert!(rt; row.len() <= 1024);
        same_code(&rt, "a row", row, code);
    }
}

// The least that a row costs from each place on, by every packet that may stand there.
fn slow_costs(row: &[u8], costs: &mut [u16; 1025])
    requires { length row.now ≤ 1024 }
{
    costs[row.len()] = 0;
    for at in (0..row.len()).rev() {
        costs[at] = slow_cost(&row[at..], &costs[at..]);
    }
}

// The least of a row's packets and the rest behind each.
fn slow_cost(row: &[u8], costs: &[u16]) -> u16
    requires { length row.now ≤ length costs.now }
{
    let mut least = u16::MAX;
    let mut equal = true;
    for (before, behind) in costs
        .iter()
        .take(row.len() + 1)
        .skip(1)
        .take(128)
        .enumerate()
    {
        equal &= row.get(before) == row.first();
        let literal = behind.saturating_add(before as u16).saturating_add(2);
        least = least.min(literal);
        if equal && before > 0 {
            least = least.min(behind.saturating_add(2));
        }
    }
    least
}

// Pseudo-random bytes below `kinds`, and the seed of the next row.
fn fill(row: &mut [u8], kinds: u32, first: u32) -> u32 {
    let mut seed = first;
    for byte in row {
        seed = seed.wrapping_mul(1_664_525).wrapping_add(1_013_904_223);
        *byte = u8::try_from((seed >> 16) % kinds.max(1)).unwrap_or(0);
    }
    seed
}

#[test]
fn costs_are_those_of_every_packet(rt: HostRuntime) {
    const LENGTHS: [usize; 10] = [1, 2, 17, 18, 34, 128, 129, 147, 372, 1024];
    let mut seed = 1;
    for &len in &LENGTHS {
        for kinds in [1, 2, 3, 16, 256] {
            let mut row = [0; 1024];
            assert!(rt; len <= 1024);
            seed = fill(&mut row[..len], kinds, seed);
            same_costs(&rt, &row[..len]);
        }
    }
}

// A row's costs are those of the slow program, and its code is as long as the first of them.
fn same_costs(rt: &impl Abort, row: &[u8])
    requires { length row.now ≤ 1024 }
{
    let mut wanted = [0; 1025];
    slow_costs(row, &mut wanted);
    let mut costs = CostTable::new();
    cost_table(row, &mut costs);
    assert_eq!(rt; costs.as_slice(), &wanted[..=row.len()]);
    let mut code = [0; 2048];
    same(
        rt,
        "a code's length",
        &code_row(row, &mut code),
        &usize::from(wanted[0]),
    );
}

// A row as its code, of this length at most, is read back.
fn read_back(alloc: Global, row: &[u8]) -> Result<(usize, Vec<u8>), Fail>
    requires some { 1 ≤ length row.now }
    requires most { length row.now ≤ 1024 }
{
    let mut code = [0; 2048];
    let len = code_row(row, &mut code);
    let mut reader = RowReader::begin(1, row.len() as u16, 1);
    let mut out = Vec::with_capacity(alloc, reader.bytes_left())?;
    reader.feed(&code[..len], &mut out);
    Ok((len, out))
}

#[test]
fn rows_of_one_byte_are_read_back(rt: HostRuntime) -> Result<(), Fail> {
    let row = [7; 300];
    for len in 1..=300 {
        let (_, out) = read_back(rt.alloc(), &row[..len])?;
        same_bytes(&rt, "a row", &out, &row[..len]);
    }
    Ok(())
}

#[test]
fn long_literals_are_read_back(rt: HostRuntime) -> Result<(), Fail> {
    let mut row = [0; 300];
    for (i, byte) in row.iter_mut().enumerate() {
        *byte = (i % 251) as u8;
    }
    let (len, out) = read_back(rt.alloc(), &row)?;
    same(&rt, "its length", &len, &303);
    same_bytes(&rt, "the row", &out, &row);
    Ok(())
}

// Three rows of four bytes, and a byte after them.
const PLAIN: [u8; 13] = [1, 1, 1, 1, 2, 3, 4, 4, 5, 6, 7, 8, 0x99];

// The same rows, coded, and a byte after them.
const CODED: [u8; 13] = [0xFD, 1, 0x01, 2, 3, 0xFF, 4, 0x03, 5, 6, 7, 8, 0x99];

// Feeds three rows of four bytes in two pieces, and compares what is read.
fn feed_in_two(
    rt: &impl Abort,
    alloc: Global,
    c: u8,
    bytes: &[u8; 13],
    cut: usize,
) -> Result<(), Fail>
    requires form { c ≤ 1 }
    requires cut { cut ≤ 12 }
{
    let mut reader = RowReader::begin(c, 4, 3);
    let mut out = Vec::with_capacity(alloc, 12)?;
    let first = reader.feed(&bytes[..cut], &mut out);
    assert!(rt; !reader.is_done());
    let last = reader.feed(&bytes[cut..], &mut out);
    let fed = [
        RowFed {
            used: cut,
            state: RowState::More,
        },
        RowFed {
            used: 12 - cut,
            state: RowState::Whole,
        },
    ];
    same(rt, "two pieces", &[first, last], &fed);
    same_bytes(rt, "their rows", &out, &PLAIN[..12]);
    Ok(())
}

#[test]
fn each_cut_gives_the_same_rows(rt: HostRuntime) -> Result<(), Fail> {
    for cut in 0..12 {
        feed_in_two(&rt, rt.alloc(), 1, &CODED, cut)?;
        feed_in_two(&rt, rt.alloc(), 0, &PLAIN, cut)?;
    }
    Ok(())
}

// Feeds one coded row of four bytes, and gives the answer and how many bytes of the row are given.
fn feed_row(alloc: Global, code: &[u8]) -> Result<(RowFed, usize), Fail> {
    let mut reader = RowReader::begin(1, 4, 1);
    let mut out = Vec::with_capacity(alloc, 4)?;
    let fed = reader.feed(code, &mut out);
    Ok((fed, out.len()))
}

#[test]
fn control_bytes_are_refused(rt: HostRuntime) -> Result<(), Fail> {
    // A code, where its fault is, and how many bytes come before the fault.
    const CASES: [(&[u8], usize, usize, usize); 3] = [
        (&[0x80, 7, 7], 1, 0, 0),
        (&[0xFE, 7, 0x01, 8, 9], 3, 2, 3),
        (&[0x01, 7, 8, 0xFE, 9], 4, 3, 2),
    ];
    for &(code, used, at, given) in &CASES {
        let state = RowState::Fault { at };
        let wanted = (RowFed { used, state }, given);
        same(&rt, "a fault", &feed_row(rt.alloc(), code)?, &wanted);
    }
    Ok(())
}
