//! Whole lines, compared with a plain loop over their pixels.
use crate::halftones::definition::HALF;
use dot_planes::InkRows;
use ink_separation::amounts;
use printer_profile::{Profile, STRAIGHT_CURVE, TINY1};
use pwg_definitions::Kind;
use separation_definitions::Window;
use std::alloc::Global;

/// A printer whose curve halves black.
pub(crate) const HALVED: Profile = Profile {
    curves: [HALF, STRAIGHT_CURVE, STRAIGHT_CURVE, STRAIGHT_CURVE],
    ..TINY1
};

// The amounts of black at `width` pixels of a line from pixel `left` on. `None` where the line has fewer, or there is
// no memory.
fn blacks(
    alloc: Global,
    p: &Profile,
    kind: Kind,
    line: &[u8],
    left: u8,
    width: u8,
) -> Option<Vec<u8>> {
    let window = Window {
        left: u32::from(left),
        top: 0,
        width: u32::from(width),
        height: 1,
    };
    let across = window.left + window.width;
    if p.check().is_err() || width < 1 || kind.line_bytes(across as usize) > line.len() {
        return None;
    }
    let mut rows = InkRows::make(alloc, window.width, 1, p.inks.count()).ok()?;
    amounts(p, kind, line, window, 0, &mut rows);
    if rows.inks() < 1 || rows.rows() < 1 {
        return None;
    }
    let mut given = Vec::new(alloc);
    for x in 0..rows.width() {
        given.push(rows.get(0, x, 0)).ok()?;
    }
    Some(given)
}

#[test]
fn black_1_spare_bits_are_read_past(rt: HostRuntime) {
    const WANT: [u8; 12] = [255, 0, 255, 0, 255, 0, 255, 0, 255, 0, 255, 0];
    for line in [[0xAA, 0xAA], [0xAA, 0xAF], [0xAA, 0xA0]] {
        let given = blacks(rt.alloc(), &TINY1, Kind::Black1, &line, 0, 12);
        let found = given.as_deref() == Some(WANT.as_slice());
        assert!(rt; found, "of {line:?}");
    }
}

// Bytes without a pattern.
fn mixed() -> [u8; 32] {
    let mut line = [0u8; 32];
    let mut state = 1u32;
    for byte in &mut line {
        state = state.wrapping_mul(1_664_525).wrapping_add(1_013_904_223);
        *byte = (state >> 24) as u8;
    }
    line
}

// Whether the amounts are those of a line's bits from pixel `left` on.
fn are_bits(given: &[u8], line: &[u8], left: u8) -> bool {
    let mut same = true;
    for (n, amount) in given.iter().enumerate() {
        let x = usize::from(left).wrapping_add(n);
        let byte = line.get(x / 8).copied().unwrap_or(0);
        let want = if byte & (128 >> (x % 8)) == 0 { 0 } else { 255 };
        same = same && *amount == want;
    }
    same
}

#[test]
fn black_1_begins_at_any_bit(rt: HostRuntime) {
    let line = mixed();
    for left in 0..=9u8 {
        for width in [1, 7, 8, 63, 64, 65, 128, 200] {
            let given = blacks(rt.alloc(), &TINY1, Kind::Black1, &line, left, width);
            let found = match given {
                Some(given) => given.len() == usize::from(width) && are_bits(&given, &line, left),
                None => false,
            };
            assert!(rt; found, "{width} from {left}");
        }
    }
}

#[test]
fn tones_of_the_half_curve(rt: HostRuntime) {
    let mut line = [0u8; 255];
    for (n, byte) in line.iter_mut().enumerate() {
        *byte = (n % 255) as u8 + 1;
    }
    let given = blacks(rt.alloc(), &HALVED, Kind::Black8, &line, 0, 255);
    let mut halves = line;
    for half in &mut halves {
        *half /= 2;
    }
    assert!(rt; given.as_deref() == Some(halves.as_slice()));
}
