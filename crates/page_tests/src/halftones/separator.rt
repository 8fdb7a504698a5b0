//! Cells of the table of inks, worked by hand.
use crate::halftones::definition::HALF;
use crate::halftones::whole_lines::HALVED;
use dot_planes::InkRows;
use ink_separation::amounts;
use printer_profile::{InkSet, Profile, STRAIGHT_CURVE, TINY1};
use pwg_definitions::Kind;
use separation_definitions::Window;
use std::alloc::Global;

// Tone curves of a printer.
#[derive(Clone, Copy)]
enum Curves {
    Straight,
    /// Twice the amount of black and yellow, half of cyan, and magenta as it is.
    Mixed,
    /// Half the amount of black.
    HalfBlack,
}

// Twice the amount, at most 255.
const DOUBLE: [u16; 17] = [
    0, 32, 64, 96, 128, 160, 192, 224, 256, 256, 256, 256, 256, 256, 256, 256, 256,
];

// A printer with mixed curves.
const MIXED: Profile = Profile {
    curves: [DOUBLE, HALF, STRAIGHT_CURVE, DOUBLE],
    ..TINY1
};

// A printer with these curves.
fn printer(curves: Curves) -> Profile {
    match curves {
        Curves::Straight => TINY1,
        Curves::Mixed => MIXED,
        Curves::HalfBlack => HALVED,
    }
}

// What a printer does with amounts: from where on grey is black, the limits of the inks, and their curves.
type Tones = (u8, [u8; 4], Curves);

// No limit.
const FREE: [u8; 4] = [255; 4];

const PLAIN: Tones = (0, FREE, Curves::Straight);

// A pixel of a kind, the inks of a printer and its tones, and the pixel's amounts in the order of the inks.
type Cell = (Kind, [u8; 4], InkSet, Tones, [u8; 4]);

const FIRST_PIXEL: Window = Window {
    left: 0,
    top: 0,
    width: 1,
    height: 1,
};

// The amounts of a pixel, or `None` where the printer fails its checks or there is no memory.
fn amounts_of(
    alloc: Global,
    kind: Kind,
    pixel: &[u8; 4],
    inks: InkSet,
    (black_start, limits, curves): Tones,
) -> Option<[u8; 4]> {
    let profile = Profile {
        inks,
        black_start,
        limits,
        ..printer(curves)
    };
    if profile.check().is_err() || kind.line_bytes(1) > pixel.len() {
        return None;
    }
    let mut rows = InkRows::make(alloc, 1, 1, inks.count()).ok()?;
    amounts(&profile, kind, pixel, FIRST_PIXEL, 0, &mut rows);
    let mut given = [0; 4];
    for i in 0..inks.count() {
        given[usize::from(i)] = rows.get(i, 0, 0);
    }
    Some(given)
}

const CELLS: [Cell; 25] = [
    // grey goes into black from the black start on
    (
        Kind::Rgb8,
        [100, 100, 100, 0],
        InkSet::Cmyk,
        PLAIN,
        [155, 0, 0, 0],
    ),
    (
        Kind::Rgb8,
        [100, 100, 100, 0],
        InkSet::Cmyk,
        (128, FREE, Curves::Straight),
        [54, 101, 101, 101],
    ),
    (
        Kind::Rgb8,
        [100, 100, 100, 0],
        InkSet::Cmyk,
        (200, FREE, Curves::Straight),
        [0, 155, 155, 155],
    ),
    // red, green and blue as grey, and amounts under a limit
    (Kind::Rgb8, [255, 0, 0, 0], InkSet::K, PLAIN, [179, 0, 0, 0]),
    (Kind::Rgb8, [0, 255, 0, 0], InkSet::K, PLAIN, [106, 0, 0, 0]),
    (Kind::Rgb8, [0, 0, 255, 0], InkSet::K, PLAIN, [227, 0, 0, 0]),
    (
        Kind::Gray8,
        [154, 0, 0, 0],
        InkSet::K,
        (0, [224, 255, 255, 255], Curves::Straight),
        [88, 0, 0, 0],
    ),
    (
        Kind::Black8,
        [101, 0, 0, 0],
        InkSet::K,
        (0, [224, 255, 255, 255], Curves::Straight),
        [88, 0, 0, 0],
    ),
    (
        Kind::Gray8,
        [154, 0, 0, 0],
        InkSet::Cmy,
        (0, [1, 255, 224, 128], Curves::Straight),
        [101, 88, 50, 0],
    ),
    (
        Kind::Black8,
        [101, 0, 0, 0],
        InkSet::Cmy,
        (0, [1, 255, 224, 128], Curves::Straight),
        [101, 88, 50, 0],
    ),
    (
        Kind::Rgb8,
        [10, 154, 55, 0],
        InkSet::Cmy,
        (0, [1, 255, 224, 128], Curves::Straight),
        [245, 88, 100, 0],
    ),
    (
        Kind::Gray8,
        [55, 0, 0, 0],
        InkSet::Cmyk,
        (0, [128, 255, 255, 255], Curves::Straight),
        [100, 0, 0, 0],
    ),
    (
        Kind::Black8,
        [200, 0, 0, 0],
        InkSet::Cmyk,
        (0, [128, 255, 255, 255], Curves::Straight),
        [100, 0, 0, 0],
    ),
    (
        Kind::Rgb8,
        [192, 100, 0, 0],
        InkSet::Cmyk,
        (64, FREE, Curves::Straight),
        [0, 63, 155, 255],
    ),
    (
        Kind::Rgb8,
        [55, 0, 155, 0],
        InkSet::Cmyk,
        (64, [255, 224, 200, 180], Curves::Straight),
        [48, 133, 162, 36],
    ),
    // a pixel of four inks in each set of inks
    (
        Kind::Cmyk8,
        [10, 20, 30, 200],
        InkSet::Cmyk,
        PLAIN,
        [200, 10, 20, 30],
    ),
    (
        Kind::Cmyk8,
        [10, 20, 30, 200],
        InkSet::Cmy,
        PLAIN,
        [210, 220, 230, 0],
    ),
    (
        Kind::Cmyk8,
        [10, 20, 30, 200],
        InkSet::K,
        PLAIN,
        [219, 0, 0, 0],
    ),
    (
        Kind::Cmyk8,
        [10, 20, 30, 200],
        InkSet::Cmyk,
        (0, [128, 255, 128, 51], Curves::Straight),
        [100, 10, 10, 6],
    ),
    // cyan and black saturate
    (
        Kind::Cmyk8,
        [100, 0, 0, 200],
        InkSet::Cmy,
        PLAIN,
        [255, 200, 200, 0],
    ),
    // red 0, green and blue 55
    (
        Kind::Cmyk8,
        [100, 0, 0, 200],
        InkSet::K,
        PLAIN,
        [217, 0, 0, 0],
    ),
    // an ink has its own tone before its limit
    (
        Kind::Cmyk8,
        [10, 20, 30, 200],
        InkSet::Cmyk,
        (0, FREE, Curves::Mixed),
        [255, 5, 20, 60],
    ),
    (
        Kind::Cmyk8,
        [10, 20, 30, 200],
        InkSet::Cmyk,
        (0, [128, 128, 128, 128], Curves::Mixed),
        [128, 2, 10, 30],
    ),
    (
        Kind::Cmyk8,
        [10, 20, 30, 200],
        InkSet::Cmy,
        (0, [1, 255, 128, 128], Curves::Mixed),
        [105, 110, 128, 0],
    ),
    (
        Kind::Black1,
        [0x80, 0, 0, 0],
        InkSet::K,
        (0, FREE, Curves::HalfBlack),
        [127, 0, 0, 0],
    ),
];

#[test]
fn pixels_have_their_amounts_in_each_ink_set(rt: HostRuntime) {
    for (kind, pixel, inks, tones, want) in &CELLS {
        let given = amounts_of(rt.alloc(), *kind, pixel, *inks, *tones);
        assert!(rt;
            given == Some(*want),
            "{kind:?} {pixel:?} in {inks:?}: {given:?} for {want:?}"
        );
    }
}
