//! Pages of each kind of pixel by printers of each set of inks.
use crate::fixture::{BY_TEXT, PRINT, Wanted};
use crate::rows::{Given, Row, Table, try_tables};
use pwg_header::Kind;
use std::test::Fail;

// Printers of one nozzle, of four inks and of three.
const FOUR: &[&[u8]] = &[b"escp2-profile 1\nhdpi=360\nvdpi=360\nnozzles=1\npitch=1\ninks=cmyk\n"];

const THREE: &[&[u8]] = &[b"escp2-profile 1\nhdpi=360\nvdpi=360\nnozzles=1\npitch=1\ninks=cmy\n"];

// The commands before the passes of a sheet of one row.
const PROLOGUE: [u8; 46] = [
    0x1B, 0x40, 0x1B, 0x28, 0x47, 1, 0, 1, 0x1B, 0x28, 0x55, 1, 0, 5, 0x1B, 0x28, 0x69, 1, 0, 0,
    0x1B, 0x55, 1, 0x1B, 0x28, 0x43, 2, 0, 2, 0, 0x1B, 0x28, 0x63, 4, 0, 0, 0, 2, 0, 0x1B, 0x28,
    0x56, 2, 0, 0, 0,
];

// The passes of one dot in each ink.
const BLACK: [u8; 14] = [0x1B, 0x72, 0, 0x0D, 0x1B, 0x2E, 1, 10, 10, 1, 1, 0, 0, 0x80];

const MAGENTA: [u8; 14] = [0x1B, 0x72, 1, 0x0D, 0x1B, 0x2E, 1, 10, 10, 1, 1, 0, 0, 0x80];

const CYAN: [u8; 14] = [0x1B, 0x72, 2, 0x0D, 0x1B, 0x2E, 1, 10, 10, 1, 1, 0, 0, 0x80];

const YELLOW: [u8; 14] = [0x1B, 0x72, 4, 0x0D, 0x1B, 0x2E, 1, 10, 10, 1, 1, 0, 0, 0x80];

// The commands after the passes.
const END: [u8; 3] = [0x0C, 0x1B, 0x40];

// What pages of one pixel leave: sheets without a dot, with a dot of black, and with a dot of each colour.
const NONE: Wanted = (0, &[&PROLOGUE, &END], b"");

const ONE_BLACK: Wanted = (0, &[&PROLOGUE, &BLACK, &END], b"");

const COLOURS: Wanted = (0, &[&PROLOGUE, &CYAN, &MAGENTA, &YELLOW, &END], b"");

const RED: Wanted = (0, &[&PROLOGUE, &MAGENTA, &YELLOW, &END], b"");

const GREEN: Wanted = (0, &[&PROLOGUE, &CYAN, &YELLOW, &END], b"");

const BLUE: Wanted = (0, &[&PROLOGUE, &CYAN, &MAGENTA, &END], b"");

// What a page of one pixel leaves.
macro_rules! pixel {
    ($inks:ident, $kind:ident, $body:expr, $wanted:expr) => {
        (
            &BY_TEXT,
            Given::Pages($inks, &[(Kind::$kind, (1, 1), $body)]),
            $wanted,
        )
    };
}

const ORDER: [Row; 4] = [
    pixel!(FOUR, Rgb8, &[0, 0, 0, 0, 0], ONE_BLACK),
    pixel!(FOUR, Rgb8, &[0, 0, 0xFF, 0, 0], RED),
    pixel!(FOUR, Rgb8, &[0, 0, 0, 0xFF, 0], GREEN),
    pixel!(FOUR, Rgb8, &[0, 0, 0, 0, 0xFF], BLUE),
];

const WITHOUT_COLOUR: [Row; 12] = [
    pixel!(FOUR, Gray8, &[0, 0, 0], ONE_BLACK),
    pixel!(FOUR, Gray8, &[0, 0, 0xFF], NONE),
    pixel!(FOUR, Black8, &[0, 0, 0xFF], ONE_BLACK),
    pixel!(FOUR, Black8, &[0, 0, 0], NONE),
    pixel!(FOUR, Cmyk8, &[0, 0, 0, 0, 0, 0xFF], ONE_BLACK),
    pixel!(FOUR, Cmyk8, &[0, 0, 0, 0xFF, 0xFF, 0], RED),
    pixel!(FOUR, Cmyk8, &[0, 0x80], NONE),
    pixel!(THREE, Gray8, &[0, 0, 0], COLOURS),
    pixel!(THREE, Gray8, &[0, 0, 0xFF], NONE),
    pixel!(THREE, Black8, &[0, 0, 0xFF], COLOURS),
    pixel!(THREE, Black8, &[0, 0, 0], NONE),
    pixel!(THREE, Cmyk8, &[0, 0, 0, 0, 0, 0xFF], COLOURS),
];

// The passes of every other of twelve dots.
const TWELVE: [u8; 15] = [
    0x1B, 0x72, 0, 0x0D, 0x1B, 0x2E, 1, 10, 10, 1, 12, 0, 1, 0xAA, 0xA0,
];

const EVERY_OTHER: Wanted = (0, &[&PROLOGUE, &TWELVE, &END], b"");

const SPARE_BITS: [Row; 2] = [
    (
        &PRINT,
        Given::Pages(&[], &[(Kind::Black1, (12, 1), &[0, 1, 0xAA])]),
        EVERY_OTHER,
    ),
    (
        &PRINT,
        Given::Pages(&[], &[(Kind::Black1, (12, 1), &[0, 0xFF, 0xAA, 0xAF])]),
        EVERY_OTHER,
    ),
];

const REFUSED: [Row; 3] = [
    pixel!(
        FOUR,
        Rgb8,
        &[0, 0, 1, 2],
        (3, &[], b"input: page 1 line 1: Truncated\n")
    ),
    pixel!(
        FOUR,
        Rgb8,
        &[0, 1],
        (3, &[], b"input: page 1 line 1: RunPastLine\n")
    ),
    pixel!(
        FOUR,
        Rgb8,
        &[1],
        (3, &[], b"input: page 1 line 1: GroupPastPage\n")
    ),
];

#[test]
fn pixels_of_each_kind_take_their_inks(rt: HostRuntime) -> Result<(), Fail> {
    const TABLES: [Table; 4] = [
        ("inks go in the order of their set", &ORDER),
        (
            "pages without colour take black or all colours",
            &WITHOUT_COLOUR,
        ),
        ("spare bits of a line are read past", &SPARE_BITS),
        ("a colour page is refused at its line", &REFUSED),
    ];
    try_tables(&rt, rt.alloc(), &TABLES)
}
