//! Values of all pixels of a tile, by offsets, from the tile's bytes by columns.
//!
//! A function for one offset goes over its 32 rows, and gives a column of values. That loop has a known length and no
//! test, and writes what nothing else refers to, so that it becomes vectors.
ghost use Rattle.ink_separation.specs.Columns.{grey_in, pixel_in};
ghost use Rattle.ink_separation.specs.Planes.{HasOffsets, PutsColumn};
ghost use Rattle.printer_definitions.specs.declared.inks.Ink.TheVariants.{Black, Cyan, Magenta, Yellow};
ghost use Rattle.pwg_definitions.specs.declared.pages.Kind.TheVariants.{Cmyk8, Rgb8};
ghost use Rattle.separation_definitions.specs.Amounts.{colour_left, colour_of, darkness, four_inks};
ghost use Rattle.std.specs.Prelude.{[], min, slice_index, slice_index_or, ℕ, ◌*◌, ◌+◌, ◌-◌, ◌<◌, ◌≡◌, ◌≢◌};

use crate::black::BlackScale;
use crate::pixels::grey_of;
use dot_planes::TILE_BYTES;

/// The bytes of a tile's pixels by columns: 32 of each, one of each row.
pub(crate) type Columns = [u8; TILE_BYTES];

/// A value for each pixel of a tile: 32 for each offset, one of each row.
pub(crate) type Plane = [u8; 2048];

/// A value for each row of a tile.
type Column = [u8; 32];

// Puts the values of an offset.
#[inline(always)]
fn put_column(plane: &mut Plane, o: usize, column: &Column)
    requires { o < 64 }
    ensures { PutsColumn column.now o plane.old plane.new }
{
    plane[32 * o..32 * o + 32].copy_from_slice(column);
}

// 255 less each byte.
#[inline(always)]
fn invert(columns: &Columns, plane: &mut Plane)
    ensures { (n : ℕ) → n < 2048 → slice_index plane.new n ≡ 255 - slice_index columns.now n }
{
    for n in 0..2048 {
        plane[n] = 255 - columns[n];
    }
}

/// The darkness of each pixel of grey: the bytes are 255 for white if they are light, else 0.
pub(crate) fn put_greys(light: bool, columns: &Columns, plane: &mut Plane)
    ensures { (n : ℕ) → n < 2048 → slice_index plane.new n ≡ grey_in light (slice_index columns.now n) }
{
    if light {
        invert(columns, plane);
    } else {
        plane.copy_from_slice(&columns[..2048]);
    }
}

/// One amount for each byte that is 0, and another for all others.
pub(crate) fn put_chosen(columns: &Columns, none: u8, full: u8, plane: &mut Plane)
    ensures none { (n : ℕ) → n < 2048 → slice_index columns.now n ≡ 0 → slice_index plane.new n ≡ none }
    ensures full { (n : ℕ) → n < 2048 → slice_index columns.now n ≢ 0 → slice_index plane.new n ≡ full }
{
    for n in 0..2048 {
        plane[n] = if columns[n] == 0 { none } else { full };
    }
}

// The complement of one of the colours at an offset.
#[inline(always)]
fn complement_at(columns: &Columns, colour: usize, o: usize) -> Column
    requires colour { colour < 3 }
    requires o { o < 64 }
    ensures { (r : ℕ) → r < 32 → slice_index result r ≡ 255 - slice_index columns.now (32 * (3 * o + colour) + r) }
{
    let mut values = [0; 32];
    for r in 0..32 {
        values[r] = 255 - columns[32 * (3 * o + colour) + r];
    }
    values
}

/// The complement of one of the colours of each pixel of red, green and blue: 255 less its value.
pub(crate) fn put_complements(columns: &Columns, colour: usize, plane: &mut Plane)
    requires { colour < 3 }
    ensures { HasOffsets (λ o r. 255 - slice_index columns.now (32 * (3 * o + colour) + r)) 64 plane.new }
{
    for o in 0..64 {
        put_column(plane, o, &complement_at(columns, colour, o));
    }
}

// The darkness of the colours at an offset.
#[inline(always)]
fn darkness_at(columns: &Columns, o: usize) -> Column
    requires { o < 64 }
    ensures { (r : ℕ) → r < 32 → slice_index result r ≡ darkness (colour_of (pixel_in Rgb8 columns.now o r)) }
{
    let mut values = [0; 32];
    for r in 0..32 {
        values[r] = grey_of(
            columns[32 * (3 * o) + r],
            columns[32 * (3 * o + 1) + r],
            columns[32 * (3 * o + 2) + r],
        );
    }
    values
}

/// The darkness of each pixel of red, green and blue as a grey.
pub(crate) fn put_darknesses(columns: &Columns, plane: &mut Plane)
    ensures { HasOffsets (λ o r. darkness (colour_of (pixel_in Rgb8 columns.now o r))) 64 plane.new }
{
    for o in 0..64 {
        put_column(plane, o, &darkness_at(columns, o));
    }
}

// What the 32 pixels of an offset give to four inks.
#[derive(Drop)]
struct FourColumns {
    black: Column,
    cyan: Column,
    magenta: Column,
    yellow: Column,
}

// What the colours at an offset give to four inks.
#[inline(always)]
fn four_at(columns: &Columns, scale: &BlackScale, o: usize) -> FourColumns
    requires { o < 64 }
    ensures black { (r : ℕ) → r < 32
        → slice_index result.black r ≡ four_inks scale.now (colour_of (pixel_in Rgb8 columns.now o r)) Black }
    ensures cyan { (r : ℕ) → r < 32
        → slice_index result.cyan r ≡ four_inks scale.now (colour_of (pixel_in Rgb8 columns.now o r)) Cyan }
    ensures magenta { (r : ℕ) → r < 32
        → slice_index result.magenta r ≡ four_inks scale.now (colour_of (pixel_in Rgb8 columns.now o r)) Magenta }
    ensures yellow { (r : ℕ) → r < 32
        → slice_index result.yellow r ≡ four_inks scale.now (colour_of (pixel_in Rgb8 columns.now o r)) Yellow }
{
    let mut four = FourColumns {
        black: [0; 32],
        cyan: [0; 32],
        magenta: [0; 32],
        yellow: [0; 32],
    };
    for r in 0..32 {
        let cyan = 255 - columns[32 * (3 * o) + r];
        let magenta = 255 - columns[32 * (3 * o + 1) + r];
        let yellow = 255 - columns[32 * (3 * o + 2) + r];
        let black = scale.black_at(cyan.min(magenta).min(yellow));
        four.black[r] = black;
        four.cyan[r] = cyan.saturating_sub(black);
        four.magenta[r] = magenta.saturating_sub(black);
        four.yellow[r] = yellow.saturating_sub(black);
    }
    four
}

// Puts the values of an offset in four inks.
#[inline(always)]
fn put_four(inks: &mut [Plane; 4], o: usize, four: &FourColumns)
    requires { o < 64 }
    ensures black { PutsColumn four.now.black o (slice_index_or inks.old 0 []) (slice_index_or inks.new 0 []) }
    ensures cyan { PutsColumn four.now.cyan o (slice_index_or inks.old 1 []) (slice_index_or inks.new 1 []) }
    ensures magenta { PutsColumn four.now.magenta o (slice_index_or inks.old 2 []) (slice_index_or inks.new 2 []) }
    ensures yellow { PutsColumn four.now.yellow o (slice_index_or inks.old 3 []) (slice_index_or inks.new 3 []) }
{
    put_column(&mut inks[0], o, &four.black);
    put_column(&mut inks[1], o, &four.cyan);
    put_column(&mut inks[2], o, &four.magenta);
    put_column(&mut inks[3], o, &four.yellow);
}

/// What each pixel of red, green and blue gives to four inks.
pub(crate) fn put_colours(columns: &Columns, scale: &BlackScale, inks: &mut [Plane; 4])
    ensures black { HasOffsets (λ o r. four_inks scale.now (colour_of (pixel_in Rgb8 columns.now o r)) Black) 64
        (slice_index_or inks.new 0 []) }
    ensures cyan { HasOffsets (λ o r. four_inks scale.now (colour_of (pixel_in Rgb8 columns.now o r)) Cyan) 64
        (slice_index_or inks.new 1 []) }
    ensures magenta { HasOffsets (λ o r. four_inks scale.now (colour_of (pixel_in Rgb8 columns.now o r)) Magenta) 64
        (slice_index_or inks.new 2 []) }
    ensures yellow { HasOffsets (λ o r. four_inks scale.now (colour_of (pixel_in Rgb8 columns.now o r)) Yellow) 64
        (slice_index_or inks.new 3 []) }
{
    for o in 0..64 {
        put_four(inks, o, &four_at(columns, scale, o));
    }
}

// One of the four numbers of the pixels at an offset.
#[inline(always)]
fn number_at(columns: &Columns, place: usize, o: usize) -> Column
    requires place { place < 4 }
    requires o { o < 64 }
    ensures { (r : ℕ) → r < 32 → slice_index result r ≡ slice_index columns.now (32 * (4 * o + place) + r) }
{
    let mut values = [0; 32];
    for r in 0..32 {
        values[r] = columns[32 * (4 * o + place) + r];
    }
    values
}

/// One of the four numbers of each pixel of cyan, magenta, yellow and black: 0 to 3 in this order.
pub(crate) fn put_numbers(columns: &Columns, place: usize, plane: &mut Plane)
    requires { place < 4 }
    ensures { HasOffsets (λ o r. slice_index columns.now (32 * (4 * o + place) + r)) 64 plane.new }
{
    for o in 0..64 {
        put_column(plane, o, &number_at(columns, place, o));
    }
}

// The same with black added, at most 255.
#[inline(always)]
fn sum_at(columns: &Columns, place: usize, o: usize) -> Column
    requires place { place < 4 }
    requires o { o < 64 }
    ensures { (r : ℕ) → r < 32 → slice_index result r ≡ min 255 (slice_index columns.now (32 * (4 * o + place) + r)
        + slice_index columns.now (32 * (4 * o + 3) + r)) }
{
    let mut values = [0; 32];
    for r in 0..32 {
        let black = columns[32 * (4 * o + 3) + r];
        values[r] = columns[32 * (4 * o + place) + r].saturating_add(black);
    }
    values
}

/// One of the four numbers of each pixel with black added, at most 255.
pub(crate) fn put_sums(columns: &Columns, place: usize, plane: &mut Plane)
    requires { place < 4 }
    ensures { HasOffsets (λ o r. min 255 (slice_index columns.now (32 * (4 * o + place) + r)
        + slice_index columns.now (32 * (4 * o + 3) + r))) 64 plane.new }
{
    for o in 0..64 {
        put_column(plane, o, &sum_at(columns, place, o));
    }
}

// The darkness of the colours that the pixels at an offset leave of white.
#[inline(always)]
fn rest_at(columns: &Columns, o: usize) -> Column
    requires { o < 64 }
    ensures { (r : ℕ) → r < 32 → slice_index result r ≡ darkness (colour_left (pixel_in Cmyk8 columns.now o r)) }
{
    let mut values = [0; 32];
    for r in 0..32 {
        let black = columns[32 * (4 * o + 3) + r];
        values[r] = grey_of(
            255 - columns[32 * (4 * o) + r].saturating_add(black),
            255 - columns[32 * (4 * o + 1) + r].saturating_add(black),
            255 - columns[32 * (4 * o + 2) + r].saturating_add(black),
        );
    }
    values
}

/// The darkness of the colour that each pixel of cyan, magenta, yellow and black leaves of white.
pub(crate) fn put_rests(columns: &Columns, plane: &mut Plane)
    ensures { HasOffsets (λ o r. darkness (colour_left (pixel_in Cmyk8 columns.now o r))) 64 plane.new }
{
    for o in 0..64 {
        put_column(plane, o, &rest_at(columns, o));
    }
}
