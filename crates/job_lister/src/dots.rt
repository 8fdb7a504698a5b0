//! Counting the dots of a raster.
ghost use Rattle.escp2_definitions.specs.Commands.{in_table, rows_len};
ghost use Rattle.base_definitions.specs.Limits.{most_row_bytes};
ghost use Rattle.base_definitions.specs.Packed.{bits};
ghost use Rattle.escp2_definitions.specs.declared.command.Command.TheVariants as command;
ghost use Rattle.job_lister.specs.Listing.{dot_count};
ghost use Rattle.std.specs.Prelude.{count_by, length, take, true, ◌*◌, ◌≡◌, ◌≤◌};

use crate::counting::count_dots;
use escp2_definitions::RasterHead;

// How many of the first bits of a row are 1.
#[inline]
fn row_dots(columns: usize, row: &[u8]) -> u32
    requires columns { columns ≤ 8 * length row.now }
    requires row { length row.now ≤ most_row_bytes }
    ensures is { result ≡ count_by (λ on. on) (take columns (bits row.now)) }
    ensures most { result ≤ 8 * most_row_bytes }
{
    let whole = columns / 8;
    let rest = columns % 8;
    let sum = count_dots(&row[..whole]);
    if rest == 0 {
        return sum;
    }
    sum + (row[whole] >> (8 - rest)).count_ones()
}

// How many dots the rows of a raster have, row by row.
fn dots_by_row(header: &RasterHead, rows: &[u8]) -> u32
    requires in_range { in_table (command.Raster header.now) ≡ true }
    requires rows_fit { length rows.now ≡ rows_len (command.Raster header.now) }
    ensures { result ≡ dot_count header.now rows.now }
{
    let columns = usize::from(header.n);
    let width = (columns + 7) / 8;
    let mut sum = 0;
    for i in 0..header.m {
        let start = usize::from(i) * width;
        sum += row_dots(columns, &rows[start..start + width]);
    }
    sum
}

/// How many dots the rows of a raster have. Bits past its last column are not dots.
pub fn raster_dots(header: &RasterHead, rows: &[u8]) -> u32
    requires in_range { in_table (command.Raster header.now) ≡ true }
    requires rows_fit { length rows.now ≡ rows_len (command.Raster header.now) }
    ensures { result ≡ dot_count header.now rows.now }
{
    // rows without spare bits are one stretch of dots
    if header.n % 8 == 0 {
        let stretch = usize::from(header.m) * usize::from(header.n / 8);
        return count_dots(&rows[..stretch]);
    }
    dots_by_row(header, rows)
}
