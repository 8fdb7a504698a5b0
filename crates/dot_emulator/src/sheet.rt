//! Sheets with their dots.
ghost use Rattle.dot_emulator.specs.Sheets.{IsBlankFrom};
ghost use Rattle.escp2_definitions.specs.Commands.{last_column};
ghost use Rattle.std.specs.Prelude.{◌≡◌, ◌≤◌};

use dot_planes::Planes;

/// An ejected sheet. Its planes are black, cyan, magenta and yellow, each of `MOST_COLUMNS` columns, and have no dot at
/// or past column `columns`.
#[derive(Drop)]
pub struct Sheet {
    /// Rows of dots, as many as the page has.
    pub rows: u32,
    /// Columns of dots from the left margin on, up to the last one that a raster has passed.
    pub columns: u32,
    pub planes: Planes,
    ghost inks: { planes.inks ≡ 4 },
    ghost height: { planes.rows ≡ rows },
    ghost some: { 1 ≤ columns },
    ghost most: { columns ≤ last_column },
    ghost width: { planes.width ≡ last_column },
    ghost blank: { IsBlankFrom columns planes },
}
