//! The rows that wait for diffusion.
ghost use Rattle.base_definitions.specs.Limits.{most_columns};
ghost use Rattle.dot_planes.specs.Tables.{IsSize};
ghost use Rattle.ink_separation.specs.Separated.{HasLine};
ghost use Rattle.ink_separation.specs.Separators.{IsSeparatorOf};
ghost use Rattle.page_halftoner.specs.Slabs.{IsFirstSlab, IsFirstTop, IsNextSlab, TakesLine};
ghost use Rattle.printer_definitions.specs.Inks.{inks_of};
ghost use Rattle.printer_definitions.specs.Printer.{Printer};
ghost use Rattle.pwg_definitions.specs.declared.pages.Kind.{Kind};
ghost use Rattle.raw_rows.specs.Lines.{kept_bytes};
ghost use Rattle.raw_rows.specs.Raw.{table_of as amounts_of};
ghost use Rattle.separation_definitions.specs.declared.window.Window.{Window};
ghost use Rattle.std.specs.Prelude.{IfOk, length, true, ℕ, ◌%◌, ◌+◌, ◌<◌, ◌≡◌, ◌≤◌};

use base_definitions::Memory;
use ink_separation::Separator;
use raw_rows::RawRows;
use std::alloc::Global;
use tile_border::TopEdges;
use tile_shape::Shape;

// How many rows of a window are diffused together, while as many are left.
const SLAB_ROWS: u32 = 256;

/// Room for the first rows of a separator's window.
pub(crate) fn first_slab(alloc: Global, separator: Separator) -> Result<RawRows, Memory>
    requires { let w = separator.window in IsSize w.width w.height (length (inks_of separator.inks)) }
    ensures separator { IfOk result (λ slab. slab.separator ≡ separator) }
    ensures slab { let w = separator.window in
        IfOk result (λ slab. IsFirstSlab w.width w.height (length (inks_of separator.inks)) (amounts_of slab)) }
{
    let rows = separator.window().height.min(SLAB_ROWS);
    let slab = RawRows::make(alloc, separator, rows)?;
    Ok(slab)
}

/// The errors above the first rows of a window: all are 0.
pub(crate) fn first_top(alloc: Global, width: u32, inks: u8) -> Result<TopEdges, Memory>
    requires some_columns { 1 ≤ width }
    requires most_columns { width ≤ most_columns }
    requires some_inks { 1 ≤ inks }
    requires most_inks { inks ≤ 4 }
    ensures { IfOk result (IsFirstTop width inks) }
{
    let across = Shape { width, height: 1 };
    let top = TopEdges::zero(alloc, across.columns(), inks)?;
    Ok(top)
}

/// Room for the next rows, if `left` rows are left.
pub(crate) fn next_slab(slab: &mut RawRows, left: u32)
    ensures rows { IsNextSlab left (amounts_of slab.old) (amounts_of slab.new) }
    ensures separator { slab.new.separator ≡ slab.old.separator }
{
    if 0 < left && left < slab.rows() {
        slab.shorten(left);
    }
}

/// Puts a line of a page into row y of a slab. `again` if the row above has the same line.
pub(crate) fn put_line(line: &[u8], again: bool, y: u32, slab: &mut RawRows)
    requires line { kept_bytes slab.old.separator ≤ length line.now }
    requires y { y < slab.old.rows }
    ensures rows { slab.new.rows ≡ slab.old.rows }
    ensures separator { slab.new.separator ≡ slab.old.separator }
    ensures takes { (p : Printer) (kind : Kind) (w : Window) → IsSeparatorOf p kind w slab.old.separator
        → (again ≡ true → (n : ℕ) → y ≡ n + 1 → HasLine p kind line.now w n (amounts_of slab.old))
        → TakesLine p kind line.now w y (amounts_of slab.old) (amounts_of slab.new) }
{
    if again && 0 < y {
        slab.repeat_line(y);
    } else {
        slab.put_line(y, line);
    }
}
