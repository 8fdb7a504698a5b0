//! Rows of amounts of a window.
ghost use Rattle.std.specs.Prelude.{IfSome, ◌≡◌};

use dot_planes::InkRows;
use plain_diffusion::{Amounts, amount_at};
use std::alloc::Global;

/// The amounts of an ink: this one everywhere, or amounts that vary from pixel to pixel.
pub(crate) fn fill_of(all: Option<u8>, ink: u8) -> Amounts {
    match all {
        Some(amount) => Amounts::All(amount),
        None => Amounts::Mixed(ink),
    }
}

/// `height` rows of a window from row `first` on, of one amount or of varied ones.
pub(crate) fn amounts(
    alloc: Global,
    all: Option<u8>,
    width: u32,
    inks: u8,
    first: u32,
    height: u32,
) -> Option<InkRows>
    ensures width { IfSome result (λ rows. rows.width ≡ width) }
    ensures rows { IfSome result (λ rows. rows.rows ≡ height) }
    ensures inks { IfSome result (λ rows. rows.inks ≡ inks) }
{
    if width < 1 || width > 200 || height < 1 || height > 300 || inks < 1 || inks > 4 {
        return None;
    }
    let Ok(mut rows) = InkRows::make(alloc, width, height, inks) else {
        return None;
    };
    for i in 0..inks {
        for y in 0..height {
            set_row(&mut rows, fill_of(all, i), i, first, y);
        }
    }
    Some(rows)
}

fn set_row(rows: &mut InkRows, fill: Amounts, i: u8, first: u32, y: u32)
    ensures width { rows.new.width ≡ rows.old.width }
    ensures rows { rows.new.rows ≡ rows.old.rows }
    ensures inks { rows.new.inks ≡ rows.old.inks }
{
    for x in 0..rows.width() {
        if i < rows.inks() && y < rows.rows() && x < rows.width() {
            rows.set(i, x, y, amount_at(fill, x, first.wrapping_add(y)));
        }
    }
}
