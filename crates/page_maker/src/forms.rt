//! The forms of made pages.
ghost use Rattle.base_definitions.specs.Limits.{most_columns};
ghost use Rattle.page_maker.specs.Made.{made_form};
ghost use Rattle.std.specs.Prelude.{◌≡◌, ◌≤◌};

use pwg_header::{Kind, PageForm};

/// The form of a page of this size: its lines are as long as its width takes.
pub fn made_form(width: u32, height: u32, kind: Kind) -> PageForm
    requires { width ≤ most_columns }
    ensures { result ≡ made_form width height kind }
{
    PageForm {
        width,
        height,
        kind,
        bytes_per_line: kind.line_bytes(width as usize) as u32,
    }
}
