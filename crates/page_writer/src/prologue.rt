//! The commands before and after the passes of a page.
ghost use Rattle.page_definitions.specs.PageBytes.{page_coding};
ghost use Rattle.escp2_definitions.specs.declared.command.Command.TheVariants as c;
ghost use Rattle.page_definitions.specs.Strokes.{bytes_of, say};
ghost use Rattle.std.specs.Prelude.{[], vec_capacity, vec_len, ◌++◌, ◌+◌, ◌∷◌, ◌≡◌, ◌≤◌};

use crate::numbers::SheetPlaces;
use escp2_writer::{Command, append_header};

/// The bytes of the commands before the passes.
pub(crate) const PROLOGUE: u64 = 46;

/// The bytes of the commands after the passes.
pub(crate) const END: u64 = 3;

/// Appends the commands before the passes, 46 bytes.
pub fn append_prologue(sheet: SheetPlaces, out: &mut Vec<u8>)
    requires { vec_len out.old + 46 ≤ vec_capacity out.old }
    ensures items { out.new.items ≡ out.old.items ++ bytes_of page_coding.code (
        say c.Init ∷ say c.Graphics ∷ say (c.Unit 5) ∷ say (c.MicroWeave 0) ∷ say (c.OneWay 1)
        ∷ say (c.Length sheet.length) ∷ say (c.Margins sheet.top sheet.bottom) ∷ say (c.DownTo 0) ∷ []) }
    ensures len { vec_len out.new ≡ vec_len out.old + 46 }
    ensures capacity { vec_capacity out.old ≤ vec_capacity out.new }
{
    append_header(&Command::Init, out);
    append_header(&Command::Graphics, out);
    append_header(&Command::Unit { m: 5 }, out);
    append_header(&Command::MicroWeave { n: 0 }, out);
    append_header(&Command::OneWay { n: 1 }, out);
    append_header(&Command::Length { n: sheet.length }, out);
    append_header(
        &Command::Margins {
            top: sheet.top,
            bottom: sheet.bottom,
        },
        out,
    );
    append_header(&Command::DownTo { n: 0 }, out);
}

/// Appends the commands after the passes, 3 bytes.
pub fn append_end(out: &mut Vec<u8>)
    requires { vec_len out.old + 3 ≤ vec_capacity out.old }
    ensures items { out.new.items ≡ out.old.items ++ bytes_of page_coding.code (say c.Eject ∷ say c.Init ∷ []) }
    ensures len { vec_len out.new ≡ vec_len out.old + 3 }
    ensures capacity { vec_capacity out.old ≤ vec_capacity out.new }
{
    append_header(&Command::Eject, out);
    append_header(&Command::Init, out);
}
