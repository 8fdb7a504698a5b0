//! Made streams.
ghost use Rattle.base_definitions.specs.Limits.{most_columns};
ghost use Rattle.page_maker.specs.Made.{made_form, made_stream};
ghost use Rattle.page_maker.specs.Pieces.{left_of};
ghost use Rattle.pwg_definitions.specs.Stream.{sync_word};
ghost use Rattle.std.specs.Prelude.{List, OnErr, OnOk, ℕ, ◌++◌, ◌≡◌, ◌≤◌};

use crate::forms::made_form;
use crate::pieces::Pieces;
use base_definitions::Memory;
use pwg_header::Kind;

/// Appends the stream that is made from a seed: pages of this size and kind, at a resolution in dots an inch. On
/// `Memory` the output is unchanged.
pub fn make_pages(
    seed: u32,
    pages: u8,
    width: u32,
    height: u32,
    kind: Kind,
    hdpi: u32,
    vdpi: u32,
    out: &mut Vec<u8>,
) -> Result<(), Memory>
    requires { width ≤ most_columns }
    ensures ok { OnOk result
        (out.new.items ≡ out.old.items ++ made_stream seed pages (made_form width height kind) hdpi vdpi) }
    ensures err { OnErr result (out.new.items ≡ out.old.items) }
{
    let form = made_form(width, height, kind);
    let pieces = Pieces::begin(*out.allocator(), seed, pages, form, hdpi, vdpi)?;
    let before = out.len();
    let Ok(()) = put_stream(pieces, out) else {
        out.truncate(before);
        return Err(Memory);
    };
    Ok(())
}

// Appends the sync word and the pieces, or on `Err` some bytes.
fn put_stream(mut pieces: Pieces, out: &mut Vec<u8>) -> Result<(), Memory>
    ensures ok { OnOk result (out.new.items ≡ out.old.items ++ sync_word ++ left_of pieces) }
    ensures part { (part : List ℕ) × (out.new.items ≡ out.old.items ++ part) }
{
    out.extend_from_slice(b"RaS2")?;
    'pieces: while !pieces.is_done() {
        pieces.put_next(out)?;
    }
    Ok(())
}
