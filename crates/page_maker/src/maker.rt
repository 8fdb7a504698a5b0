//! A made stream as a source.
ghost use Rattle.page_maker.specs.Pieces.{left_of, most_bytes, pieces_form};
ghost use Rattle.std.specs.Io.{ReadsAtMost};
ghost use Rattle.std.specs.Io.KnownBytes.{ReadConsumes};
ghost use Rattle.std.specs.Prelude.{IsOk, Some, [], drop, vec_capacity, vec_len, ◌++◌, ◌≡◌, ◌≤◌};
ghost use Rattle.weave_base.specs.Causes.{HasCause};

use crate::pieces::Pieces;
use base_definitions::Memory;
use pwg_header::{HEADER_LEN, PageForm};
use std::alloc::Global;
use std::marker::Model;
use weave_base::{Failed, Source};

/// A made stream as a source. It keeps one line and one piece of the stream: the sync word, a header or a group.
/// Contracts see the bytes that are left. No read fails.
#[derive(Drop)]
pub struct PageMaker {
    pieces: Pieces,
    piece: Vec<u8>,
    // how many bytes of the piece were read
    given: usize,
}

impl Model for PageMaker {
    ghost use Rattle.page_maker.specs.Pieces.{left_of, most_bytes, pieces_form};
    ghost use Rattle.std.specs.Prelude.{List, drop, vec_capacity, vec_len, ℕ, ◌++◌, ◌≤◌};

    ghost Value = { List ℕ };

    ghost view = { λ m. drop m.given m.piece.items ++ left_of m.pieces };

    ghost invariant = { λ m.
        (m.given ≤ vec_len m.piece) × (most_bytes (pieces_form m.pieces) ≤ vec_capacity m.piece) };
}

impl PageMaker {
    ghost use Rattle.page_maker.specs.Made.{made_stream};
    ghost use Rattle.pwg_definitions.specs.Header.{line_bytes, row_of};
    ghost use Rattle.std.specs.Prelude.{IfOk};

    /// A source of the stream that is made from a seed: pages of this form, at a resolution in dots an inch. It
    /// allocates the bytes of a line and of the longest piece. No other call allocates memory.
    pub fn make(
        alloc: Global,
        seed: u32,
        pages: u8,
        form: PageForm,
        hdpi: u32,
        vdpi: u32,
    ) -> Result<PageMaker, Memory>
        requires { form.bytes_per_line ≡ line_bytes form.width (row_of form.kind).bits_per_pixel }
        ensures { IfOk result (λ maker. maker ≡ made_stream seed pages form hdpi vdpi) }
    {
        let pieces = Pieces::begin(alloc, seed, pages, form, hdpi, vdpi)?;
        let most = HEADER_LEN.max(1 + 2 * form.bytes_per_line as usize);
        let mut piece = Vec::with_capacity(alloc, most)?;
        piece.extend_from_slice(b"RaS2")?;
        Ok(PageMaker {
            pieces,
            piece,
            given: 0,
        })
    }
}

// Makes the next piece, where all of the last one was read and more are to come.
fn refill(pieces: &mut Pieces, piece: &mut Vec<u8>, given: &mut usize)
    requires within { given.old ≤ vec_len piece.old }
    requires room { most_bytes (pieces_form pieces.old) ≤ vec_capacity piece.old }
    ensures left { drop given.new piece.new.items ++ left_of pieces.new
        ≡ drop given.old piece.old.items ++ left_of pieces.old }
    ensures within { given.new ≤ vec_len piece.new }
    ensures room { most_bytes (pieces_form pieces.new) ≤ vec_capacity piece.new }
    ensures end { vec_len piece.new ≤ given.new → left_of pieces.new ≡ [] }
{
    if *given < piece.len() || pieces.is_done() {
        return;
    }
    piece.clear();
    *given = 0;
    match pieces.put_next(piece) {
        Ok(()) => {}
        Err(_) => unreachable!(),
    }
}

impl Source for PageMaker {
    ghost left = { λ m. Some m };

    ghost faults = { λ m. 0 };

    fn read(&mut self, buf: &mut [u8]) -> Result<usize, Failed>
        ensures bound { ReadsAtMost result buf.new }
        ensures bytes { ReadConsumes (Some self.old) (Some self.new) result buf.new }
        ensures cause { HasCause 0 0 result }
        ensures ok { IsOk result }
    {
        refill(&mut self.pieces, &mut self.piece, &mut self.given);
        let count = buf.len().min(self.piece.len() - self.given);
        buf[..count].copy_from_slice(&self.piece[self.given..self.given + count]);
        self.given += count;
        Ok(count)
    }
}
