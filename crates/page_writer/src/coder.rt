//! Workers that code pieces.
use crate::coded::Piece;
use crate::coding::code_strokes;
use crate::page_strokes::Strokes;
use worker_team::Share;

/// A piece, and the page of its strokes.
#[derive(Drop)]
pub(crate) struct Coder<'a, S> {
    pub(crate) page: &'a S,
    pub(crate) piece: Piece,
}

impl<'a, S: Strokes> Share for Coder<'a, S> {
    ghost use Rattle.page_writer.specs.Pieces.{CodesPiece, IsReady};
    ghost use Rattle.std.specs.Prelude.{◌≡◌};

    ghost ready = { λ coder. IsReady (S.page coder.page.now) coder.piece };

    ghost does = { λ before after. (S.page after.page.now ≡ S.page before.page.now)
        × CodesPiece (S.page before.page.now) before.piece after.piece };

    /// Codes its piece.
    fn work(&mut self) {
        let Piece {
            first,
            end,
            strokes,
        } = &mut self.piece;
        code_strokes(self.page, *first, *end, strokes.as_mut_slice());
    }
}
