//! Room for the code of two batches of pieces, which is taken before the first byte.
ghost use Rattle.page_writer.specs.Pieces.{Each, HaveRoom, IsCut, IsRoomy};
ghost use Rattle.page_writer.specs.Sums.{most_of_pass};
ghost use Rattle.std.specs.Prelude.{IfOk, IfSome, length, vec_capacity, ◌≡◌, ◌≤◌};

use crate::coded::{Coded, Piece};
use crate::coder::Coder;
use crate::cut::BatchCut;
use crate::page_strokes::Strokes;
use base_definitions::Memory;
use std::alloc::Global;

// The most bytes of room for the code of pieces.
const MOST_ROOM: u64 = 8 << 20;

// How many strokes a page has at least for each worker that codes them.
const LEAST_STROKES: u32 = 4;

// In how many batches the strokes of a page are coded, where there is room.
const BATCHES: u64 = 4;

/// How `count` strokes of at most `most` bytes each are cut for these workers. `None` if one worker does as well: there
/// are few strokes, or no room for two strokes at once.
pub(crate) fn cut(workers: u8, count: u32, most: u64) -> Option<BatchCut>
    requires most { 1 ≤ most }
    requires workers { workers ≤ 64 }
    ensures { IfSome result (IsCut most) }
{
    let room = MOST_ROOM / 2 / most;
    let pieces = u64::from(workers)
        .min(room)
        .min(u64::from(count / LEAST_STROKES));
    if pieces < 2 {
        return None;
    }
    let wanted = u64::from(count) / (BATCHES * pieces);
    let each = wanted.max(1).min(room / pieces);
    Some(BatchCut {
        pieces: pieces as u32,
        each: each as u32,
    })
}

/// Room for the code of two batches, of `each` strokes for a piece.
#[derive(Drop)]
pub(crate) struct Batches<'a, S> {
    pub(crate) each: u32,
    pub(crate) ahead: Vec<Coder<'a, S>>,
    pub(crate) behind: Vec<Coder<'a, S>>,
}

impl Coded {
    /// Room for the code of a stroke of at most `most` bytes.
    pub(crate) fn make(alloc: Global, most: usize) -> Result<Coded, Memory>
        ensures { IfOk result (λ coded. most ≤ vec_capacity coded.code) }
    {
        let code = Vec::with_capacity(alloc, most)?;
        Ok(Coded { code, rasters: 0 })
    }
}

// A piece with room for so many strokes, of so many bytes each.
fn make_piece(alloc: Global, each: u32, most: usize) -> Result<Piece, Memory>
    ensures many { IfOk result (λ piece. length piece.strokes.items ≡ each) }
    ensures room { IfOk result (λ piece. Each (λ k coded. most ≤ vec_capacity coded.code) piece.strokes.items) }
{
    let mut strokes = Vec::with_capacity(alloc, each as usize)?;
    'strokes: for _ in 0..each {
        strokes.push_reserved(Coded::make(alloc, most)?);
    }
    Ok(Piece {
        first: 0,
        end: 0,
        strokes,
    })
}

// A coder for each piece of a batch.
fn make_coders<'a, S: Strokes>(
    alloc: Global,
    page: &'a S,
    cut: BatchCut,
    most: usize,
) -> Result<Vec<Coder<'a, S>>, Memory>
    requires { most_of_pass (S.page page.now).p (S.page page.now).t.width ≤ most }
    ensures many { IfOk result (λ coders. length coders.items ≡ cut.pieces) }
    ensures room { IfOk result (λ coders.
        Each (λ k coder. IsRoomy (S.page page.now) cut.each (S.page coder.page.now) coder.piece) coders.items) }
{
    let mut coders = Vec::with_capacity(alloc, cut.pieces as usize)?;
    'pieces: for _ in 0..cut.pieces {
        let piece = make_piece(alloc, cut.each, most)?;
        coders.push_reserved(Coder { page, piece });
    }
    Ok(coders)
}

impl<'a, S: Strokes> Batches<'a, S> {
    /// Room for two batches that are cut in this way, of strokes of at most `most` bytes each.
    pub(crate) fn make(
        alloc: Global,
        page: &'a S,
        cut: BatchCut,
        most: usize,
    ) -> Result<Batches<'a, S>, Memory>
        requires cut { IsCut most cut }
        requires most { most_of_pass (S.page page.now).p (S.page page.now).t.width ≤ most }
        ensures { IfOk result (HaveRoom (λ it. S.page it) (S.page page.now)) }
    {
        let ahead = make_coders(alloc, page, cut, most)?;
        let behind = make_coders(alloc, page, cut, most)?;
        Ok(Batches {
            each: cut.each,
            ahead,
            behind,
        })
    }
}
