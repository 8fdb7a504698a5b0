//! Strokes that are coded and not yet sent.

/// The code of a stroke, and the number of its rasters. The code begins with room for the step down to the stroke; the
/// step depends on the strokes above.
#[derive(Drop)]
pub(crate) struct Coded {
    pub(crate) code: Vec<u8>,
    pub(crate) rasters: u32,
}

/// Consecutive strokes, from `first` to before `end`, and room for their code.
#[derive(Drop)]
pub(crate) struct Piece {
    pub(crate) first: u32,
    pub(crate) end: u32,
    pub(crate) strokes: Vec<Coded>,
}

/// What was sent of a page, and the row that the head is on.
#[derive(Clone, Copy)]
pub(crate) struct Sent {
    pub(crate) bytes: u64,
    pub(crate) rasters: u32,
    pub(crate) last: u32,
}

/// The strokes of a batch of pieces, from `first` on: `each` strokes for a piece, but none from `count` on.
#[derive(Clone, Copy)]
pub(crate) struct Run {
    pub(crate) first: u32,
    pub(crate) each: u32,
    pub(crate) count: u32,
}
