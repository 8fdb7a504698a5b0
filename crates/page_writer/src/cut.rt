//! How the strokes of a page are cut into pieces.

/// How a batch is cut: the number of pieces, and the number of strokes in each.
#[derive(Clone, Copy)]
pub(crate) struct BatchCut {
    pub(crate) pieces: u32,
    pub(crate) each: u32,
}
