//! The results of a reader of lines.
use pwg_definitions::LineFault;

/// What a call of `LineReader::feed` found.
#[derive(Clone, Copy, Debug, PartialEq, Eq)]
pub enum Fill {
    /// The piece ends before the group does.
    More,
    /// A group is read. `LineReader::line` returns its line, which is repeated `repeats` times, 1 to 256.
    Line { repeats: u32 },
    /// The group is refused, and with it the rest of the page.
    Fault(LineFault),
}

/// How much of a piece was used, and what was found.
#[derive(Clone, Copy, Debug, PartialEq, Eq)]
pub struct Fed {
    /// The length of the prefix of the piece that was used.
    pub used: usize,
    pub state: Fill,
}
