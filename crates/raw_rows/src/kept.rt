//! Rows that are kept as raw lines.
ghost use Rattle.raw_rows.specs.Lines.{AreEarlier, AreInOrder, AreThere, AreWhiteLines, IsFree, IsSlabSize, kept_bytes};
ghost use Rattle.std.specs.Prelude.{true, vec_capacity, vec_len, ◌*◌, ◌≡◌, ◌≤◌};

use ink_separation::Separator;

/// The rows of a slab, by their lines. Line n begins at byte `len` times n, and is the line of the rows whose index is
/// n. Lines stand in the order of the rows. There is room for one line for each row. A row is flagged as white only if
/// all bytes of its line are white.
#[derive(Drop)]
pub struct RawRows {
    pub(crate) separator: Separator,
    // Whether white pixels have no amount of any ink.
    pub(crate) white_is_free: bool,
    pub(crate) rows: u32,
    pub(crate) len: usize,
    pub(crate) bytes: Vec<u8>,
    pub(crate) index: [u16; 256],
    pub(crate) white: [bool; 256],
    ghost size: { IsSlabSize separator rows },
    ghost long: { len ≡ kept_bytes separator },
    ghost room: { rows * len ≤ vec_capacity bytes },
    ghost there: { AreThere index len (vec_len bytes) },
    ghost earlier: { AreEarlier index },
    ghost in_order: { AreInOrder index },
    ghost free: { white_is_free ≡ true → IsFree separator },
    ghost flagged: { AreWhiteLines separator.kind len bytes.items index white },
}
