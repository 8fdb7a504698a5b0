//! Where texts are found by their names.
use std::alloc::Global;

/// What a shelf has for a name.
#[derive(Debug, PartialEq, Eq, Drop)]
pub enum Found {
    /// The whole text.
    Text(Vec<u8>),
    /// No text has the name.
    Absent,
    /// The text has more bytes than were asked for.
    TooLong,
}

/// Why a read of a shelf fails.
#[derive(Clone, Copy, Debug, PartialEq, Eq)]
pub enum ShelfStop {
    /// The shelf failed, and counts its faults.
    Failed,
    /// The allocator refused memory.
    Memory,
}

/// Texts by their names.
pub trait Shelf {
    ghost use Rattle.std.specs.Prelude.{IfOk, List, Option, ℕ, ◌≡◌};
    ghost use Rattle.weave_base.specs.Shelf.{Finds, IsWithin, NamedText, StopHasCause};

    /// The texts, or `None` if the shelf does not show what it holds. If two texts have one name, the first counts.
    ghost files: { Self → Option (List NamedText) };

    /// How many reads failed. The count never falls, and saturates at the greatest value of 64 bits.
    ghost faults: { Self → ℕ };

    /// Returns a copy of the text of this name, if the text has at most `most` bytes.
    ///
    /// `ShelfStop::Failed` comes only if the count of faults rose. After either stop the shelf may be asked again.
    fn read_text(&mut self, alloc: Global, name: &str, most: usize) -> Result<Found, ShelfStop>
        ensures within { IfOk result (IsWithin most) }
        ensures found { IfOk result (Finds (files self.old) name.now most) }
        ensures cause { StopHasCause (faults self.old) (faults self.new) result }
        ensures stay { files self.new ≡ files self.old };
}
