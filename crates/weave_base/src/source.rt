//! Where bytes come from.
ghost use Rattle.std.specs.Io.{ReadsAtMost};
ghost use Rattle.std.specs.Io.KnownBytes.{ReadConsumes};
ghost use Rattle.std.specs.Prelude.{List, Option, ℕ};
ghost use Rattle.weave_base.specs.Causes.{HasCause};

use crate::Failed;

/// Gives bytes, the first ones first.
pub trait Source {
    /// The bytes that are left, or `None` if the source does not show what it holds.
    ghost left: { Self → Option (List ℕ) };

    /// How many reads failed. The count never falls, and saturates at the greatest value of 64 bits.
    ghost faults: { Self → ℕ };

    /// Reads the next bytes into the beginning of `buf` and returns their number. The rest of `buf` is unspecified.
    ///
    /// If `buf` is not empty, the number is 0 only at the end. `Err` takes no byte, and comes only if the count of
    /// faults rose. The source may then be read again.
    fn read(&mut self, buf: &mut [u8]) -> Result<usize, Failed>
        ensures bound { ReadsAtMost result buf.new }
        ensures bytes { ReadConsumes (left self.old) (left self.new) result buf.new }
        ensures cause { HasCause (faults self.old) (faults self.new) result };
}
