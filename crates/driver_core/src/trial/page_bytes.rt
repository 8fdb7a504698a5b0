//! The bytes of one page's job, in memory.
ghost use Rattle.std.specs.Prelude.{[], ◌≡◌};

use std::alloc::Global;
use weave_base::{Failed, Sink};

/// A sink in memory that grows as bytes come. A write fails only if memory runs out.
#[derive(Drop)]
pub struct PageBytes {
    bytes: Vec<u8>,
    faults: u64,
}

impl PageBytes {
    /// No bytes.
    pub fn new(alloc: Global) -> PageBytes
        ensures { result.bytes.items ≡ [] }
    {
        PageBytes {
            bytes: Vec::new(alloc),
            faults: 0,
        }
    }

    /// The bytes.
    pub fn bytes(&self) -> &[u8]
        ensures { result.now ≡ self.now.bytes.items }
    {
        &self.bytes
    }

    /// Drops the bytes, and keeps their memory.
    pub fn clear(&mut self)
        ensures { self.new.bytes.items ≡ [] }
    {
        self.bytes.clear();
    }
}

impl Sink for PageBytes {
    ghost use Rattle.std.specs.Prelude.{Some};

    ghost held = { λ s. Some s.bytes.items };

    ghost faults = { λ s. s.faults };

    fn write(&mut self, piece: &[u8]) -> Result<usize, Failed> {
        match self.bytes.extend_from_slice(piece) {
            Ok(()) => Ok(piece.len()),
            Err(_) => {
                self.faults = self.faults.saturating_add(1);
                Err(Failed)
            }
        }
    }
}
