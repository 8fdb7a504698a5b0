//! Why a reader of pages stops.
ghost use Rattle.pwg_stream.specs.declared.stops.StreamStop.TheVariants as stop;
ghost use Rattle.std.specs.Prelude.{◌≡◌};

use pwg_definitions::InputCause;
use weave_base::{Failed, Memory};

/// Why a reader of pages stops.
#[derive(Clone, Copy, Debug, PartialEq, Eq)]
pub enum StreamStop {
    /// The stream has a fault here. Pages and lines are counted from 1; page 0 is the sync word, line 0 a page's
    /// header.
    Input {
        page: u32,
        line: u32,
        cause: InputCause,
    },
    /// A read failed.
    Read,
    /// Memory ran out.
    Memory,
}

impl From<Failed> for StreamStop {
    ghost from_gives = { λ _ e. e ≡ stop.Read };

    fn from(_failed: Failed) -> StreamStop {
        StreamStop::Read
    }
}

impl From<Memory> for StreamStop {
    ghost from_gives = { λ _ e. e ≡ stop.Memory };

    fn from(_memory: Memory) -> StreamStop {
        StreamStop::Memory
    }
}
