//! The stream of a job as a source.
ghost use Rattle.std.specs.Io.{ReadsAtMost};
ghost use Rattle.std.specs.Io.KnownBytes.{ReadConsumes};
ghost use Rattle.std.specs.Prelude.{Some, ◌≡◌};
ghost use Rattle.weave_base.specs.Causes.{HasCause};

use spool_queue::StreamBytes;
use std::marker::Model;
use weave_base::{Failed, Source};

/// A source over a job's stream. It never fails, and has no faults. Contracts see the bytes that are left.
#[derive(Drop)]
pub struct StreamSource {
    stream: StreamBytes,
    at: usize,
}

impl Model for StreamSource {
    ghost use Rattle.std.specs.Prelude.{List, drop, length, ℕ, ◌≤◌};

    ghost Value = { List ℕ };

    ghost view = { λ s. drop s.at s.stream };

    ghost invariant = { λ s. s.at ≤ length s.stream };
}

impl StreamSource {
    /// The source of this stream, from its first byte on.
    pub fn make(stream: StreamBytes) -> StreamSource
        ensures { result ≡ stream }
    {
        StreamSource { stream, at: 0 }
    }
}

impl Source for StreamSource {
    ghost left = { λ s. Some s };

    ghost faults = { λ s. 0 };

    fn read(&mut self, buf: &mut [u8]) -> Result<usize, Failed>
        ensures bound { ReadsAtMost result buf.new }
        ensures bytes { ReadConsumes (Some self.old) (Some self.new) result buf.new }
        ensures cause { HasCause 0 0 result }
    {
        let rest = &self.stream.as_slice()[self.at..];
        let count = rest.len().min(buf.len());
        buf[..count].copy_from_slice(&rest[..count]);
        self.at += count;
        Ok(count)
    }
}
