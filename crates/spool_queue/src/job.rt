//! What goes through the spool.
ghost use Rattle.std.specs.Prelude.{List, ◌≡◌, ℕ};

use std::marker::Model;

/// The bytes of a page stream (PWG 5102.4), not looked at. Contracts see their list.
#[derive(Drop)]
pub struct StreamBytes {
    bytes: Vec<u8>,
}

impl Model for StreamBytes {
    ghost Value = { List ℕ };

    ghost view = { λ s. s.bytes.items };
}

impl StreamBytes {
    /// The stream of these bytes.
    pub fn new(bytes: Vec<u8>) -> StreamBytes
        ensures { result ≡ bytes.items }
    {
        StreamBytes { bytes }
    }

    /// The bytes, lent.
    pub fn as_slice(&self) -> &[u8]
        ensures { result.now ≡ self.now }
    {
        self.bytes.as_slice()
    }
}

/// A stream to be printed, and its sender.
#[derive(Drop)]
pub struct SpoolJob {
    /// The sender: 1 to 8.
    pub sender: u8,
    /// The number of this job among its sender's jobs, counted from 1.
    pub number: u32,
    pub stream: StreamBytes,
}
