//! What is wrong with the words of the spool.

/// Why a word is refused.
#[derive(Clone, Copy, Debug, PartialEq, Eq)]
pub enum SpoolCause {
    /// The word is not `key=value`.
    NotKeyValue,
    /// The spool has no such key.
    UnknownKey,
    /// The key was given before.
    RepeatedKey,
    /// The key does not take the value, or there already are as many senders as there may be.
    BadValue,
    /// No word gives a sender.
    NoSend,
}

/// The first refused word, counted from 1, and why. `NoSend` has the number after the last word.
#[derive(Clone, Copy, Debug, PartialEq, Eq)]
pub struct SpoolFault {
    pub word: u32,
    pub cause: SpoolCause,
}
