//! What is wrong with a command line.

/// Why a word is refused.
#[derive(Clone, Copy, Debug, PartialEq, Eq)]
pub enum UsageCause {
    /// There is no word.
    NoCommand,
    /// The first word is not a command.
    UnknownCommand,
    /// The word is not `key=value`.
    NotKeyValue,
    /// The command has no such key.
    UnknownKey,
    /// The key was given before.
    RepeatedKey,
    /// The key does not take the value.
    BadValue,
    /// The word and an earlier one exclude each other: one asks for shingled passes, the other lists dead nozzles.
    Together,
}

/// The first refused word, counted from 1, and why.
#[derive(Clone, Copy, Debug, PartialEq, Eq)]
pub struct UsageFault {
    pub word: u32,
    pub cause: UsageCause,
}
