//! The keys of the spool, and the values that each of them takes.
ghost use Rattle.std.specs.Prelude.{◌≡◌};

use crate::faults::SpoolCause;
use crate::values::{grain_value, is_name, kernel_named, lists_names, worker_count};

// The most senders of a run.
const MOST_SENDERS: u32 = 8;

/// A key of the spool.
#[derive(Clone, Copy)]
pub enum KeyName {
    Profile,
    Kernel,
    Grain,
    Workers,
    Send,
}

impl KeyName {
    ghost use Rattle.spool_words.specs.Keys.{key_named};
    ghost use Rattle.spool_words.specs.Rows.{key_row};
    ghost use Rattle.std.specs.Option.{option_map};

    /// The key of this name.
    pub fn named(name: &str) -> Option<KeyName>
        ensures { option_map key_row result ≡ key_named name.now }
    {
        match name {
            "profile" => Some(KeyName::Profile),
            "kernel" => Some(KeyName::Kernel),
            "grain" => Some(KeyName::Grain),
            "workers" => Some(KeyName::Workers),
            "send" => Some(KeyName::Send),
            _ => None,
        }
    }

    /// The key as a word writes it.
    pub fn name(self) -> &'static str
        ensures { result.now ≡ (key_row self).row.name }
    {
        match self {
            KeyName::Profile => "profile",
            KeyName::Kernel => "kernel",
            KeyName::Grain => "grain",
            KeyName::Workers => "workers",
            KeyName::Send => "send",
        }
    }

    /// How many words may give the key.
    pub fn most(self) -> u32
        ensures { result ≡ (key_row self).most }
    {
        match self {
            KeyName::Send => MOST_SENDERS,
            _ => 1,
        }
    }

    /// The cause for which a word is refused that gives the key once too often.
    pub fn excess(self) -> SpoolCause
        ensures { result ≡ (key_row self).excess }
    {
        match self {
            KeyName::Send => SpoolCause::BadValue,
            _ => SpoolCause::RepeatedKey,
        }
    }

    /// Whether the key takes the value.
    pub fn takes(self, value: &str) -> bool
        ensures { result ≡ (key_row self).row.takes value.now }
    {
        match self {
            KeyName::Profile => is_name(value),
            KeyName::Kernel => kernel_named(value).is_some(),
            KeyName::Grain => grain_value(value).is_some(),
            KeyName::Workers => worker_count(value).is_some(),
            KeyName::Send => lists_names(value),
        }
    }
}
