//! The keys of the finisher, and the values that each of them takes.
ghost use Rattle.std.specs.Prelude.{◌≡◌};

use crate::values::{flag_value, is_name};

/// A key of the finisher.
#[derive(Clone, Copy)]
pub enum KeyName {
    Pages,
    Progress,
    Stop,
}

impl KeyName {
    ghost use Rattle.finish_words.specs.Keys.{key_table};
    ghost use Rattle.finish_words.specs.Rows.{key_row};
    ghost use Rattle.job_words.specs.Table.{key_named};
    ghost use Rattle.std.specs.Option.{option_map};

    /// The key of this name.
    pub fn named(name: &str) -> Option<KeyName>
        ensures { option_map key_row result ≡ key_named key_table name.now }
    {
        match name {
            "pages" => Some(KeyName::Pages),
            "progress" => Some(KeyName::Progress),
            "stop" => Some(KeyName::Stop),
            _ => None,
        }
    }

    /// The key as a word writes it.
    pub fn name(self) -> &'static str
        ensures { result.now ≡ (key_row self).name }
    {
        match self {
            KeyName::Pages => "pages",
            KeyName::Progress => "progress",
            KeyName::Stop => "stop",
        }
    }

    /// Whether the key takes the value.
    pub fn takes(self, value: &str) -> bool
        ensures { result ≡ (key_row self).takes value.now }
    {
        match self {
            KeyName::Pages | KeyName::Progress => flag_value(value).is_some(),
            KeyName::Stop => is_name(value),
        }
    }
}
