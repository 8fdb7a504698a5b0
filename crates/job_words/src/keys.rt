//! The keys of all commands, and the values that each of them takes.
ghost use Rattle.std.specs.Prelude.{◌≡◌};

use crate::dead_lists::dead_value;
use crate::values::{
    cap_value, grain_value, height_value, is_profile_name, kernel_named, kind_named, most_value,
    page_count, seed_value, shingle_value, width_value, worker_count,
};

/// A key of some command.
#[derive(Clone, Copy)]
pub enum JobKey {
    Profile,
    Kernel,
    Grain,
    Workers,
    Cap,
    Most,
    Shingle,
    Dead,
    Seed,
    Pages,
    Width,
    Height,
    Kind,
}

impl JobKey {
    ghost use Rattle.job_words.specs.Rows.{key_row};

    /// The key as a word writes it.
    pub fn name(self) -> &'static str
        ensures { result.now ≡ (key_row self).name }
    {
        match self {
            JobKey::Profile => "profile",
            JobKey::Kernel => "kernel",
            JobKey::Grain => "grain",
            JobKey::Workers => "workers",
            JobKey::Cap => "cap",
            JobKey::Most => "most",
            JobKey::Shingle => "shingle",
            JobKey::Dead => "dead",
            JobKey::Seed => "seed",
            JobKey::Pages => "pages",
            JobKey::Width => "width",
            JobKey::Height => "height",
            JobKey::Kind => "kind",
        }
    }

    /// Whether the key takes the value.
    pub fn takes(self, value: &str) -> bool
        ensures { result ≡ (key_row self).takes value.now }
    {
        match self {
            JobKey::Profile => is_profile_name(value),
            JobKey::Kernel => kernel_named(value).is_some(),
            JobKey::Grain => grain_value(value).is_some(),
            JobKey::Workers => worker_count(value).is_some(),
            JobKey::Cap => cap_value(value).is_some(),
            JobKey::Most => most_value(value).is_some(),
            JobKey::Shingle => shingle_value(value).is_some(),
            JobKey::Dead => dead_value(value).is_some(),
            JobKey::Seed => seed_value(value).is_some(),
            JobKey::Pages => page_count(value).is_some(),
            JobKey::Width => width_value(value).is_some(),
            JobKey::Height => height_value(value).is_some(),
            JobKey::Kind => kind_named(value).is_some(),
        }
    }
}
