//! The commands, and the keys that each of them takes.
ghost use Rattle.std.specs.Prelude.{◌≡◌};

use crate::keys::JobKey;

/// A command.
#[derive(Clone, Copy, Debug, PartialEq, Eq)]
pub enum Verb {
    /// Prints the pages of a stream.
    Print,
    /// Shows the dots of a job as images.
    Dots,
    /// Lists the commands of a job.
    List,
    /// Shows a profile.
    Profile,
    /// Prints made pages into memory, and sums up what their bytes put on the sheets.
    Trial,
}

impl Verb {
    ghost use Rattle.std.specs.Option.{option_map};
    ghost use Rattle.job_words.specs.Rows.{command_row, key_row};
    ghost use Rattle.job_words.specs.Table.{command_named, key_named};

    // The command of this name.
    pub(crate) fn named(name: &str) -> Option<Verb>
        ensures { option_map command_row result ≡ command_named name.now }
    {
        match name {
            "print" => Some(Verb::Print),
            "dots" => Some(Verb::Dots),
            "list" => Some(Verb::List),
            "profile" => Some(Verb::Profile),
            "trial" => Some(Verb::Trial),
            _ => None,
        }
    }

    // The command's key of this name.
    pub(crate) fn key(self, name: &str) -> Option<JobKey>
        ensures { option_map key_row result ≡ key_named (command_row self).keys name.now }
    {
        match (self, name) {
            (Verb::Print | Verb::Dots | Verb::Profile | Verb::Trial, "profile") => Some(
                JobKey::Profile,
            ),
            (Verb::Print | Verb::Trial, "kernel") => Some(JobKey::Kernel),
            (Verb::Print | Verb::Trial, "grain") => Some(JobKey::Grain),
            (Verb::Print | Verb::Trial, "workers") => Some(JobKey::Workers),
            (Verb::Print, "cap") => Some(JobKey::Cap),
            (Verb::Dots | Verb::List, "most") => Some(JobKey::Most),
            (Verb::Print | Verb::Trial, "shingle") => Some(JobKey::Shingle),
            (Verb::Print | Verb::Trial, "dead") => Some(JobKey::Dead),
            (Verb::Trial, "seed") => Some(JobKey::Seed),
            (Verb::Trial, "pages") => Some(JobKey::Pages),
            (Verb::Trial, "width") => Some(JobKey::Width),
            (Verb::Trial, "height") => Some(JobKey::Height),
            (Verb::Trial, "kind") => Some(JobKey::Kind),
            _ => None,
        }
    }
}
