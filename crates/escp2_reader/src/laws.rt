//! The law of the first commands of a job, the contract of an empty function.
ghost use Rattle.escp2_definitions.specs.Commands.Heard.{One};
ghost use Rattle.escp2_definitions.specs.Commands.{Entry, command_at};
ghost use Rattle.escp2_definitions.specs.declared.command.Command.{Command};
ghost use Rattle.escp2_reader.specs.Jobs.{AreCommands};
ghost use Rattle.std.specs.Prelude.{[], length, List, ℕ, ◌++◌, ◌∷◌, ◌≡◌};

/// Zero bytes are zero commands. If some bytes are whole commands, and the bytes after them are one more, then all of
/// the bytes are these commands and the one more, at the offset of its first byte.
pub fn commands_follow()
    ensures none { AreCommands [] [] }
    ensures more { (done bytes : List ℕ) (entries : List Entry) (command : Command) (rows : List ℕ)
        → AreCommands done entries
        → ((more : List ℕ) → command_at (bytes ++ more) ≡ One command rows (length bytes))
        → AreCommands (done ++ bytes) (entries ++ record { at = length done; command = command; rows = rows } ∷ []) }
{}
