//! Laws of commands and jobs, each the contract of an empty function.
ghost use Rattle.escp2_laws.specs.Coded.{HasCoding};
ghost use Rattle.escp2_laws.specs.Said.{AllSaid, Said, entries_of, said_bytes};
ghost use Rattle.escp2_definitions.specs.Commands.{Spells, command_at, commands, in_table, rows_len};
ghost use Rattle.escp2_definitions.specs.Written.{Coding, IsCoding, written};
ghost use Rattle.escp2_definitions.specs.Commands.Heard.{One};
ghost use Rattle.escp2_definitions.specs.Commands.ListEnd.{Whole};
ghost use Rattle.escp2_definitions.specs.declared.command.Command.{Command};
ghost use Rattle.std.specs.Prelude.{List, [], length, ℕ, true, ◌++◌, ◌≡◌};

/// A spelled command is read back, with its rows, whatever follows.
pub fn spelled_is_read()
    ensures { (command : Command) (rows bytes rest : List ℕ) → Spells command rows bytes
        → command_at (bytes ++ rest) ≡ One command rows (length bytes) }
{}

/// No spelling of a command is a proper prefix of another spelling.
pub fn no_spelling_begins_another()
    ensures { (one other : Command) (rows other_rows bytes more : List ℕ) → Spells one rows bytes
        → Spells other other_rows (bytes ++ more) → more ≡ [] }
{}

/// The written bytes of a command of the table and its rows spell both, if the `c` of the command is that of the
/// coding.
pub fn written_is_spelled()
    ensures { (coding : Coding) (command : Command) (rows : List ℕ) → IsCoding coding → HasCoding coding command
        → in_table command ≡ true → length rows ≡ rows_len command
        → Spells command rows (written coding.code command rows) }
{}

/// Spelled commands, one after another, are read as a whole job of these commands.
pub fn job_is_its_commands()
    ensures { (job : List Said) → AllSaid job
        → commands (said_bytes job) ≡ record { entries = entries_of 0 job; end = Whole } }
{}
