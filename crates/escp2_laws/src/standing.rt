//! Later bytes do not change what was read of a command. Each law is the contract of an empty function.
ghost use Rattle.escp2_definitions.specs.Commands.Heard.{One, Part, Wrong};
ghost use Rattle.escp2_definitions.specs.Commands.ListEnd.{Fault};
ghost use Rattle.escp2_definitions.specs.Commands.{Spells, command_at, commands};
ghost use Rattle.escp2_definitions.specs.Rasters.{ink_rasters};
ghost use Rattle.escp2_definitions.specs.declared.command.Command.{Command};
ghost use Rattle.escp2_definitions.specs.declared.stops.JobCause.{JobCause};
ghost use Rattle.printer_definitions.specs.declared.inks.Ink.{Ink};
ghost use Rattle.std.specs.Prelude.{List, length, slice_index, take, ℕ, ◌++◌, ◌+◌, ◌<◌, ◌≡◌, ◌≤◌};

/// If bytes are read as a whole command, the bytes up to its length spell the command and its rows.
pub fn heard_is_spelled()
    ensures within { (bytes rows : List ℕ) (command : Command) (len : ℕ) → command_at bytes ≡ One command rows len
        → len ≤ length bytes }
    ensures spelled { (bytes rows : List ℕ) (command : Command) (len : ℕ) → ((k : ℕ) → slice_index bytes k < 256)
        → command_at bytes ≡ One command rows len → Spells command rows (take len bytes) }
{}

/// A whole command is read from its own bytes, whatever follows.
pub fn a_command_stands()
    ensures { (bytes rest rows : List ℕ) (command : Command) (len : ℕ) → command_at bytes ≡ One command rows len
        → command_at (take len bytes ++ rest) ≡ One command rows len }
{}

/// A fault has a place. The bytes before the place are less than a whole command. With the byte at the place, and at
/// most one more, the fault is read, whatever follows.
pub fn a_fault_stands()
    ensures within { (bytes : List ℕ) (at : ℕ) (cause : JobCause) → command_at bytes ≡ Wrong at cause
        → at < length bytes }
    ensures before { (bytes : List ℕ) (at : ℕ) (cause : JobCause) → command_at bytes ≡ Wrong at cause
        → command_at (take at bytes) ≡ Part }
    ensures stands { (bytes rest : List ℕ) (at : ℕ) (cause : JobCause) → command_at bytes ≡ Wrong at cause
        → command_at (take (at + 2) bytes ++ rest) ≡ Wrong at cause }
{}

/// A prefix of less than a whole command is less than a whole command.
pub fn a_prefix_is_incomplete()
    ensures { (bytes rest : List ℕ) → command_at (bytes ++ rest) ≡ Part → command_at bytes ≡ Part }
{}

/// A job with a fault has the same commands and the same fault, whatever follows.
pub fn a_fault_ends_a_job()
    ensures { (bytes rest : List ℕ) (at : ℕ) (cause : JobCause) → (commands bytes).end ≡ Fault at cause
        → commands (bytes ++ rest) ≡ commands bytes }
{}

/// A prefix of a job's bytes has no more rasters of an ink than all of the bytes.
pub fn a_prefix_has_no_more_rasters()
    ensures { (ink : Ink) (bytes rest : List ℕ)
        → ink_rasters ink (commands bytes).entries ≤ ink_rasters ink (commands (bytes ++ rest)).entries }
{}
