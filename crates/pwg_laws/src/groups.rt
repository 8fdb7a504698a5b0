//! Groups of equal lines: every spelling is read, what is read was spelled, and the bytes up to a fault decide it.
ghost use Rattle.std.specs.Prelude.{List, [], take, ℕ, ◌++◌, ◌+◌, ◌≡◌};
ghost use Rattle.pwg_definitions.specs.Groups.GroupRead.{Group, Wrong};
ghost use Rattle.pwg_definitions.specs.Groups.{IsBytes, SpellsGroup, group_at};
ghost use Rattle.pwg_definitions.specs.Header.{KindRow};
ghost use Rattle.pwg_definitions.specs.declared.faults.LineFault.{LineFault};

/// A group that is spelled is read, whatever follows.
pub fn spelled_is_read()
    ensures { (row : KindRow) (units left : ℕ) (bytes : List ℕ) (repeats : ℕ) (line rest : List ℕ)
        → SpellsGroup row units left bytes repeats line
        → group_at row units left (bytes ++ rest) ≡ Group repeats line rest }
{}

/// A group that is read was spelled, by the bytes before the rest.
pub fn read_is_spelled()
    ensures { (row : KindRow) (units left : ℕ) (bytes : List ℕ) (repeats : ℕ) (line rest : List ℕ)
        → IsBytes bytes → group_at row units left bytes ≡ Group repeats line rest
        → (front : List ℕ) × (bytes ≡ front ++ rest) × SpellsGroup row units left front repeats line }
{}

/// No spelling of a group is a proper prefix of another, and none spells two groups.
pub fn spelled_once()
    ensures { (row : KindRow) (units left : ℕ) (bytes more : List ℕ) (repeats repeats' : ℕ) (line line' : List ℕ)
        → SpellsGroup row units left bytes repeats line → SpellsGroup row units left (bytes ++ more) repeats' line'
        → (more ≡ []) × (repeats ≡ repeats') × (line ≡ line') }
{}

/// The bytes up to and including a fault's own byte decide the fault, whatever follows.
pub fn fault_stands()
    ensures { (row : KindRow) (units left : ℕ) (bytes more : List ℕ) (place : ℕ) (fault : LineFault)
        → group_at row units left bytes ≡ Wrong place fault
        → group_at row units left (take (place + 1) bytes ++ more) ≡ Wrong place fault }
{}
