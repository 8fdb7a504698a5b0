//! Laws of the code of rows, each the contract of an empty function.
ghost use Rattle.escp2_definitions.specs.Least.{costs, least_row, packets_at};
ghost use Rattle.escp2_definitions.specs.RowCode.{RowCode, RowPacket, RowsCode, rows_at};
ghost use Rattle.escp2_definitions.specs.RowCode.RowsRead.{RowsAre};
ghost use Rattle.escp2_laws.specs.PacketStands.{MayStand};
ghost use Rattle.std.specs.List.{Contains};
ghost use Rattle.std.specs.Prelude.{List, [], drop, length, slice_index, take, ℕ, ◌*◌, ◌++◌, ◌<◌, ◌↔◌, ◌≡◌, ◌≤◌};

/// The packets that are weighed at a place are exactly those that may stand there.
pub fn packets_are_all()
    ensures { (packet : RowPacket) (row : List ℕ) → Contains (packets_at row) packet ↔ MayStand packet row }
{}

/// The least code of a row is a code of the row.
pub fn least_is_a_code()
    ensures { (row : List ℕ) → RowCode (least_row row) row }
{}

/// The cost of a place is the length of the least code from that place on. So the first cost is that of the whole row.
pub fn costs_are_reached()
    ensures { (row : List ℕ) (at : ℕ) → at ≤ length row
        → length (least_row (drop at row)) ≡ slice_index (costs row) at }
{}

/// No code of a row is shorter than its least code.
pub fn no_code_is_shorter()
    ensures { (code row : List ℕ) → RowCode code row → length (least_row row) ≤ length code }
{}

/// The least code has at most twice as many bytes as its row.
pub fn least_is_short()
    ensures { (row : List ℕ) → length (least_row row) ≤ 2 * length row }
{}

/// No code of `m` rows of one width is a proper prefix of another, and a code has only one list of rows.
pub fn no_code_begins_another()
    ensures { (m width : ℕ) (code more rows other_rows : List ℕ) → RowsCode m width code rows
        → RowsCode m width (code ++ more) other_rows → (more ≡ []) × (rows ≡ other_rows) }
{}

/// A code of rows is read as these rows, whatever follows. So bytes with a refused control byte are not a code.
pub fn code_is_read()
    ensures { (m width : ℕ) (code rest rows : List ℕ) → RowsCode m width code rows
        → rows_at m width 0 (code ++ rest) ≡ RowsAre rows (length code) }
{}

/// If bytes are read as whole rows, the bytes up to the place after the rows are a code of these rows.
pub fn what_is_read_is_a_code()
    ensures { (m width : ℕ) (bytes rows : List ℕ) (next : ℕ) → ((k : ℕ) → slice_index bytes k < 256)
        → rows_at m width 0 bytes ≡ RowsAre rows next → RowsCode m width (take next bytes) rows }
{}
