//! Commands written to a sink.
ghost use Rattle.base_definitions.specs.Limits.{most_row_bytes};
ghost use Rattle.buffered_bytes.specs.declared.gathered.TheConstants.{MOST_GATHERED};
ghost use Rattle.escp2_definitions.specs.Least.{least_row};
ghost use Rattle.escp2_definitions.specs.Commands.{Spells, in_table, row_bytes as row_bytes_of, rows_len};
ghost use Rattle.escp2_definitions.specs.Written.{rows_apart, written};
ghost use Rattle.std.specs.Io.KnownBytes.{Appends};
ghost use Rattle.std.specs.List.{flat_map};
ghost use Rattle.std.specs.Prelude.{OnErr, OnOk, length, true, ◌*◌, ◌++◌, ◌≡◌, ◌≤◌};
ghost use Rattle.weave_base.specs.Causes.{HasCause};
ghost use Rattle.weave_base.specs.Parts.{AppendsPart};

use crate::headers::{header_bytes, row_bytes};
use crate::{Command, RasterHead};
use base_definitions::MOST_ROW_BYTES;
use buffered_bytes::Gathered;
use escp2_rows::code_row;
use weave_base::{Failed, Sink, put_all};

// The most bytes of a row's code: twice the widest row.
const MOST_CODE: usize = 2 * MOST_ROW_BYTES;

// Writes bytes, and then the codes of a raster's rows, one by one.
fn put_coded<K: Sink>(
    header: RasterHead,
    front: &[u8],
    rows: &[u8],
    out: &mut K,
) -> Result<(), Failed>
    requires front { length front.now ≤ MOST_GATHERED }
    requires narrow { row_bytes_of header ≤ most_row_bytes }
    requires rows_fit { length rows.now ≡ header.m * row_bytes_of header }
    ensures ok { OnOk result (Appends (K.held out.old) (K.held out.new)
        (front.now ++ flat_map least_row (rows_apart header.m (row_bytes_of header) rows.now))) }
    ensures part { OnErr result (AppendsPart (K.held out.old) (K.held out.new)
        (front.now ++ flat_map least_row (rows_apart header.m (row_bytes_of header) rows.now))) }
    ensures cause { HasCause (K.faults out.old) (K.faults out.new) result }
{
    let width = row_bytes(header);
    let mut bytes = Gathered::new();
    bytes.push(front);
    let mut code = [0; MOST_CODE];
    let mut rest = rows;
    'rows: for _ in 0..header.m {
        let (row, behind) = rest.split_at(width);
        let len = code_row(row, &mut code);
        bytes.write(&code[..len], out)?;
        rest = behind;
    }
    bytes.put(out)
}

/// Writes the command and then its rows, the top row first (ESC/P Reference Manual, graphics commands). The rows of a
/// raster are plain if its `c` is 0, and coded otherwise. Other commands have no rows. The call allocates no memory.
///
/// `Err` means that a write of the sink failed, which the sink counts. The sink has then taken a proper prefix of the
/// bytes.
pub fn put<K: Sink>(command: &Command, rows: &[u8], out: &mut K) -> Result<(), Failed>
    requires in_range { in_table command.now ≡ true }
    requires rows_fit { length rows.now ≡ rows_len command.now }
    ensures ok { OnOk result (Appends (K.held out.old) (K.held out.new)
        (written least_row command.now rows.now)) }
    ensures part { OnErr result (AppendsPart (K.held out.old) (K.held out.new)
        (written least_row command.now rows.now)) }
    ensures cause { HasCause (K.faults out.old) (K.faults out.new) result }
    ensures spelled { Spells command.now rows.now (written least_row command.now rows.now) }
{
    let front = header_bytes(command);
    match *command {
        Command::Raster { head: header } if header.c != 0 => put_coded(
            header,
            front.as_slice(),
            rows,
            out,
        ),
        _ => {
            put_all(out, front.as_slice())?;
            put_all(out, rows)
        }
    }
}
