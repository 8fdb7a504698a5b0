//! What the tests share.
ghost use Rattle.escp2_definitions.specs.Commands.{in_table as in_table_of, rows_len as rows_len_of};
ghost use Rattle.std.specs.Prelude.{length, true, ◌≡◌};

use escp2_definitions::{Command, RasterHead, in_table};
use std::alloc::Global;
use std::fmt::Debug;
use std::process::Abort;
use std::test::Fail;
use weave_base::{MemSink, MemSource};

/// Stops the test where a call did not give what was wanted.
pub fn same<T: PartialEq + Debug>(rt: &impl Abort, at: &str, got: &T, want: &T) {
    assert_eq!(rt; *got, *want, "at {at}");
}

/// The same of bytes.
pub fn same_bytes(rt: &impl Abort, at: &str, got: &[u8], want: &[u8]) {
    assert_eq!(rt; got, want, "at {at}");
}

fn rows_len(command: Command) -> usize
    ensures { result ≡ rows_len_of command }
{
    match command {
        Command::Raster { head } => usize::from(head.m) * ((usize::from(head.n) + 7) / 8),
        _ => 0,
    }
}

/// Stops the test where a command is not in the table, or wants another number of bytes of rows.
pub fn is_fit(rt: &impl Abort, command: &Command, rows: &[u8])
    ensures in_range { in_table_of command.now ≡ true }
    ensures rows_fit { length rows.now ≡ rows_len_of command.now }
{
    assert!(rt; in_table(command));
    assert!(rt; rows.len() == rows_len(*command));
}

/// The numbers of a raster of three coded rows of eight columns.
pub const HEADER: RasterHead = RasterHead {
    c: 1,
    v: 20,
    h: 10,
    m: 3,
    n: 8,
};

/// That raster.
pub const RASTER: Command = Command::Raster { head: HEADER };

/// A sink with this room, whose calls take at most so many bytes each, and whose call of this number fails; none fails
/// for 0.
pub fn sink(alloc: Global, room: usize, piece: u32, fails: u32) -> Result<MemSink, Fail> {
    let takes = vec![in alloc; piece.max(1)]?;
    Ok(MemSink::make(alloc, room, takes, vec![in alloc; fails]?)?)
}

/// A source of these bytes, whose calls give at most so many bytes each, and whose call of this number fails; none
/// fails for 0.
pub fn source(alloc: Global, bytes: &[u8], piece: u32, fails: u32) -> Result<MemSource, Fail> {
    let held = Vec::from_slice(alloc, bytes)?;
    let pieces = vec![in alloc; piece.max(1)]?;
    Ok(MemSource::make(held, pieces, vec![in alloc; fails]?))
}
