//! Commands appended to a vector of bytes.
ghost use Rattle.base_definitions.specs.Limits.{most_row_bytes};
ghost use Rattle.escp2_definitions.specs.Least.{least_row};
ghost use Rattle.escp2_definitions.specs.Commands.{command_bytes};
ghost use Rattle.std.specs.Prelude.{length, take, vec_capacity, vec_len, ◌*◌, ◌++◌, ◌+◌, ◌≡◌, ◌≤◌};

use crate::Command;
use crate::headers::header_bytes;
use escp2_rows::code_row;

/// Appends the bytes of a command, for a raster without its rows. The vector must have room for the bytes, so the call
/// allocates no memory.
pub fn append_header(command: &Command, out: &mut Vec<u8>)
    requires { vec_len out.old + length (command_bytes command.now) ≤ vec_capacity out.old }
    ensures items { out.new.items ≡ out.old.items ++ command_bytes command.now }
    ensures len { vec_len out.new ≡ vec_len out.old + length (command_bytes command.now) }
    ensures capacity { vec_capacity out.old ≤ vec_capacity out.new }
{
    out.extend_from_slice(header_bytes(command).as_slice())
        .unwrap();
}

// Writes the code of a row after the first `begin` bytes, and gives its length.
fn code_behind(row: &[u8], begin: usize, out: &mut [u8]) -> usize
    requires most { length row.now ≤ most_row_bytes }
    requires room { begin + 2 * length row.now ≤ length out.old }
    ensures code { take (begin + result) out.new ≡ take begin out.old ++ least_row row.now }
    ensures short { result ≤ 2 * length row.now }
{
    code_row(row, &mut out[begin..])
}

/// Appends the least code of a row that is no wider than a page. The vector must have room for twice the row's length,
/// so the call allocates no memory.
pub fn append_row(row: &[u8], out: &mut Vec<u8>)
    requires most { length row.now ≤ most_row_bytes }
    requires room { vec_len out.old + 2 * length row.now ≤ vec_capacity out.old }
    ensures items { out.new.items ≡ out.old.items ++ least_row row.now }
    ensures short { vec_len out.new ≤ vec_len out.old + 2 * length row.now }
    ensures capacity { vec_capacity out.old ≤ vec_capacity out.new }
{
    let begin = out.len();
    out.resize(begin + 2 * row.len(), 0).unwrap();
    let len = code_behind(row, begin, out);
    out.truncate(begin + len);
}
