//! A reader of a raster's rows, piece by piece.
ghost use Rattle.base_definitions.specs.Limits.{most_row_bytes};
ghost use Rattle.escp2_rows.specs.Places.{behind_control, is_failed, least_pending, pending};
ghost use Rattle.escp2_definitions.specs.RowCode.{control_of};
ghost use Rattle.std.specs.Prelude.{[], false, length, min, replicate, take, vec_capacity, vec_len, ℕ, ◌*◌, ◌++◌, ◌+◌};
ghost use Rattle.std.specs.Prelude.{◌<◌, ◌∷◌, ◌≡◌, ◌≤◌};

use crate::buffer::{push_bytes, push_run};
use crate::whole_packets::{BLOCK, read_whole};

// About how many bytes of output are filled with zeros at a time, before packets are put over them. A packet of two
// bytes gives 128 at most, so 64 bytes of output for each byte of the piece are enough.
const MOST_PORTION: usize = 1920;

/// What a call of `RowReader::feed` found.
#[derive(Clone, Copy, Debug, PartialEq, Eq)]
pub enum RowState {
    /// The piece ends before the rows do.
    More,
    /// All rows are read.
    Whole,
    /// The control byte at this place in the piece is 128, or its count passes the end of its row.
    Fault { at: usize },
}

/// How much of a piece was used, and what was found.
#[derive(Clone, Copy, Debug, PartialEq, Eq)]
pub struct RowFed {
    /// The length of the prefix of the piece that was used.
    pub used: usize,
    pub state: RowState,
}

// Where in a row a reader stands.
#[derive(Clone, Copy)]
enum Place {
    // Before a control byte, or after the last row.
    Packet,
    // Before this many bytes as they are, one or more.
    Literal(usize),
    // Before the byte that is repeated this many times.
    Repeated(usize),
    // After the control byte that is refused.
    Failed,
}

/// Reads the rows of one raster from pieces of any length.
#[derive(Drop)]
pub struct RowReader {
    row_bytes: usize,
    // How many rows follow the current one.
    rows_left: usize,
    // How many bytes of the current row are not yet given.
    row_left: usize,
    place: Place,
    ghost some: { 1 ≤ row_bytes },
    ghost narrow: { row_bytes ≤ most_row_bytes },
    ghost few: { rows_left ≤ 255 },
    ghost short: { row_left ≤ 255 * most_row_bytes },
    ghost fits: { pending place ≤ row_left },
    ghost begun: { least_pending place ≤ pending place },
    ghost ended: { row_left ≡ 0 → rows_left ≡ 0 },
}

impl RowReader {
    ghost use Rattle.escp2_rows.specs.Reading.{EndsPacket, Gives, IsFault, IsMore, IsWhole, OnFault, OnMore, OnWhole};
    ghost use Rattle.escp2_rows.specs.Reading.{StandsFor, Takes, bytes_left_of, is_done_of};

    /// A reader of `rows` rows of `row_bytes` bytes. The rows are plain if `c` is 0, and coded if `c` is 1. Plain rows
    /// are read as one row of bytes as they are.
    pub fn begin(c: u8, row_bytes: u16, rows: u8) -> RowReader
        requires form { c ≤ 1 }
        requires narrowest { 1 ≤ row_bytes }
        requires widest { row_bytes ≤ most_row_bytes }
        requires some { 1 ≤ rows }
        ensures bytes_left { bytes_left_of result ≡ rows * row_bytes }
        ensures is_open { is_done_of result ≡ false }
        ensures anew { (at : ℕ) → StandsFor (record {
          c = c;
          width = row_bytes;
          rows = rows;
          at = at;
        }) result [] [] }
    {
        let width = usize::from(row_bytes);
        let count = usize::from(rows);
        if c == 0 {
            return RowReader {
                row_bytes: width,
                rows_left: 0,
                row_left: count * width,
                place: Place::Literal(count * width),
            };
        }
        RowReader {
            row_bytes: width,
            rows_left: count - 1,
            row_left: width,
            place: Place::Packet,
        }
    }

    /// Reads the next bytes of the rows, any number of them, and appends the bytes of rows that they give. The call
    /// allocates no memory: `out` must have room for the bytes that are left, and keeps this room. `feed` stops after
    /// the last row, or after a control byte that is refused.
    pub fn feed(&mut self, piece: &[u8], out: &mut Vec<u8>) -> RowFed
        requires is_open { is_done_of self.old ≡ false }
        requires room { vec_len out.old + bytes_left_of self.old ≤ vec_capacity out.old }
        ensures used { result.used ≤ length piece.now }
        ensures takes { Takes self.old self.new (take result.used piece.now) out.old.items out.new.items }
        ensures room { vec_len out.new + bytes_left_of self.new ≤ vec_capacity out.new }
        ensures capacity { vec_capacity out.old ≤ vec_capacity out.new }
        ensures some { 0 < length piece.now → 0 < result.used }
        ensures more { OnMore result.state (IsMore self.old self.new piece.now result.used) }
        ensures whole { OnWhole result.state
            (IsWhole self.old self.new piece.now result.used out.old.items out.new.items) }
        ensures fault { OnFault result.state (λ at. IsFault self.old self.new piece.now result.used at) }
    {
        let mut used = 0;
        'steps: while !self.is_done() {
            if used == piece.len() {
                return RowFed {
                    used,
                    state: RowState::More,
                };
            }
            used += self.step(&piece[used..], out);
        }
        match self.place {
            Place::Failed => RowFed {
                used,
                state: RowState::Fault { at: used - 1 },
            },
            _ => RowFed {
                used,
                state: RowState::Whole,
            },
        }
    }

    /// Whether no more bytes may be fed: all rows are read, or a fault was found.
    pub fn is_done(&self) -> bool
        ensures { result ≡ is_done_of self.now }
    {
        matches!(self.place, Place::Failed) || self.bytes_left() == 0
    }

    /// How many bytes of the rows are not yet given.
    pub fn bytes_left(&self) -> usize
        ensures { result ≡ bytes_left_of self.now }
    {
        self.row_left + self.rows_left * self.row_bytes
    }

    // Reads one part of a row, at least a byte, and gives its length.
    fn step(&mut self, bytes: &[u8], out: &mut Vec<u8>) -> usize
        requires is_open { is_done_of self.old ≡ false }
        requires some { 0 < length bytes.now }
        requires room { vec_len out.old + bytes_left_of self.old ≤ vec_capacity out.old }
        ensures least { 0 < result }
        ensures most { result ≤ length bytes.now }
        ensures takes { Takes self.old self.new (take result bytes.now) out.old.items out.new.items }
        ensures room { vec_len out.new + bytes_left_of self.new ≤ vec_capacity out.new }
        ensures capacity { vec_capacity out.old ≤ vec_capacity out.new }
    {
        match self.place {
            Place::Packet => return self.feed_front(bytes, out),
            Place::Literal(wanted) => return self.feed_literal(wanted, bytes, out),
            Place::Repeated(count) => self.feed_repeated(count, bytes[0], out),
            Place::Failed => {}
        }
        1
    }

    // Reads whole packets, or else a control byte, and gives the number of bytes.
    fn feed_front(&mut self, bytes: &[u8], out: &mut Vec<u8>) -> usize
        requires place { self.old.place ≡ Place.Packet }
        requires left { 0 < self.old.row_left }
        requires some { 0 < length bytes.now }
        requires room { vec_len out.old + bytes_left_of self.old ≤ vec_capacity out.old }
        ensures least { 0 < result }
        ensures most { result ≤ length bytes.now }
        ensures takes { Takes self.old self.new (take result bytes.now) out.old.items out.new.items }
        ensures room { vec_len out.new + bytes_left_of self.new ≤ vec_capacity out.new }
        ensures capacity { vec_capacity out.old ≤ vec_capacity out.new }
    {
        let used = self.feed_packets(bytes, out);
        if used > 0 {
            return used;
        }
        self.feed_control(bytes[0]);
        1
    }

    // Reads whole packets, as many as give what one portion of the output holds, and gives the number of bytes.
    fn feed_packets(&mut self, bytes: &[u8], out: &mut Vec<u8>) -> usize
        requires place { self.old.place ≡ Place.Packet }
        requires room { vec_len out.old + bytes_left_of self.old ≤ vec_capacity out.old }
        ensures place { self.new.place ≡ Place.Packet }
        ensures none { result ≡ 0 → self.new.row_left ≡ self.old.row_left }
        ensures most { result ≤ length bytes.now }
        ensures takes { Takes self.old self.new (take result bytes.now) out.old.items out.new.items }
        ensures room { vec_len out.new + bytes_left_of self.new ≤ vec_capacity out.new }
        ensures capacity { vec_capacity out.old ≤ vec_capacity out.new }
    {
        let filled = out.len();
        let more = portion(self.bytes_left(), bytes.len()).min(out.capacity() - filled);
        if bytes.len() <= BLOCK || more < 2 * BLOCK {
            return 0;
        }
        out.resize(filled + more, 0).unwrap();
        let at = read_whole(
            out,
            filled,
            self.row_left,
            self.rows_left,
            self.row_bytes,
            bytes,
        );
        out.truncate(at.filled);
        self.row_left = at.row_left;
        self.rows_left = at.rows_left;
        at.used
    }

    // Reads a control byte.
    fn feed_control(&mut self, control: u8)
        requires place { self.old.place ≡ Place.Packet }
        requires some { 0 < self.old.row_left }
        ensures { Gives self.old self.new (control ∷ []) [] }
    {
        self.place = place_after(control, self.row_left);
    }

    // Reads bytes as they are, as many as are wanted or as there are, and gives their number.
    fn feed_literal(&mut self, wanted: usize, bytes: &[u8], out: &mut Vec<u8>) -> usize
        requires place { self.old.place ≡ Place.Literal wanted }
        requires room { vec_len out.old + bytes_left_of self.old ≤ vec_capacity out.old }
        ensures count { result ≡ min (length bytes.now) wanted }
        ensures appended { out.new.items ≡ out.old.items ++ take result bytes.now }
        ensures gives { Gives self.old self.new (take result bytes.now) (take result bytes.now) }
        ensures room { vec_len out.new + bytes_left_of self.new ≤ vec_capacity out.new }
        ensures capacity { vec_capacity out.old ≤ vec_capacity out.new }
    {
        let count = bytes.len().min(wanted);
        push_bytes(out, &bytes[..count]);
        if count < wanted {
            self.row_left -= count;
            self.place = Place::Literal(wanted - count);
            return count;
        }
        self.end_packet(count);
        count
    }

    // Reads the byte that is repeated.
    fn feed_repeated(&mut self, count: usize, byte: u8, out: &mut Vec<u8>)
        requires place { self.old.place ≡ Place.Repeated count }
        requires room { vec_len out.old + bytes_left_of self.old ≤ vec_capacity out.old }
        ensures appended { out.new.items ≡ out.old.items ++ replicate count byte }
        ensures gives { Gives self.old self.new (byte ∷ []) (replicate count byte) }
        ensures room { vec_len out.new + bytes_left_of self.new ≤ vec_capacity out.new }
        ensures capacity { vec_capacity out.old ≤ vec_capacity out.new }
    {
        push_run(out, count, byte);
        self.end_packet(count);
    }

    // Ends a packet that gave `count` bytes, and its row too where no byte of it is left.
    fn end_packet(&mut self, count: usize)
        requires { count ≤ self.old.row_left }
        ensures { EndsPacket self.old self.new count }
    {
        self.place = Place::Packet;
        if count < self.row_left || self.rows_left == 0 {
            self.row_left -= count;
            return;
        }
        self.rows_left -= 1;
        self.row_left = self.row_bytes;
    }
}

// How many bytes of output whole packets are to have, if this many bytes of the rows are left, and the piece has this
// many bytes: what is left with the blocks past its end, but no more than the piece can give, nor than `MOST_PORTION`.
fn portion(left: usize, len: usize) -> usize
    ensures { result ≤ MOST_PORTION }
{
    (left.min(MOST_PORTION) + 2 * BLOCK).min(len.min(MOST_PORTION / 64) * 64)
}

// Where a reader stands after a control byte, where the row has `left` bytes left.
fn place_after(control: u8, left: usize) -> Place
    ensures place { result ≡ behind_control (control_of control) left }
    ensures begun { least_pending result ≤ pending result }
{
    let count = match control {
        0..=127 => usize::from(control) + 1,
        128 => return Place::Failed,
        _ => 257 - usize::from(control),
    };
    if left < count {
        return Place::Failed;
    }
    if control < 128 {
        Place::Literal(count)
    } else {
        Place::Repeated(count)
    }
}
