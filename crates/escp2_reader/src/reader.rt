//! A reader of the commands of a print job.
#![tactic(auto, unfolding(escp2_definitions::specs::Commands::command_at))]

ghost use Rattle.arrayvec.specs.ArrayVec.{array_vec_len};
ghost use Rattle.base_definitions.specs.Limits.{most_row_bytes};
ghost use Rattle.escp2_definitions.specs.Commands.Heard.{Part};
ghost use Rattle.escp2_definitions.specs.Commands.{command_at};
ghost use Rattle.escp2_reader.specs.Headers.{HasRows, IsShort};
ghost use Rattle.escp2_reader.specs.Stages.{gathered, is_done_at, is_part, room_at};
ghost use Rattle.escp2_rows.specs.Reading.{bytes_left_of, is_done_of};
ghost use Rattle.std.specs.Prelude.{IfErr, IfOk, OnOk, [], false, length, slice_index, take, true, vec_capacity};
ghost use Rattle.std.specs.Prelude.{vec_len, ℕ, List, ◌++◌, ◌-◌, ◌*◌, ◌/◌, ◌+◌, ◌<◌, ◌≡◌, ◌≤◌, ◌^◌};

use crate::headers::{HeaderState, header_of};
use crate::{Command, JobCause, RasterHead};
use arrayvec::ArrayVec;
use base_definitions::{MOST_ROW_BYTES, Memory};
use escp2_rows::{RowReader, RowState};
use std::alloc::Global;
use std::mem;

// The bytes of a command, without the rows of a raster.
type HeaderBytes = ArrayVec<u8, 9>;

// The most bytes of a raster's rows.
const MOST_RASTER_BYTES: usize = 255 * MOST_ROW_BYTES;

/// What a call of `JobReader::feed` found.
#[derive(Clone, Copy, Debug, PartialEq, Eq)]
pub enum HeardState {
    /// The piece ends before the command does.
    More,
    /// A whole command; `JobReader::rows` has the rows of a raster.
    One(Command),
    /// The bytes are not a command. The offset is that of the refused byte, or of the low byte of the refused number.
    Fault { offset: u64, cause: JobCause },
}

/// How much of a piece was used, and what was found.
#[derive(Clone, Copy, Debug, PartialEq, Eq)]
pub struct Heard {
    /// The length of the prefix of the piece that was used.
    pub used: usize,
    pub state: HeardState,
}

/// A job that ends inside a command.
#[derive(Clone, Copy, Debug, PartialEq, Eq)]
pub struct Cut {
    /// The offset of the command's first byte.
    pub offset: u64,
}

// Where in a command a reader stands.
#[derive(Drop)]
enum Stage {
    // After these bytes of it.
    Header(HeaderBytes),
    // Within the rows of a raster.
    Rows(RasterHead, RowReader),
    // After a fault.
    Failed { offset: u64, cause: JobCause },
}

/// Reads the commands of a job from pieces of any length. It has room for the rows of the largest raster, 255 rows of
/// `RASTER_COLUMNS` columns.
#[derive(Drop)]
pub struct JobReader {
    // The offset of the command's first byte.
    begin: u64,
    // The offset of the next byte.
    next: u64,
    // The rows of a raster, as far as they are read.
    rows: Vec<u8>,
    stage: Stage,
    ghost room: { 255 * most_row_bytes ≤ vec_capacity rows },
    ghost order: { begin ≤ next },
    ghost part: { is_part (command_at (gathered stage)) ≡ true },
    ghost short: { length (gathered stage) ≤ 8 },
    ghost raster: { slice_index (gathered stage) 1 ≡ 0x2E → length (gathered stage) ≤ 7 },
    ghost is_open: { is_done_at stage ≡ false },
    ghost fits: { room_at stage (vec_len rows) ≤ vec_capacity rows },
}

impl JobReader {
    ghost use Rattle.escp2_reader.specs.Stages.{Stands};
    ghost use Rattle.escp2_reader.specs.Reading.{BeginsRows, IsHeard, OnFault, OnMore, ShowsLast, StandsFor, begin_of};
    ghost use Rattle.escp2_reader.specs.Reading.{fed_of, is_failed_of, rows_of, shows_fault};

    /// A reader of a job from its first byte on.
    pub fn make(alloc: Global) -> Result<JobReader, Memory>
        ensures anew { IfOk result (λ reader. StandsFor reader []) }
        ensures fed { IfOk result (λ reader. fed_of reader ≡ 0) }
        ensures is_open { IfOk result (λ reader. is_failed_of reader ≡ false) }
        ensures none { IfOk result (λ reader. rows_of reader ≡ []) }
    {
        let rows = Vec::with_capacity(alloc, MOST_RASTER_BYTES)?;
        Ok(JobReader {
            begin: 0,
            next: 0,
            rows,
            stage: Stage::Header(HeaderBytes::new()),
        })
    }

    /// Reads the next bytes of the job, any number of them, up to the end of the command. The call allocates no memory.
    /// A fault is returned with the byte that shows it. Each later call returns the fault again, and uses nothing.
    pub fn feed(&mut self, piece: &[u8]) -> Heard
        requires { fed_of self.old + length piece.now < 2 ^ 63 }
        ensures used { result.used ≤ length piece.now }
        ensures some { is_failed_of self.old ≡ false → 0 < length piece.now → 0 < result.used }
        ensures fed { fed_of self.new ≡ fed_of self.old + result.used }
        ensures failed { is_failed_of self.new ≡ shows_fault result.state }
        ensures all { OnMore result.state (result.used ≡ length piece.now) }
        ensures heard { (sofar : List ℕ) → StandsFor self.old sofar
            → IsHeard result.state (begin_of self.old) self.new (sofar ++ take result.used piece.now) }
        ensures last { OnFault result.state (is_failed_of self.old ≡ false → (sofar : List ℕ) → StandsFor self.old sofar
            → ShowsLast sofar piece.now result.used) }
        ensures again { is_failed_of self.old ≡ true → (result.used ≡ 0) × (is_failed_of self.new ≡ true) }
    {
        let empty = Stage::Header(HeaderBytes::new());
        match mem::replace(&mut self.stage, empty) {
            Stage::Header(header) => self.feed_header(header, piece),
            Stage::Rows(raster, reader) => self.feed_rows(raster, reader, piece),
            Stage::Failed { offset, cause } => self.fail(offset, cause, 0),
        }
    }

    /// The rows of the raster that `feed` just returned, the top row first, packed and not coded. Empty if `feed`
    /// returned no raster.
    pub fn rows(&self) -> &[u8]
        ensures { result.now ≡ rows_of self.now }
    {
        match self.stage {
            Stage::Header(_) => &self.rows,
            _ => &[],
        }
    }

    /// `Ok` if the job may end here, between two commands.
    pub fn end(&self) -> Result<(), Cut>
        requires { is_failed_of self.now ≡ false }
        ensures whole { OnOk result ((sofar : List ℕ) → StandsFor self.now sofar → sofar ≡ []) }
        ensures cut { IfErr result (λ cut. (sofar : List ℕ) → StandsFor self.now sofar → (sofar ≡ [] → ⊥)) }
        ensures begin { IfErr result (λ cut. cut.offset ≡ begin_of self.now) }
    {
        if self.next == self.begin {
            Ok(())
        } else {
            Err(Cut { offset: self.begin })
        }
    }

    // Reads on after these bytes of a command.
    fn feed_header(&mut self, mut header: HeaderBytes, piece: &[u8]) -> Heard
        requires part { command_at header.items ≡ Part }
        requires short { IsShort 0 header.items }
        requires idle { (len : ℕ) → room_at self.old.stage len ≡ 0 }
        requires room { self.old.next + length piece.now < 2 ^ 63 }
        ensures used { result.used ≤ length piece.now }
        ensures some { 0 < length piece.now → 0 < result.used }
        ensures fed { self.new.next ≡ self.old.next + result.used }
        ensures failed { is_failed_of self.new ≡ shows_fault result.state }
        ensures all { OnMore result.state (result.used ≡ length piece.now) }
        ensures heard { (sofar rows : List ℕ) → Stands (Stage.Header header) self.old.begin self.old.next rows sofar
            → IsHeard result.state self.old.begin self.new (sofar ++ take result.used piece.now) }
        ensures last { OnFault result.state ((sofar rows : List ℕ)
            → Stands (Stage.Header header) self.old.begin self.old.next rows sofar
            → ShowsLast sofar piece.now result.used) }
    {
        self.rows.clear();
        'bytes: for (i, byte) in piece.iter().enumerate() {
            header.push(*byte);
            match header_of(header.as_slice()) {
                HeaderState::Part => {}
                HeaderState::Whole(command) => return self.end_command(command, i + 1),
                HeaderState::Rows(raster) => return self.begin_rows(raster, piece, i + 1),
                HeaderState::Fault { place, cause } => {
                    return self.fail(self.begin + u64::from(place), cause, i + 1);
                }
            }
        }
        self.stage = Stage::Header(header);
        self.next += piece.len() as u64;
        Heard {
            used: piece.len(),
            state: HeardState::More,
        }
    }

    // Reads on after the numbers of a raster, which end after `used` bytes of the piece.
    fn begin_rows(&mut self, raster: RasterHead, piece: &[u8], used: usize) -> Heard
        requires rows { HasRows raster }
        requires none { self.old.rows.items ≡ [] }
        requires idle { (len : ℕ) → room_at self.old.stage len ≡ 0 }
        requires room { self.old.next + length piece.now < 2 ^ 63 }
        requires first { 0 < used }
        requires within { used ≤ length piece.now }
        ensures used { result.used ≤ length piece.now }
        ensures some { 0 < length piece.now → 0 < result.used }
        ensures fed { self.new.next ≡ self.old.next + result.used }
        ensures failed { is_failed_of self.new ≡ shows_fault result.state }
        ensures all { OnMore result.state (result.used ≡ length piece.now) }
        ensures heard { (sofar : List ℕ) → BeginsRows raster self.old.begin self.old.next sofar (take used piece.now)
            → IsHeard result.state self.old.begin self.new (sofar ++ take result.used piece.now) }
        ensures last { OnFault result.state ((sofar : List ℕ)
            → BeginsRows raster self.old.begin self.old.next sofar (take used piece.now)
            → ShowsLast sofar piece.now result.used) }
    {
        let reader = RowReader::begin(raster.c, (raster.n + 7) / 8, raster.m);
        self.next += used as u64;
        let heard = self.feed_rows(raster, reader, &piece[used..]);
        Heard {
            used: used + heard.used,
            state: heard.state,
        }
    }

    // Reads on within the rows of a raster.
    fn feed_rows(&mut self, raster: RasterHead, mut reader: RowReader, piece: &[u8]) -> Heard
        requires is_open { is_done_of reader ≡ false }
        requires rows { vec_len self.old.rows + bytes_left_of reader ≤ vec_capacity self.old.rows }
        requires idle { (len : ℕ) → room_at self.old.stage len ≡ 0 }
        requires room { self.old.next + length piece.now < 2 ^ 63 }
        ensures used { result.used ≤ length piece.now }
        ensures some { 0 < length piece.now → 0 < result.used }
        ensures fed { self.new.next ≡ self.old.next + result.used }
        ensures failed { is_failed_of self.new ≡ shows_fault result.state }
        ensures all { OnMore result.state (result.used ≡ length piece.now) }
        ensures heard { (sofar : List ℕ)
            → Stands (Stage.Rows raster reader) self.old.begin self.old.next self.old.rows.items sofar
            → IsHeard result.state self.old.begin self.new (sofar ++ take result.used piece.now) }
        ensures last { OnFault result.state ((sofar : List ℕ)
            → Stands (Stage.Rows raster reader) self.old.begin self.old.next self.old.rows.items sofar
            → ShowsLast sofar piece.now result.used) }
    {
        let fed = reader.feed(piece, &mut self.rows);
        match fed.state {
            RowState::More => {
                self.stage = Stage::Rows(raster, reader);
                self.next += fed.used as u64;
                Heard {
                    used: fed.used,
                    state: HeardState::More,
                }
            }
            RowState::Whole => self.end_command(Command::Raster { head: raster }, fed.used),
            RowState::Fault { .. } => {
                // The control byte is the last byte that was used.
                let offset = self.next + fed.used as u64 - 1;
                self.fail(offset, JobCause::RunCode, fed.used)
            }
        }
    }

    // Ends a command after `used` more bytes.
    fn end_command(&mut self, command: Command, used: usize) -> Heard
        requires { self.old.next + used < 2 ^ 63 }
        ensures used { result.used ≡ used }
        ensures state { result.state ≡ HeardState.One command }
        ensures stands { StandsFor self.new [] }
        ensures begin { self.new.begin ≡ self.old.next + used }
        ensures next { self.new.next ≡ self.old.next + used }
        ensures rows { rows_of self.new ≡ self.old.rows.items }
        ensures is_open { is_failed_of self.new ≡ false }
    {
        self.next += used as u64;
        self.begin = self.next;
        self.stage = Stage::Header(HeaderBytes::new());
        Heard {
            used,
            state: HeardState::One(command),
        }
    }

    // Stops at a fault, after `used` more bytes.
    fn fail(&mut self, offset: u64, cause: JobCause, used: usize) -> Heard
        requires { self.old.next + used < 2 ^ 63 }
        ensures used { result.used ≡ used }
        ensures state { result.state ≡ HeardState.Fault offset cause }
        ensures stage { self.new.stage ≡ Stage.Failed offset cause }
        ensures begin { self.new.begin ≡ self.old.begin }
        ensures next { self.new.next ≡ self.old.next + used }
    {
        self.next += used as u64;
        self.stage = Stage::Failed { offset, cause };
        Heard {
            used,
            state: HeardState::Fault { offset, cause },
        }
    }
}
