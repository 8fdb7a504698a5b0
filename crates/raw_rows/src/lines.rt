//! The lines of rows.
ghost use Rattle.dot_planes.specs.Tables.{row_at};
ghost use Rattle.ink_separation.specs.Separated.{HasLine};
ghost use Rattle.ink_separation.specs.Separators.{IsSeparatorOf};
ghost use Rattle.ink_separation.specs.declared.separator.Separator.{Separator as SeparatorOf};
ghost use Rattle.printer_definitions.specs.Inks.{inks_of};
ghost use Rattle.printer_definitions.specs.Printer.{Printer};
ghost use Rattle.pwg_definitions.specs.Header.{line_bytes, row_of};
ghost use Rattle.pwg_definitions.specs.declared.pages.Kind.{Kind};
ghost use Rattle.raw_rows.specs.Lines.{IsSlabSize, kept_bytes};
ghost use Rattle.raw_rows.specs.Raw.{KeepsAbove, Repeats, line_in, table_of};
ghost use Rattle.separation_definitions.specs.declared.window.Window.{Window};
ghost use Rattle.std.specs.Prelude.{IfOk, false, length, slice_index, slice_index_or, take, vec_capacity, vec_len, ℕ, ◌*◌, ◌+◌, ◌++◌, ◌<◌, ◌≡◌, ◌≤◌, ◌⊎◌};

use crate::kept::RawRows;
use crate::white::is_white_line;
use base_definitions::Memory;
use ink_separation::Separator;
use std::alloc::Global;

// How many bytes of a line are kept.
fn bytes_of(separator: &Separator) -> usize
    ensures is { result ≡ kept_bytes separator.now }
    ensures few { result < 68719476736 }
{
    let window = separator.window();
    separator
        .kind()
        .line_bytes(window.left as usize + window.width as usize)
}

// Line n of lines of `len` bytes each.
#[inline(always)]
fn line_of(bytes: &[u8], len: usize, n: usize) -> &[u8]
    requires { n * len + len ≤ length bytes.now }
    ensures is { result.now ≡ row_at len bytes.now n }
    ensures long { length result.now ≡ len }
{
    &bytes[n * len..n * len + len]
}

/// Puts bytes from an index on.
#[inline(always)]
pub(crate) fn put(out: &mut [u8], at: usize, bytes: &[u8])
    requires { at + length bytes.now ≤ length out.old }
    ensures there { (k : ℕ) → k < length bytes.now → slice_index out.new (at + k) ≡ slice_index bytes.now k }
    ensures others { (k : ℕ) → (k < at) ⊎ (at + length bytes.now ≤ k) → slice_index out.new k ≡ slice_index out.old k }
{
    out[at..at + bytes.len()].copy_from_slice(bytes);
}

// Puts a line at `at`, in place of what stands from there on. It takes no memory: there is room.
fn put_last(bytes: &mut Vec<u8>, at: usize, line: &[u8])
    requires at { at ≤ vec_len bytes.old }
    requires room { at + length line.now ≤ vec_capacity bytes.old }
    ensures items { bytes.new.items ≡ take at bytes.old.items ++ line.now }
    ensures len { vec_len bytes.new ≡ at + length line.now }
    ensures capacity { vec_capacity bytes.old ≤ vec_capacity bytes.new }
{
    bytes.truncate(at);
    bytes.extend_from_slice(line).unwrap();
}

// Gives the rows from y on line n.
fn number_from(index: &mut [u16; 256], y: usize, n: u16)
    requires { y < 256 }
    ensures above { (r : ℕ) → r < y → slice_index index.new r ≡ slice_index index.old r }
    ensures others { (r : ℕ) → y ≤ r → r < 256 → slice_index index.new r ≡ n }
    ensures many { length index.new ≡ 256 }
{
    index[y..].fill(n);
}

// Flags the rows from y on as white, or as not white.
fn flag_from(white: &mut [bool; 256], y: usize, flag: bool)
    requires { y < 256 }
    ensures above { (r : ℕ) → r < y → slice_index_or white.new r false ≡ slice_index_or white.old r false }
    ensures others { (r : ℕ) → y ≤ r → r < 256 → slice_index_or white.new r false ≡ flag }
{
    white[y..].fill(flag);
}

impl RawRows {
    /// Room for 1 to 256 rows, of 1 to `MOST_COLUMNS` columns. The call allocates the memory for all lines, and touches
    /// the memory of one. The contract does not say what amounts the rows have at first.
    pub fn make(alloc: Global, separator: Separator, rows: u32) -> Result<RawRows, Memory>
        requires { IsSlabSize separator rows }
        ensures rows { IfOk result (λ raw. raw.rows ≡ rows) }
        ensures separator { IfOk result (λ raw. raw.separator ≡ separator) }
    {
        let len = bytes_of(&separator);
        let mut bytes = Vec::with_capacity(alloc, rows as usize * len)?;
        // All rows have one line at first. The memory of each other is touched only when it comes.
        bytes.resize(len, 0)?;
        let white_is_free = separator.white_is_free();
        Ok(RawRows {
            separator,
            rows,
            white_is_free,
            len,
            bytes,
            index: [0; 256],
            white: [false; 256],
        })
    }

    /// Leaves room for fewer rows. The contract does not say what amounts the rows have then.
    pub fn shorten(&mut self, rows: u32)
        requires some { 1 ≤ rows }
        requires most { rows ≤ self.old.rows }
        ensures rows { self.new.rows ≡ rows }
        ensures separator { self.new.separator ≡ self.old.separator }
    {
        self.rows = rows;
    }

    /// How many rows there are.
    pub fn rows(&self) -> u32
        ensures { result ≡ self.now.rows }
    {
        self.rows
    }

    /// Gives row y a line. The rows above keep their amounts; the rows below may get any.
    pub fn put_line(&mut self, y: u32, line: &[u8])
        requires y { y < self.old.rows }
        requires line { kept_bytes self.old.separator ≤ length line.now }
        ensures rows { self.new.rows ≡ self.old.rows }
        ensures separator { self.new.separator ≡ self.old.separator }
        ensures line { (p : Printer) (kind : Kind) (w : Window) → IsSeparatorOf p kind w self.old.separator
            → HasLine p kind line.now w y (table_of self.new) }
        ensures above { KeepsAbove (table_of self.old) (table_of self.new) y }
    {
        let n = self.next_line(y as usize);
        let at = n as usize * self.len;
        let kept = &line[..self.len];
        put_last(&mut self.bytes, at, kept);
        number_from(&mut self.index, y as usize, n);
        flag_from(
            &mut self.white,
            y as usize,
            is_white_line(self.separator.kind(), kept),
        );
    }

    /// Gives row y the line of the row above. The rows above keep their amounts; the rows below may get any.
    pub fn repeat_line(&mut self, y: u32)
        requires some { 1 ≤ y }
        requires y { y < self.old.rows }
        ensures rows { self.new.rows ≡ self.old.rows }
        ensures separator { self.new.separator ≡ self.old.separator }
        ensures line { Repeats (table_of self.old) (table_of self.new) y }
    {
        self.index[y as usize] = self.index[y as usize - 1];
        self.white[y as usize] = self.white[y as usize - 1];
    }

    // The number of a line that is put for row y: it stands behind those of the rows above.
    fn next_line(&self, y: usize) -> u16
        requires { y < 256 }
        ensures above { (r : ℕ) → r < y → slice_index self.now.index r < result }
        ensures most { result ≤ y }
        ensures behind { result * self.now.len ≤ vec_len self.now.bytes }
    {
        if y == 0 { 0 } else { self.index[y - 1] + 1 }
    }

    // The line of row y.
    #[inline(always)]
    pub(crate) fn line(&self, y: u32) -> &[u8]
        requires { y < self.now.rows }
        ensures is { result.now ≡ line_in self.now y }
        ensures long { length result.now ≡ kept_bytes self.now.separator }
    {
        let n = usize::from(self.index[y as usize]);
        line_of(&self.bytes, self.len, n)
    }
}
