//! A reader of the groups of a page's lines, piece by piece.
ghost use Rattle.pwg_lines.specs.States.{gives, least_gives, least_left, least_repeats, pending, read_in};
ghost use Rattle.std.specs.Prelude.{[], length, ◌*◌, ◌+◌, ◌<◌, ◌≡◌, ◌≤◌};
ghost use Rattle.pwg_definitions.specs.Header.{line_bytes, line_units, row_of};
ghost use Rattle.base_definitions.specs.Limits.{most_columns, most_rows};

mod steps;

use crate::answers::{Fed, Fill};
use crate::states::State;
use base_definitions::Memory;
use pwg_definitions::PageForm;
use std::alloc::Global;

/// Reads the groups of the lines of one page from pieces of any length.
#[derive(Drop)]
pub struct LineReader {
    form: PageForm,
    lines_left: u32,
    repeats: u32,
    line: Vec<u8>,
    // how many bytes of the line are filled, by the packets before the one that is read
    filled: usize,
    // how many units of the line come after that packet
    left: usize,
    state: State,
    ghost sized: { length line.items ≡ line_units (row_of form.kind) form.width * (row_of form.kind).unit },
    ghost whole: { length line.items ≡ form.bytes_per_line },
    ghost some: { 0 < length line.items },
    ghost fits: { filled + pending (row_of form.kind) state + left * (row_of form.kind).unit ≡ length line.items },
    ghost unfilled: { least_left state ≤ left },
    ghost begun: { least_gives state ≤ gives state },
    ghost within_unit: { read_in state < (row_of form.kind).unit },
    ghost counted: { least_repeats state ≤ repeats },
    ghost within: { repeats ≤ lines_left },
}

impl LineReader {
    ghost use Rattle.pwg_lines.specs.Reading.{Ends, IsAnew, IsFault, IsLine, IsMore, IsSame, OnFault, OnLine, OnMore};
    ghost use Rattle.pwg_lines.specs.Reading.{StandsFor, fault_of, form_of, line_of, lines_left_of};
    ghost use Rattle.std.specs.Prelude.{IfOk, IsOk, OnErr, OnOk, Some};
    ghost use Rattle.pwg_definitions.specs.declared.faults.LineFault.{LineFault};

    /// A reader of the lines of a page of this form. It allocates the bytes of one line, and no other memory.
    pub fn begin(alloc: Global, form: PageForm) -> Result<LineReader, Memory>
        requires narrowest { 1 ≤ form.width }
        requires widest { form.width ≤ most_columns }
        requires lowest { 1 ≤ form.height }
        requires tallest { form.height ≤ most_rows }
        requires bytes { form.bytes_per_line ≡ line_bytes form.width (row_of form.kind).bits_per_pixel }
        ensures form { IfOk result (λ reader. form_of reader ≡ form) }
        ensures lines_left { IfOk result (λ reader. lines_left_of reader ≡ form.height) }
        ensures anew { IfOk result (λ reader. StandsFor reader []) }
        ensures fresh { IfOk result IsAnew }
    {
        let line = vec![in alloc; 0; form.bytes_per_line as usize]?;
        Ok(LineReader {
            form,
            lines_left: form.height,
            repeats: 0,
            line,
            filled: 0,
            left: form.bytes_per_line as usize / form.kind.unit(),
            state: State::Start,
        })
    }

    /// Begins the lines of another page, of this form, whatever the reader has read. It reuses its allocation if the
    /// new line is no longer than the old one. On `Memory` the reader is unchanged.
    pub fn restart(&mut self, form: PageForm) -> Result<(), Memory>
        requires narrowest { 1 ≤ form.width }
        requires widest { form.width ≤ most_columns }
        requires lowest { 1 ≤ form.height }
        requires tallest { form.height ≤ most_rows }
        requires bytes { form.bytes_per_line ≡ line_bytes form.width (row_of form.kind).bits_per_pixel }
        ensures form { OnOk result (form_of self.new ≡ form) }
        ensures lines_left { OnOk result (lines_left_of self.new ≡ form.height) }
        ensures anew { OnOk result (StandsFor self.new []) }
        ensures fresh { OnOk result (IsAnew self.new) }
        ensures err { OnErr result (IsSame self.old self.new) }
        ensures fits { form.bytes_per_line ≤ (form_of self.old).bytes_per_line → IsOk result }
    {
        self.line.resize(form.bytes_per_line as usize, 0)?;
        self.form = form;
        self.lines_left = form.height;
        self.repeats = 0;
        self.filled = 0;
        self.left = self.line.len() / form.kind.unit();
        self.state = State::Start;
        Ok(())
    }

    /// Reads the next bytes of the page's lines, of any number, and allocates no memory. It stops after the last byte
    /// of a group, or after the byte that shows a fault: a count past the page, or the first byte of a packet with more
    /// units than the line has left. Give the rest of the piece to the next call, and then more.
    pub fn feed(&mut self, piece: &[u8]) -> Fed
        ensures used { result.used ≤ length piece.now }
        ensures form { form_of self.new ≡ form_of self.old }
        ensures more { OnMore result.state (IsMore self.old self.new piece.now result.used) }
        ensures line { OnLine result.state (λ repeats.
            IsLine self.old self.new piece.now result.used repeats) }
        ensures fault { OnFault result.state (λ fault.
            IsFault self.old self.new piece.now result.used fault) }
        ensures again { (fault : LineFault) → fault_of self.old ≡ Some fault
            → (result ≡ record { used = 0; state = Fill.Fault fault }) × (self.new ≡ self.old) }
    {
        let mut used = 0;
        'steps: loop {
            match self.state {
                State::Full => {
                    return Fed {
                        used,
                        state: self.end_group(),
                    };
                }
                State::Failed(fault) => {
                    return Fed {
                        used,
                        state: Fill::Fault(fault),
                    };
                }
                _ => {
                    if used == piece.len() {
                        return Fed {
                            used,
                            state: Fill::More,
                        };
                    }
                    used += self.step(&piece[used..]);
                }
            }
        }
    }

    /// How many lines of the page are not yet given.
    pub fn lines_left(&self) -> u32
        ensures { result ≡ lines_left_of self.now }
    {
        self.lines_left
    }

    /// The line of the last group, if the last call of `feed` returned `Fill::Line`. Otherwise these bytes mean
    /// nothing.
    pub fn line(&self) -> &[u8]
        ensures line { result.now ≡ line_of self.now }
        ensures sized { length result.now ≡ (form_of self.now).bytes_per_line }
    {
        &self.line
    }

    // Answers the line of the group that is read, and begins the next group.
    fn end_group(&mut self) -> Fill
        requires { self.old.state ≡ State.Full }
        ensures { Ends self.old self.new result }
    {
        let repeats = self.repeats;
        self.lines_left -= repeats;
        self.repeats = 0;
        self.state = State::Start;
        Fill::Line { repeats }
    }
}
