//! A made stream piece by piece: its headers and groups.
ghost use Rattle.pwg_definitions.specs.Header.{line_bytes, row_of};
ghost use Rattle.std.specs.Prelude.{length, ◌≡◌};

use crate::draws::Draws;
use crate::lines::fill_line;
use base_definitions::Memory;
use pwg_header::{HEADER_LEN, PageForm, write_header};
use pwg_lines::code_line;
use std::alloc::Global;

/// The headers and groups of a made stream that are still to come.
#[derive(Drop)]
pub struct Pieces {
    form: PageForm,
    hdpi: u32,
    vdpi: u32,
    draws: Draws,
    // the pages whose headers are to come, and how many lines of the page before them
    pages: u8,
    lines: u32,
    // a line, which each group fills anew
    line: Vec<u8>,
    ghost sized: { length line.items ≡ form.bytes_per_line },
    ghost formed: { form.bytes_per_line ≡ line_bytes form.width (row_of form.kind).bits_per_pixel },
}

impl Pieces {
    ghost use Rattle.page_maker.specs.Pieces.{left_of, most_bytes, most_left, pieces_form, to_come};
    ghost use Rattle.std.specs.Prelude.{IfOk, IsOk, List, OnOk, vec_capacity, vec_len, ℕ, ◌++◌, ◌+◌, ◌<◌, ◌==◌, ◌≤◌};

    /// The pieces of pages of this form. It allocates the bytes of one line and no other memory.
    pub fn begin(
        alloc: Global,
        seed: u32,
        pages: u8,
        form: PageForm,
        hdpi: u32,
        vdpi: u32,
    ) -> Result<Pieces, Memory>
        requires { form.bytes_per_line ≡ line_bytes form.width (row_of form.kind).bits_per_pixel }
        ensures left { IfOk result (λ pieces. left_of pieces ≡ to_come form hdpi vdpi pages 0 seed) }
        ensures form { IfOk result (λ pieces. pieces_form pieces ≡ form) }
    {
        let line = vec![in alloc; 0; form.bytes_per_line as usize]?;
        Ok(Pieces {
            form,
            hdpi,
            vdpi,
            draws: Draws::new(seed),
            pages,
            lines: 0,
            line,
        })
    }

    /// Whether no piece is left.
    pub fn is_done(&self) -> bool
        ensures { result ≡ (most_left self.now == 0) }
    {
        self.pages == 0 && self.lines == 0
    }

    /// Appends the next piece. It succeeds if the output has room for the longest piece. On `Memory` some bytes of the
    /// piece may be appended, and later pieces are not promised.
    pub fn put_next(&mut self, out: &mut Vec<u8>) -> Result<(), Memory>
        requires { 0 < most_left self.old }
        ensures ok { OnOk result (out.new.items ++ left_of self.new ≡ out.old.items ++ left_of self.old) }
        ensures part { (part : List ℕ) × (out.new.items ≡ out.old.items ++ part) }
        ensures some { OnOk result (vec_len out.old < vec_len out.new) }
        ensures fewer { OnOk result (most_left self.new < most_left self.old) }
        ensures form { pieces_form self.new ≡ pieces_form self.old }
        ensures capacity { vec_capacity out.old ≤ vec_capacity out.new }
        ensures room { vec_len out.old + most_bytes (pieces_form self.old) ≤ vec_capacity out.old → IsOk result }
    {
        if self.lines == 0 {
            self.put_header(out)
        } else {
            self.put_group(out)
        }
    }

    // Appends the header of the next page.
    fn put_header(&mut self, out: &mut Vec<u8>) -> Result<(), Memory>
        requires pages { 0 < self.old.pages }
        requires lines { self.old.lines ≡ 0 }
        ensures ok { OnOk result (out.new.items ++ left_of self.new ≡ out.old.items ++ left_of self.old) }
        ensures part { (part : List ℕ) × (out.new.items ≡ out.old.items ++ part) }
        ensures some { OnOk result (vec_len out.old < vec_len out.new) }
        ensures fewer { OnOk result (most_left self.new < most_left self.old) }
        ensures form { pieces_form self.new ≡ pieces_form self.old }
        ensures capacity { vec_capacity out.old ≤ vec_capacity out.new }
        ensures room { vec_len out.old + most_bytes (pieces_form self.old) ≤ vec_capacity out.old → IsOk result }
    {
        let mut header = [0; HEADER_LEN];
        write_header(&self.form, self.hdpi, self.vdpi, &mut header);
        out.extend_from_slice(&header)?;
        self.pages -= 1;
        self.lines = self.form.height;
        Ok(())
    }

    // Appends the next group of the page in hand.
    fn put_group(&mut self, out: &mut Vec<u8>) -> Result<(), Memory>
        requires { 0 < self.old.lines }
        ensures ok { OnOk result (out.new.items ++ left_of self.new ≡ out.old.items ++ left_of self.old) }
        ensures part { (part : List ℕ) × (out.new.items ≡ out.old.items ++ part) }
        ensures some { OnOk result (vec_len out.old < vec_len out.new) }
        ensures fewer { OnOk result (most_left self.new < most_left self.old) }
        ensures form { pieces_form self.new ≡ pieces_form self.old }
        ensures capacity { vec_capacity out.old ≤ vec_capacity out.new }
        ensures room { vec_len out.old + most_bytes (pieces_form self.old) ≤ vec_capacity out.old → IsOk result }
    {
        let repeats = (1 + u32::from(self.draws.next() % 4)).min(self.lines);
        let unit = self.form.kind.unit();
        fill_line(&mut self.draws, unit, &mut self.line);
        self.lines -= repeats;
        code_line(&self.line, unit, repeats, out)
    }
}
