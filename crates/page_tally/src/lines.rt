//! The lines of pages and of progress.
ghost use Rattle.arrayvec.specs.ArrayString.{array_string_len};
ghost use Rattle.page_tally.specs.Lines.{cut_page_line as cut_page_text, page_line as page_text, page_number as number_of};
ghost use Rattle.page_tally.specs.Lines.{progress_line as progress_text, tenths as tenths_of};
ghost use Rattle.std.specs.Fmt.{decimal};
ghost use Rattle.std.specs.Prelude.{[], codes, length, ◌+◌, ◌++◌, ◌≡◌, ◌≤◌};

use crate::tally::Tally;
use arrayvec::ArrayString;
use itoa::Buffer;
use printer_definitions::InkCounts;

/// Which lines are told of a job.
#[derive(Clone, Copy, Debug, PartialEq, Eq)]
pub struct Telling {
    /// A line for each page.
    pub pages: bool,
    /// A line for each tenth of a page's length that the head passes.
    pub progress: bool,
}

/// A line, with its line feed.
pub type Line = ArrayString<160>;

impl Tally {
    /// How many tenths of the page's length the head has passed, 0 to 10. Without a length it is 0.
    pub fn tenths(&self) -> u8
        ensures is { result ≡ tenths_of self.now }
        ensures most { result ≤ 10 }
    {
        if self.length == 0 {
            return 0;
        }
        let passed = u64::from(self.top) + u64::from(self.down);
        (10 * passed / u64::from(self.length)).min(10) as u8
    }

    // The number of the page in hand, from 1.
    fn page_number(&self) -> u64
        ensures { result ≡ number_of self.now }
    {
        u64::from(self.sheets) + 1
    }
}

// Appends a name and a number in decimal.
fn push_number(name: &str, n: u64, out: &mut Line)
    requires name { length name.now ≤ 6 }
    requires room { array_string_len out.old + 26 ≤ 160 }
    ensures bytes { out.new.bytes ≡ out.old.bytes ++ name.now ++ decimal n }
    ensures len { array_string_len out.new ≤ array_string_len out.old + 26 }
{
    let mut buffer = Buffer::new();
    out.push_str(name);
    out.push_str(buffer.format(n));
}

// Appends the dots of each ink.
fn push_counts(counts: &InkCounts, out: &mut Line)
    requires { array_string_len out.old + 105 ≤ 160 }
    ensures { out.new.bytes ≡ out.old.bytes ++ codes ": k " ++ decimal counts.now.k ++ codes ", c " ++ decimal counts.now.c
        ++ codes ", m " ++ decimal counts.now.m ++ codes ", y " ++ decimal counts.now.y ++ codes "\n" }
{
    push_number(": k ", counts.k, out);
    push_number(", c ", counts.c, out);
    push_number(", m ", counts.m, out);
    push_number(", y ", counts.y, out);
    out.push_str("\n");
}

/// Writes the line of the page in hand into an empty text: its number, and the dots of each ink on its sheet.
pub fn page_line(tally: &Tally, out: &mut Line)
    requires empty { out.old.bytes ≡ [] }
    ensures { out.new.bytes ≡ page_text tally.now }
{
    push_number("page ", tally.page_number(), out);
    push_counts(&tally.counts, out);
}

/// Writes the line of a page that is cut into an empty text: `cut`, and what `page_line` writes.
pub fn cut_page_line(tally: &Tally, out: &mut Line)
    requires empty { out.old.bytes ≡ [] }
    ensures { out.new.bytes ≡ cut_page_text tally.now }
{
    out.push_str("cut ");
    push_number("page ", tally.page_number(), out);
    push_counts(&tally.counts, out);
}

/// Writes the line of a tenth of the page's length into an empty text: the page's number, and ten times `tenth`.
pub fn progress_line(tally: &Tally, tenth: u8, out: &mut Line)
    requires empty { out.old.bytes ≡ [] }
    ensures { out.new.bytes ≡ progress_text tally.now tenth }
{
    push_number("page ", tally.page_number(), out);
    push_number(" at ", 10 * u64::from(tenth), out);
    out.push_str("\n");
}
