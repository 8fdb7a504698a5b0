//! The line that `trial` writes.
ghost use Rattle.buffered_bytes.specs.Gathering.{gathered};
ghost use Rattle.driver_core.specs.Trying.Summary.{totals_line};
ghost use Rattle.std.specs.Io.KnownBytes.{Appends};
ghost use Rattle.std.specs.Prelude.{OnErr, OnOk, codes, decimal, length, ◌++◌, ◌+◌, ◌≡◌, ◌≤◌};
ghost use Rattle.weave_base.specs.Causes.{HasCause};
ghost use Rattle.weave_base.specs.Parts.{AppendsPart};

use buffered_bytes::Gathered;
use ink_meter::InkCounts;
use itoa::Buffer;
use weave_base::{Failed, Sink};

/// The totals of pages that were made, printed and executed.
#[derive(Clone, Copy)]
pub struct Totals {
    /// How many pages were made.
    pub pages: u32,
    /// How many sheets their job ejected.
    pub sheets: u32,
    /// How many bytes the job has.
    pub bytes: u64,
    /// How many rasters the job has.
    pub rasters: u64,
    /// The dots of each ink on all sheets.
    pub dots: InkCounts,
}

// Appends a word and a number, for which there is room.
fn push_number(line: &mut Gathered, word: &str, number: u64)
    requires room { line.old.len + length word.now + 20 ≤ 8192 }
    ensures is { gathered line.new ≡ gathered line.old ++ word.now ++ decimal number }
    ensures len { line.new.len ≤ line.old.len + length word.now + 20 }
{
    let mut digits = Buffer::new();
    line.push(word.as_bytes());
    line.push(digits.format(number).as_bytes());
}

// Appends the counts of the inks.
fn push_dots(line: &mut Gathered, dots: &InkCounts)
    requires room { line.old.len + 100 ≤ 8192 }
    ensures is { gathered line.new ≡ gathered line.old ++ codes " k=" ++ decimal dots.now.k ++ codes " c=" ++ decimal dots.now.c
        ++ codes " m=" ++ decimal dots.now.m ++ codes " y=" ++ decimal dots.now.y }
    ensures len { line.new.len ≤ line.old.len + 100 }
{
    push_number(line, " k=", dots.k);
    push_number(line, " c=", dots.c);
    push_number(line, " m=", dots.m);
    push_number(line, " y=", dots.y);
}

/// Writes the summary line.
pub fn write_summary<K: Sink>(totals: &Totals, out: &mut K) -> Result<(), Failed>
    ensures ok { OnOk result (Appends (K.held out.old) (K.held out.new) (totals_line totals.now)) }
    ensures part { OnErr result (AppendsPart (K.held out.old) (K.held out.new) (totals_line totals.now)) }
    ensures cause { HasCause (K.faults out.old) (K.faults out.new) result }
{
    let mut line = Gathered::new();
    push_number(&mut line, "pages=", u64::from(totals.pages));
    push_number(&mut line, " sheets=", u64::from(totals.sheets));
    push_number(&mut line, " bytes=", totals.bytes);
    push_number(&mut line, " rasters=", totals.rasters);
    push_dots(&mut line, &totals.dots);
    line.push(b"\n");
    line.put(out)
}
