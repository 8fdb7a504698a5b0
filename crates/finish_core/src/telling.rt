//! Lines to the error sink. A write that fails there stops nothing.
ghost use Rattle.base_definitions.specs.Counting.{count_from};
ghost use Rattle.buffered_bytes.specs.Outside.{outside_of};
ghost use Rattle.driver_answer.specs.Answers.{line_of};
ghost use Rattle.finish_core.specs.Sides.{Tells};
ghost use Rattle.page_tally.specs.Lines.{cut_lines, page_lines, progress_line as progress_text, tenths};
ghost use Rattle.page_watch.specs.Watching.{seen_lines};
ghost use Rattle.std.specs.List.{flat_map};
ghost use Rattle.std.specs.Prelude.{[], if◌then◌else◌, ◌+◌, ◌-◌, ◌≡◌, ◌≤◌};

use arrayvec::ArrayString;
use driver_answer::Answer;
use escp2_definitions::Command;
use finish_definitions::PageState;
use page_tally::{Line, Tally, Telling, cut_page_line, page_line, progress_line};
use page_watch::SeenState;
use weave_base::{Sink, put_all};

// Writes a line, as much of it as the sink takes.
fn tell_line<E: Sink>(line: &[u8], err: &mut E)
    ensures tells { Tells (outside_of E.held E.faults err.old err.new) line.now }
    ensures later { E.faults err.old ≤ E.faults err.new }
{
    let _ = put_all(err, line);
}

// Writes a line for each tenth of the page's length that the head passed.
fn tell_tenths<E: Sink>(before: &Tally, after: &Tally, err: &mut E)
    ensures tells { Tells (outside_of E.held E.faults err.old err.new)
        (flat_map (progress_text before.now) (count_from (tenths before.now + 1) (tenths after.now - tenths before.now))) }
    ensures later { E.faults err.old ≤ E.faults err.new }
{
    let first = before.tenths();
    'tenths: for tenth in first..after.tenths() {
        let mut line = Line::new();
        progress_line(before, tenth + 1, &mut line);
        tell_line(line.as_bytes(), err);
    }
}

// The same, if progress is told.
fn tell_progress<E: Sink>(telling: Telling, before: &Tally, after: &Tally, err: &mut E)
    ensures tells { Tells (outside_of E.held E.faults err.old err.new) (if telling.progress then
        flat_map (progress_text before.now) (count_from (tenths before.now + 1) (tenths after.now - tenths before.now)) else []) }
    ensures later { E.faults err.old ≤ E.faults err.new }
{
    if telling.progress {
        tell_tenths(before, after, err);
    }
}

// Writes the line of a page that a form feed ejects, if pages are told.
fn tell_page<E: Sink>(telling: Telling, before: &Tally, command: Command, err: &mut E)
    ensures tells { Tells (outside_of E.held E.faults err.old err.new)
        (if telling.pages then page_lines before.now command else []) }
    ensures later { E.faults err.old ≤ E.faults err.new }
{
    if let Command::Eject = command {
        if telling.pages {
            let mut line = Line::new();
            page_line(before, &mut line);
            tell_line(line.as_bytes(), err);
        }
    }
}

/// Writes the lines that are due where a watch stopped, by its tally then.
pub fn tell_seen<E: Sink>(telling: Telling, after: &Tally, state: SeenState, err: &mut E)
    ensures tells { Tells (outside_of E.held E.faults err.old err.new) (seen_lines telling after.now state) }
    ensures later { E.faults err.old ≤ E.faults err.new }
{
    if let SeenState::Due(event) = state {
        tell_progress(telling, &event.before, after, err);
        tell_page(telling, &event.before, event.command, err);
    }
}

/// Writes the line of a page that is cut, if one is open.
pub fn tell_cut<E: Sink>(telling: Telling, tally: &Tally, err: &mut E)
    ensures tells { Tells (outside_of E.held E.faults err.old err.new) (cut_lines telling tally.now tally.now.state) }
    ensures later { E.faults err.old ≤ E.faults err.new }
{
    if let PageState::Open = tally.state {
        if telling.pages {
            let mut line = Line::new();
            cut_page_line(tally, &mut line);
            tell_line(line.as_bytes(), err);
        }
    }
}

/// Writes the error line of an answer.
pub fn tell_answer<E: Sink>(answer: &Answer, err: &mut E)
    ensures tells { Tells (outside_of E.held E.faults err.old err.new) (line_of answer.now) }
    ensures later { E.faults err.old ≤ E.faults err.new }
{
    let mut line = ArrayString::new();
    answer.text(&mut line);
    tell_line(line.as_bytes(), err);
}
