//! The report of a run.
ghost use Rattle.buffered_bytes.specs.Outside.{outside_of};
ghost use Rattle.spool_core.specs.Answers.{IsReported, report_line, report_lines, spool_text};
ghost use Rattle.std.specs.Io.KnownBytes.{Appends};
ghost use Rattle.std.specs.Prelude.{[], OnErr, OnOk, ◌≡◌, ◌≤◌};
ghost use Rattle.weave_base.specs.Causes.{Rose};
ghost use Rattle.weave_base.specs.Parts.{AppendsPart};

use crate::answer::SpoolAnswer;
use arrayvec::ArrayString;
use driver_answer::{ErrorLine, push_number};
use weave_base::{Failed, Sink, put_all};

/// A job that ran: its sender and its number, both counted from 1, how many of its pages were written whole, and the
/// status of its printing, as `run` of the driver returns it.
#[derive(Clone, Copy, Debug, PartialEq, Eq)]
pub struct Ran {
    pub sender: u8,
    pub number: u32,
    pub pages: u32,
    pub status: u8,
}

/// What a run of the spool did: its exit status, the answer with that status, and the jobs that ran, in their order.
#[derive(Debug, Drop)]
pub struct SpoolReport {
    pub status: u8,
    pub answer: SpoolAnswer,
    pub done: Vec<Ran>,
}

// Writes the line of a job that ran into an empty text.
fn push_ran(ran: &Ran, out: &mut ErrorLine)
    requires { out.old.bytes ≡ [] }
    ensures { out.new.bytes ≡ report_line ran.now }
{
    out.push_str("job ");
    push_number(u32::from(ran.sender), out);
    out.push_str(".");
    push_number(ran.number, out);
    out.push_str(": status ");
    push_number(u32::from(ran.status), out);
    out.push_str(", pages ");
    push_number(ran.pages, out);
    out.push_str("\n");
}

// Writes a line for each job that ran, up to the first write that fails.
fn tell_done<E: Sink>(done: &[Ran], err: &mut E) -> Result<(), Failed>
    ensures ok { OnOk result (Appends (E.held err.old) (E.held err.new) (report_lines done.now)) }
    ensures part { OnErr result (AppendsPart (E.held err.old) (E.held err.new) (report_lines done.now)) }
    ensures later { E.faults err.old ≤ E.faults err.new }
    ensures cause { OnErr result (Rose (E.faults err.old) (E.faults err.new)) }
{
    for ran in done {
        let mut line = ArrayString::new();
        push_ran(ran, &mut line);
        put_all(err, line.as_bytes())?;
    }
    Ok(())
}

/// Writes a line for each job that ran, in their order, and then the line of the answer, up to the first write that
/// fails.
pub fn tell<E: Sink>(done: &[Ran], answer: &SpoolAnswer, err: &mut E)
    ensures { IsReported (outside_of E.held E.faults err.old err.new) (spool_text done.now answer.now) }
{
    if tell_done(done, err).is_err() {
        return;
    }
    let mut line = ArrayString::new();
    answer.text(&mut line);
    let _ = put_all(err, line.as_bytes());
}
