//! The answers of a run.
ghost use Rattle.driver_answer.specs.Answers.{check_words, dead_words, input_name as input_name_of};
ghost use Rattle.driver_answer.specs.Answers.{job_name as job_name_of, profile_words, shingle_words, text_words};
ghost use Rattle.driver_answer.specs.Answers.{usage_line};
ghost use Rattle.arrayvec.specs.ArrayString.{array_string_len};
ghost use Rattle.std.specs.Fmt.{decimal};
ghost use Rattle.std.specs.Prelude.{codes, length, ◌+◌, ◌++◌, ◌≡◌, ◌≤◌, []};

use crate::names::{check_name, input_name, job_name, text_name, usage_name};
use arrayvec::ArrayString;
use escp2_definitions::JobStop;
use itoa::Buffer;
use job_profile::{DeadFault, ProfileCause};
use job_words::UsageFault;
use printer_profile::{ProfileFault, TextCause, key_name};
use pwg_definitions::InputCause;

/// How a run of the driver ended. Pages and lines are counted from 1; page 0 is the sync word, line 0 a header.
#[derive(Clone, Copy, Debug, PartialEq, Eq)]
pub enum Answer {
    /// The command did all its work.
    Done,
    /// A word is refused.
    Usage(UsageFault),
    /// The profile is refused at this line of its text. Line 0 stands for the text as a whole.
    Profile {
        line: u32,
        cause: ProfileCause,
    },
    /// The input is refused at this place.
    Input {
        page: u32,
        line: u32,
        cause: InputCause,
    },
    /// A read failed.
    Read,
    /// A write failed, in this page.
    Write {
        page: u32,
    },
    /// This page would go past the cap of a meter, which has counted `total` dots.
    OverCap {
        page: u32,
        total: u64,
        dots: u64,
        cap: u64,
    },
    /// Memory ran out.
    Memory,
    /// The print job is refused at this offset.
    Job {
        offset: u64,
        cause: JobStop,
    },
}

/// The error line of an answer, with its line feed: at most 160 bytes.
pub type ErrorLine = ArrayString<160>;

/// Appends a number in decimal.
pub fn push_number(n: u32, out: &mut ErrorLine)
    requires { array_string_len out.old + 10 ≤ 160 }
    ensures bytes { out.new.bytes ≡ out.old.bytes ++ decimal n }
    ensures len { array_string_len out.new ≤ array_string_len out.old + 10 }
{
    let mut buffer = Buffer::new();
    out.push_str(buffer.format(n));
}

// Appends a number of 64 bits in decimal.
fn push_wide(n: u64, out: &mut ErrorLine)
    requires { array_string_len out.old + 20 ≤ 160 }
    ensures bytes { out.new.bytes ≡ out.old.bytes ++ decimal n }
    ensures len { array_string_len out.new ≤ array_string_len out.old + 20 }
{
    let mut buffer = Buffer::new();
    out.push_str(buffer.format(n));
}

// Appends a blank and a number.
fn push_carried(n: u32, out: &mut ErrorLine)
    requires { array_string_len out.old + 11 ≤ 160 }
    ensures bytes { out.new.bytes ≡ out.old.bytes ++ (codes " " ++ decimal n) }
    ensures len { array_string_len out.new ≤ array_string_len out.old + 11 }
{
    out.push_str(" ");
    push_number(n, out);
}

// Appends a check's fault and the number that it carries, if any.
fn push_check(fault: ProfileFault, out: &mut ErrorLine)
    requires { array_string_len out.old + 21 ≤ 160 }
    ensures bytes { out.new.bytes ≡ out.old.bytes ++ check_words fault }
    ensures len { array_string_len out.new ≤ array_string_len out.old + 21 }
{
    out.push_str(check_name(fault));
    match fault {
        ProfileFault::NotCoprime { gcd } => push_carried(u32::from(gcd), out),
        ProfileFault::TopMargin { needs } => push_carried(needs, out),
        ProfileFault::Curve { ink } => push_carried(u32::from(ink), out),
        _ => {}
    }
}

// Appends a text's fault, and the name of the missing key.
fn push_text(cause: TextCause, out: &mut ErrorLine)
    requires { array_string_len out.old + 22 ≤ 160 }
    ensures bytes { out.new.bytes ≡ out.old.bytes ++ text_words cause }
    ensures len { array_string_len out.new ≤ array_string_len out.old + 22 }
{
    out.push_str(text_name(cause));
    if let TextCause::Missing { key } = cause {
        out.push_str(" ");
        out.push_str(key_name(key));
    }
}

// Appends the fault of a list of dead nozzles, and the number that it carries.
fn push_dead(fault: DeadFault, out: &mut ErrorLine)
    requires { array_string_len out.old + 23 ≤ 160 }
    ensures bytes { out.new.bytes ≡ out.old.bytes ++ dead_words fault }
    ensures len { array_string_len out.new ≤ array_string_len out.old + 23 }
{
    match fault {
        DeadFault::NoSuchNozzle { nozzle } => {
            out.push_str("NoSuchNozzle");
            push_carried(u32::from(nozzle), out);
        }
        DeadFault::AllDead { nozzles } => {
            out.push_str("AllDead");
            push_carried(u32::from(nozzles), out);
        }
    }
}

// Appends that a head cannot shingle, with half its nozzles and their greatest common divisor with the pitch.
fn push_shingle(half: u8, gcd: u8, out: &mut ErrorLine)
    requires { array_string_len out.old + 31 ≤ 160 }
    ensures bytes { out.new.bytes ≡ out.old.bytes ++ shingle_words half gcd }
    ensures len { array_string_len out.new ≤ array_string_len out.old + 31 }
{
    out.push_str("NoShingle");
    push_carried(u32::from(half), out);
    push_carried(u32::from(gcd), out);
}

fn push_profile_cause(cause: ProfileCause, out: &mut ErrorLine)
    requires { array_string_len out.old + 31 ≤ 160 }
    ensures bytes { out.new.bytes ≡ out.old.bytes ++ profile_words cause }
    ensures len { array_string_len out.new ≤ array_string_len out.old + 31 }
{
    match cause {
        ProfileCause::Absent => out.push_str("Absent"),
        ProfileCause::TooLong => out.push_str("TooLong"),
        ProfileCause::Text(cause) => push_text(cause, out),
        ProfileCause::Check(fault) => push_check(fault, out),
        ProfileCause::Dead(fault) => push_dead(fault, out),
        ProfileCause::NoShingle { half, gcd } => push_shingle(half, gcd, out),
    }
}

/// Writes the error line of a refused word into an empty text, with the number of the word and the name of the cause.
pub fn push_usage(word: u32, name: &str, out: &mut ErrorLine)
    requires empty { array_string_len out.old ≡ 0 }
    requires short { length name.now ≤ 16 }
    ensures { out.new.bytes ≡ out.old.bytes ++ usage_line word name.now }
{
    out.push_str("usage: word ");
    push_number(word, out);
    out.push_str(": ");
    out.push_str(name);
    out.push_str("\n");
}

fn push_profile(line: u32, cause: ProfileCause, out: &mut ErrorLine)
    requires { array_string_len out.old ≡ 0 }
    ensures { out.new.bytes ≡ out.old.bytes
        ++ (codes "profile: line " ++ decimal line ++ codes ": " ++ profile_words cause ++ codes "\n") }
{
    out.push_str("profile: line ");
    push_number(line, out);
    out.push_str(": ");
    push_profile_cause(cause, out);
    out.push_str("\n");
}

fn push_input(page: u32, line: u32, cause: InputCause, out: &mut ErrorLine)
    requires { array_string_len out.old ≡ 0 }
    ensures { out.new.bytes ≡ out.old.bytes ++ (codes "input: page "
        ++ decimal page ++ codes " line " ++ decimal line ++ codes ": " ++ input_name_of cause ++ codes "\n") }
{
    out.push_str("input: page ");
    push_number(page, out);
    out.push_str(" line ");
    push_number(line, out);
    out.push_str(": ");
    out.push_str(input_name(cause));
    out.push_str("\n");
}

fn push_write(page: u32, out: &mut ErrorLine)
    requires { array_string_len out.old ≡ 0 }
    ensures { out.new.bytes ≡ out.old.bytes ++ (codes "write failed: page " ++ decimal page ++ codes "\n") }
{
    out.push_str("write failed: page ");
    push_number(page, out);
    out.push_str("\n");
}

fn push_over_cap(page: u32, total: u64, dots: u64, cap: u64, out: &mut ErrorLine)
    requires { array_string_len out.old ≡ 0 }
    ensures { out.new.bytes ≡ out.old.bytes ++ (codes "over cap: page " ++ decimal page ++ codes ": total "
        ++ decimal total ++ codes ", page " ++ decimal dots ++ codes ", cap " ++ decimal cap ++ codes "\n") }
{
    out.push_str("over cap: page ");
    push_number(page, out);
    out.push_str(": total ");
    push_wide(total, out);
    out.push_str(", page ");
    push_wide(dots, out);
    out.push_str(", cap ");
    push_wide(cap, out);
    out.push_str("\n");
}

fn push_job(offset: u64, cause: JobStop, out: &mut ErrorLine)
    requires { array_string_len out.old ≡ 0 }
    ensures { out.new.bytes ≡ out.old.bytes
        ++ (codes "job: offset " ++ decimal offset ++ codes ": " ++ job_name_of cause ++ codes "\n") }
{
    out.push_str("job: offset ");
    push_wide(offset, out);
    out.push_str(": ");
    out.push_str(job_name(cause));
    out.push_str("\n");
}

impl Answer {
    ghost use Rattle.driver_answer.specs.Answers.{line_of, status_of};

    /// The exit status: 0 to 8, in the order of the answers.
    pub fn status(&self) -> u8
        ensures { result ≡ status_of self.now }
    {
        match *self {
            Answer::Done => 0,
            Answer::Usage(_) => 1,
            Answer::Profile { .. } => 2,
            Answer::Input { .. } => 3,
            Answer::Read => 4,
            Answer::Write { .. } => 5,
            Answer::OverCap { .. } => 6,
            Answer::Memory => 7,
            Answer::Job { .. } => 8,
        }
    }

    /// Writes the answer's error line, with its line end, into an empty text; nothing for `Done`.
    pub fn text(&self, out: &mut ErrorLine)
        requires { out.old.bytes ≡ [] }
        ensures { out.new.bytes ≡ line_of self.now }
    {
        match *self {
            Answer::Done => {}
            Answer::Usage(fault) => push_usage(fault.word, usage_name(fault.cause), out),
            Answer::Profile { line, cause } => push_profile(line, cause, out),
            Answer::Input { page, line, cause } => push_input(page, line, cause, out),
            Answer::Read => out.push_str("read failed\n"),
            Answer::Write { page } => push_write(page, out),
            Answer::OverCap {
                page,
                total,
                dots,
                cap,
            } => push_over_cap(page, total, dots, cap, out),
            Answer::Memory => out.push_str("out of memory\n"),
            Answer::Job { offset, cause } => push_job(offset, cause, out),
        }
    }
}
