//! How a run of the spool can end.
ghost use Rattle.arrayvec.specs.ArrayString.{array_string_len};
ghost use Rattle.std.specs.Fmt.{decimal};
ghost use Rattle.std.specs.Prelude.{[], codes, length, ◌+◌, ◌++◌, ◌≡◌, ◌≤◌};
ghost use Rattle.spool_core.specs.Answers.{file_name as file_name_of, usage_name as usage_name_of};

use crate::files::FileCause;
use driver_answer::{Answer, ErrorLine, ProfileCause, push_number, push_usage};
use spool_words::{SpoolCause, SpoolFault};

/// How a run of the spool ended. Senders, their jobs and the pages of a job are counted from 1.
#[derive(Clone, Copy, Debug, PartialEq, Eq)]
pub enum SpoolAnswer {
    /// Every job was printed.
    Done,
    /// A word is refused.
    Usage(SpoolFault),
    /// The profile is refused at this line of its text; line 0 for the text as a whole.
    Profile {
        line: u32,
        cause: ProfileCause,
    },
    /// The file of this job is refused.
    File {
        sender: u8,
        job: u32,
        cause: FileCause,
    },
    /// The read of the profile failed.
    Read,
    /// The read of this job's file failed, after the files of all jobs before it were read.
    ReadFile {
        sender: u8,
        job: u32,
    },
    /// A write failed, in this page of this job.
    Write {
        sender: u8,
        job: u32,
        page: u32,
    },
    /// Memory ran out.
    Memory,
    /// All jobs ran, and the input of `count` jobs was refused, or went past the cap of a meter.
    Failed {
        count: u32,
    },
}

fn usage_name(cause: SpoolCause) -> &'static str
    ensures name { result.now ≡ usage_name_of cause }
    ensures len { length result.now ≤ 16 }
{
    match cause {
        SpoolCause::NotKeyValue => "NotKeyValue",
        SpoolCause::UnknownKey => "UnknownKey",
        SpoolCause::RepeatedKey => "RepeatedKey",
        SpoolCause::BadValue => "BadValue",
        SpoolCause::NoSend => "NoSend",
    }
}

fn file_name(cause: FileCause) -> &'static str
    ensures name { result.now ≡ file_name_of cause }
    ensures len { length result.now ≤ 16 }
{
    match cause {
        FileCause::Absent => "Absent",
        FileCause::TooLong => "TooLong",
    }
}

fn push_file(sender: u8, job: u32, cause: FileCause, out: &mut ErrorLine)
    requires { array_string_len out.old ≡ 0 }
    ensures { out.new.bytes ≡ out.old.bytes ++ (codes "file: sender " ++ decimal sender ++ codes " job "
        ++ decimal job ++ codes ": " ++ file_name_of cause ++ codes "\n") }
{
    out.push_str("file: sender ");
    push_number(u32::from(sender), out);
    out.push_str(" job ");
    push_number(job, out);
    out.push_str(": ");
    out.push_str(file_name(cause));
    out.push_str("\n");
}

fn push_write(sender: u8, job: u32, page: u32, out: &mut ErrorLine)
    requires { array_string_len out.old ≡ 0 }
    ensures { out.new.bytes ≡ out.old.bytes ++ (codes "write failed: sender " ++ decimal sender ++ codes " job "
        ++ decimal job ++ codes " page " ++ decimal page ++ codes "\n") }
{
    out.push_str("write failed: sender ");
    push_number(u32::from(sender), out);
    out.push_str(" job ");
    push_number(job, out);
    out.push_str(" page ");
    push_number(page, out);
    out.push_str("\n");
}

fn push_failed(count: u32, out: &mut ErrorLine)
    requires { array_string_len out.old ≡ 0 }
    ensures { out.new.bytes ≡ out.old.bytes ++ (codes "jobs failed: " ++ decimal count ++ codes "\n") }
{
    out.push_str("jobs failed: ");
    push_number(count, out);
    out.push_str("\n");
}

impl SpoolAnswer {
    ghost use Rattle.spool_core.specs.Answers.{spool_line, spool_status};

    /// The exit status: 0 to 5, 7 and 9.
    pub fn status(&self) -> u8
        ensures { result ≡ spool_status self.now }
    {
        match *self {
            SpoolAnswer::Done => 0,
            SpoolAnswer::Usage(_) => 1,
            SpoolAnswer::Profile { .. } => 2,
            SpoolAnswer::File { .. } => 3,
            SpoolAnswer::Read | SpoolAnswer::ReadFile { .. } => 4,
            SpoolAnswer::Write { .. } => 5,
            SpoolAnswer::Memory => 7,
            SpoolAnswer::Failed { .. } => 9,
        }
    }

    /// Writes the answer's line, with its line end, into an empty text; nothing for `Done`.
    pub fn text(&self, out: &mut ErrorLine)
        requires { out.old.bytes ≡ [] }
        ensures { out.new.bytes ≡ spool_line self.now }
    {
        match *self {
            SpoolAnswer::Done => {}
            SpoolAnswer::Usage(fault) => push_usage(fault.word, usage_name(fault.cause), out),
            SpoolAnswer::Profile { line, cause } => Answer::Profile { line, cause }.text(out),
            SpoolAnswer::File { sender, job, cause } => push_file(sender, job, cause, out),
            SpoolAnswer::Read | SpoolAnswer::ReadFile { .. } => Answer::Read.text(out),
            SpoolAnswer::Write { sender, job, page } => push_write(sender, job, page, out),
            SpoolAnswer::Memory => Answer::Memory.text(out),
            SpoolAnswer::Failed { count } => push_failed(count, out),
        }
    }
}
