//! The names of causes, as the error line prints them.
ghost use Rattle.driver_answer.specs.Answers.{check_name as check_name_of, header_name as header_name_of};
ghost use Rattle.driver_answer.specs.Answers.{input_name as input_name_of, job_name as job_name_of};
ghost use Rattle.driver_answer.specs.Answers.{line_name as line_name_of, machine_name as machine_name_of};
ghost use Rattle.driver_answer.specs.Answers.{reader_name as reader_name_of, text_name as text_name_of};
ghost use Rattle.driver_answer.specs.Answers.{usage_name as usage_name_of};
ghost use Rattle.std.specs.Prelude.{◌≡◌, ◌≤◌, length};

use escp2_definitions::{EmulatorFault, JobCause, JobStop};
use job_words::UsageCause;
use printer_profile::{ProfileFault, TextCause};
use pwg_definitions::{HeaderFault, InputCause, LineFault};

/// The name of a refused word's cause.
pub fn usage_name(cause: UsageCause) -> &'static str
    ensures name { result.now ≡ usage_name_of cause }
    ensures len { length result.now ≤ 16 }
{
    match cause {
        UsageCause::NoCommand => "NoCommand",
        UsageCause::UnknownCommand => "UnknownCommand",
        UsageCause::NotKeyValue => "NotKeyValue",
        UsageCause::UnknownKey => "UnknownKey",
        UsageCause::RepeatedKey => "RepeatedKey",
        UsageCause::BadValue => "BadValue",
        UsageCause::Together => "Together",
    }
}

fn header_name(fault: HeaderFault) -> &'static str
    ensures name { result.now ≡ header_name_of fault }
    ensures len { length result.now ≤ 16 }
{
    match fault {
        HeaderFault::NotPwg => "NotPwg",
        HeaderFault::Resolution => "Resolution",
        HeaderFault::Width => "Width",
        HeaderFault::Height => "Height",
        HeaderFault::Kind => "Kind",
        HeaderFault::BytesPerLine => "BytesPerLine",
        HeaderFault::Order => "Order",
        HeaderFault::Transform => "Transform",
    }
}

fn line_name(fault: LineFault) -> &'static str
    ensures name { result.now ≡ line_name_of fault }
    ensures len { length result.now ≤ 16 }
{
    match fault {
        LineFault::RunPastLine => "RunPastLine",
        LineFault::GroupPastPage => "GroupPastPage",
    }
}

/// The name of a refused input's cause.
pub fn input_name(cause: InputCause) -> &'static str
    ensures name { result.now ≡ input_name_of cause }
    ensures len { length result.now ≤ 16 }
{
    match cause {
        InputCause::BadSync => "BadSync",
        InputCause::Truncated => "Truncated",
        InputCause::TooManyPages => "TooManyPages",
        InputCause::Header(fault) => header_name(fault),
        InputCause::Line(fault) => line_name(fault),
    }
}

/// The name of a refused profile text's cause.
pub fn text_name(cause: TextCause) -> &'static str
    ensures name { result.now ≡ text_name_of cause }
    ensures len { length result.now ≤ 11 }
{
    match cause {
        TextCause::BadHead => "BadHead",
        TextCause::NotAscii => "NotAscii",
        TextCause::NoEquals => "NoEquals",
        TextCause::UnknownKey => "UnknownKey",
        TextCause::RepeatedKey => "RepeatedKey",
        TextCause::BadValue => "BadValue",
        TextCause::Missing { .. } => "Missing",
    }
}

/// The name of a profile's fault.
pub fn check_name(fault: ProfileFault) -> &'static str
    ensures name { result.now ≡ check_name_of fault }
    ensures len { length result.now ≤ 10 }
{
    match fault {
        ProfileFault::Resolution => "Resolution",
        ProfileFault::Nozzles => "Nozzles",
        ProfileFault::Pitch => "Pitch",
        ProfileFault::NotCoprime { .. } => "NotCoprime",
        ProfileFault::RowStep => "RowStep",
        ProfileFault::TopMargin { .. } => "TopMargin",
        ProfileFault::BlackStart => "BlackStart",
        ProfileFault::Curve { .. } => "Curve",
    }
}

fn reader_name(cause: JobCause) -> &'static str
    ensures name { result.now ≡ reader_name_of cause }
    ensures len { length result.now ≤ 16 }
{
    match cause {
        JobCause::Unknown => "Unknown",
        JobCause::BadLength => "BadLength",
        JobCause::BadValue => "BadValue",
        JobCause::RunCode => "RunCode",
    }
}

fn machine_name(fault: EmulatorFault) -> &'static str
    ensures name { result.now ≡ machine_name_of fault }
    ensures len { length result.now ≤ 16 }
{
    match fault {
        EmulatorFault::NotGraphics => "NotGraphics",
        EmulatorFault::NoUnit => "NoUnit",
        EmulatorFault::NoMargins => "NoMargins",
        EmulatorFault::Density => "Density",
        EmulatorFault::Rows => "Rows",
        EmulatorFault::Backward => "Backward",
        EmulatorFault::OffGrid => "OffGrid",
        EmulatorFault::OffSheet => "OffSheet",
        EmulatorFault::Overprint => "Overprint",
    }
}

/// The name of a refused job's cause.
pub fn job_name(cause: JobStop) -> &'static str
    ensures name { result.now ≡ job_name_of cause }
    ensures len { length result.now ≤ 16 }
{
    match cause {
        JobStop::Reader(cause) => reader_name(cause),
        JobStop::Cut => "Cut",
        JobStop::Machine(fault) => machine_name(fault),
        JobStop::TooLong => "TooLong",
    }
}
