//! Small streams and jobs.
use crate::fixture::{GREY, Page, stream_of};
use job_fixtures::TINY_JOB;
use pwg_header::Kind;
use std::alloc::{AllocError, Global};

/// An input of a run.
#[derive(Clone, Copy)]
pub enum Input {
    /// A stream of one grey page of four columns and two lines.
    GreyPage,
    /// A stream of two RGB pages, of three columns and two lines and of nine columns and three lines.
    ColourPages,
    /// The known job.
    TinyJob,
    /// A job of two sheets with coded and plain rows.
    CodedJob,
}

// A run and two literal pixels; a run, and white up to the line's end.
const COLOUR_BODY: [u8; 18] = [
    0, 0, 0x20, 0x40, 0x60, 0xFF, 0x80, 0x10, 0xF0, 0x05, 0xC8, 0x64, 0, 1, 0x10, 0x20, 0x30, 0x80,
];

// Two lines of a run; three literal pixels and a run.
const SECOND_BODY: [u8; 20] = [
    1, 8, 0x30, 0x90, 0x60, 0, 0xFE, 0xFF, 0x00, 0x00, 0x00, 0xFF, 0x00, 0x70, 0x00, 0xFF, 5, 0x00,
    0x00, 0x00,
];

const COLOURS: [Page<'static>; 2] = [
    (Kind::Rgb8, (3, 2), &COLOUR_BODY),
    (Kind::Rgb8, (9, 3), &SECOND_BODY),
];

// Graphics mode, the unit, a page of twenty units and a margin of two. Then cyan from column 2 on, in 37 columns, by
// runs and literal bytes; black by plain rows; yellow on a second sheet.
const CODED_JOB: &[u8] = b"\x1B@\x1B(G\x01\x00\x01\x1B(U\x01\x00\x05\x1B(C\x02\x00\x14\x00\
    \x1B(c\x04\x00\x02\x00\x14\x00\x1Br\x02\x1B$\x04\x00\
    \x1B.\x01\x14\x0A\x03\x25\x00\xFC\xAA\xFF\x0F\x02\xF0\x01\x80\x00\x55\xFD\x00\
    \x1B(v\x02\x00\x02\x00\x0D\x1Br\x00\x1B.\x00\x14\x0A\x03\x08\x00\xC3\x00\x18\x0C\
    \x1Br\x04\x1B(V\x02\x00\x04\x00\
    \x1B.\x01\x14\x0A\x03\x10\x00\xFF\x81\x01\x00\x01\xFF\x7E\x0C\x1B@";

impl Input {
    /// Its bytes.
    pub fn bytes(self, alloc: Global) -> Result<Vec<u8>, AllocError> {
        match self {
            Input::GreyPage => stream_of(alloc, &[GREY]),
            Input::ColourPages => stream_of(alloc, &COLOURS),
            Input::TinyJob => TINY_JOB.to_vec(alloc),
            Input::CodedJob => CODED_JOB.to_vec(alloc),
        }
    }
}
