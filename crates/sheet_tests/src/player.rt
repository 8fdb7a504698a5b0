//! A job's sheet, and where a job stops.
use crate::checks::same;
use escp2_definitions::EmulatorFault;
use job_fixtures::{TINY_IMAGES, TINY_JOB};
use job_player::{JobStop, PlayStop, play_job};
use printer_profile::TINY;
use std::alloc::Global;
use std::process::Abort;
use std::test::Fail;
use weave_base::{MemSink, MemSource};

// Plays the first bytes of the job into a sink with this room, which is to end so and to hold these images then.
fn plays(
    rt: &impl Abort,
    alloc: Global,
    (job, room): (&[u8], usize),
    (end, images): (Result<(), PlayStop>, &[u8]),
) -> Result<(), Fail> {
    assert!(rt; TINY.check() == Ok(()));
    let bytes = Vec::from_slice(alloc, job)?;
    let mut input = MemSource::make(bytes, Vec::new(alloc), Vec::new(alloc));
    let mut out = MemSink::make(alloc, room, Vec::new(alloc), Vec::new(alloc))?;
    same(
        rt,
        "the end",
        &play_job(alloc, &TINY, 200, &mut input, &mut out),
        &end,
    );
    assert!(rt; out.bytes() == images);
    Ok(())
}

#[test]
fn a_sheet_is_four_images(rt: HostRuntime) -> Result<(), Fail> {
    plays(&rt, rt.alloc(), (&TINY_JOB, 64), (Ok(()), TINY_IMAGES))
}

// The beginning of a page of six rows, and of one of four.
const SIX_ROWS: &[u8] = b"\x1B@\x1B(G\x01\x00\x01\x1B(U\x01\x00\x05\
    \x1B(C\x02\x00\x0C\x00\x1B(c\x04\x00\x00\x00\x0C\x00";

const FOUR_ROWS: &[u8] = b"\x1B(C\x02\x00\x08\x00\x1B(c\x04\x00\x00\x00\x08\x00";

const EJECT: &[u8] = b"\x0C";

// Fires row 4, and ejects the sheet.
const FILL: &[u8] = b"\x1B.\x00\x14\x0A\x03\x08\x00\x00\x00\xFF\x0C";

const SIX_BLANK: &[u8] = b"P4\n1 6\n\x00\x00\x00\x00\x00\x00\
    P4\n1 6\n\x00\x00\x00\x00\x00\x00\
    P4\n1 6\n\x00\x00\x00\x00\x00\x00\
    P4\n1 6\n\x00\x00\x00\x00\x00\x00";

const FOUR_BLANK: &[u8] = b"P4\n1 4\n\x00\x00\x00\x00P4\n1 4\n\x00\x00\x00\x00\
    P4\n1 4\n\x00\x00\x00\x00P4\n1 4\n\x00\x00\x00\x00";

const FILLED: &[u8] = b"P4\n8 6\n\x00\x00\x00\x00\xFF\x00\
    P4\n8 6\n\x00\x00\x00\x00\x00\x00\
    P4\n8 6\n\x00\x00\x00\x00\x00\x00\
    P4\n8 6\n\x00\x00\x00\x00\x00\x00";

#[test]
fn sheets_show_their_own_dots_alone_whatever_was_before(rt: HostRuntime) -> Result<(), Fail> {
    const PIECES: [(&[u8], &[u8]); 11] = [
        (SIX_ROWS, b""),
        (EJECT, SIX_BLANK),
        (EJECT, SIX_BLANK),
        (FILL, FILLED),
        (EJECT, SIX_BLANK),
        (FOUR_ROWS, b""),
        (EJECT, FOUR_BLANK),
        (EJECT, FOUR_BLANK),
        (SIX_ROWS, b""),
        (FILL, FILLED),
        (EJECT, SIX_BLANK),
    ];
    let mut job = Vec::new(rt.alloc());
    let mut images = Vec::new(rt.alloc());
    for (bytes, shown) in &PIECES {
        job.extend_from_slice(bytes)?;
        images.extend_from_slice(shown)?;
    }
    plays(&rt, rt.alloc(), (&job, 1000), (Ok(()), &images))
}

#[test]
fn a_cut_job_leaves_no_image(rt: HostRuntime) -> Result<(), Fail> {
    let cut = PlayStop::Job {
        offset: 8,
        cause: JobStop::Cut,
    };
    plays(&rt, rt.alloc(), (&TINY_JOB[..10], 64), (Err(cut), b""))
}

#[test]
fn a_full_sink_names_the_sheet(rt: HostRuntime) -> Result<(), Fail> {
    let stop = PlayStop::Write { sheet: 1 };
    plays(&rt, rt.alloc(), (&TINY_JOB, 5), (Err(stop), b"P4\n8 "))
}

// Plays a job a byte a call, of which the call of this number fails: the bytes before it are all that is read.
fn plays_until(
    rt: &impl Abort,
    alloc: Global,
    (job, call): (&[u8], u32),
    (end, images): (Result<(), PlayStop>, &[u8]),
) -> Result<(), Fail> {
    assert!(rt; TINY.check() == Ok(()));
    let bytes = Vec::from_slice(alloc, job)?;
    let pieces = vec![in alloc; 1]?;
    let mut input = MemSource::make(bytes, pieces, vec![in alloc; call]?);
    let mut out = MemSink::make(alloc, 64, Vec::new(alloc), Vec::new(alloc))?;
    let played = play_job(alloc, &TINY, 92, &mut input, &mut out);
    same(rt, "a failing call", &played, &end);
    assert!(rt; out.bytes() == images);
    Ok(())
}

const READ: Result<(), PlayStop> = Err(PlayStop::Read);

#[test]
fn a_failed_read_leaves_the_images_of_all_ejected_sheets(rt: HostRuntime) -> Result<(), Fail> {
    // The command that ejects the sheet is the byte 90 of the job.
    for call in 1..=93 {
        let images: &[u8] = if call <= 90 { b"" } else { TINY_IMAGES };
        plays_until(&rt, rt.alloc(), (&TINY_JOB, call), (READ, images))?;
    }
    Ok(())
}

#[test]
fn a_refused_command_comes_before_a_failed_read(rt: HostRuntime) -> Result<(), Fail> {
    // The first pass twice: the second time ends with byte 79.
    let mut job = Vec::from_slice(rt.alloc(), &TINY_JOB[..64])?;
    job.push(0x0D)?;
    job.extend_from_slice(&TINY_JOB[50..64])?;
    let refused = Err(PlayStop::Job {
        offset: 65,
        cause: JobStop::Machine(EmulatorFault::Overprint),
    });
    plays_until(&rt, rt.alloc(), (job.as_slice(), 79), (READ, b""))?;
    plays_until(&rt, rt.alloc(), (job.as_slice(), 80), (refused, b""))
}
