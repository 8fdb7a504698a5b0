//! Commands from a source, and where a job stops.
ghost use Rattle.std.specs.Prelude.{◌<◌, ◌^◌};

use crate::checks::{RASTER, same, same_bytes, source};
use escp2_definitions::{Command, JobStop};
use escp2_reader::{FeedStop, JobFeed, PlacedCommand};
use std::alloc::Global;
use std::test::Fail;

type Answer = Result<Option<PlacedCommand>, FeedStop>;

// The answers of a feed, two where the first is a command, and the rows after the first.
fn answers(alloc: Global, job: &[u8], most: u64) -> Result<(Vec<Answer>, Vec<u8>), Fail>
    requires { most < 2 ^ 63 }
{
    let mut source = source(alloc, job, 4096, 0)?;
    let mut feed = JobFeed::make(alloc, most)?;
    let mut given = Vec::new(alloc);
    let first = feed.next(&mut source);
    given.push(first)?;
    let rows = Vec::from_slice(alloc, feed.rows())?;
    if let Ok(Some(_)) = first {
        given.push(feed.next(&mut source))?;
    }
    Ok((given, rows))
}

fn placed(command: Command) -> Answer {
    Ok(Some(PlacedCommand { at: 0, command }))
}

fn stop(offset: u64, cause: JobStop) -> Answer {
    Err(FeedStop::Job { offset, cause })
}

// A reset, and a command without its last byte.
const CUT: [u8; 7] = [0x1B, 0x40, 0x1B, 0x28, 0x47, 1, 0];

#[test]
fn a_command_has_its_place_and_a_cut_job_its_fault(rt: HostRuntime) -> Result<(), Fail> {
    let (given, rows) = answers(rt.alloc(), &CUT, 7)?;
    let wanted = [placed(Command::Init), stop(2, JobStop::Cut)];
    same(&rt, "a cut job", &given.as_slice(), &wanted.as_slice());
    same_bytes(&rt, "its rows", &rows, &[]);
    Ok(())
}

#[test]
fn a_raster_comes_with_its_rows(rt: HostRuntime) -> Result<(), Fail> {
    let bytes = [0x1B, 0x2E, 1, 20, 10, 3, 8, 0, 0, 0, 0, 0, 0, 0xFF];
    let (given, rows) = answers(rt.alloc(), &bytes, 14)?;
    let wanted = [placed(RASTER), Ok(None)];
    same(&rt, "a raster", &given.as_slice(), &wanted.as_slice());
    same_bytes(&rt, "its rows", &rows, &[0, 0, 0xFF]);
    Ok(())
}

#[test]
fn a_byte_past_the_most_is_too_long(rt: HostRuntime) -> Result<(), Fail> {
    let (given, _) = answers(rt.alloc(), &CUT, 1)?;
    same(
        &rt,
        "a long job",
        &given.as_slice(),
        &[stop(1, JobStop::TooLong)].as_slice(),
    );
    Ok(())
}
