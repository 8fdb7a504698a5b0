//! Listings of whole, refused and truncated jobs.
use crate::checks::{same, same_bytes, sink, source};
use escp2_definitions::JobCause;
use job_fixtures::TINY_JOB;
use job_lister::{JobStop, ListStop, list_job};
use std::alloc::Global;
use std::process::Abort;
use std::test::Fail;

const LISTING: &[u8] =
    b"0 INIT\n2 GRAPHICS\n8 UNIT 5\n14 MICROWEAVE 0\n20 ONEWAY 1\n23 LENGTH 12\n30 MARGINS 0 12\n\
    39 DOWNTO 0\n46 COLOUR 0\n49 RETURN\n50 RASTER 1 20 10 3 8 8\n64 DOWNBY 6\n71 COLOUR 0\n74 RETURN\n\
    75 RASTER 1 20 10 3 8 8\n89 EJECT\n90 INIT\n";

// How a job is given and its listing taken: the most bytes of the job, the pieces in which it comes, the read that
// fails, and the room for the listing.
#[derive(Clone, Copy)]
struct Way {
    most: u64,
    piece: u32,
    fails: u32,
    room: usize,
}

const WAY: Way = Way {
    most: 99,
    piece: 3,
    fails: 0,
    room: 4096,
};

// Lists a job, and compares the answer and the listing.
fn lists(
    rt: &impl Abort,
    alloc: Global,
    job: &[u8],
    way: Way,
    end: Result<(), ListStop>,
    listing: &[u8],
) -> Result<(), Fail> {
    assert!(rt; way.most < 100);
    let mut input = source(alloc, job, way.piece, way.fails)?;
    let mut out = sink(alloc, way.room, 4096, 0)?;
    same(
        rt,
        "the end",
        &list_job(alloc, way.most, &mut input, &mut out),
        &end,
    );
    same_bytes(rt, "the listing", out.bytes(), listing);
    Ok(())
}

#[test]
fn list_gives_seventeen_lines(rt: HostRuntime) -> Result<(), Fail> {
    for piece in [1, 7, 92] {
        let way = Way {
            most: 92,
            piece,
            ..WAY
        };
        lists(&rt, rt.alloc(), &TINY_JOB, way, Ok(()), LISTING)?;
    }
    Ok(())
}

#[test]
fn a_raster_in_another_colour_has_its_dots(rt: HostRuntime) -> Result<(), Fail> {
    // A raster in cyan of two rows of eleven columns: six dots in the first row, eleven in the second, and five bits
    // past its last column, which are no dots.
    let job = [
        0x1B, 0x40, // a reset
        0x1B, 0x72, 0x02, // cyan
        0x0D, // the left margin
        0x1B, 0x2E, 0x01, 0x14, 0x0A, 0x02, 0x0B, 0x00, // the numbers of the raster
        0x01, 0xF0, 0x60, // its first row, as two bytes
        0xFF, 0xFF, // its second, as a byte twice
        0x0C, // the end of the page
    ];
    let listing = b"0 INIT\n2 COLOUR 2\n5 RETURN\n6 RASTER 1 20 10 2 11 17\n19 EJECT\n";
    lists(&rt, rt.alloc(), &job, WAY, Ok(()), listing)
}

#[test]
fn list_names_each_reader_fault(rt: HostRuntime) -> Result<(), Fail> {
    // A job, the most bytes of one, and where and why it is refused.
    let cases: [(&[u8], u64, u64, JobStop, usize); 7] = [
        (&TINY_JOB[..10], 99, 8, JobStop::Cut, 18),
        (&TINY_JOB[..11], 10, 10, JobStop::TooLong, 18),
        (&TINY_JOB[..11], 8, 8, JobStop::TooLong, 18),
        (&[0x1B, 0x41], 99, 1, JobStop::Reader(JobCause::Unknown), 0),
        (
            &[0x1B, 0x28, 0x47, 0x02, 0x00],
            99,
            3,
            JobStop::Reader(JobCause::BadLength),
            0,
        ),
        (
            &[0x1B, 0x72, 0x03],
            99,
            2,
            JobStop::Reader(JobCause::BadValue),
            0,
        ),
        (
            &[0x1B, 0x2E, 0x01, 0x14, 0x0A, 0x03, 0x08, 0x00, 0x80],
            99,
            8,
            JobStop::Reader(JobCause::RunCode),
            0,
        ),
    ];
    for (job, most, offset, cause, len) in cases {
        let stop = Err(ListStop::Job { offset, cause });
        let (listed, _) = LISTING.split_at(len.min(18));
        lists(&rt, rt.alloc(), job, Way { most, ..WAY }, stop, listed)?;
    }
    Ok(())
}

// A command of the job: where it begins and ends, and the length of the listing before it.
type Part = (usize, usize, usize);

const PARTS: [Part; 18] = [
    (0, 2, 0),
    (2, 8, 7),
    (8, 14, 18),
    (14, 20, 27),
    (20, 23, 43),
    (23, 30, 55),
    (30, 39, 68),
    (39, 46, 84),
    (46, 49, 96),
    (49, 50, 108),
    (50, 64, 118),
    (64, 71, 142),
    (71, 74, 154),
    (74, 75, 166),
    (75, 89, 176),
    (89, 90, 200),
    (90, 92, 209),
    (92, 93, 217),
];

// The first bytes of the job, up to a place in this command: as the whole of a job, and as all that is read of it.
fn lists_prefix(
    rt: &impl Abort,
    alloc: Global,
    length: usize,
    (start, _, listed): Part,
) -> Result<(), Fail> {
    let (job, _) = TINY_JOB.split_at(length.min(92));
    let (listing, _) = LISTING.split_at(listed.min(217));
    let cut = ListStop::Job {
        offset: start as u64,
        cause: JobStop::Cut,
    };
    let end = if length == start { Ok(()) } else { Err(cut) };
    let way = Way { piece: 1, ..WAY };
    lists(rt, alloc, job, way, end, listing)?;
    let fails = u32::try_from(length.saturating_add(1)).unwrap_or(0);
    let read = Err(ListStop::Read);
    lists(rt, alloc, &TINY_JOB, Way { fails, ..way }, read, listing)
}

// The same for each place in this command.
fn lists_prefixes(rt: &impl Abort, alloc: Global, part: Part) -> Result<(), Fail> {
    for length in part.0..part.1 {
        lists_prefix(rt, alloc, length, part)?;
    }
    Ok(())
}

#[test]
fn a_cut_or_a_failed_read_leaves_the_lines_of_all_whole_commands(
    rt: HostRuntime,
) -> Result<(), Fail> {
    for &part in &PARTS {
        lists_prefixes(&rt, rt.alloc(), part)?;
    }
    Ok(())
}

#[test]
fn a_fault_that_was_read_comes_before_a_failed_read(rt: HostRuntime) -> Result<(), Fail> {
    const UNKNOWN: JobStop = JobStop::Reader(JobCause::Unknown);
    const VALUE: JobStop = JobStop::Reader(JobCause::BadValue);
    // A job, the most bytes of one, the byte after which reads fail, and where and why it is then refused.
    let cases: [(&[u8], u64, u32, u64, JobStop, usize); 3] = [
        (&[0x1B, 0x41], 99, 2, 1, UNKNOWN, 0),
        (&[0x1B, 0x72, 0x03], 99, 3, 2, VALUE, 0),
        (&TINY_JOB[..11], 10, 11, 10, JobStop::TooLong, 18),
    ];
    for (job, most, shown, offset, cause, len) in cases {
        let (listed, _) = LISTING.split_at(len.min(18));
        let early = Way {
            most,
            piece: 1,
            fails: shown,
            ..WAY
        };
        lists(&rt, rt.alloc(), job, early, Err(ListStop::Read), listed)?;
        let stop = Err(ListStop::Job { offset, cause });
        let late = Way {
            fails: shown + 1,
            ..early
        };
        lists(&rt, rt.alloc(), job, late, stop, listed)?;
    }
    Ok(())
}

#[test]
fn a_full_sink_leaves_the_front_of_the_listing(rt: HostRuntime) -> Result<(), Fail> {
    let full = Way {
        most: 92,
        piece: 92,
        room: 30,
        ..WAY
    };
    lists(
        &rt,
        rt.alloc(),
        &TINY_JOB,
        full,
        Err(ListStop::Write),
        &LISTING[..30],
    )
}
