//! The job that was worked out by hand, cut in two at each place, and bytes that are not a command.
ghost use Rattle.escp2_reader.specs.Reading.{fed_of, is_failed_of, shows_fault};
ghost use Rattle.std.specs.Prelude.{IfOk, false, length, ◌+◌, ◌<◌, ◌≡◌, ◌≤◌, ◌^◌};

use crate::checks::{HEADER, same, same_bytes};
use escp2_reader::{Command, Cut, Heard, HeardState, JobCause, JobReader, RasterHead};
use job_fixtures::{TINY_COMMANDS, TINY_JOB};
use std::alloc::Global;
use std::process::Abort;
use std::test::Fail;

// What was read: the commands, and of each how many bytes of rows it has, and these.
#[derive(Drop)]
struct Read {
    commands: Vec<Command>,
    rows: Vec<u8>,
}

// Of the commands of the job, the rasters alone have rows, of three bytes each.
const TINY_ROWS: [u8; 23] = [
    0, 0, 0, 0, 0, 0, 0, 0, 0, 0, 3, 0x00, 0x00, 0xFF, 0, 0, 0, 3, 0x00, 0xFF, 0x00, 0, 0,
];

impl Read {
    fn new(alloc: Global) -> Read {
        Read {
            commands: Vec::new(alloc),
            rows: Vec::new(alloc),
        }
    }

    fn push(&mut self, command: Command, rows: &[u8]) -> Result<(), Fail> {
        self.commands.push(command)?;
        self.rows.push(u8::try_from(rows.len()).unwrap_or(255))?;
        Ok(self.rows.extend_from_slice(rows)?)
    }

    // Appends what a call found, and the rows that it showed.
    fn take(&mut self, state: HeardState, rows: &[u8]) -> Result<(), Fail>
        ensures { IfOk result (λ _. shows_fault state ≡ false) }
    {
        match state {
            HeardState::More => Ok(self.rows.extend_from_slice(rows)?),
            HeardState::One(command) => self.push(command, rows),
            HeardState::Fault { .. } => Err(Fail::from("a fault")),
        }
    }
}

// Feeds a piece of a job to its end.
fn feed_all(reader: &mut JobReader, piece: &[u8], read: &mut Read) -> Result<(), Fail>
    requires room { fed_of reader.old + length piece.now < 2 ^ 63 }
    requires is_open { is_failed_of reader.old ≡ false }
    ensures fed { fed_of reader.new ≤ fed_of reader.old + length piece.now }
    ensures is_open { IfOk result (λ _. is_failed_of reader.new ≡ false) }
{
    let mut rest = piece;
    'rest: while !rest.is_empty() {
        let heard = reader.feed(rest);
        read.take(heard.state, reader.rows())?;
        rest = &rest[heard.used..];
    }
    Ok(())
}

// What is read of the job, cut in two, where it may end.
fn read_cut(alloc: Global, cut: usize) -> Result<Read, Fail>
    requires { cut ≤ 92 }
{
    let mut reader = JobReader::make(alloc)?;
    let mut read = Read::new(alloc);
    feed_all(&mut reader, &TINY_JOB[..cut], &mut read)?;
    feed_all(&mut reader, &TINY_JOB[cut..], &mut read)?;
    reader.end().ok().ok_or("a cut job")?;
    Ok(read)
}

// What is read of the job, byte by byte.
fn read_bytes(alloc: Global) -> Result<Read, Fail> {
    let mut reader = JobReader::make(alloc)?;
    let mut read = Read::new(alloc);
    'bytes: for at in 0..92 {
        feed_all(&mut reader, &TINY_JOB[at..at + 1], &mut read)?;
    }
    Ok(read)
}

fn is_the_job(rt: &impl Abort, read: &Read) {
    same(
        rt,
        "the commands",
        &read.commands.as_slice(),
        &TINY_COMMANDS.as_slice(),
    );
    same_bytes(rt, "the rows", &read.rows, &TINY_ROWS);
}

#[test]
fn each_cut_gives_seventeen_commands(rt: HostRuntime) -> Result<(), Fail> {
    for cut in 0..=92 {
        is_the_job(&rt, &read_cut(rt.alloc(), cut)?);
    }
    is_the_job(&rt, &read_bytes(rt.alloc())?);
    Ok(())
}

#[test]
fn a_cut_command_is_named_by_its_first_byte(rt: HostRuntime) -> Result<(), Fail> {
    let mut reader = JobReader::make(rt.alloc())?;
    let mut read = Read::new(rt.alloc());
    feed_all(&mut reader, &TINY_JOB[..10], &mut read)?;
    same(
        &rt,
        "two commands",
        &read.commands.as_slice(),
        &&TINY_COMMANDS[..2],
    );
    same(&rt, "the third", &reader.end(), &Err(Cut { offset: 8 }));
    Ok(())
}

// Bytes with a fault, how many of them are used, and where and what the fault is.
type Case = (&'static [u8], usize, u64, JobCause);

// Feeds bytes with a fault, and then again.
fn assert_fault(rt: &impl Abort, alloc: Global, case: Case) -> Result<(), Fail> {
    let (bytes, used, offset, cause) = case;
    assert!(rt; bytes.len() < 100);
    let mut reader = JobReader::make(alloc)?;
    let state = HeardState::Fault { offset, cause };
    same(rt, "a fault", &reader.feed(bytes), &Heard { used, state });
    same(
        rt,
        "once more",
        &reader.feed(bytes),
        &Heard { used: 0, state },
    );
    Ok(())
}

#[test]
fn list_names_each_reader_fault(rt: HostRuntime) -> Result<(), Fail> {
    const CASES: [Case; 5] = [
        (&[0x1B, 0x41, 0x0D], 2, 1, JobCause::Unknown),
        (&[0x1B, 0x28, 0x47, 0x02, 0x00], 4, 3, JobCause::BadLength),
        (&[0x1B, 0x72, 0x03, 0x0D], 3, 2, JobCause::BadValue),
        (
            &[0x1B, 0x2E, 0x01, 0x14, 0x0A, 0x03, 0x08, 0x00, 0x80, 0x0D],
            9,
            8,
            JobCause::RunCode,
        ),
        // The high byte of a number shows that it is out of range at its low byte.
        (&[0x1B, 0x24, 0x00, 0x80, 0x0D], 4, 2, JobCause::BadValue),
    ];
    for &case in &CASES {
        assert_fault(&rt, rt.alloc(), case)?;
    }
    Ok(())
}

#[test]
fn literals_over_128_bytes_are_read_in_pieces(rt: HostRuntime) -> Result<(), Fail> {
    // A row of 1,200 columns, as packets of 128 and 22 bytes.
    let mut job = [0x5A; 160];
    job[..9].copy_from_slice(&[0x1B, 0x2E, 0x01, 0x14, 0x0A, 0x01, 0xB0, 0x04, 0x7F]);
    job[137] = 0x15;
    let mut reader = JobReader::make(rt.alloc())?;
    let first = reader.feed(&job[..100]);
    let last = reader.feed(&job[100..]);
    same(
        &rt,
        "a part",
        &first,
        &Heard {
            used: 100,
            state: HeardState::More,
        },
    );
    let state = HeardState::One(Command::Raster {
        head: RasterHead {
            m: 1,
            n: 1200,
            ..HEADER
        },
    });
    same(&rt, "the rest", &last, &Heard { used: 60, state });
    same_bytes(&rt, "its row", reader.rows(), &[0x5A; 150]);
    Ok(())
}
