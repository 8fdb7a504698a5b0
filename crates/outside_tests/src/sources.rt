//! Sources in memory and of std.
use crate::checks::same;
use std::alloc::Global;
use std::io;
use std::io::{ErrorKind, Read};
use std::process::Abort;
use std::test::Fail;
use weave_base::{Failed, MOST_INTERRUPTIONS, MemSource, Source, StdSource};

// What a read is to answer, and the whole buffer after it.
type Wanted = (Result<usize, Failed>, [u8; 4]);

// Reads into a buffer of four bytes for each row.
fn reads<S: Source>(rt: &impl Abort, source: &mut S, rows: &[Wanted]) {
    let mut buffer = [0; 4];
    for wanted in rows {
        let got = source.read(&mut buffer);
        same(rt, "a read", &(got, buffer), wanted);
    }
}

// A source of the bytes 7 and 8: whether it gives one byte a call, and whether its first call fails.
fn source(alloc: Global, is_slow: bool, fails: bool) -> Result<MemSource, Fail> {
    let mut pieces = Vec::new(alloc);
    if is_slow {
        pieces.push(1)?;
    }
    let mut failing = Vec::new(alloc);
    if fails {
        failing.push(1)?;
    }
    Ok(MemSource::make(vec![in alloc; 7, 8]?, pieces, failing))
}

#[test]
fn a_source_gives_one_byte_a_call(rt: HostRuntime) -> Result<(), Fail> {
    const ROWS: [Wanted; 3] = [
        (Ok(1), [7, 0, 0, 0]),
        (Ok(1), [8, 0, 0, 0]),
        (Ok(0), [8, 0, 0, 0]),
    ];
    reads(&rt, &mut source(rt.alloc(), true, false)?, &ROWS);
    Ok(())
}

#[test]
fn a_source_fails_its_first_call_and_loses_nothing(rt: HostRuntime) -> Result<(), Fail> {
    const ROWS: [Wanted; 2] = [(Err(Failed), [0; 4]), (Ok(2), [7, 8, 0, 0])];
    reads(&rt, &mut source(rt.alloc(), false, true)?, &ROWS);
    Ok(())
}

// A reader that always fails.
#[derive(Drop)]
struct Broken;

impl Read for Broken {
    fn read(&mut self, _buf: &mut [u8]) -> io::Result<usize> {
        Err(io::Error::from(ErrorKind::BrokenPipe))
    }
}

#[test]
fn a_std_reader_is_a_source(rt: HostRuntime) {
    let bytes: &[u8] = &[7, 8];
    const ROWS: [Wanted; 2] = [(Ok(2), [7, 8, 0, 0]), (Ok(0), [7, 8, 0, 0])];
    reads(&rt, &mut StdSource::make(bytes), &ROWS);
    reads(&rt, &mut StdSource::make(Broken), &[(Err(Failed), [0; 4])]);
}

// A reader that gives one byte a call, and answers this error so often before each of them.
#[derive(Drop)]
struct Hindered {
    bytes: &'static [u8],
    error: ErrorKind,
    before_each: u32,
    so_far: u32,
}

impl Read for Hindered {
    fn read(&mut self, buf: &mut [u8]) -> io::Result<usize> {
        if self.so_far < self.before_each {
            self.so_far += 1;
            return Err(io::Error::from(self.error));
        }
        self.so_far = 0;
        let room = buf.len().min(1);
        self.bytes.read(&mut buf[..room])
    }
}

#[test]
fn only_an_interrupted_read_is_made_again_and_not_for_ever(rt: HostRuntime) {
    const READ: [Wanted; 3] = [
        (Ok(1), [7, 0, 0, 0]),
        (Ok(1), [8, 0, 0, 0]),
        (Ok(0), [8, 0, 0, 0]),
    ];
    const FAILED: [Wanted; 3] = [
        (Err(Failed), [0; 4]),
        (Ok(1), [7, 0, 0, 0]),
        (Err(Failed), [7, 0, 0, 0]),
    ];
    const CASES: [(ErrorKind, u32, [Wanted; 3]); 6] = [
        (ErrorKind::Interrupted, 0, READ),
        (ErrorKind::Interrupted, 1, READ),
        (ErrorKind::Interrupted, 3, READ),
        (ErrorKind::Interrupted, MOST_INTERRUPTIONS, READ),
        (ErrorKind::Interrupted, MOST_INTERRUPTIONS + 1, FAILED),
        (ErrorKind::BrokenPipe, 1, FAILED),
    ];
    for (error, before_each, rows) in &CASES {
        let reader = Hindered {
            bytes: &[7, 8],
            error: *error,
            before_each: *before_each,
            so_far: 0,
        };
        reads(&rt, &mut StdSource::make(reader), rows);
    }
}
