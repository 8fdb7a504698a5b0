//! Sinks in memory and of std.
use crate::checks::{same, same_bytes};
use std::alloc::Global;
use std::io;
use std::io::{ErrorKind, Write};
use std::process::Abort;
use std::test::Fail;
use weave_base::{Failed, MOST_INTERRUPTIONS, MemSink, Sink, StdSink, put_all};

// A sink of this room: whether it takes one byte a call, and whether its first call fails.
fn sink(alloc: Global, room: usize, is_slow: bool, fails: bool) -> Result<MemSink, Fail> {
    let mut takes = Vec::new(alloc);
    if is_slow {
        takes.push(1)?;
    }
    let mut failing = Vec::new(alloc);
    if fails {
        failing.push(1)?;
    }
    Ok(MemSink::make(alloc, room, takes, failing)?)
}

// Writes each piece by one call.
fn writes<K: Sink>(rt: &impl Abort, sink: &mut K, rows: &[(&[u8], Result<usize, Failed>)]) {
    for (piece, wanted) in rows {
        same(rt, "a write", &sink.write(piece), wanted);
    }
}

#[test]
fn a_sink_that_takes_one_byte_a_call_gets_the_whole_piece(rt: HostRuntime) -> Result<(), Fail> {
    let mut sink = sink(rt.alloc(), 3, true, false)?;
    same(&rt, "the piece", &put_all(&mut sink, &[7, 8, 9]), &Ok(()));
    same_bytes(&rt, "the sink", sink.bytes(), &[7, 8, 9]);
    Ok(())
}

#[test]
fn a_sink_fails_its_first_call_and_takes_the_next(rt: HostRuntime) -> Result<(), Fail> {
    let mut sink = sink(rt.alloc(), 3, false, true)?;
    writes(&rt, &mut sink, &[(&[7], Err(Failed)), (&[8], Ok(1))]);
    same_bytes(&rt, "the sink", sink.bytes(), &[8]);
    Ok(())
}

#[test]
fn a_full_sink_keeps_what_fits(rt: HostRuntime) -> Result<(), Fail> {
    let mut sink = sink(rt.alloc(), 2, false, false)?;
    let given = put_all(&mut sink, &[7, 8, 9]);
    same(&rt, "the piece", &given, &Err(Failed));
    same_bytes(&rt, "the sink", sink.bytes(), &[7, 8]);
    writes(&rt, &mut sink, &[(&[], Ok(0))]);
    Ok(())
}

// A writer that always fails.
#[derive(Drop)]
struct Broken;

impl Write for Broken {
    fn write(&mut self, _buf: &[u8]) -> io::Result<usize> {
        Err(io::Error::from(ErrorKind::BrokenPipe))
    }

    fn flush(&mut self) -> io::Result<()> {
        Ok(())
    }
}

// A writer that takes nothing.
#[derive(Drop)]
struct Idle;

impl Write for Idle {
    fn write(&mut self, _buf: &[u8]) -> io::Result<usize> {
        Ok(0)
    }

    fn flush(&mut self) -> io::Result<()> {
        Ok(())
    }
}

#[test]
fn a_std_writer_is_a_sink(rt: HostRuntime) {
    let mut held = Vec::new(rt.alloc());
    let given = put_all(&mut StdSink::make(&mut held), &[7, 8]);
    same(&rt, "a piece", &given, &Ok(()));
    same_bytes(&rt, "the writer", held.as_slice(), &[7, 8]);
    let refused = Err(Failed);
    writes(&rt, &mut StdSink::make(Broken), &[(&[7], refused)]);
    writes(
        &rt,
        &mut StdSink::make(Idle),
        &[(&[7], refused), (&[], Ok(0))],
    );
}

// A writer that takes one byte a call, and answers this error so often before each of them.
#[derive(Drop)]
struct Hindered<'a> {
    held: &'a mut Vec<u8>,
    error: ErrorKind,
    before_each: u32,
    so_far: u32,
}

impl<'a> Write for Hindered<'a> {
    fn write(&mut self, buf: &[u8]) -> io::Result<usize> {
        if self.so_far < self.before_each {
            self.so_far += 1;
            return Err(io::Error::from(self.error));
        }
        self.so_far = 0;
        self.held.write(&buf[..buf.len().min(1)])
    }

    fn flush(&mut self) -> io::Result<()> {
        Ok(())
    }
}

#[test]
fn only_an_interrupted_write_is_made_again_and_not_for_ever(rt: HostRuntime) {
    // how the first of two pieces ends, and what is held after both
    type Case = (ErrorKind, u32, Result<(), Failed>, &'static [u8]);
    const CASES: [Case; 6] = [
        (ErrorKind::Interrupted, 0, Ok(()), &[7, 8, 9]),
        (ErrorKind::Interrupted, 1, Ok(()), &[7, 8, 9]),
        (ErrorKind::Interrupted, 3, Ok(()), &[7, 8, 9]),
        (
            ErrorKind::Interrupted,
            MOST_INTERRUPTIONS,
            Ok(()),
            &[7, 8, 9],
        ),
        (
            ErrorKind::Interrupted,
            MOST_INTERRUPTIONS + 1,
            Err(Failed),
            &[9],
        ),
        (ErrorKind::BrokenPipe, 1, Err(Failed), &[9]),
    ];
    for (error, before_each, wanted, bytes) in &CASES {
        let mut held = Vec::new(rt.alloc());
        let mut sink = StdSink::make(Hindered {
            held: &mut held,
            error: *error,
            before_each: *before_each,
            so_far: 0,
        });
        same(&rt, "the first piece", &put_all(&mut sink, &[7, 8]), wanted);
        same(&rt, "the second piece", &put_all(&mut sink, &[9]), &Ok(()));
        same_bytes(&rt, "the writer", held.as_slice(), bytes);
    }
}
