//! Bytes that are read ahead of their use, and bytes on their way to a sink.
use crate::checks::{same, same_bytes};
use buffered_bytes::{Gathered, MOST_GATHERED, MOST_UNREAD, Unread};
use std::alloc::Global;
use std::process::Abort;
use std::test::Fail;
use weave_base::{Failed, MemSink, MemSource};

// A source of eight letters, three a call: whether its second call fails.
fn letters(alloc: Global, fails: bool) -> Result<MemSource, Fail> {
    let mut failing = Vec::new(alloc);
    if fails {
        failing.push(2)?;
    }
    let bytes = Vec::from_slice(alloc, b"abcdefgh")?;
    Ok(MemSource::make(bytes, vec![in alloc; 3]?, failing))
}

// A call on bytes that are read ahead.
#[derive(Clone, Copy)]
enum Ahead {
    Fill(usize, Result<(), Failed>),
    UseUp(usize),
}

// Makes the calls, and compares the bytes after each.
fn read_ahead(
    rt: &impl Abort,
    alloc: Global,
    fails: bool,
    calls: &[(Ahead, &[u8])],
) -> Result<(), Fail> {
    let mut source = letters(alloc, fails)?;
    let mut unread = Unread::make(alloc)?;
    for (call, bytes) in calls {
        match call {
            Ahead::Fill(need, wanted) => {
                let got = unread.fill(&mut source, (*need).min(MOST_UNREAD));
                same(rt, "a fill", &got, wanted);
            }
            Ahead::UseUp(count) => unread.use_up((*count).min(unread.bytes().len())),
        }
        same_bytes(rt, "the bytes", unread.bytes(), bytes);
    }
    Ok(())
}

#[test]
fn bytes_stay_until_they_are_used(rt: HostRuntime) -> Result<(), Fail> {
    const CALLS: [(Ahead, &[u8]); 3] = [
        (Ahead::Fill(4, Ok(())), b"abcdef"),
        (Ahead::UseUp(5), b"f"),
        (Ahead::Fill(9, Ok(())), b"fgh"),
    ];
    read_ahead(&rt, rt.alloc(), false, &CALLS)
}

#[test]
fn a_failed_read_keeps_the_bytes(rt: HostRuntime) -> Result<(), Fail> {
    const CALLS: [(Ahead, &[u8]); 2] = [
        (Ahead::Fill(4, Err(Failed)), b"abc"),
        (Ahead::Fill(4, Ok(())), b"abcdef"),
    ];
    read_ahead(&rt, rt.alloc(), true, &CALLS)
}

// A call on gathered bytes.
#[derive(Clone, Copy)]
enum Gather {
    Room(usize),
    Write(&'static [u8]),
    Put,
}

// Makes the calls to a sink of this room, and compares each answer and the sink's bytes after it.
fn write_gathered(
    rt: &impl Abort,
    alloc: Global,
    mut gathered: Gathered,
    room: usize,
    calls: &[(Gather, Result<(), Failed>, &[u8])],
) -> Result<(), Fail> {
    let mut sink = MemSink::make(alloc, room, Vec::new(alloc), Vec::new(alloc))?;
    for (call, wanted, bytes) in calls {
        let got = match call {
            Gather::Room(most) => gathered.make_room((*most).min(MOST_GATHERED), &mut sink),
            Gather::Write(piece) => {
                gathered.write(&piece[..piece.len().min(MOST_GATHERED)], &mut sink)
            }
            Gather::Put => gathered.put(&mut sink),
        };
        same(rt, "a call", &got, wanted);
        same_bytes(rt, "the sink", sink.bytes(), bytes);
    }
    Ok(())
}

#[test]
fn bytes_wait_until_room_is_wanted(rt: HostRuntime) -> Result<(), Fail> {
    let mut gathered = Gathered::new();
    gathered.push(b"ab");
    const CALLS: [(Gather, Result<(), Failed>, &[u8]); 4] = [
        (Gather::Room(8), Ok(()), b""),
        (Gather::Room(MOST_GATHERED), Ok(()), b"ab"),
        (Gather::Write(b"cd"), Ok(()), b"ab"),
        (Gather::Put, Ok(()), b"abcd"),
    ];
    write_gathered(&rt, rt.alloc(), gathered, 4, &CALLS)
}

#[test]
fn a_full_sink_gets_a_part(rt: HostRuntime) -> Result<(), Fail> {
    const CALLS: [(Gather, Result<(), Failed>, &[u8]); 2] = [
        (Gather::Write(b"abcd"), Ok(()), b""),
        (Gather::Put, Err(Failed), b"abc"),
    ];
    write_gathered(&rt, rt.alloc(), Gathered::new(), 3, &CALLS)
}
