//! Every failing read, and failing reads and writes together.
use crate::faults::fixture::{BY_BYTES, Calls, DriverCommand, call_behind, leaves};
use crate::faults::inputs::Input;
use crate::fixture::change;
use driver_fixtures::prefix;
use std::alloc::Global;
use std::process::Abort;
use std::test::Fail;
use std::thread::Threads;

// A run whose reads fail: a command, its input, the bytes of the input that are changed, by their places, and the most
// bytes of a read.
type Case = (DriverCommand, Input, &'static [(usize, u8)], u32);

// The bytes of a case.
fn bytes_of(alloc: Global, (_, input, changes, _): Case) -> Result<Vec<u8>, Fail> {
    let mut bytes = input.bytes(alloc)?;
    change(&mut bytes, changes);
    Ok(bytes)
}

// Asserts what is left where the read fails after so many whole pieces: the answer to what was taken, and status 4
// where more bytes could mend its end.
fn try_read<R: Abort + Threads + Sync>(
    rt: &R,
    alloc: Global,
    (command, _, _, piece): Case,
    bytes: &[u8],
    pieces: usize,
) -> Result<(), Fail> {
    let taken = prefix(bytes, pieces.wrapping_mul(piece as usize));
    let wanted = command.answer(alloc, taken)?.unread(alloc)?;
    let calls = Calls {
        piece,
        failing_read: call_behind(pieces),
        ..BY_BYTES
    };
    leaves(rt, alloc, command.words(), bytes, calls, &wanted)
}

// Asserts what each failing read leaves, the one at the end included.
fn try_reads<R: Abort + Threads + Sync>(rt: &R, alloc: Global, case: Case) -> Result<(), Fail> {
    let bytes = bytes_of(alloc, case)?;
    let (_, _, _, piece) = case;
    let pieces = bytes.len().div_ceil(piece.max(1) as usize);
    for read in 0..pieces.saturating_add(1) {
        try_read(rt, alloc, case, &bytes, read)?;
    }
    Ok(())
}

// The colour pages with a byte changed, by its place, and the most bytes of a read.
macro_rules! colours {
    ($place:literal, $byte:literal, $piece:literal) => {
        (
            DriverCommand::PrintColours,
            Input::ColourPages,
            &[($place, $byte)],
            $piece,
        )
    };
}

// A failing read is status 4; a fault that was read comes before it.
const CASES: [Case; 21] = [
    (DriverCommand::PrintColours, Input::ColourPages, &[], 1),
    // the second page ends after its first group, and a third begins
    (
        DriverCommand::PrintColours,
        Input::ColourPages,
        &[(3614, 2)],
        11,
    ),
    (DriverCommand::PrintColours, Input::ColourPages, &[], 7),
    (DriverCommand::PrintColours, Input::ColourPages, &[], 1000),
    (DriverCommand::PrintBlack, Input::ColourPages, &[], 65_536),
    // no sync word: three bytes could still be mended
    colours!(1, b'b', 1),
    // three literal pixels where two are left
    colours!(1805, 0xFE, 5),
    // the header of the second page
    colours!(1818, b'p', 7),
    // two lines where one is left, on the second page
    colours!(3619, 1, 13),
    colours!(3619, 1, 1000),
    colours!(3619, 1, 65_536),
    // a run past its line, on the second page
    colours!(3615, 9, 19),
    (DriverCommand::Dots, Input::CodedJob, &[], 1),
    (DriverCommand::Dots, Input::CodedJob, &[], 7),
    (DriverCommand::Dots, Input::TinyJob, &[], 1),
    (DriverCommand::List, Input::CodedJob, &[], 1),
    (DriverCommand::List, Input::CodedJob, &[], 7),
    (DriverCommand::List, Input::TinyJob, &[], 1),
    // a byte that begins no command, on the second sheet
    (DriverCommand::Dots, Input::CodedJob, &[(105, 0x0E)], 3),
    (DriverCommand::List, Input::CodedJob, &[(105, 0x0E)], 3),
    // a raster of two rows
    (DriverCommand::Dots, Input::CodedJob, &[(42, 2)], 2),
];

#[test]
fn every_failing_read_is_status_four_behind_what_was_read(rt: HostRuntime) -> Result<(), Fail> {
    for &case in &CASES {
        try_reads(&rt, rt.alloc(), case)?;
    }
    Ok(())
}

// A command, its input, and from one to the next of the reads and the writes that fail.
type Both = (DriverCommand, Input, usize, usize);

// Asserts what is left where a read of one byte fails, by a step of writes that fail too.
fn try_writes<R: Abort + Threads + Sync>(
    rt: &R,
    alloc: Global,
    (command, input, _, step): Both,
    taken: usize,
) -> Result<(), Fail> {
    let bytes = input.bytes(alloc)?;
    let length = command.answer(alloc, prefix(&bytes, taken))?.out.len();
    for written in (0..length.saturating_add(step)).step_by(step.max(1)) {
        let whole = command.answer(alloc, prefix(&bytes, taken))?.unread(alloc)?;
        let wanted = whole.unwritten(alloc, written)?;
        let calls = Calls {
            failing_read: call_behind(taken),
            failing_write: call_behind(written),
            ..BY_BYTES
        };
        leaves(rt, alloc, command.words(), &bytes, calls, &wanted)?;
    }
    Ok(())
}

// Asserts what a step of reads that fail leaves, each with a step of writes that fail too.
fn try_both<R: Abort + Threads + Sync>(rt: &R, alloc: Global, case: Both) -> Result<(), Fail> {
    let (_, input, step, _) = case;
    let length = input.bytes(alloc)?.len();
    for taken in (0..length.saturating_add(1)).step_by(step.max(1)) {
        try_writes(rt, alloc, case, taken)?;
    }
    Ok(())
}

#[test]
fn failing_sink_and_source_keep_what_was_done(rt: HostRuntime) -> Result<(), Fail> {
    const CASES: [Both; 4] = [
        (DriverCommand::PrintColours, Input::ColourPages, 79, 3),
        (DriverCommand::Dots, Input::TinyJob, 1, 5),
        (DriverCommand::Dots, Input::CodedJob, 1, 5),
        (DriverCommand::List, Input::CodedJob, 1, 5),
    ];
    for &case in &CASES {
        try_both(&rt, rt.alloc(), case)?;
    }
    Ok(())
}
