//! Every prefix of a stream and of a job.
use crate::faults::fixture::{BY_BYTES, Calls, DriverCommand, leaves};
use crate::faults::inputs::Input;
use driver_fixtures::prefix;
use std::alloc::Global;
use std::process::Abort;
use std::test::Fail;
use std::thread::Threads;

// A command, its input, and the most bytes of a read.
type Case = (DriverCommand, Input, u32);

// Asserts the answer to each prefix of an input.
fn try_prefixes<R: Abort + Threads + Sync>(
    rt: &R,
    alloc: Global,
    (command, input, piece): Case,
) -> Result<(), Fail> {
    let whole = input.bytes(alloc)?;
    let calls = Calls { piece, ..BY_BYTES };
    for count in 0..whole.len().saturating_add(1) {
        let bytes = prefix(&whole, count);
        let wanted = command.answer(alloc, bytes)?;
        leaves(rt, alloc, command.words(), bytes, calls, &wanted)?;
    }
    Ok(())
}

#[test]
fn every_prefix_of_pages_and_jobs_has_its_answer(rt: HostRuntime) -> Result<(), Fail> {
    const CASES: [Case; 8] = [
        (DriverCommand::PrintColours, Input::ColourPages, 64),
        (DriverCommand::PrintBlack, Input::ColourPages, 1000),
        (DriverCommand::Dots, Input::TinyJob, 1),
        (DriverCommand::Dots, Input::CodedJob, 1),
        (DriverCommand::Dots, Input::CodedJob, 50),
        (DriverCommand::List, Input::TinyJob, 1),
        (DriverCommand::List, Input::CodedJob, 1),
        (DriverCommand::List, Input::CodedJob, 50),
    ];
    for &case in &CASES {
        try_prefixes(&rt, rt.alloc(), case)?;
    }
    Ok(())
}
