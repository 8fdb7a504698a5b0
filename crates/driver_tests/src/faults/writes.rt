//! Every failing write.
use crate::faults::answers::Answer;
use crate::faults::fixture::{BY_BYTES, Calls, DriverCommand, call_behind, leaves};
use crate::faults::inputs::Input;
use job_fixtures::TINY_TEXT;
use std::alloc::Global;
use std::process::Abort;
use std::test::Fail;
use std::thread::Threads;

// Asserts what each failing write leaves.
fn try_writes<R: Abort + Threads + Sync>(
    rt: &R,
    alloc: Global,
    command: DriverCommand,
    input: Input,
) -> Result<(), Fail> {
    let bytes = input.bytes(alloc)?;
    let length = command.answer(alloc, &bytes)?.out.len();
    for written in 0..length.saturating_add(1) {
        let wanted = command.answer(alloc, &bytes)?.unwritten(alloc, written)?;
        let calls = Calls {
            piece: 65_536,
            failing_write: call_behind(written),
            ..BY_BYTES
        };
        leaves(rt, alloc, command.words(), &bytes, calls, &wanted)?;
    }
    Ok(())
}

#[test]
fn every_failing_write_leaves_its_prefix(rt: HostRuntime) -> Result<(), Fail> {
    const CASES: [(DriverCommand, Input); 7] = [
        (DriverCommand::PrintBlack, Input::GreyPage),
        (DriverCommand::PrintBlack, Input::ColourPages),
        (DriverCommand::PrintColours, Input::ColourPages),
        (DriverCommand::Dots, Input::TinyJob),
        (DriverCommand::Dots, Input::CodedJob),
        (DriverCommand::List, Input::TinyJob),
        (DriverCommand::List, Input::CodedJob),
    ];
    for &(command, input) in &CASES {
        try_writes(&rt, rt.alloc(), command, input)?;
    }
    Ok(())
}

// Words that read no input, and what they write.
const LINES: [(&[&str], &[u8]); 2] = [
    (
        &["trial", "profile=tiny1", "seed=0", "width=4", "height=2"],
        b"pages=1 sheets=1 bytes=70 rasters=1 k=2 c=0 m=0 y=0\n",
    ),
    (&["profile", "profile=tiny"], TINY_TEXT),
];

// Asserts what each failing write leaves of a text. Every read fails.
fn try_text<R: Abort + Threads + Sync>(
    rt: &R,
    alloc: Global,
    words: &[&str],
    text: &[u8],
) -> Result<(), Fail> {
    for written in 0..text.len().saturating_add(1) {
        let calls = Calls {
            failing_read: 1,
            failing_write: call_behind(written),
            ..BY_BYTES
        };
        let wanted = Answer::of(alloc, 0, text, "")?.unwritten(alloc, written)?;
        leaves(rt, alloc, words, b"", calls, &wanted)?;
    }
    Ok(())
}

#[test]
fn every_failing_write_of_a_text_leaves_its_prefix(rt: HostRuntime) -> Result<(), Fail> {
    for &(words, text) in &LINES {
        try_text(&rt, rt.alloc(), words, text)?;
    }
    Ok(())
}
