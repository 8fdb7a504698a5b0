//! Every byte of a small stream and of a small job, changed to eight others.
use crate::faults::fixture::{BY_BYTES, Calls, DriverCommand, leaves};
use crate::faults::inputs::Input;
use std::alloc::Global;
use std::process::Abort;
use std::test::Fail;
use std::thread::Threads;

// What a byte is changed by: some of its bits, and the difference of two colour spaces (PWG 5102.4, section 4.2.3).
const CHANGES: [u8; 8] = [0x01, 0x02, 0x03, 0x08, 0x11, 0x40, 0x80, 0xFF];

// Asserts the answers to an input whose byte at this place is changed.
fn try_byte<R: Abort + Threads + Sync>(
    rt: &R,
    alloc: Global,
    command: DriverCommand,
    whole: &[u8],
    place: usize,
) -> Result<(), Fail> {
    let calls = Calls {
        piece: 65_536,
        ..BY_BYTES
    };
    for &change in &CHANGES {
        let mut bytes = whole.to_vec(alloc)?;
        if let Some(byte) = bytes.get_mut(place) {
            *byte ^= change;
        }
        let wanted = command.answer(alloc, &bytes)?;
        leaves(rt, alloc, command.words(), &bytes, calls, &wanted)?;
    }
    Ok(())
}

// Asserts the answers to an input each of whose bytes is changed.
fn try_bytes<R: Abort + Threads + Sync>(
    rt: &R,
    alloc: Global,
    command: DriverCommand,
    input: Input,
) -> Result<(), Fail> {
    let whole = input.bytes(alloc)?;
    for place in 0..whole.len() {
        try_byte(rt, alloc, command, &whole, place)?;
    }
    Ok(())
}

#[test]
fn a_changed_byte_has_its_answer(rt: HostRuntime) -> Result<(), Fail> {
    const CASES: [(DriverCommand, Input); 5] = [
        (DriverCommand::PrintBlack, Input::GreyPage),
        (DriverCommand::Dots, Input::TinyJob),
        (DriverCommand::Dots, Input::CodedJob),
        (DriverCommand::List, Input::TinyJob),
        (DriverCommand::List, Input::CodedJob),
    ];
    for &(command, input) in &CASES {
        try_bytes(&rt, rt.alloc(), command, input)?;
    }
    Ok(())
}
