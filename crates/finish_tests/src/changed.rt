//! Every byte of a job changed.
use crate::plain::finished;
use crate::runs::{AT_ONCE, BY_BYTES, leaves};
use job_fixtures::TINY_JOB;
use std::alloc::Global;
use std::process::Abort;
use std::test::Fail;

// Asserts what a job becomes whose byte at this place is another one.
fn try_byte(rt: &impl Abort, alloc: Global, place: usize, byte: u8) -> Result<(), Fail> {
    let mut job = TINY_JOB.to_vec(alloc)?;
    if let Some(changed) = job.get_mut(place) {
        *changed = byte;
    }
    let plain = finished(alloc, &job)?;
    for way in [AT_ONCE, BY_BYTES] {
        let wanted = (plain.status, plain.out.as_slice(), plain.line.as_bytes());
        leaves(rt, alloc, &[], &job, way, wanted)?;
    }
    Ok(())
}

#[test]
fn a_changed_byte_keeps_the_commands_before_it(rt: HostRuntime) -> Result<(), Fail> {
    for place in 0..TINY_JOB.len() {
        for byte in [0x00, 0x41] {
            try_byte(&rt, rt.alloc(), place, byte)?;
        }
    }
    Ok(())
}
