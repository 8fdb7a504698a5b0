//! The spool as a program: words from the command line, files and profiles from the current folder, the jobs to
//! standard output, the report to standard error, and the status as the exit code.
//!
//! It has no contract, since `main` may promise nothing about the outside. Its stored run prints a file three times.
#![tactic(auto)]

mod help;

use driver_core::OpenGate;
use help::TEXTS;
use ink_meter::{DotMeter, Meter, can_settle, settle};
use program_words::{Asked, NoWords, Words, read_command_line, show_text};
use spool_core::{SpoolAnswer, SpoolCause, SpoolFault, run_spool, tell};
use std::process::ExitCode;
use std::sync::Wait;
use std::thread::Threads;
use weave_base::{DirShelf, StdSink};

// The exit status of a write that failed, in whatever job (`SpoolAnswer::Write`).
const WRITE_FAILED: u8 = 5;

// A run with the words, and its status.
fn run_words<R: Threads + Wait + Sync>(rt: &HostRuntime, threads: &R, words: &Words) -> u8 {
    let mut meters: Vec<Box<dyn Meter>> = Vec::new(rt.alloc());
    // memory runs out before anything is written
    let Ok(meter) = Box::new(rt.alloc(), DotMeter::make()) else {
        return SpoolAnswer::Memory.status();
    };
    if meters.push(meter).is_err() {
        return SpoolAnswer::Memory.status();
    }
    let report = run_spool(
        threads,
        rt.alloc(),
        words,
        &mut StdSink::make(rt.stdout()),
        &mut StdSink::make(rt.stderr()),
        &mut DirShelf::make(rt),
        &OpenGate,
        &mut meters,
    );
    if can_settle(&meters) {
        settle(meters);
    }
    report.status
}

fn main(rt: HostRuntime) -> ExitCode {
    ExitCode::from(match read_command_line(&rt, TEXTS) {
        Ok(Asked::Run(words)) => run_words(&rt, &rt, &words),
        Ok(Asked::Text(text)) => match show_text(&rt, text) {
            Ok(()) => SpoolAnswer::Done.status(),
            Err(_) => WRITE_FAILED,
        },
        // memory runs out before anything is written
        Err(NoWords::Memory) => SpoolAnswer::Memory.status(),
        Err(NoWords::NoText) => {
            let fault = SpoolFault {
                word: 0,
                cause: SpoolCause::BadValue,
            };
            let answer = SpoolAnswer::Usage(fault);
            tell(&[], &answer, &mut StdSink::make(rt.stderr()));
            answer.status()
        }
    })
}
