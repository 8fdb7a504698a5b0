//! The driver as a program: words from the command line, pages from standard input, the job to standard output, the
//! error line to standard error, profiles from the files of the current folder, and the status as the exit code.
//!
//! It has no contract, since `main` may promise nothing about the outside. Its stored run and the trials of
//! `docs/USING.md` test it.
#![tactic(auto)]

mod help;

use driver_core::{Answer, OpenGate, UsageCause, UsageFault, run, tell};
use help::TEXTS;
use ink_meter::{DotMeter, Meter, can_settle, settle};
use program_words::{Asked, NoWords, Words, read_command_line, show_text};
use std::process::ExitCode;
use std::thread::Threads;
use weave_base::{DirShelf, StdSink, StdSource};

// A run with the words, and its status.
fn run_words<R: Threads + Sync>(rt: &HostRuntime, threads: &R, words: &Words) -> u8 {
    let mut meters: Vec<Box<dyn Meter>> = Vec::new(rt.alloc());
    // memory runs out before anything is written
    let Ok(meter) = Box::new(rt.alloc(), DotMeter::make()) else {
        return Answer::Memory.status();
    };
    if meters.push(meter).is_err() {
        return Answer::Memory.status();
    }
    let status = run(
        threads,
        rt.alloc(),
        words,
        &mut StdSource::make(rt.stdin()),
        &mut StdSink::make(rt.stdout()),
        &mut StdSink::make(rt.stderr()),
        &mut DirShelf::make(rt),
        &OpenGate,
        &mut meters,
    );
    if can_settle(&meters) {
        settle(meters);
    }
    status
}

// Writes the line of an answer to no run, and gives its status.
fn end(rt: &HostRuntime, answer: &Answer) -> u8 {
    tell(answer, &mut StdSink::make(rt.stderr()));
    answer.status()
}

fn main(rt: HostRuntime) -> ExitCode {
    ExitCode::from(match read_command_line(&rt, TEXTS) {
        Ok(Asked::Run(words)) => run_words(&rt, &rt, &words),
        Ok(Asked::Text(text)) => match show_text(&rt, text) {
            Ok(()) => Answer::Done.status(),
            Err(_) => end(&rt, &Answer::Write { page: 0 }),
        },
        // memory runs out before anything is written
        Err(NoWords::Memory) => Answer::Memory.status(),
        Err(NoWords::NoText) => {
            let fault = UsageFault {
                word: 0,
                cause: UsageCause::BadValue,
            };
            end(&rt, &Answer::Usage(fault))
        }
    })
}
