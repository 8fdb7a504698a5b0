//! The finisher as a program: words from the command line, a job from standard input, its whole commands and the end of
//! its page to standard output, lines to standard error, the text to stop from the current folder, and the status as
//! the exit code.
//!
//! It has no contract, since `main` may promise nothing about the outside. Its stored run ends a job that is cut.
#![tactic(auto)]

mod help;

use finish_core::{Answer, UsageCause, UsageFault, run, tell_answer};
use help::TEXTS;
use program_words::{Asked, NoWords, Words, read_command_line, show_text};
use std::process::ExitCode;
use weave_base::{DirShelf, StdSink, StdSource};

// A run with the words, and its status.
fn run_words(rt: &HostRuntime, words: &Words) -> u8 {
    run(
        rt.alloc(),
        words,
        &mut StdSource::make(rt.stdin()),
        &mut StdSink::make(rt.stdout()),
        &mut StdSink::make(rt.stderr()),
        &mut DirShelf::make(rt),
    )
}

// Writes the line of an answer to no run, and returns its status.
fn end(rt: &HostRuntime, answer: &Answer) -> u8 {
    tell_answer(answer, &mut StdSink::make(rt.stderr()));
    answer.status()
}

fn main(rt: HostRuntime) -> ExitCode {
    ExitCode::from(match read_command_line(&rt, TEXTS) {
        Ok(Asked::Run(words)) => run_words(&rt, &words),
        Ok(Asked::Text(text)) => match show_text(&rt, text) {
            Ok(()) => Answer::Done.status(),
            Err(_) => end(&rt, &Answer::Write { page: 0 }),
        },
        // memory runs out before anything is written
        Err(NoWords::Memory) => Answer::Memory.status(),
        Err(NoWords::NoText) => {
            let fault = UsageFault {
                word: 0,
                cause: UsageCause::BadValue,
            };
            end(&rt, &Answer::Usage(fault))
        }
    })
}
