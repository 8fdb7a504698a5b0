//! The words of a command line.
use crate::texts::{ProgramTexts, text_of};
use std::{env, io};
use weave_base::{Failed, Memory, StdSink, Words, put_all};

/// Why the words could not be read.
#[derive(Clone, Copy, Debug, PartialEq, Eq)]
pub enum NoWords {
    /// The system does not give the command line as texts: a word is not UTF-8.
    NoText,
    /// Memory ran out.
    Memory,
}

/// What a command line asks of a program.
#[derive(Drop)]
pub enum Asked {
    /// One of the texts that the program has about itself.
    Text(&'static str),
    /// A run with these words.
    Run(Words),
}

// The most words of a command line.
const MOST_WORDS: u32 = 0x7FFF_FFFF;

impl From<io::Error> for NoWords {
    fn from(error: io::Error) -> NoWords {
        match error.kind() {
            io::ErrorKind::OutOfMemory => NoWords::Memory,
            _ => NoWords::NoText,
        }
    }
}

impl From<Memory> for NoWords {
    fn from(_memory: Memory) -> NoWords {
        NoWords::Memory
    }
}

/// The words after the program's name, at most the first 2,147,483,647.
pub fn read_words(rt: &HostRuntime) -> Result<Words, NoWords> {
    let mut words = Words::make(rt.alloc());
    for word in env::args(rt)?.skip(1) {
        if words.len() == MOST_WORDS {
            break;
        }
        words.push(&word)?;
    }
    Ok(words)
}

/// What the command line asks for: a text if `text_of` returns one, else a run.
pub fn read_command_line(rt: &HostRuntime, texts: ProgramTexts) -> Result<Asked, NoWords> {
    let words = read_words(rt)?;
    match text_of(&words, texts) {
        Some(text) => Ok(Asked::Text(text)),
        None => Ok(Asked::Run(words)),
    }
}

/// Writes a text to standard output.
pub fn show_text(rt: &HostRuntime, text: &str) -> Result<(), Failed> {
    put_all(&mut StdSink::make(rt.stdout()), text.as_bytes())
}
