//! A watch of a job's commands.
ghost use Rattle.page_watch.specs.Watching.{is_due as is_due_command};
ghost use Rattle.std.specs.Prelude.{IfOk, IfSome, List, [], length, take, ℕ, ◌++◌, ◌+◌, ◌<◌, ◌≡◌, ◌≤◌, ◌^◌};

use base_definitions::Memory;
use escp2_definitions::{Command, JobCause};
use escp2_reader::{HeardState, JobReader};
use page_tally::{Tally, Telling};
use std::alloc::Global;

/// A command of interest, with the tally before it.
#[derive(Clone, Copy, Debug, PartialEq, Eq)]
pub struct Event {
    pub before: Tally,
    pub command: Command,
}

/// Where a call of `PageWatch::feed` stopped.
#[derive(Clone, Copy, Debug, PartialEq, Eq)]
pub enum SeenState {
    /// The piece ends, and no line is due.
    More,
    /// A command of interest ends.
    Due(Event),
    /// The command table refuses what is at this offset, behind the whole commands.
    Fault { offset: u64, cause: JobCause },
}

/// How much of a piece was used, and where the call stopped.
#[derive(Clone, Copy, Debug, PartialEq, Eq)]
pub struct Seen {
    /// The length of the prefix of the piece that was used.
    pub used: usize,
    /// How many bytes of the piece end the last command that became whole, or `None` if none did.
    pub whole: Option<usize>,
    pub state: SeenState,
}

/// Reads a job, and counts its commands.
#[derive(Drop)]
pub struct PageWatch {
    reader: JobReader,
    tally: Tally,
}

impl PageWatch {
    ghost use Rattle.page_watch.specs.Watching.{EndsWhole, IsSeen, IsWatching, OnMore, Watched, fed_to, seen_lines};
    ghost use Rattle.page_watch.specs.Watching.{tally_of, told};

    /// A watch of a job from its first byte on. It allocates all memory; no other call allocates any.
    pub fn make(alloc: Global) -> Result<PageWatch, Memory>
        ensures { IfOk result (λ watch. Watched watch []) }
    {
        Ok(PageWatch {
            reader: JobReader::make(alloc)?,
            tally: Tally::start(),
        })
    }

    /// What is counted of the whole commands so far.
    pub fn tally(&self) -> &Tally
        ensures { result.now ≡ tally_of self.now }
    {
        &self.tally
    }

    /// Reads the next bytes of the job, of any number, up to the end of the next command of interest, and counts their
    /// commands. At a fault it stops.
    pub fn feed(&mut self, piece: &[u8], telling: Telling) -> Seen
        requires watching { IsWatching self.old }
        requires room { fed_to self.old + length piece.now < 2 ^ 63 }
        ensures used { result.used ≤ length piece.now }
        ensures some { 0 < length piece.now → 0 < result.used }
        ensures within { IfSome result.whole (λ end. end ≤ result.used) }
        ensures whole { (sofar : List ℕ) → Watched self.old sofar
            → EndsWhole result.whole sofar (take result.used piece.now) }
        ensures fed { fed_to self.new ≡ fed_to self.old + result.used }
        ensures all { OnMore result.state (result.used ≡ length piece.now) }
        ensures seen { (sofar : List ℕ) → Watched self.old sofar
            → IsSeen result.state telling self.new sofar (sofar ++ take result.used piece.now) }
        ensures told { (sofar : List ℕ) → Watched self.old sofar → told telling (sofar ++ take result.used piece.now)
            ≡ told telling sofar ++ seen_lines telling (tally_of self.new) result.state }
    {
        let mut at = 0;
        let mut whole = None;
        'commands: while at < piece.len() {
            let before = self.tally;
            let heard = self.reader.feed(&piece[at..]);
            at += heard.used;
            match heard.state {
                HeardState::More => {}
                HeardState::One(command) => {
                    self.tally.see(command, self.reader.rows());
                    whole = Some(at);
                    if is_due(telling, command) {
                        return Seen {
                            used: at,
                            whole,
                            state: SeenState::Due(Event { before, command }),
                        };
                    }
                }
                HeardState::Fault { offset, cause } => {
                    return Seen {
                        used: at,
                        whole,
                        state: SeenState::Fault { offset, cause },
                    };
                }
            }
        }
        Seen {
            used: at,
            whole,
            state: SeenState::More,
        }
    }
}

// Whether a command is of interest.
fn is_due(telling: Telling, command: Command) -> bool
    ensures { result ≡ is_due_command telling command }
{
    match command {
        Command::Init | Command::Eject => true,
        Command::Margins { .. } | Command::DownTo { .. } | Command::DownBy { .. } => {
            telling.progress
        }
        _ => false,
    }
}
