//! The commands that a piece of a job makes whole.
ghost use Rattle.escp2_reader.specs.Reading.{fed_of, is_failed_of};
ghost use Rattle.job_finisher.specs.Hearing.{EndsPiece, StandsBehind};
ghost use Rattle.std.specs.Prelude.{IfSome, List, false, length, ℕ, ◌+◌, ◌<◌, ◌≡◌, ◌≤◌, ◌^◌};

use crate::JobCause;
use escp2_reader::{HeardState, JobReader};
use finish_definitions::PageState;

/// A fault of the command table: the offset of what is refused, and why it is.
#[derive(Clone, Copy, Debug, PartialEq, Eq)]
pub struct JobFault {
    pub offset: u64,
    pub cause: JobCause,
}

/// What a piece of a job made whole.
#[derive(Clone, Copy, Debug, PartialEq, Eq)]
pub struct PieceHeard {
    /// How many bytes of the piece end the last command that became whole, or `None` if none did.
    pub whole: Option<usize>,
    /// The fault at which the reader stopped.
    pub fault: Option<JobFault>,
}

/// Reads the commands that a piece makes whole, up to a fault, and follows the page.
pub fn hear(reader: &mut JobReader, state: &mut PageState, piece: &[u8]) -> PieceHeard
    requires is_open { is_failed_of reader.old ≡ false }
    requires room { fed_of reader.old + length piece.now < 2 ^ 63 }
    ensures within { IfSome result.whole (λ end. end ≤ length piece.now) }
    ensures hears { (done part : List ℕ) → StandsBehind reader.old state.old done part
        → EndsPiece reader.new state.new done part piece.now result }
{
    let mut at = 0;
    let mut whole = None;
    'commands: while at < piece.len() {
        let heard = reader.feed(&piece[at..]);
        at += heard.used;
        match heard.state {
            HeardState::More => {}
            HeardState::One(command) => {
                *state = state.after(command);
                whole = Some(at);
            }
            HeardState::Fault { offset, cause } => {
                return PieceHeard {
                    whole,
                    fault: Some(JobFault { offset, cause }),
                };
            }
        }
    }
    PieceHeard { whole, fault: None }
}
