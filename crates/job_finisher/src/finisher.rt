//! A job that is passed on, piece by piece.
ghost use Rattle.buffered_bytes.specs.Outside.{outside_of};
ghost use Rattle.finish_definitions.specs.Finished.{ending_bytes};
ghost use Rattle.job_finisher.specs.declared.finisher.PassStop.TheVariants as PassStop;
ghost use Rattle.std.specs.Io.KnownBytes.{Appends};
ghost use Rattle.std.specs.Prelude.{IfErr, IfOk, List, OnErr, OnOk, [], length, ℕ, ◌++◌, ◌+◌, ◌<◌, ◌≡◌};
ghost use Rattle.std.specs.Prelude.{◌≤◌, ◌^◌};
ghost use Rattle.weave_base.specs.Causes.{HasCause};
ghost use Rattle.weave_base.specs.Parts.{AppendsPart};

use crate::JobCause;
use crate::hearing::hear;
use crate::holding::HeldCommand;
use escp2_reader::JobReader;
use finish_definitions::PageState;
use std::alloc::Global;
use weave_base::{Failed, Memory, Sink, put_all};

/// Why a piece of a job is not passed on.
#[derive(Clone, Copy, Debug, PartialEq, Eq)]
pub enum PassStop {
    /// The command table refuses what is at this offset.
    Fault { offset: u64, cause: JobCause },
    /// A write failed.
    Write,
}

/// Passes on the whole commands of a job, and ends its page. It holds the bytes of the command in hand.
#[derive(Drop)]
pub struct JobFinisher {
    reader: JobReader,
    state: PageState,
    held: HeldCommand,
}

impl JobFinisher {
    ghost use Rattle.job_finisher.specs.Passing.{HasPassed, IsPassStop, Passed, PassesOn, fed_in, state_of};

    /// A finisher of a job from its first byte on. It allocates all memory; no other call allocates any.
    pub fn make(alloc: Global) -> Result<JobFinisher, Memory>
        ensures { IfOk result (λ finisher. Passed finisher []) }
    {
        Ok(JobFinisher {
            reader: JobReader::make(alloc)?,
            state: PageState::Between,
            held: HeldCommand::make(alloc)?,
        })
    }

    /// Takes the next bytes of the job, of any number, and writes the commands that they make whole. At a fault it
    /// stops, and writes the whole commands before the fault; `end` may follow. After `Err` it takes no more.
    pub fn pass<K: Sink>(&mut self, piece: &[u8], out: &mut K) -> Result<(), PassStop>
        requires passed { HasPassed self.old }
        requires room { fed_in self.old + length piece.now < 2 ^ 63 }
        ensures passed { OnOk result ((sofar : List ℕ) → Passed self.old sofar
            → Passed self.new (sofar ++ piece.now)) }
        ensures writes { OnOk result ((sofar : List ℕ) → Passed self.old sofar
            → PassesOn (outside_of K.held K.faults out.old out.new) sofar (sofar ++ piece.now)) }
        ensures stop { IfErr result (λ why. (sofar : List ℕ) → Passed self.old sofar
            → IsPassStop (state_of self.new) (outside_of K.held K.faults out.old out.new) sofar (sofar ++ piece.now)
            why) }
        ensures later { K.faults out.old ≤ K.faults out.new }
    {
        let heard = hear(&mut self.reader, &mut self.state, piece);
        self.held.write_whole(piece, heard.whole, out)?;
        match heard.fault {
            Some(fault) => Err(PassStop::Fault {
                offset: fault.offset,
                cause: fault.cause,
            }),
            None => {
                self.held.keep_rest(piece, heard.whole);
                Ok(())
            }
        }
    }

    /// Writes the commands that end the page.
    pub fn end<K: Sink>(&self, out: &mut K) -> Result<(), Failed>
        ensures ok { OnOk result (Appends (K.held out.old) (K.held out.new) (ending_bytes (state_of self.now))) }
        ensures part { OnErr result
            (AppendsPart (K.held out.old) (K.held out.new) (ending_bytes (state_of self.now))) }
        ensures cause { HasCause (K.faults out.old) (K.faults out.new) result }
    {
        put_all(out, self.state.ending())
    }
}

impl From<Failed> for PassStop {
    ghost from_gives = { λ _ stop. stop ≡ PassStop.Write };

    fn from(_failed: Failed) -> PassStop {
        PassStop::Write
    }
}
