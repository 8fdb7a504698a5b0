//! The watch of a job, and the bytes of the command in hand.
ghost use Rattle.buffered_bytes.specs.Outside.{outside_of};
ghost use Rattle.finish_core.specs.Passing.{FailsEnd, IsReading, IsStop, PassesSeen, Reads, fault_halt, fed_parts};
ghost use Rattle.finish_core.specs.Passing.{job_of, page_in_hand, state_in};
ghost use Rattle.finish_definitions.specs.Finished.{ending_bytes};
ghost use Rattle.page_watch.specs.Watching.{tally_of};
ghost use Rattle.std.specs.Io.KnownBytes.{Appends};
ghost use Rattle.std.specs.Prelude.{IfErr, IfOk, List, OnOk, [], length, take, ℕ, ◌++◌, ◌+◌, ◌<◌, ◌≡◌, ◌≤◌, ◌^◌};

use crate::halts::Halt;
use driver_answer::JobStop;
use job_finisher::HeldCommand;
use page_tally::{Tally, Telling};
use page_watch::{PageWatch, Seen, SeenState};
use std::alloc::Global;
use weave_base::{Memory, Sink, put_all};

/// The watch that reads a job, and the bytes of the command in hand.
#[derive(Drop)]
pub struct Parts {
    held: HeldCommand,
    watch: PageWatch,
}

impl Parts {
    /// The parts of a job at its first byte. It takes all memory; no other call takes memory.
    pub fn make(alloc: Global) -> Result<Parts, Memory>
        ensures { IfOk result (λ parts. Reads parts []) }
    {
        Ok(Parts {
            held: HeldCommand::make(alloc)?,
            watch: PageWatch::make(alloc)?,
        })
    }

    /// What is counted of the whole commands so far.
    pub fn tally(&self) -> &Tally
        ensures { result.now ≡ tally_of self.now.watch }
    {
        self.watch.tally()
    }

    // The number of the page in hand.
    fn page(&self) -> u32
        ensures { result ≡ page_in_hand (tally_of self.now.watch) }
    {
        self.tally().sheets.saturating_add(1)
    }

    /// Takes the next bytes of the job, up to the end of the next command of interest, and writes the commands that
    /// they make whole. It tells how many bytes it took, and what it saw.
    pub fn pass_on<K: Sink>(
        &mut self,
        piece: &[u8],
        telling: Telling,
        out: &mut K,
    ) -> Result<Seen, Halt>
        requires reading { IsReading self.old }
        requires room { fed_parts self.old + length piece.now < 2 ^ 63 }
        ensures some { IfOk result (λ seen. 0 < length piece.now → 0 < seen.used) }
        ensures used { IfOk result (λ seen. seen.used ≤ length piece.now) }
        ensures passes { IfOk result (λ seen. (sofar : List ℕ) → Reads self.old sofar
            → PassesSeen telling self.new (outside_of K.held K.faults out.old out.new) sofar
            (sofar ++ take seen.used piece.now) seen.state) }
        ensures stop { IfErr result (λ why. (sofar full : List ℕ) → Reads self.old sofar
            → job_of full ≡ sofar ++ piece.now
            → IsStop telling self.new (outside_of K.held K.faults out.old out.new) sofar full why) }
        ensures later { K.faults out.old ≤ K.faults out.new }
    {
        let page = self.page();
        let seen = self.watch.feed(piece, telling);
        let used = &piece[..seen.used];
        match self.held.write_whole(used, seen.whole, out) {
            Ok(()) => {}
            Err(_failed) => return Err(Halt::Write { page }),
        }
        match fault_halt(seen.state) {
            Some(halt) => Err(halt),
            None => {
                self.held.keep_rest(used, seen.whole);
                Ok(seen)
            }
        }
    }

    /// Writes the commands that end the page.
    pub fn end_page<K: Sink>(&self, out: &mut K) -> Result<(), Halt>
        ensures ok { OnOk result (Appends (K.held out.old) (K.held out.new) (ending_bytes (state_in self.now))) }
        ensures part { IfErr result (FailsEnd self.now (outside_of K.held K.faults out.old out.new)) }
        ensures later { K.faults out.old ≤ K.faults out.new }
    {
        match put_all(out, self.tally().state.ending()) {
            Ok(()) => Ok(()),
            Err(_failed) => Err(Halt::Write { page: self.page() }),
        }
    }
}

// Why the parts stop where the watch stops, if it met a fault.
fn fault_halt(state: SeenState) -> Option<Halt>
    ensures { result ≡ fault_halt state }
{
    match state {
        SeenState::Fault { offset, cause } => Some(Halt::Job {
            offset,
            cause: JobStop::Reader(cause),
        }),
        SeenState::More | SeenState::Due(_) => None,
    }
}
