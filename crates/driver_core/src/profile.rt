//! The command `profile`.
ghost use Rattle.driver_core.specs.Outside.{outside_of};
ghost use Rattle.driver_core.specs.Runs.Outcome.{answer_of};
ghost use Rattle.driver_core.specs.Showing.Outcome.{ShowOutcome};

use driver_answer::Answer;
use printer_profile::Profile;
use std::alloc::Global;
use weave_base::{Sink, put_all};

/// Writes the profile's text. `Err` has the answer if the text is not written whole.
pub fn show_profile<K: Sink>(alloc: Global, profile: &Profile, out: &mut K) -> Result<(), Answer>
    ensures { ShowOutcome profile.now
        (outside_of K.held K.faults out.old out.new) (answer_of result) }
{
    let mut text = Vec::new(alloc);
    match profile.print(&mut text) {
        Err(_) => Err(Answer::Memory),
        Ok(()) => match put_all(out, &text) {
            Ok(()) => Ok(()),
            Err(_) => Err(Answer::Write { page: 0 }),
        },
    }
}
