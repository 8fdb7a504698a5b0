//! Prepares what words ask for.
ghost use Rattle.driver_core.specs.Outside.{texts_of, Outside, Meters};
ghost use Rattle.spool_core.specs.Outcome.{PrintsNone, SpoolOutcome};
ghost use Rattle.spool_core.specs.Prepared.{IsPrepared};
ghost use Rattle.std.specs.Prelude.{IfErr, IfOk, IsErr, [], ◌≡◌};
ghost use Rattle.spool_words.specs.Meaning.{spool_meaning};

use crate::answer::SpoolAnswer;
use crate::files::read_files;
use driver_core::PrintSetup;
use job_profile::find_profile;
use page_definitions::Way;
use spool_queue::StreamBytes;
use spool_words::{SpoolRequest, Words, profile_name, read_spool_words};
use std::alloc::Global;
use weave_base::Shelf;

/// What words ask for: how to print, by a profile that passes its checks, and the streams of each sender.
#[derive(Drop)]
pub struct PreparedSpool {
    pub how: PrintSetup,
    pub lists: Vec<Vec<StreamBytes>>,
}

/// Reads the words, then finds the profile, and then reads all files from the shelf, in the order of senders and their
/// names. `Err` has the answer if the run ends here.
pub fn prepare<F: Shelf>(
    alloc: Global,
    words: &Words,
    shelf: &mut F,
) -> Result<PreparedSpool, SpoolAnswer>
    ensures prepared { IfOk result (IsPrepared words.now (F.files shelf.old)) }
    // If nothing was printed, this is the outcome of the run.
    ensures answered { IfErr result (λ a. (out : Outside) (meters : Meters) → PrintsNone out meters []
        → SpoolOutcome words.now
        (record { shelf = texts_of F.files F.faults shelf.old shelf.new; out = out; meters = meters }) [] a) }
    // Nothing is read from the shelf if a word is refused.
    ensures refused_unasked { IsErr (spool_meaning words.now) → (shelf.new ≡ shelf.old) }
{
    let request = read_spool_words(words)?;
    let profile = find_profile(alloc, shelf, profile_name(words, &request))?;
    let lists = read_files(alloc, words, &request, shelf)?;
    Ok(PreparedSpool {
        how: PrintSetup {
            profile,
            kernel: request.kernel,
            grain: request.grain,
            way: Way::Woven,
            workers: request.workers,
        },
        lists,
    })
}
