//! Reading the files that senders send.
ghost use Rattle.driver_core.specs.Outside.{texts_of};
ghost use Rattle.spool_core.specs.Files.{AreFiles, FilesOutcome, HasStreams, IsFile, StopsAtFile};
ghost use Rattle.spool_core.specs.Files.{StopsAtName, bytes_in, most_files, most_next as most_next_of};
ghost use Rattle.spool_words.specs.Meaning.{names_from, names_of, spool_meaning};
ghost use Rattle.std.specs.Prelude.{IfErr, IfOk, Ok, map, ◌+◌, ◌≡◌, ◌≤◌};

use crate::answer::SpoolAnswer;
use spool_queue::StreamBytes;
use spool_words::{SpoolRequest, Words, name, name_count};
use std::alloc::Global;
use weave_base::{Found, Shelf, ShelfStop};

/// The most bytes of a file.
pub const MOST_FILE: usize = 268_435_456;

/// The most bytes of all files together. A file that is named twice counts twice.
pub const MOST_FILES: usize = 2_147_483_648;

/// Why a file is refused.
#[derive(Clone, Copy, Debug, PartialEq, Eq)]
pub enum FileCause {
    /// The shelf has no file of this name.
    Absent,
    /// The file has more bytes than a file may have, or than the files before it leave.
    TooLong,
}

// Where the files are read: after so many bytes, the file of this job.
struct FilePlace {
    taken: usize,
    sender: u8,
    job: u32,
}

// The most bytes that the next file may have, after files of so many bytes.
fn most_next(taken: usize) -> usize
    requires { taken ≤ most_files }
    ensures { result ≡ most_next_of taken }
{
    MOST_FILE.min(MOST_FILES - taken)
}

// Reads the file of a job.
fn read_file<F: Shelf>(
    alloc: Global,
    shelf: &mut F,
    name: &str,
    place: FilePlace,
) -> Result<StreamBytes, SpoolAnswer>
    requires { place.taken ≤ most_files }
    ensures ok { IfOk result (IsFile (F.files shelf.old) place.taken name.now) }
    ensures err { IfErr result (StopsAtFile (texts_of F.files F.faults shelf.old shelf.new)
        place.taken name.now place.sender place.job) }
    ensures later { F.faults shelf.old ≤ F.faults shelf.new }
    ensures stay { F.files shelf.new ≡ F.files shelf.old }
{
    let FilePlace { taken, sender, job } = place;
    match shelf.read_text(alloc, name, most_next(taken)) {
        Ok(Found::Text(bytes)) => Ok(StreamBytes::new(bytes)),
        Ok(Found::Absent) => Err(SpoolAnswer::File {
            sender,
            job,
            cause: FileCause::Absent,
        }),
        Ok(Found::TooLong) => Err(SpoolAnswer::File {
            sender,
            job,
            cause: FileCause::TooLong,
        }),
        Err(ShelfStop::Failed) => Err(SpoolAnswer::ReadFile { sender, job }),
        Err(ShelfStop::Memory) => Err(SpoolAnswer::Memory),
    }
}

// Reads the files of a sender in their order, and adds to `taken` how many bytes they have.
fn read_sender<F: Shelf>(
    alloc: Global,
    words: &Words,
    request: &SpoolRequest,
    sender: u8,
    taken: &mut usize,
    shelf: &mut F,
) -> Result<Vec<StreamBytes>, SpoolAnswer>
    requires read { spool_meaning words.now ≡ Ok request.now }
    requires some { 1 ≤ sender }
    requires within { sender ≤ request.now.senders }
    requires taken { taken.old ≤ most_files }
    ensures ok { IfOk result (λ list.
        HasStreams (F.files shelf.old) taken.old (names_from words.now sender) list.items) }
    ensures taken { IfOk result (λ list. taken.new ≡ taken.old + bytes_in list.items) }
    ensures most { taken.new ≤ most_files }
    ensures err { IfErr result (StopsAtName (texts_of F.files F.faults shelf.old shelf.new)
        taken.old (names_from words.now sender) sender) }
    ensures later { F.faults shelf.old ≤ F.faults shelf.new }
    ensures stay { F.files shelf.new ≡ F.files shelf.old }
{
    let mut list = Vec::new(alloc);
    for i in 0..name_count(words, request, sender) {
        let place = FilePlace {
            taken: *taken,
            sender,
            job: i + 1,
        };
        let stream = read_file(alloc, shelf, name(words, request, sender, i + 1), place)?;
        *taken += stream.as_slice().len();
        if list.push(stream).is_err() {
            return Err(SpoolAnswer::Memory);
        }
    }
    Ok(list)
}

/// Reads the files of all senders, in the order of senders and their names. Each file has at most `MOST_FILE` bytes,
/// and all together have at most `MOST_FILES`. `Err` has the answer if the run ends here: the first file that is
/// refused or whose read fails, or out of memory.
pub fn read_files<F: Shelf>(
    alloc: Global,
    words: &Words,
    request: &SpoolRequest,
    shelf: &mut F,
) -> Result<Vec<Vec<StreamBytes>>, SpoolAnswer>
    requires { spool_meaning words.now ≡ Ok request.now }
    ensures ok { IfOk result (λ lists.
        AreFiles (F.files shelf.old) (names_of words.now) (map (λ list. list.items) lists.items)) }
    ensures err { IfErr result
        (FilesOutcome (names_of words.now) (texts_of F.files F.faults shelf.old shelf.new)) }
    ensures later { F.faults shelf.old ≤ F.faults shelf.new }
    ensures stay { F.files shelf.new ≡ F.files shelf.old }
{
    let mut lists = Vec::new(alloc);
    let mut taken = 0;
    for i in 0..request.senders {
        let list = read_sender(alloc, words, request, i + 1, &mut taken, shelf)?;
        if lists.push(list).is_err() {
            return Err(SpoolAnswer::Memory);
        }
    }
    Ok(lists)
}
