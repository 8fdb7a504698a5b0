//! Words, and what a run reads and writes, in memory.
use std::alloc::{AllocError, Global};
use weave_base::{MemShelf, MemSink, MemSource, Memory, ShelfFile, Words};

/// The words of a command line, at most nine of them.
pub fn words(alloc: Global, texts: &[&str]) -> Result<Words, Memory> {
    let mut made = Words::make(alloc);
    for text in texts {
        if made.len() < 9 {
            made.push(text)?;
        }
    }
    Ok(made)
}

/// A source that gives as many bytes as it is asked for.
pub fn plain(alloc: Global, bytes: Vec<u8>) -> MemSource {
    MemSource::make(bytes, Vec::new(alloc), Vec::new(alloc))
}

/// A source whose reads give at most `piece` bytes each, and of which read `failing`, counted from 1, fails; none where
/// it is 0.
pub fn source(
    alloc: Global,
    bytes: Vec<u8>,
    piece: u32,
    failing: u32,
) -> Result<MemSource, AllocError> {
    let pieces = vec![in alloc; piece.max(1)]?;
    Ok(MemSource::make(bytes, pieces, vec![in alloc; failing]?))
}

/// A sink with room for so many bytes, which fails only when it is full.
pub fn sink(alloc: Global, room: usize) -> Result<MemSink, Memory> {
    MemSink::make(alloc, room, Vec::new(alloc), Vec::new(alloc))
}

/// A sink with room for all that a test prints.
pub fn roomy(alloc: Global) -> Result<MemSink, Memory> {
    sink(alloc, 70_000)
}

/// A shelf without a file.
pub fn no_files(alloc: Global) -> MemShelf {
    MemShelf::make(Vec::new(alloc), Vec::new(alloc))
}

/// A shelf whose first read fails.
pub fn failing_shelf(alloc: Global) -> Result<MemShelf, AllocError> {
    Ok(MemShelf::make(Vec::new(alloc), vec![in alloc; 1]?))
}

/// A shelf of one file.
pub fn one_file(alloc: Global, name: &str, text: &[u8]) -> Result<MemShelf, Memory> {
    let file = ShelfFile {
        name: String::from_str(alloc, name)?,
        bytes: text.to_vec(alloc)?,
    };
    let mut files = Vec::with_capacity(alloc, 1)?;
    files.push_reserved(file);
    Ok(MemShelf::make(files, Vec::new(alloc)))
}
