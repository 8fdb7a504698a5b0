//! Bytes read ahead of their use (`Unread`), bytes on their way to a sink (`Gathered`), and the state of a source or a
//! sink at a call and at its return (`Outside`, only a definition).
//!
//! - `Unread` keeps up to 64 KiB that were taken from a source and are not yet used. The text that a reader has to read
//!   is these bytes, followed by what the source has left (`text_behind`). `more` and `fill` keep this text, whether
//!   they succeed or not, and `use_up` takes bytes off its beginning, so nothing is lost if a read fails. If the source
//!   does not show what it holds, the clauses on the text say nothing. `make` allocates the buffer or returns `Memory`.
//!   No other call allocates memory.
//! - `Gathered` gathers up to 8,192 bytes before they are written, so that a sink gets few and large writes. Bytes that
//!   are pushed or written reach the sink once and in order: the bytes that the sink took and those still gathered make
//!   up the whole (`Passes`, `Writes`). If a write fails, the sink took a proper prefix of the gathered bytes. The
//!   bytes are in the value itself, and no call allocates memory.
#![tactic(auto)]

mod gathered;
mod unread;

pub use gathered::{Gathered, MOST_GATHERED};
pub use unread::{MOST_UNREAD, Unread};
