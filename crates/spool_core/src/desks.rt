//! A desk: a spool with its senders' work and its printer's pass, and room for what senders and printer leave.
ghost use Rattle.spool_core.specs.Desks.{IsDesk};
ghost use Rattle.spool_core.specs.Prepared.{AreFew};
ghost use Rattle.spool_queue.specs.Jobs.{count_sent};
ghost use Rattle.std.specs.Prelude.{All, IfOk, length, map, ◌*◌, ◌≡◌, ◌≤◌};

use crate::report::Ran;
use crate::senders::{Work, assign};
use base_definitions::Memory;
use spool_queue::{PrintPass, SendPass, Spool, StreamBytes};
use std::alloc::Global;

/// All that is needed to send some jobs, and to take them.
#[derive(Drop)]
pub struct Desk {
    pub spool: Spool,
    pub works: Vec<Work>,
    pub printer: PrintPass,
    /// How many jobs there are.
    pub count: u32,
    /// Empty, with room for the senders' passes.
    pub ended: Vec<SendPass>,
    /// Empty, with room for all jobs.
    pub done: Vec<Ran>,
}

// How many streams there are.
fn count_streams(lists: &[Vec<StreamBytes>]) -> u32
    requires few { length lists.now ≤ 8 }
    requires jobs { All (λ list. length list.items ≤ 64) lists.now }
    ensures count { result ≡ count_sent (map (λ list. list.items) lists.now) }
    ensures most { result ≤ 64 * length lists.now }
{
    let mut count = 0;
    for list in lists {
        count += list.len() as u32;
    }
    count
}

impl Desk {
    /// A desk whose queue has room for all these streams, the list of each sender in its order. Returns `Memory` if
    /// there is no memory for all that the desk ever needs.
    pub fn make(alloc: Global, lists: Vec<Vec<StreamBytes>>) -> Result<Desk, Memory>
        requires { AreFew (map (λ list. list.items) lists.items) }
        ensures { IfOk result (IsDesk (map (λ list. list.items) lists.items)) }
    {
        let senders = lists.len() as u8;
        let count = count_streams(&lists);
        let (spool, passes, printer) = Spool::make(alloc, senders, count)?;
        let works = Vec::with_capacity(alloc, lists.len())?;
        let ended = Vec::with_capacity(alloc, lists.len())?;
        let done = Vec::with_capacity(alloc, count as usize)?;
        Ok(Desk {
            spool,
            works: assign(passes, lists, works),
            printer,
            count,
            ended,
            done,
        })
    }
}
