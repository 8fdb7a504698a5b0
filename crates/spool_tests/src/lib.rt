//! Tests of the spool's words and runs, and of its queue, on one thread and with a thread for each sender.
//! `tests/team.rt` has proved callers of the queue: two senders, whose passes come back in another order and are
//! sorted, and a printer that takes all that they sent, or none.
#![tactic(auto)]

#[cfg(test)]
mod tests;
