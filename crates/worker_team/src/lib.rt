//! A team of workers: the threads, the number of workers, and the gate that tiles enter. The work is cut into shares.
//! `run_beside` does each share once, in threads if they can be started, and an errand once on the caller's own thread
//! (`shares`, `errand`). It allocates no memory.
#![tactic(auto)]

mod beside;
mod team;

pub use beside::{Share, run_beside};
pub use team::{Gate, OpenGate, Team};
