//! What is lent to all workers: the threads, and the gate between the claim of a tile and its work.
ghost use Rattle.std.specs.Prelude.{◌≤◌};

use tile_shape::Place;

/// What a worker calls between the claim of a tile and its work. All workers share one.
pub trait Gate {
    /// Returns when the worker may begin to work tile p.
    fn enter(&self, p: Place);
}

/// A gate that holds nobody back.
pub struct OpenGate;

impl Gate for OpenGate {
    fn enter(&self, p: Place) {
        let _ = p;
    }
}

/// The workers on a page.
#[derive(Drop)]
pub struct Team<'a, R, G> {
    /// What starts threads.
    pub threads: &'a R,
    /// The number of workers, the caller among them: 1 to 64.
    pub workers: u8,
    /// The gate that all workers share.
    pub gate: &'a G,
    pub ghost some: { 1 ≤ workers },
    pub ghost most: { workers ≤ 64 },
}
