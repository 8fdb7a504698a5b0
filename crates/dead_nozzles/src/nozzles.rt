//! Lists of dead nozzles.
use arrayvec::ArrayVec;

/// The numbers of dead nozzles, in rising order.
pub type DeadNozzles = ArrayVec<u8, 255>;
