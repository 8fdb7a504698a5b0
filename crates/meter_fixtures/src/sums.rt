//! Counts, and their sum over meters.
use ink_meter::{InkCounts, Meter, can_settle, settle};

/// Counts of black, cyan, magenta and yellow.
pub fn counts(k: u64, c: u64, m: u64, y: u64) -> InkCounts {
    InkCounts { k, c, m, y }
}

/// The sum of what the meters counted, where it fits.
pub fn settled(meters: Vec<Box<dyn Meter>>) -> Option<InkCounts> {
    if can_settle(&meters) {
        Some(settle(meters))
    } else {
        None
    }
}
