//! What tests of slabs share, whether passes, a team or a whole run diffuse the slabs: the dots of a level slab, and a
//! gate at which two tiles meet.
#![tactic(auto)]

mod level_slab;
mod meeting_gate;

pub use level_slab::{LEVEL_SLAB, Measure, known_rows, measured};
pub use meeting_gate::MeetingGate;
