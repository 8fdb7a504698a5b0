//! What a printer makes of a page's pixels: the window on the page, the amount of each ink at a pixel, and the grain
//! that may be applied to the amounts. Definitions only: `ink_separation` computes the amounts, `grained_rows` applies
//! the grain, and `printer_profile` computes the window.
#![tactic(auto)]

mod grain;
mod window;

pub use grain::MOST_GRAIN;
pub use window::Window;
