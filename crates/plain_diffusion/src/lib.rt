//! Error diffusion as its rule is defined: pixel by pixel, row by row over the whole width of a window. The program is
//! slow and plain. The tests of all faster ways compare their results with it.
//!
//! - `Definition::make` diffuses one ink of a window. `error` and `dot` return what the definition of error diffusion
//!   has at a place, for the window's amounts and the errors of the two rows above it (`known`). `make` refuses a
//!   window of more than 65,535 columns or rows, and one below an error that is not from -2040 to 2039.
//! - `amount_at` returns the amounts that the window is diffused from. `Above` describes the errors above the window.
#![tactic(auto)]

mod definition;
mod fills;
mod pixels;

pub use definition::Definition;
pub use fills::{Above, Amounts, InkWindow, amount_at};
