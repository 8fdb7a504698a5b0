//! Error diffusion at one pixel, by the kernels of Floyd and Steinberg, of Jarvis, Judice and Ninke and of Stucki. For
//! any errors in range, `Kernel::pixel` returns exactly the dot and the error of `diffusion_definitions`' rule by the
//! kernel's published table, and the error is in range. It allocates no memory.
#![tactic(auto)]

mod rule;
mod tables;

pub use rule::{Dot, Near};
pub use tables::{Kernel, Shares, Weight};
