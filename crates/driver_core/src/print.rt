//! The command `print`.

mod charging;
mod counting;
mod ink_count;
mod one;
mod pages;
mod setup;

pub use charging::set_caps;
pub use one::{Printed, print_one, print_stream};
pub use pages::{print_pages, stream_answer};
pub use setup::{PrintSetup, job_setup};
