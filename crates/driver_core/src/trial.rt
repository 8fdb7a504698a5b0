//! The command `trial`.

mod page_bytes;
mod pages;
mod summary;

pub use pages::try_pages;
