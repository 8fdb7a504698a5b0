//! The part of a page that is printed.

/// The part of a page inside the profile's margins.
#[derive(Clone, Copy, Debug, PartialEq, Eq)]
pub struct Window {
    /// The first column of the page that is printed.
    pub left: u32,
    /// The first row that is printed.
    pub top: u32,
    /// How many columns are printed.
    pub width: u32,
    /// How many rows are printed.
    pub height: u32,
}
