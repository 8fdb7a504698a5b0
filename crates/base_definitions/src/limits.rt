//! The size of the largest page that is read.

/// The most columns of a page.
pub const MOST_COLUMNS: u32 = 8191;

/// The most bytes of a row of dots, with eight columns a byte.
pub const MOST_ROW_BYTES: usize = (MOST_COLUMNS as usize + 7) / 8;

/// The most lines of a page: 22 inches at 720 lines an inch.
pub const MOST_ROWS: u32 = 15840;

/// The longest page in units of 1/3600 inch, five of which are a line at 720 lines an inch.
pub const LONGEST_PAGE: u32 = 5 * MOST_ROWS;
