//! The offsets of the fields of a header (PWG 5102.4, section 4.3). Each field is a number of four
//! bytes, the highest byte first.

/// HWResolution across the page.
pub const CROSS_RESOLUTION: usize = 276;
/// HWResolution down the page.
pub const FEED_RESOLUTION: usize = 280;
/// NumCopies.
pub const COPIES: usize = 340;
/// Width.
pub const WIDTH: usize = 372;
/// Height.
pub const HEIGHT: usize = 376;
/// BitsPerColor.
pub const BITS_PER_COLOR: usize = 384;
/// BitsPerPixel.
pub const BITS_PER_PIXEL: usize = 388;
/// BytesPerLine.
pub const BYTES_PER_LINE: usize = 392;
/// ColorOrder.
pub const COLOR_ORDER: usize = 396;
/// ColorSpace.
pub const COLOR_SPACE: usize = 400;
/// NumColors.
pub const COLORS: usize = 420;
/// CrossFeedTransform.
pub const CROSS_FEED_TRANSFORM: usize = 456;
/// FeedTransform.
pub const FEED_TRANSFORM: usize = 460;
