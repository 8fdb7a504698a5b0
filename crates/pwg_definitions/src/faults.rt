//! The faults of a stream.

/// Why a page header is refused. The variants are in the order of the checks.
#[derive(Clone, Copy, Debug, PartialEq, Eq)]
pub enum HeaderFault {
    /// It does not begin with `PwgRaster`.
    NotPwg,
    /// Its resolution is not the wanted one.
    Resolution,
    /// It is too narrow or too wide.
    Width,
    /// It is too short or too tall.
    Height,
    /// Its bits and colour space are not in the table of kinds.
    Kind,
    /// Its BytesPerLine is not the length of a line of its width.
    BytesPerLine,
    /// The colours of its pixels are not side by side (ColorOrder is not 0).
    Order,
    /// One of its transforms is neither 0 nor 1.
    Transform,
}

/// Why a group of lines is refused.
#[derive(Clone, Copy, Debug, PartialEq, Eq)]
pub enum LineFault {
    /// A packet has more pixels, or more bytes of eight pixels, than are left in the line.
    RunPastLine,
    /// The line is repeated more often than the page has lines left.
    GroupPastPage,
}

/// Why a stream is refused.
#[derive(Clone, Copy, Debug, PartialEq, Eq)]
pub enum InputCause {
    /// It does not begin with the sync word `RaS2`.
    BadSync,
    /// It ends inside a page.
    Truncated,
    /// More bytes follow page 9,999.
    TooManyPages,
    /// A page's header is refused.
    Header(HeaderFault),
    /// A group of lines is refused.
    Line(LineFault),
}
