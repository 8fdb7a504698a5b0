//! Inks, and the sets of inks that a printer may carry.
ghost use Rattle.std.specs.Prelude.{Some, ◌<◌, ◌≡◌, length, slice_get};

/// One ink.
#[derive(Clone, Copy, Debug, PartialEq, Eq)]
pub enum Ink {
    Black,
    Cyan,
    Magenta,
    Yellow,
}

/// The inks that a printer carries.
#[derive(Clone, Copy, Debug, PartialEq, Eq)]
pub enum InkSet {
    /// Black alone.
    K,
    /// Cyan, magenta and yellow.
    Cmy,
    /// Black, cyan, magenta and yellow.
    Cmyk,
}

/// How many dots of each ink: black, cyan, magenta and yellow.
#[derive(Clone, Copy, Debug, PartialEq, Eq)]
pub struct InkCounts {
    pub k: u64,
    pub c: u64,
    pub m: u64,
    pub y: u64,
}

impl InkSet {
    ghost use Rattle.printer_definitions.specs.Inks.{inks_of};

    /// How many inks the set has: 1, 3 or 4.
    pub fn count(self) -> u8
        ensures { result ≡ length (inks_of self) }
    {
        match self {
            InkSet::K => 1,
            InkSet::Cmy => 3,
            InkSet::Cmyk => 4,
        }
    }

    /// The ink at a place of the set, counted from 0.
    pub fn at(self, i: u8) -> Ink
        requires { i < length (inks_of self) }
        ensures { slice_get (inks_of self) i ≡ Some result }
    {
        match self {
            InkSet::K => Ink::Black,
            InkSet::Cmy => match i {
                0 => Ink::Cyan,
                1 => Ink::Magenta,
                _ => Ink::Yellow,
            },
            InkSet::Cmyk => match i {
                0 => Ink::Black,
                1 => Ink::Cyan,
                2 => Ink::Magenta,
                _ => Ink::Yellow,
            },
        }
    }
}
