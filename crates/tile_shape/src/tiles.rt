//! The tiles of a window: the tile of a pixel, the edges that a tile needs, and the tiles that its edges go to.

/// The place of a tile.
#[derive(Clone, Copy, Debug, PartialEq, Eq)]
pub struct Place {
    /// The column, counted from 0 at the left.
    pub c: u32,
    /// The band, counted from 0 at the top.
    pub j: u32,
}

/// The size of a window.
#[derive(Clone, Copy, Debug, PartialEq, Eq)]
pub struct Shape {
    /// In pixels: 1 to `MOST_COLUMNS`.
    pub width: u32,
    /// In pixels: 1 to `MOST_ROWS`.
    pub height: u32,
}

/// Which edges of other tiles a tile needs.
#[derive(Clone, Copy, Debug, PartialEq, Eq)]
pub struct Needs {
    /// The right edge of the tile to its left.
    pub left: bool,
    /// The bottom edge of the tile one column to the right, in the band above.
    pub above: bool,
    /// The corner edge of the tile above.
    pub corner: bool,
}

/// An edge of a tile: errors that it hands to another tile, each at a row 0 to 31 and an offset 0 to 63.
#[derive(Clone, Copy, Debug, PartialEq, Eq)]
pub enum Dir {
    /// Offsets 58 to 63 of every row, for the tile to the right.
    Right,
    /// Rows 30 and 31, for the tile one column to the left in the band below.
    Bottom,
    /// Offsets 58 to 63 of rows 30 and 31, for the tile below.
    Corner,
}

impl Shape {
    ghost use Rattle.tile_shape.specs.Geometry.{IsIn, IsNeeded, IsPixel, IsReceiver, IsShape, IsTile, IsWhole, bands_of};
    ghost use Rattle.tile_shape.specs.Geometry.{columns_of};
    ghost use Rattle.std.specs.Prelude.{IfNone, IfSome, IsTrue, ◌↔◌, ◌≡◌};

    /// How many columns of tiles each band has, at least one. Some tiles may have no pixel.
    pub fn columns(&self) -> u32
        requires { IsShape self.now }
        ensures { result ≡ columns_of self.now }
    {
        (self.width + 62).div_ceil(64)
    }

    /// How many bands there are, at least one.
    pub fn bands(&self) -> u32
        requires { IsShape self.now }
        ensures { result ≡ bands_of self.now }
    {
        self.height.div_ceil(32)
    }

    /// The tile that has the pixel in column x and row y, which are counted from 0. No other tile has it.
    pub fn tile_of(&self, x: u32, y: u32) -> Place
        requires shape { IsShape self.now }
        requires pixel { IsPixel self.now x y }
        ensures tile { IsTile self.now result }
        ensures has { IsIn self.now result x y }
        ensures no_other { (other : Place) → IsIn self.now other x y → other ≡ result }
    {
        let row = y % 32;
        Place {
            c: (x + 2 * row) / 64,
            j: y / 32,
        }
    }

    /// Whether the window has every pixel of a tile.
    #[tactic(auto, using(crate::proofs::Wholes::inside_of, crate::proofs::Wholes::whole_of))]
    pub fn has_all(&self, p: Place) -> bool
        ensures { IsTrue result ↔ IsWhole self.now p }
    {
        p.c >= 1
            && 64 * p.c as usize + 64 <= self.width as usize
            && 32 * p.j as usize + 32 <= self.height as usize
    }

    /// The edges that a tile needs: those whose `next` is this tile.
    pub fn needs(&self, p: Place) -> Needs
        requires shape { IsShape self.now }
        requires tile { IsTile self.now p }
        ensures left { IsTrue result.left ↔ IsNeeded self.now Dir.Right p }
        ensures above { IsTrue result.above ↔ IsNeeded self.now Dir.Bottom p }
        ensures corner { IsTrue result.corner ↔ IsNeeded self.now Dir.Corner p }
    {
        Needs {
            left: p.c > 0,
            above: p.j > 0 && p.c + 1 < self.columns(),
            corner: p.j > 0,
        }
    }

    /// The tile that receives an edge of tile p, or `None` if the window has no such tile.
    pub fn next(&self, p: Place, d: Dir) -> Option<Place>
        requires shape { IsShape self.now }
        requires tile { IsTile self.now p }
        ensures receiver { IfSome result (λ to. IsTile self.now to × IsReceiver d p to) }
        ensures none { IfNone result ((to : Place) → IsTile self.now to → ¬ IsReceiver d p to) }
    {
        let Place { c, j } = p;
        match d {
            Dir::Right if c + 1 < self.columns() => Some(Place { c: c + 1, j }),
            Dir::Bottom if c > 0 && j + 1 < self.bands() => Some(Place { c: c - 1, j: j + 1 }),
            Dir::Corner if j + 1 < self.bands() => Some(Place { c, j: j + 1 }),
            _ => None,
        }
    }
}
