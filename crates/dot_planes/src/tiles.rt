//! The dots of tiles.
ghost use Rattle.dot_planes.specs.Lending.{LendsInk};
ghost use Rattle.dot_planes.specs.Tiles.{IsBlank, IsTileOf, PutsInk, PutsTile};
ghost use Rattle.std.specs.Borrow.{sem};
ghost use Rattle.std.specs.Prelude.{IfOk, [], length, replicate, slice_index_or, ◌+◌, ◌<◌, ◌≡◌, ◌≤◌};

use crate::planes::Planes;
use base_definitions::Memory;
use std::alloc::Global;
use std::marker::Model;
use tile_shape::Place;

/// The dots of a tile.
#[derive(Drop)]
pub struct TileDots {
    /// The tile.
    pub place: Place,
    /// Its dots.
    pub bits: TileBits,
}

/// The dots of a tile, ink by ink. Contracts see a list of 256 bytes an ink: 32 rows of 64 dots, eight a byte, the
/// first in the highest bit. The dot at an offset of row r is bit 64 r + offset. A place without a pixel has a bit
/// too, which means nothing.
///
/// It is cheap to move, since its bytes are on the heap.
#[derive(Drop)]
pub struct TileBits {
    inks: Vec<[u8; 256]>,
}

impl Model for TileBits {
    ghost use Rattle.std.specs.Prelude.{List, ℕ};

    ghost Value = { List (List ℕ) };

    ghost use Rattle.dot_planes.specs.TileBits.{IsInks, bits_of};

    ghost view = { bits_of };

    ghost invariant = { IsInks };
}

// The bytes of an ink that a tile does not have.
pub(crate) const NO_DOTS: [u8; 256] = [0; 256];

impl TileBits {
    /// No dots, of 1 to 4 inks.
    pub fn make(alloc: Global, inks: u8) -> Result<TileBits, Memory>
        requires some { 1 ≤ inks }
        requires most { inks ≤ 4 }
        ensures inks { IfOk result (λ b. length b ≡ inks) }
        ensures blank { IfOk result IsBlank }
        ensures bytes { IfOk result (λ b. b ≡ replicate inks (replicate 256 0)) }
    {
        let inks = vec![in alloc; [0; 256]; usize::from(inks)]?;
        Ok(TileBits { inks })
    }

    /// Turns every dot off.
    pub fn clear(&mut self)
        ensures { self.new ≡ replicate (length self.old) (replicate 256 0) }
    {
        self.inks.fill([0; 256]);
    }

    /// The number of inks.
    pub fn inks(&self) -> u8
        ensures is { result ≡ length self.now }
        ensures some { 1 ≤ result }
        ensures most { result ≤ 4 }
    {
        self.inks.len() as u8
    }

    /// The bytes of an ink.
    pub fn ink(&self, ink: u8) -> &[u8; 256]
        requires { ink < length self.now }
        ensures { result.now ≡ slice_index_or self.now ink [] }
    {
        &self.inks[usize::from(ink)]
    }

    /// The bytes of an ink, to be written. The other inks are unchanged.
    pub fn ink_mut(&mut self, ink: u8) -> &mut [u8; 256]
        requires { ink < length self.old }
        ensures* writes_back { sem 𝓛 (LendsInk self.entry ink result) }
        ensures value { result.now ≡ slice_index_or self.old ink [] }
    {
        &mut self.inks[usize::from(ink)]
    }
}

impl Planes {
    /// Sets the pixels of a tile in the slab of `height` rows that begins at row `at`, on or off as the tile has
    /// them, in every ink of the planes. All other dots are unchanged.
    pub fn put_tile(&mut self, at: u32, height: u32, d: &TileDots)
        requires height { 1 ≤ height }
        requires slab { at + height ≤ self.old.rows }
        requires place { IsTileOf self.old height d.now.place }
        ensures { PutsTile self.old self.new at height d.now.place d.now.bits }
    {
        for ink in 0..self.inks() {
            let bytes = if ink < d.bits.inks() {
                d.bits.ink(ink)
            } else {
                &NO_DOTS
            };
            self.put_tile_ink(at, height, d.place, ink, bytes);
        }
    }

    // Sets the pixels of a tile in one ink. All other dots are unchanged.
    fn put_tile_ink(&mut self, at: u32, height: u32, place: Place, ink: u8, bytes: &[u8; 256])
        requires height { 1 ≤ height }
        requires slab { at + height ≤ self.old.rows }
        requires place { IsTileOf self.old height place }
        requires ink { ink < self.old.inks }
        ensures { PutsInk self.old self.new at height place ink bytes.now }
    {
        let rows = (height - 32 * place.j).min(32);
        for r in 0..rows {
            let start = 8 * r as usize;
            self.put_tile_row(ink, at, place, r, &bytes[start..start + 8]);
        }
    }
}
