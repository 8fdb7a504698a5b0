//! The separation of the tiles of a page.
ghost use Rattle.ink_separation.specs.Columns.{grey_in, pixel_in, white_pixel};
ghost use Rattle.ink_separation.specs.Separated.{tile_amount};
ghost use Rattle.ink_separation.specs.Separators.{amount_in, printer_in};
ghost use Rattle.printer_definitions.specs.Inks.{inks_of};
ghost use Rattle.printer_definitions.specs.declared.inks.Ink.{Ink};
ghost use Rattle.pwg_definitions.specs.declared.pages.Kind.TheVariants.{Cmyk8, Rgb8};
ghost use Rattle.separation_definitions.specs.Amounts.{amount as amount_of, cmyk_ink, colour_ink, colour_of, grey_ink};
ghost use Rattle.std.specs.Prelude.{Some, min, slice_get, slice_index, true, ℕ, ◌*◌, ◌+◌, ◌<◌, ◌≡◌, ◌≢◌};

use crate::given::full_given;
use crate::planes::{
    Columns, Plane, put_chosen, put_colours, put_complements, put_darknesses, put_greys,
    put_numbers, put_rests, put_sums,
};
use crate::separator::Separator;
use dot_planes::{TILE_BYTES, TileAmounts};
use printer_definitions::Ink;
use printer_profile::InkSet;
use pwg_definitions::Kind;

impl Separator {
    /// Sets the amounts of a tile's pixels in each ink, by offsets. `columns` has the bytes of the pixels by columns:
    /// 32 of each, one of each row. A pixel of one bit has a byte of its own: 0 for white, any other for black.
    pub fn separate_columns(&self, columns: &[u8; TILE_BYTES], out: &mut TileAmounts)
        ensures put { (i : ℕ) (ink : Ink) → slice_get (inks_of self.now.inks) i ≡ Some ink → (o r : ℕ) → o < 64 → r < 32
            → tile_amount out.new.inks i (32 * o + r)
            ≡ amount_of (printer_in self.now) self.now.kind (pixel_in self.now.kind columns.now o r) ink }
    {
        match self.kind {
            Kind::Gray8 => self.separate_greys(true, columns, out),
            Kind::Black8 => self.separate_greys(false, columns, out),
            Kind::Rgb8 => {
                self.give_colours(columns, out);
                self.scale(out);
            }
            Kind::Black1 => self.separate_bits(columns, out),
            Kind::Cmyk8 => {
                self.give_fours(columns, out);
                self.scale(out);
            }
        }
    }

    // Sets the amounts of pixels of grey, whose bytes are 255 for white if they are light, else 0.
    fn separate_greys(&self, light: bool, columns: &Columns, out: &mut TileAmounts)
        ensures { (i : ℕ) (ink : Ink) → slice_get (inks_of self.now.inks) i ≡ Some ink → (n : ℕ) → n < 2048
            → tile_amount out.new.inks i n
            ≡ amount_in self.now ink (grey_ink self.now.inks ink (grey_in light (slice_index columns.now n))) }
    {
        for i in 0..self.inks.count() {
            let ink = self.inks.at(i);
            self.separate_grey(ink, light, columns, &mut out.inks[usize::from(i)]);
        }
    }

    // Sets the amounts of one ink at pixels of grey. An ink that takes nothing of greys has one amount everywhere.
    fn separate_grey(&self, ink: Ink, light: bool, columns: &Columns, plane: &mut Plane)
        ensures { (n : ℕ) → n < 2048 → slice_index plane.new n
            ≡ amount_in self.now ink (grey_ink self.now.inks ink (grey_in light (slice_index columns.now n))) }
    {
        if full_given(self.inks, ink) == 0 {
            *plane = [self.scales.amount(ink, 0); 2048];
        } else {
            put_greys(light, columns, plane);
            self.scales.scale(ink, plane);
        }
    }

    // Sets the amounts of pixels of one bit. An ink has but two.
    fn separate_bits(&self, columns: &Columns, out: &mut TileAmounts)
        ensures { (i : ℕ) (ink : Ink) → slice_get (inks_of self.now.inks) i ≡ Some ink → (n : ℕ) → n < 2048
            → tile_amount out.new.inks i n
            ≡ amount_in self.now ink (grey_ink self.now.inks ink (255 * min 1 (slice_index columns.now n))) }
    {
        for i in 0..self.inks.count() {
            let ink = self.inks.at(i);
            let none = self.scales.amount(ink, 0);
            let full = self.scales.amount(ink, full_given(self.inks, ink));
            put_chosen(columns, none, full, &mut out.inks[usize::from(i)]);
        }
    }

    // Sets what pixels of red, green and blue give to the inks.
    fn give_colours(&self, columns: &Columns, out: &mut TileAmounts)
        ensures { (i : ℕ) (ink : Ink) → slice_get (inks_of self.now.inks) i ≡ Some ink → (o r : ℕ) → o < 64 → r < 32
            → tile_amount out.new.inks i (32 * o + r)
            ≡ colour_ink self.now.inks self.now.black (colour_of (pixel_in Rgb8 columns.now o r)) ink }
    {
        match self.inks {
            InkSet::K => put_darknesses(columns, &mut out.inks[0]),
            InkSet::Cmy => {
                put_complements(columns, 0, &mut out.inks[0]);
                put_complements(columns, 1, &mut out.inks[1]);
                put_complements(columns, 2, &mut out.inks[2]);
            }
            InkSet::Cmyk => put_colours(columns, &self.black, &mut out.inks),
        }
    }

    // Sets what pixels of cyan, magenta, yellow and black give to the inks.
    fn give_fours(&self, columns: &Columns, out: &mut TileAmounts)
        ensures { (i : ℕ) (ink : Ink) → slice_get (inks_of self.now.inks) i ≡ Some ink → (o r : ℕ) → o < 64 → r < 32
            → tile_amount out.new.inks i (32 * o + r) ≡ cmyk_ink self.now.inks (pixel_in Cmyk8 columns.now o r) ink }
    {
        match self.inks {
            InkSet::K => put_rests(columns, &mut out.inks[0]),
            InkSet::Cmy => {
                put_sums(columns, 0, &mut out.inks[0]);
                put_sums(columns, 1, &mut out.inks[1]);
                put_sums(columns, 2, &mut out.inks[2]);
            }
            InkSet::Cmyk => {
                put_numbers(columns, 3, &mut out.inks[0]);
                put_numbers(columns, 0, &mut out.inks[1]);
                put_numbers(columns, 1, &mut out.inks[2]);
                put_numbers(columns, 2, &mut out.inks[3]);
            }
        }
    }

    // Makes amounts of what is given to each ink.
    fn scale(&self, out: &mut TileAmounts)
        ensures { (i : ℕ) (ink : Ink) → slice_get (inks_of self.now.inks) i ≡ Some ink → (n : ℕ) → n < 2048
            → tile_amount out.new.inks i n ≡ amount_in self.now ink (tile_amount out.old.inks i n) }
    {
        for i in 0..self.inks.count() {
            let ink = self.inks.at(i);
            self.scales.scale(ink, &mut out.inks[usize::from(i)]);
        }
    }

    /// Whether white pixels have amount 0 in every ink.
    pub fn white_is_free(&self) -> bool
        ensures { result ≡ true → (i : ℕ) (ink : Ink) → slice_get (inks_of self.now.inks) i ≡ Some ink
            → amount_of (printer_in self.now) self.now.kind (white_pixel self.now.kind) ink ≡ 0 }
    {
        for i in 0..self.inks.count() {
            if self.scales.amount(self.inks.at(i), 0) != 0 {
                return false;
            }
        }
        true
    }
}
