//! The separation of a page's lines.
ghost use Rattle.base_definitions.specs.Limits.{most_columns};
ghost use Rattle.base_definitions.specs.Packed.{bit_at, worth};
ghost use Rattle.dot_planes.specs.Tables.{HasSizeAs, amount};
ghost use Rattle.ink_separation.specs.Given.{IsGiven, given_to};
ghost use Rattle.ink_separation.specs.Separated.{Separates};
ghost use Rattle.ink_separation.specs.Separators.{IsSeparatorOf, amount_in, printer_in};
ghost use Rattle.printer_definitions.specs.Inks.{inks_of};
ghost use Rattle.printer_definitions.specs.Printer.{Printer};
ghost use Rattle.printer_definitions.specs.declared.inks.Ink.{Ink};
ghost use Rattle.printer_profile.specs.Validity.{check};
ghost use Rattle.pwg_definitions.specs.Header.{line_bytes, row_of};
ghost use Rattle.pwg_definitions.specs.declared.pages.Kind.{Kind};
ghost use Rattle.separation_definitions.specs.Amounts.{amount as amount_of, grey_ink, pixel_at};
ghost use Rattle.separation_definitions.specs.declared.window.Window.{Window};
ghost use Rattle.std.specs.Prelude.{IsOk, Some, length, slice_get, slice_index, ℕ, ◌%◌, ◌*◌, ◌+◌, ◌/◌};
ghost use Rattle.std.specs.Prelude.{◌<◌, ◌≡◌, ◌≢◌, ◌≤◌, ◌⊎◌};

use crate::bits::{bits_of, chosen};
use crate::black::BlackScale;
use crate::given::{Given, colour_given, four_given, full_given, grey_given};
use crate::pixels::{PIXELS, Values, inverted, same};
use crate::scales::Scales;
use dot_planes::InkRows;
use printer_definitions::Ink;
use printer_profile::{InkSet, Profile};
use pwg_definitions::Kind;
use separation_definitions::Window;

/// How the lines of a page are separated, made once for the page.
///
/// Contracts see its inks, the darkness from which black takes over, the inks' limits and curves, the kind of its
/// pixels and its window.
#[derive(Drop)]
pub struct Separator {
    pub(crate) kind: Kind,
    window: Window,
    pub(crate) inks: InkSet,
    pub(crate) black: BlackScale,
    pub(crate) scales: Scales,
}

impl Separator {
    /// The separator of a printer, for pixels of this kind and for this window.
    pub fn make(p: &Profile, kind: Kind, window: Window) -> Separator
        requires { IsOk (check p.now) }
        ensures { IsSeparatorOf p.now kind window result }
    {
        Separator {
            kind,
            window,
            inks: p.inks,
            black: BlackScale::make(p),
            scales: Scales::make(p),
        }
    }

    /// The kind of the page's pixels.
    pub fn kind(&self) -> Kind
        ensures { result ≡ self.now.kind }
    {
        self.kind
    }

    /// The printer's inks.
    pub fn inks(&self) -> InkSet
        ensures { result ≡ self.now.inks }
    {
        self.inks
    }

    /// The part of the page that is separated.
    pub fn window(&self) -> Window
        ensures { result ≡ self.now.window }
    {
        self.window
    }

    /// Sets the amounts of all inks in row `at` from the pixels of a line inside the window. Other rows are unchanged.
    ///
    /// Column x of the window is pixel left + x of the line. `out` is as wide as the window and has the inks of the
    /// printer's set in their order.
    pub fn separate(&self, line: &[u8], at: u32, out: &mut InkRows)
        requires wide { self.now.window.width ≤ most_columns }
        requires inside { line_bytes (self.now.window.left + self.now.window.width) (row_of self.now.kind).bits_per_pixel
            ≤ length line.now }
        requires width { out.old.width ≡ self.now.window.width }
        requires inks { out.old.inks ≡ length (inks_of self.now.inks) }
        requires at { at < out.old.rows }
        ensures size { HasSizeAs out.old out.new }
        ensures separated { (p : Printer) (kind : Kind) (w : Window)
            → IsSeparatorOf p kind w self.now → Separates p kind line.now w at out.old out.new }
    {
        let left = self.window.left as usize;
        let width = self.window.width;
        let whole = width / 64;
        for n in 0..whole {
            let x = 64 * n;
            self.separate_part(line, left + x as usize, PIXELS, x, at, out);
        }
        let x = 64 * whole;
        self.separate_part(line, left + x as usize, (width - x) as usize, x, at, out);
    }

    // Sets the amounts of `many` pixels of the line from pixel `first` on, in row `at` from column x on. It is inlined
    // so that a whole chunk of 64 pixels has loops of known length.
    #[inline(always)]
    fn separate_part(
        &self,
        line: &[u8],
        first: usize,
        many: usize,
        x: u32,
        at: u32,
        out: &mut InkRows,
    )
        requires many { many ≤ 64 }
        requires pixels { line_bytes (first + many) (row_of self.now.kind).bits_per_pixel ≤ length line.now }
        requires inside { x + many ≤ out.old.width }
        requires inks { out.old.inks ≡ length (inks_of self.now.inks) }
        requires at { at < out.old.rows }
        ensures size { HasSizeAs out.old out.new }
        ensures put { (i : ℕ) (ink : Ink) → slice_get (inks_of self.now.inks) i ≡ Some ink → (k : ℕ) → k < many
            → amount out.new i at (x + k)
            ≡ amount_of (printer_in self.now) self.now.kind (pixel_at self.now.kind line.now (first + k)) ink }
        ensures beside { (i c : ℕ) → (c < x) ⊎ (x + many ≤ c) → amount out.new i at c ≡ amount out.old i at c }
        ensures others { (i y c : ℕ) → y ≢ at → y < out.old.rows → amount out.new i y c ≡ amount out.old i y c }
    {
        match self.kind {
            Kind::Black1 => self.put_bits(&self.bits(line, first, many), many, x, at, out),
            _ => self.put(&self.given(line, first, many), many, x, at, out),
        }
    }

    // The pixels of one bit from pixel `first` of the line on: 255 for 1, 0 for 0.
    #[inline(always)]
    pub(crate) fn bits(&self, line: &[u8], first: usize, many: usize) -> Values
        requires many { many ≤ 64 }
        requires pixels { first + many ≤ 8 * length line.now }
        ensures { (k : ℕ) → k < many → slice_index result k
            ≡ 255 * worth (bit_at (slice_index line.now ((first + k) / 8)) ((first + k) % 8)) 1 }
    {
        bits_of(&line[first / 8..], first % 8, many)
    }

    // Sets the amounts of each ink in row `at` from column x on from `many` pixels of one bit. An ink has but two
    // amounts there.
    #[inline(always)]
    fn put_bits(&self, bits: &Values, many: usize, x: u32, at: u32, out: &mut InkRows)
        requires many { many ≤ 64 }
        requires inside { x + many ≤ out.old.width }
        requires inks { out.old.inks ≡ length (inks_of self.now.inks) }
        requires at { at < out.old.rows }
        requires bits { (k : ℕ) → k < many → (slice_index bits.now k ≡ 0) ⊎ (slice_index bits.now k ≡ 255) }
        ensures size { HasSizeAs out.old out.new }
        ensures put { (i : ℕ) (ink : Ink) → slice_get (inks_of self.now.inks) i ≡ Some ink → (k : ℕ) → k < many
            → amount out.new i at (x + k)
            ≡ amount_in self.now ink (grey_ink self.now.inks ink (slice_index bits.now k)) }
        ensures beside { (i c : ℕ) → (c < x) ⊎ (x + many ≤ c) → amount out.new i at c ≡ amount out.old i at c }
        ensures others { (i y c : ℕ) → y ≢ at → y < out.old.rows → amount out.new i y c ≡ amount out.old i y c }
    {
        for i in 0..self.inks.count() {
            let amounts = self.amounts_of_bits(self.inks.at(i), bits);
            out.put_part(i, x, at, &amounts[..many]);
        }
    }

    // The amounts of an ink at pixels of one bit.
    #[inline(always)]
    pub(crate) fn amounts_of_bits(&self, ink: Ink, bits: &Values) -> Values
        ensures { (x : ℕ) → x < 64 → (slice_index bits.now x ≡ 0) ⊎ (slice_index bits.now x ≡ 255)
            → slice_index result x ≡ amount_in self.now ink (grey_ink self.now.inks ink (slice_index bits.now x)) }
    {
        let none = self.scales.amount(ink, 0);
        let full = self.scales.amount(ink, full_given(self.inks, ink));
        chosen(bits, none, full)
    }

    // What `many` pixels of the line from pixel `first` on give.
    #[inline(always)]
    pub(crate) fn given(&self, line: &[u8], first: usize, many: usize) -> Given
        requires many { many ≤ 64 }
        requires pixels { line_bytes (first + many) (row_of self.now.kind).bits_per_pixel ≤ length line.now }
        ensures { IsGiven (printer_in self.now) self.now.kind line.now first many result }
    {
        match self.kind {
            Kind::Gray8 => grey_given(self.inks, inverted(&line[first..], many)),
            Kind::Black8 => grey_given(self.inks, same(&line[first..], many)),
            Kind::Rgb8 => colour_given(self.inks, &self.black, &line[3 * first..], many),
            Kind::Black1 => self.bits_given(line, first, many),
            Kind::Cmyk8 => four_given(self.inks, &line[4 * first..], many),
        }
    }

    // What `many` pixels of one bit give. It is not inlined: `separate_part` puts them by `put_bits`.
    #[inline(never)]
    fn bits_given(&self, line: &[u8], first: usize, many: usize) -> Given
        requires many { many ≤ 64 }
        requires pixels { first + many ≤ 8 * length line.now }
        ensures { (ink : Ink) (k : ℕ) → k < many → slice_index (given_to result ink) k
            ≡ grey_ink self.now.inks ink (255 * worth (bit_at (slice_index line.now ((first + k) / 8)) ((first + k) % 8)) 1) }
    {
        grey_given(self.inks, self.bits(line, first, many))
    }

    // The amounts of what pixels give to an ink.
    #[inline(always)]
    pub(crate) fn amounts_of(&self, ink: Ink, given: &Values) -> Values
        ensures { (x : ℕ) → x < 64 → slice_index result x
            ≡ amount_in self.now ink (slice_index given.now x) }
    {
        self.scales.amounts(ink, given)
    }

    // Sets the amounts of each ink in row `at` from column x on from what `many` pixels give, by the ink's scale.
    #[inline(always)]
    fn put(&self, given: &Given, many: usize, x: u32, at: u32, out: &mut InkRows)
        requires many { many ≤ 64 }
        requires inside { x + many ≤ out.old.width }
        requires inks { out.old.inks ≡ length (inks_of self.now.inks) }
        requires at { at < out.old.rows }
        ensures size { HasSizeAs out.old out.new }
        ensures put { (i : ℕ) (ink : Ink) → slice_get (inks_of self.now.inks) i ≡ Some ink → (k : ℕ) → k < many
            → amount out.new i at (x + k)
            ≡ amount_in self.now ink (slice_index (given_to given.now ink) k) }
        ensures beside { (i c : ℕ) → (c < x) ⊎ (x + many ≤ c) → amount out.new i at c ≡ amount out.old i at c }
        ensures others { (i y c : ℕ) → y ≢ at → y < out.old.rows → amount out.new i y c ≡ amount out.old i y c }
    {
        for i in 0..self.inks.count() {
            let ink = self.inks.at(i);
            let amounts = self.amounts_of(ink, given.to(ink));
            out.put_part(i, x, at, &amounts[..many]);
        }
    }
}

/// Separates one line, by a separator made for this line alone.
pub fn amounts(p: &Profile, kind: Kind, line: &[u8], w: Window, at: u32, out: &mut InkRows)
    requires checked { IsOk (check p.now) }
    requires wide { w.width ≤ most_columns }
    requires inside { line_bytes (w.left + w.width) (row_of kind).bits_per_pixel ≤ length line.now }
    requires width { out.old.width ≡ w.width }
    requires inks { out.old.inks ≡ length (inks_of p.now.inks) }
    requires at { at < out.old.rows }
    ensures { Separates p.now kind line.now w at out.old out.new }
{
    Separator::make(p, kind, w).separate(line, at, out);
}
