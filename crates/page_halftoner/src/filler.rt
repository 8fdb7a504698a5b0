//! The rows of a page, filled as the page's lines come.
ghost use Rattle.page_halftoner.specs.Halftones.{EndsWith, GoesOn, HoldsRows, IsFull, IsSameRows, IsSpare};
ghost use Rattle.page_halftoner.specs.Halftones.{PutsLines};
ghost use Rattle.printer_profile.specs.Validity.{check};
ghost use Rattle.pwg_definitions.specs.Header.{IsWanted};
ghost use Rattle.raw_rows.specs.Raw.{table_of as amounts_of};
ghost use Rattle.separation_definitions.specs.Windows.{wanted_by, window_of};
ghost use Rattle.std.specs.Prelude.{[], IfNone, IfOk, IfSome, IsOk, IsTrue, None, length, replicate, true, ◌↔◌};
ghost use Rattle.std.specs.Prelude.{◌%◌, ◌+◌, ◌<◌, ◌∷◌, ◌≡◌, ◌≤◌, ◌⊎◌, ◌^◌};

use crate::slabs::{first_slab, next_slab, put_line};
use base_definitions::Memory;
use ink_separation::Separator;
use printer_profile::{PageForm, Profile};
use raw_rows::RawRows;
use separation_definitions::Window;
use std::alloc::Global;
use std::marker::Model;
use std::mem::swap;

/// The slab of a page's window that is being filled. Contracts see the profile, the form, the number of lines so far,
/// the row of the window where the slab begins, and its amounts.
#[derive(Drop)]
pub struct Filler {
    profile: Profile,
    form: PageForm,
    window: Window,
    /// How many lines of the page have come, those in the margins too.
    count: u32,
    /// The row of the window where the slab begins.
    first: u32,
    /// Room for the next rows, of which the first ones have lines.
    slab: RawRows,
}

impl Model for Filler {
    ghost use Rattle.page_halftoner.specs.Halftones.{Filling};

    ghost Value = { Filling };

    ghost use Rattle.page_halftoner.specs.Kept.{IsFilling, filling};

    ghost view = { filling };

    ghost invariant = { IsFilling };
}

// The row of the window that a line of the page is; `None` in a margin.
fn row_of_line(window: Window, line: u32) -> Option<u32>
    requires { window.top + window.height < 2 ^ 32 }
    ensures row { IfSome result (λ y. (window.top + y ≡ line) × (y < window.height)) }
    ensures margin { IfNone result ((line < window.top) ⊎ (window.top + window.height ≤ line)) }
{
    if line < window.top || window.top + window.height <= line {
        None
    } else {
        Some(line - window.top)
    }
}

impl Filler {
    /// Begins the rows of a page, and takes the memory of one slab.
    pub fn begin(alloc: Global, p: &Profile, f: PageForm) -> Result<Filler, Memory>
        requires checked { IsOk (check p.now) }
        requires wanted { IsWanted (wanted_by p.now) f }
        ensures page { IfOk result (λ h. (h.profile ≡ p.now) × (h.form ≡ f)) }
        ensures none { IfOk result (λ h. (h.count ≡ 0) × (h.first ≡ 0)) }
        ensures rows { IfOk result HoldsRows }
    {
        let window = p.window(f);
        let slab = first_slab(alloc, Separator::make(p, f.kind, window))?;
        Ok(Filler {
            profile: *p,
            form: f,
            window,
            count: 0,
            first: 0,
            slab,
        })
    }

    /// How many lines of the page are to come.
    pub fn lines_left(&self) -> u32
        ensures { result + self.now.count ≡ self.now.form.height }
    {
        self.form.height - self.count
    }

    /// The row of the window where the slab begins.
    pub fn first(&self) -> u32
        ensures { result ≡ self.now.first }
    {
        self.first
    }

    /// The slab.
    pub fn slab(&self) -> &RawRows
        ensures { amounts_of result.now ≡ self.now.slab }
    {
        &self.slab
    }

    /// Whether each row of the slab is filled.
    pub fn is_full(&self) -> bool
        ensures full { IsTrue result ↔ IsFull self.now }
        ensures rows { HoldsRows self.now }
    {
        let window = self.window;
        let rows = self.count.saturating_sub(window.top).min(window.height);
        rows - self.first == self.slab.rows()
    }

    /// Takes a line of the page that occurs `repeats` times in a row, until the slab is full. Returns how often the
    /// line was taken.
    pub fn put(&mut self, line: &[u8], repeats: u32) -> u32
        requires line { length line.now ≡ self.old.form.bytes_per_line }
        requires repeats { self.old.count + repeats ≤ self.old.form.height }
        ensures page { IsSameRows self.old self.new }
        ensures most { result ≤ repeats }
        ensures count { self.new.count ≡ self.old.count + result }
        ensures full { result < repeats → IsFull self.new }
        ensures lines { PutsLines self.old self.new (replicate result line.now) }
    {
        for repeat in 0..repeats {
            if self.is_full() {
                return repeat;
            }
            self.put_once(line, 0 < repeat);
        }
        repeats
    }

    // Takes a line once. `again`: it is the line before, too.
    fn put_once(&mut self, line: &[u8], again: bool)
        requires line { length line.now ≡ self.old.form.bytes_per_line }
        requires count { self.old.count < self.old.form.height }
        requires room { IsFull self.old → ⊥ }
        requires again { again ≡ true → EndsWith self.old line.now }
        ensures page { IsSameRows self.old self.new }
        ensures count { self.new.count ≡ self.old.count + 1 }
        ensures last { EndsWith self.new line.now }
        ensures lines { PutsLines self.old self.new (line.now ∷ []) }
    {
        let Some(y) = row_of_line(self.window, self.count) else {
            self.count += 1;
            return;
        };
        let row = y - self.first;
        put_line(line, again, row, &mut self.slab);
        self.count += 1;
    }

    /// Goes on to the rows below a full slab, in the same slab.
    pub fn go_on(&mut self)
        requires { IsFull self.old }
        ensures { GoesOn self.old self.new }
    {
        self.first += self.slab.rows();
        next_slab(&mut self.slab, self.window.height - self.first);
    }

    /// Room for a further slab of as many rows, to be filled while this many workers diffuse the slab before. `None`
    /// for one worker.
    pub fn spare(&self, alloc: Global, workers: u8) -> Result<Option<RawRows>, Memory>
        ensures spare { IfOk result (λ o. IfSome o (IsSpare self.now)) }
        ensures none { IfOk result (λ o. (o ≡ None) ↔ (workers ≡ 1)) }
    {
        if workers == 1 {
            return Ok(None);
        }
        let separator = Separator::make(&self.profile, self.form.kind, self.window);
        Ok(Some(RawRows::make(alloc, separator, self.slab.rows())?))
    }

    /// Goes on to the rows below a full slab, in the spare slab, and leaves the full slab in `spare`.
    pub fn swap(&mut self, spare: &mut RawRows)
        requires full { IsFull self.old }
        requires spare { IsSpare self.old spare.old }
        ensures next { GoesOn self.old self.new }
        ensures slab { amounts_of spare.new ≡ self.old.slab }
        ensures spare { IsSpare self.new spare.new }
    {
        self.first += self.slab.rows();
        swap(&mut self.slab, spare);
        next_slab(&mut self.slab, self.window.height - self.first);
    }
}
