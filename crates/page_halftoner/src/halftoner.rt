//! A page that is halftoned as its lines come.
ghost use Rattle.dot_planes.specs.Tables.{dot};
ghost use Rattle.grained_rows.specs.Grained.{grain_of};
ghost use Rattle.page_definitions.specs.Dots.{HasDots, halftone};
ghost use Rattle.page_halftoner.specs.Halftones.{IsSamePage, StandsFor};
ghost use Rattle.page_halftoner.specs.Screenings.{screening_of};
ghost use Rattle.printer_profile.specs.Validity.{check};
ghost use Rattle.pwg_definitions.specs.Header.{IsWanted};
ghost use Rattle.separation_definitions.specs.Windows.{wanted_by};
ghost use Rattle.std.specs.Prelude.{IfOk, IsErr, IsOk, List, OnErr, OnOk, [], false, length};
ghost use Rattle.std.specs.Prelude.{replicate, true, ℕ, ◌++◌, ◌+◌, ◌<◌, ◌≡◌, ◌≤◌};

use crate::diffuser::Diffuser;
use crate::filler::Filler;
use base_definitions::Memory;
use diffusion_kernel::Kernel;
use dot_planes::Planes;
use printer_profile::{PageForm, Profile};
use std::alloc::Global;
use std::marker::Model;
use std::thread::Threads;
use worker_team::{Gate, Team};

/// A page that is halftoned line by line. Contracts see the profile, the form, the kernel, the grain, the number of
/// lines so far, which lists of lines it stands for, and whether a call returned `Memory`.
///
/// Beside the planes of dots it keeps the lines of one slab: at most 256 rows of the window in whole bands, or the rows
/// that are left. A full slab is diffused below the errors of the slab above. A caller that reads lines while slabs are
/// diffused takes the two parts instead: a `Filler` and a `Diffuser`.
#[derive(Drop)]
pub struct Halftoner {
    filler: Filler,
    diffuser: Diffuser,
}

impl Model for Halftoner {
    ghost use Rattle.page_halftoner.specs.Halftones.{Halftoning};

    ghost Value = { Halftoning };

    ghost use Rattle.page_halftoner.specs.Kept.{IsReady, halftoning};

    ghost view = { halftoning };

    ghost invariant = { IsReady };
}

impl Halftoner {
    /// Begins a page, and takes the memory that the page itself needs.
    pub fn begin(
        alloc: Global,
        p: &Profile,
        f: PageForm,
        k: Kernel,
        grain: u8,
    ) -> Result<Halftoner, Memory>
        requires checked { IsOk (check p.now) }
        requires wanted { IsWanted (wanted_by p.now) f }
        ensures page { IfOk result (λ h. (h.profile ≡ p.now) × (h.form ≡ f) × (h.kernel ≡ k)) }
        ensures grain { IfOk result (λ h. h.grain ≡ grain_of p.now grain) }
        ensures count { IfOk result (λ h. h.count ≡ 0) }
        ensures stands { IfOk result (λ h. StandsFor h []) }
        ensures working { IfOk result (λ h. h.failed ≡ false) }
    {
        let filler = Filler::begin(alloc, p, f)?;
        let diffuser = Diffuser::begin(alloc, p, f, k, grain)?;
        Ok(Halftoner { filler, diffuser })
    }

    /// Takes a line of the page that occurs `repeats` times in a row. When a slab is full, the team diffuses the slab.
    /// If memory for the diffusion runs out, the call returns `Memory`, and so does each later call.
    pub fn lines<R: Threads + Sync, G: Gate + Sync>(
        &mut self,
        team: &Team<'_, R, G>,
        line: &[u8],
        repeats: u32,
    ) -> Result<(), Memory>
        requires line { length line.now ≡ self.old.form.bytes_per_line }
        requires repeats { self.old.count + repeats ≤ self.old.form.height }
        ensures page { OnOk result (IsSamePage self.old self.new) }
        ensures count { OnOk result (self.new.count ≡ self.old.count + repeats) }
        ensures stands { (lines : List (List ℕ))
            → StandsFor self.old lines → OnOk result (StandsFor self.new (lines ++ replicate repeats line.now)) }
        ensures working { OnOk result (self.new.failed ≡ false) }
        ensures failed { OnErr result (self.new.failed ≡ true) }
        ensures for_good { self.old.failed ≡ true → IsErr result }
    {
        if self.diffuser.has_failed() {
            return Err(Memory);
        }
        let mut left = repeats;
        while 0 < left {
            left -= self.put(team, line, left)?;
        }
        Ok(())
    }

    /// The dots of the whole page.
    pub fn finish(self) -> Planes
        requires count { self.count ≡ self.form.height }
        requires working { self.failed ≡ false }
        ensures { (lines : List (List ℕ)) → StandsFor self lines
            → HasDots self.profile (halftone (record { form = self.form; lines = lines })
            self.profile (screening_of self.kernel self.grain.grain)) result.width result.rows result.inks (dot result) }
    {
        self.diffuser.finish()
    }

    // Takes a line as often as the slab has room, at least once, and diffuses the slab if it is full then. The answer
    // is how often it was taken.
    fn put<R: Threads + Sync, G: Gate + Sync>(
        &mut self,
        team: &Team<'_, R, G>,
        line: &[u8],
        repeats: u32,
    ) -> Result<u32, Memory>
        requires line { length line.now ≡ self.old.form.bytes_per_line }
        requires some { 0 < repeats }
        requires repeats { self.old.count + repeats ≤ self.old.form.height }
        requires working { self.old.failed ≡ false }
        ensures page { IsSamePage self.old self.new }
        ensures some { IfOk result (λ taken. 1 ≤ taken) }
        ensures most { IfOk result (λ taken. taken ≤ repeats) }
        ensures count { IfOk result (λ taken. self.new.count ≡ self.old.count + taken) }
        ensures stands { IfOk result (λ taken. (lines : List (List ℕ))
            → StandsFor self.old lines → StandsFor self.new (lines ++ replicate taken line.now)) }
        ensures working { OnOk result (self.new.failed ≡ false) }
        ensures failed { OnErr result (self.new.failed ≡ true) }
    {
        let taken = self.filler.put(line, repeats);
        if self.filler.is_full() {
            let mut none = || {};
            let (slab, first) = (self.filler.slab(), self.filler.first());
            self.diffuser.diffuse_beside(team, slab, first, &mut none)?;
            self.filler.go_on();
        }
        Ok(taken)
    }
}
