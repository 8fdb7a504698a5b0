//! The rows of a page that are diffused, slab by slab.
ghost use Rattle.diffusion_kernel.specs.Tables.{table_of};
ghost use Rattle.dot_planes.specs.Tables.{HasSizeOf, dot};
ghost use Rattle.grained_rows.specs.Grained.{grain_of, grained_table};
ghost use Rattle.page_halftoner.specs.Halftones.{HasRoom};
ghost use Rattle.printer_profile.specs.Validity.{check};
ghost use Rattle.pwg_definitions.specs.Header.{IsWanted};
ghost use Rattle.separation_definitions.specs.Windows.{wanted_by};
ghost use Rattle.std.specs.Prelude.{IfOk, IsErr, IsOk, OnErr, OnOk, false, length, pos, true, ℕ, ◌+◌, ◌<◌, ◌≡◌, ◌≤◌};
ghost use Rattle.tile_border.specs.Tops.{edges_of};
ghost use Rattle.tile_edges.specs.Tops.{top_of};
ghost use Rattle.wavefront_team.specs.Dots.{IsSameSize};
ghost use Rattle.wavefront_team.specs.Slabs.{DiffusesSlab};
ghost use Rattle.wavefront_team.specs.SoFar.{dots_in};

use crate::slabs::first_top;
use base_definitions::Memory;
use diffusion_kernel::Kernel;
use dot_planes::{Planes, TileRows};
use grained_rows::{GrainedRows, InkGrain};
use printer_profile::{PageForm, Profile};
use std::alloc::Global;
use std::marker::Model;
use std::thread::Threads;
use tile_border::TopEdges;
use wavefront_team::{DotsSoFar, diffuse_beside};
use worker_team::{Gate, Team};

/// The dots of a page's window so far. Contracts see the kernel, the grain, the dots, the bottom edges of the last
/// diffused rows, and whether a call returned `Memory`.
#[derive(Drop)]
pub struct Diffuser {
    alloc: Global,
    kernel: Kernel,
    grain: InkGrain,
    /// The errors above the next rows; `None` once a call has returned `Memory`.
    top: Option<TopEdges>,
    dots: DotsSoFar,
}

impl Model for Diffuser {
    ghost use Rattle.page_halftoner.specs.Halftones.{Diffusing};

    ghost Value = { Diffusing };

    ghost use Rattle.page_halftoner.specs.Kept.{IsDiffusing, diffusing};

    ghost view = { diffusing };

    ghost invariant = { IsDiffusing };
}

impl Diffuser {
    /// Begins the window of a page, and takes the memory of its dots and of the errors above it.
    pub fn begin(
        alloc: Global,
        p: &Profile,
        f: PageForm,
        k: Kernel,
        grain: u8,
    ) -> Result<Diffuser, Memory>
        requires checked { IsOk (check p.now) }
        requires wanted { IsWanted (wanted_by p.now) f }
        ensures kernel { IfOk result (λ d. d.kernel ≡ k) }
        ensures grain { IfOk result (λ d. d.grain ≡ grain_of p.now grain) }
        ensures room { IfOk result (λ d. HasRoom f p.now (dots_in d.dots)) }
        ensures blank { IfOk result (λ d. (i y x : ℕ) → (dots_in d.dots).dot i y x ≡ false) }
        ensures top { IfOk result (λ d. (i t n : ℕ) → top_of (edges_of d.top i) t n ≡ pos 0) }
        ensures working { IfOk result (λ d. d.failed ≡ false) }
    {
        let window = p.window(f);
        let inks = p.inks.count();
        let top = first_top(alloc, window.width, inks)?;
        let planes = Planes::make(alloc, window.width, window.height, inks)?;
        Ok(Diffuser {
            alloc,
            kernel: k,
            grain: InkGrain::make(p, grain),
            top: Some(top),
            dots: DotsSoFar::of(planes),
        })
    }

    /// Whether a call has returned `Memory`.
    pub fn has_failed(&self) -> bool
        ensures { result ≡ self.now.failed }
    {
        self.top.is_none()
    }

    /// Diffuses the slab that begins at row `first` by the team, with grain, and does the errand beside the team's
    /// workers (`wavefront_team::diffuse_beside`). If memory runs out, the call returns `Memory` before the errand is
    /// begun, and so does each later call.
    pub fn diffuse_beside<
        R: Threads + Sync,
        G: Gate + Sync,
        A: TileRows + Sync,
        F: FnMut() -> E,
        E,
    >(&mut self, team: &Team<'_, R, G>, slab: &A, first: u32, errand: &mut F) -> Result<E, Memory>
        requires width { (A.table slab.now).width ≡ self.old.dots.planes.width }
        requires inks { (A.table slab.now).inks ≡ self.old.dots.planes.inks }
        requires rows { first + (A.table slab.now).rows ≤ self.old.dots.planes.rows }
        requires errand { F.pre errand.old }
        ensures kernel { self.new.kernel ≡ self.old.kernel }
        ensures grain { self.new.grain ≡ self.old.grain }
        ensures size { IsSameSize (dots_in self.old.dots) (dots_in self.new.dots) }
        ensures slab { IfOk result (λ done. DiffusesSlab (table_of self.old.kernel)
            (grained_table self.old.grain first (A.table slab.now)) self.old.top self.new.top first (dots_in self.old.dots) (dots_in self.new.dots)) }
        ensures errand { IfOk result (λ done. F.step errand.old done errand.new) }
        ensures working { OnOk result (self.new.failed ≡ false) }
        ensures failed { OnErr result (self.new.failed ≡ true) }
        ensures not_begun { OnErr result (errand.new ≡ errand.old) }
        ensures for_good { self.old.failed ≡ true → IsErr result }
    {
        let Some(top) = self.top.take() else {
            return Err(Memory);
        };
        let (alloc, kernel) = (self.alloc, self.kernel);
        let rows = GrainedRows::over(slab, self.grain, first);
        let out = &mut self.dots;
        let (bottom, done) = diffuse_beside(team, alloc, &rows, kernel, top, out, first, errand)?;
        self.top = Some(bottom);
        Ok(done)
    }

    /// The dots.
    pub fn finish(self) -> Planes
        ensures size { HasSizeOf self.dots.planes result }
        ensures dots { (i y x : ℕ) → i < result.inks → y < result.rows → x < result.width
            → dot result i y x ≡ (dots_in self.dots).dot i y x }
    {
        self.dots.finish()
    }
}
