//! Why a raster is refused before its dots are looked at.
ghost use Rattle.dot_emulator.specs.States.{early_fault, machine_of};
ghost use Rattle.escp2_definitions.specs.Commands.{last_column};
ghost use Rattle.separation_definitions.specs.CanPrint.{CanPrint};
ghost use Rattle.std.specs.Prelude.{[], ◌*◌, ◌/◌, ◌≡◌, ◌≤◌};

use crate::firing::Raster;
use crate::state::State;
use crate::{EmulatorFault, RasterHead};
use printer_profile::Profile;
use pwg_definitions::MOST_COLUMNS;

/// The steps of a printer, in 1/3600 inch, and its nozzles.
#[derive(Clone, Copy)]
pub(crate) struct Steps {
    /// From one column of dots to the next.
    pub(crate) column: u32,
    /// From one row of dots to the next.
    pub(crate) row: u32,
    /// From one nozzle to the next.
    pub(crate) nozzle: u32,
    pub(crate) nozzles: u8,
    /// From one nozzle to the next, in rows.
    pub(crate) pitch: u8,
    ghost column_some: { 1 ≤ column },
    ghost row_least: { 5 ≤ row },
    ghost row_most: { row ≤ 3600 },
    ghost nozzle_rows: { nozzle ≡ pitch * row },
}

impl Steps {
    ghost use Rattle.dot_emulator.specs.Steps.{AreStepsOf};

    /// The steps of a printer.
    pub(crate) fn of(profile: &Profile) -> Steps
        requires { CanPrint profile.now }
        ensures { AreStepsOf profile.now result }
    {
        Steps {
            column: 3600 / u32::from(profile.hdpi),
            row: 3600 / u32::from(profile.vdpi),
            nozzle: u32::from(profile.pitch) * 3600 / u32::from(profile.vdpi),
            nozzles: profile.nozzles,
            pitch: profile.pitch,
        }
    }
}

impl State {
    ghost use Rattle.dot_emulator.specs.Pages.{sheet_rows};
    ghost use Rattle.dot_emulator.specs.Places.{IsPlaced, Placed};
    ghost use Rattle.escp2_definitions.specs.Machine.{Dot, after};
    ghost use Rattle.escp2_definitions.specs.declared.command.Command.TheVariants as c;
    ghost use Rattle.std.specs.Prelude.{IfOk, List, None, OnOk, ◌+◌, unwrap_or, ℕ};
    ghost use Rattle.dot_emulator.specs.Steps.{AreStepsOf};
    ghost use Rattle.printer_definitions.specs.Printer.{Printer};

    /// Why a raster is refused, whatever its dots.
    pub(crate) fn refuses_raster(&self, steps: Steps, header: RasterHead) -> Option<EmulatorFault>
        ensures is { (p : Printer) → AreStepsOf p steps → result ≡ early_fault p (machine_of self.now []) header }
        ensures page { result ≡ None → 1 ≤ unwrap_or self.now.page 0 }
        ensures column { result ≡ None → header.h ≡ steps.column }
    {
        if !self.graphics {
            return Some(EmulatorFault::NotGraphics);
        }
        if self.unit.is_none() {
            return Some(EmulatorFault::NoUnit);
        }
        if self.margins.is_none() {
            return Some(EmulatorFault::NoMargins);
        }
        if u32::from(header.h) != steps.column || u32::from(header.v) != steps.nozzle {
            return Some(EmulatorFault::Density);
        }
        if header.m != steps.nozzles {
            return Some(EmulatorFault::Rows);
        }
        if self.across % steps.column != 0 || (self.top() + self.down) % steps.row != 0 {
            return Some(EmulatorFault::OffGrid);
        }
        None
    }

    /// Where on the sheet a raster is, or why the raster is refused whatever its dots.
    pub(crate) fn place(&self, steps: Steps, header: RasterHead) -> Result<Raster, EmulatorFault>
        requires { header.n ≤ last_column }
        ensures placed { (p : Printer) (dots : List Dot)
            → AreStepsOf p steps → IsPlaced p (machine_of self.now dots) header result }
        ensures page { OnOk result (1 ≤ unwrap_or self.now.page 0) }
        ensures header { IfOk result (λ r. r.header ≡ header) }
        ensures x { IfOk result (λ r. r.x ≡ self.now.across / header.h) }
        ensures on_page { IfOk result (λ r. r.end ≤ sheet_rows self.now.page steps.row) }
    {
        if let Some(fault) = self.refuses_raster(steps, header) {
            return Err(fault);
        }
        let x = self.across / steps.column;
        if x + u32::from(header.n) > MOST_COLUMNS {
            return Err(EmulatorFault::OffSheet);
        }
        Ok(Raster {
            header,
            ink: self.colour,
            x,
            y: (self.top() + self.down) / steps.row,
            pitch: steps.pitch,
            end: (self.bottom() + steps.row - 1) / steps.row,
        })
    }

    /// The state after the raster.
    pub(crate) fn after_raster(&self, raster: Raster) -> State
        requires { raster.x ≡ self.now.across / raster.header.h }
        ensures page { result.page ≡ self.now.page }
        ensures columns { self.now.columns ≤ result.columns }
        ensures end { raster.x + raster.header.n ≤ result.columns }
        ensures step { (p : Printer) (dots : List Dot) (rows : List ℕ)
            → Placed p (machine_of self.now dots) raster.header raster
            → machine_of result (after p (machine_of self.now dots) (c.Raster raster.header) rows).dots
            ≡ after p (machine_of self.now dots) (c.Raster raster.header) rows }
    {
        let end = raster.x + u32::from(raster.header.n);
        let mut next = *self;
        next.across = self.across + u32::from(raster.header.n) * u32::from(raster.header.h);
        next.columns = self.columns.max(end);
        next
    }
}
