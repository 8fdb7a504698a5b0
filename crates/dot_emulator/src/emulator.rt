//! The state of a printer, with its sheet.
ghost use Rattle.escp2_definitions.specs.Commands.{in_table, last_column, rows_len};
ghost use Rattle.escp2_definitions.specs.Machine.{start};
ghost use Rattle.printer_profile.specs.Validity.{check};
ghost use Rattle.dot_emulator.specs.Current.{HasHeight, IsBlankPast, inks_of, rows_or, width_of};
ghost use Rattle.dot_emulator.specs.Pages.{sheet_rows};
ghost use Rattle.dot_emulator.specs.declared.emulator.EmulatorStop.TheVariants as stop;
ghost use Rattle.std.specs.Prelude.{IsOk, length, true, ◌≡◌};

use crate::firing::Raster;
use crate::raster::Steps;
use crate::state::State;
use crate::{Command, EmulatorFault, RasterHead, Sheet};
use base_definitions::Memory;
use dot_planes::Planes;
use printer_profile::{Profile, checked_can_print};
use pwg_definitions::MOST_COLUMNS;
use std::alloc::Global;

/// Why the emulator does not run a command.
#[derive(Clone, Copy, Debug, PartialEq, Eq)]
pub enum EmulatorStop {
    /// The printer refuses the command.
    Refused(EmulatorFault),
    /// Memory for the dots of a sheet ran out.
    Memory,
}

impl From<EmulatorFault> for EmulatorStop {
    ghost from_gives = { λ fault e. e ≡ stop.Refused fault };

    fn from(fault: EmulatorFault) -> EmulatorStop {
        EmulatorStop::Refused(fault)
    }
}

impl From<Memory> for EmulatorStop {
    ghost from_gives = { λ _ e. e ≡ stop.Memory };

    fn from(_memory: Memory) -> EmulatorStop {
        EmulatorStop::Memory
    }
}

/// Runs the commands of a print job one by one, and puts their dots on sheets.
#[derive(Drop)]
pub struct Emulator {
    alloc: Global,
    steps: Steps,
    state: State,
    /// The dots of the current sheet; `None` before its first dot.
    planes: Option<Planes>,
    ghost inks: { inks_of planes ≡ 4 },
    ghost width: { width_of planes ≡ last_column },
    ghost blank: { IsBlankPast state.columns planes },
    ghost rows: { rows_or (sheet_rows state.page steps.row) planes ≡ sheet_rows state.page steps.row },
    /// Planes without a dot that were handed back, of any height.
    spare: Option<Planes>,
    ghost spare_inks: { inks_of spare ≡ 4 },
    ghost spare_width: { width_of spare ≡ last_column },
    ghost spare_blank: { IsBlankPast 0 spare },
}

impl Emulator {
    ghost use Rattle.dot_emulator.specs.Firing.{Grid, IsAbove, HasRows, PlanesHave, Stands};
    ghost use Rattle.dot_emulator.specs.Places.{IsPlaced};
    ghost use Rattle.dot_emulator.specs.Runs.{Emulates, LaidIn, Runs, Taken, TakesPlanes};
    ghost use Rattle.dot_emulator.specs.Sheets.{IsBlankFrom};
    ghost use Rattle.dot_emulator.specs.Steps.{AreStepsOf};
    ghost use Rattle.dot_emulator.specs.States.{is_plain, machine_of};
    ghost use Rattle.escp2_definitions.specs.Machine.{Dot, Machine, has_dots};
    ghost use Rattle.escp2_definitions.specs.declared.command.Command.TheVariants as c;
    ghost use Rattle.printer_definitions.specs.Printer.{Printer};
    ghost use Rattle.std.specs.Prelude.{IfOk, List, OnErr, OnOk, None, ℕ};
    ghost use Rattle.std.specs.Prelude.{◌+◌, ◌/◌, ◌≤◌, unwrap_or};

    /// A printer whose profile passes its checks, at the start of a job. `make` allocates no memory; `run` does, for
    /// the dots of a sheet.
    pub fn make(alloc: Global, profile: &Profile) -> Emulator
        requires { IsOk (check profile.now) }
        ensures { Emulates profile.now result start }
    {
        checked_can_print(*profile);
        Emulator {
            alloc,
            steps: Steps::of(profile),
            state: State::start(),
            planes: None,
            spare: None,
        }
    }

    /// Runs a command. `rows` has the rows of a raster, `m` rows of `(n + 7) / 8` bytes, and is empty for other
    /// commands.
    ///
    /// Returns the sheet at an eject, else `Ok(None)`. After an `Err` the emulator is unchanged. `EmulatorStop::Memory`
    /// can come at the first dot of a sheet, and at the eject of a blank sheet.
    pub fn run(&mut self, command: &Command, rows: &[u8]) -> Result<Option<Sheet>, EmulatorStop>
        requires in_range { in_table command.now ≡ true }
        requires rows_fit { length rows.now ≡ rows_len command.now }
        ensures { (p : Printer) (m : Machine)
            → Emulates p self.old m → Runs p m command.now rows.now self.old self.new result }
    {
        match *command {
            Command::Raster { head: header } => self.fire(header, rows),
            Command::Eject => self.eject(),
            plain => self.set(plain),
        }
    }

    /// Whether a dot was fired on the current sheet.
    pub fn has_dots(&self) -> bool
        ensures { (p : Printer) (m : Machine) → Emulates p self.now m → result ≡ has_dots m }
    {
        self.planes.is_some()
    }

    /// Takes back an ejected sheet without a dot. A later sheet of as many rows gets the planes, so that none are made
    /// or cleared. What the emulator stands for is unchanged.
    pub fn keep(&mut self, sheet: Sheet)
        requires { IsBlankFrom 0 sheet.planes }
        ensures { (p : Printer) (m : Machine) → Emulates p self.old m → Emulates p self.new m }
    {
        self.spare = Some(sheet.planes);
    }

    // A command that fires no dots and gives no sheet.
    fn set(&mut self, command: Command) -> Result<Option<Sheet>, EmulatorStop>
        requires plain { is_plain command ≡ true }
        requires in_range { in_table command ≡ true }
        ensures { (p : Printer) (m : Machine) (rows : List ℕ)
            → Emulates p self.old m → Runs p m command rows self.old self.new result }
    {
        self.state = self.state.after(command, self.planes.is_some())?;
        self.drop_unfit();
        Ok(None)
    }

    // Spare planes of another height than the page's go before others are made, so that the peak of memory is that of
    // one sheet. While no length is set they stay.
    fn drop_unfit(&mut self)
        ensures { (p : Printer) (m : Machine) → Emulates p self.old m → Emulates p self.new m }
    {
        let rows = self.rows();
        if 0 < rows && !has_rows(&self.spare, rows) {
            self.spare = None;
        }
    }

    // The rows of the current sheet.
    fn rows(&self) -> u32
        ensures { result ≡ sheet_rows self.now.state.page self.now.steps.row }
    {
        (self.state.page_length() + self.steps.row - 1) / self.steps.row
    }

    fn eject(&mut self) -> Result<Option<Sheet>, EmulatorStop>
        ensures { (p : Printer) (m : Machine) (rows : List ℕ)
            → Emulates p self.old m → Runs p m c.Eject rows self.old self.new result }
    {
        let state = self.state.eject()?;
        let planes = self.take_planes()?;
        let sheet = Sheet {
            rows: planes.rows(),
            columns: self.state.columns,
            planes,
        };
        self.state = state;
        Ok(Some(sheet))
    }

    fn fire(&mut self, header: RasterHead, rows: &[u8]) -> Result<Option<Sheet>, EmulatorStop>
        requires in_range { in_table (c.Raster header) ≡ true }
        requires rows_fit { length rows.now ≡ rows_len (c.Raster header) }
        ensures { (p : Printer) (m : Machine)
            → Emulates p self.old m → Runs p m (c.Raster header) rows.now self.old self.new result }
    {
        let raster = self.place(header)?;
        let has_dots = raster.look(rows, &self.planes)?;
        let next = self.state.after_raster(raster);
        if has_dots {
            self.lay(raster, rows, next)?;
        } else {
            self.state = next;
        }
        Ok(None)
    }

    // Where on the sheet a raster is, or why it is refused whatever its dots.
    fn place(&self, header: RasterHead) -> Result<Raster, EmulatorFault>
        requires { header.n ≤ last_column }
        ensures placed { (p : Printer) (dots : List Dot)
            → AreStepsOf p self.now.steps → IsPlaced p (machine_of self.now.state dots) header result }
        ensures page { OnOk result (1 ≤ unwrap_or self.now.state.page 0) }
        ensures header { IfOk result (λ r. r.header ≡ header) }
        ensures x { IfOk result (λ r. r.x ≡ self.now.state.across / header.h) }
        ensures on_page { IfOk result (λ r. r.end ≤ sheet_rows self.now.state.page self.now.steps.row) }
    {
        self.state.place(self.steps, header)
    }

    // Adds the dots of a raster to the planes of the current sheet, which are made for its first dot.
    fn lay(&mut self, raster: Raster, rows: &[u8], next: State) -> Result<(), Memory>
        requires rows { HasRows raster rows.now }
        requires on_page { raster.end ≤ sheet_rows self.old.state.page self.old.steps.row }
        requires some_page { 1 ≤ unwrap_or self.old.state.page 0 }
        requires page { next.page ≡ self.old.state.page }
        requires columns { self.old.state.columns ≤ next.columns }
        requires end { raster.x + raster.header.n ≤ next.columns }
        ensures state { OnOk result (self.new.state ≡ next) }
        ensures steps { self.new.steps ≡ self.old.steps }
        ensures laid { OnOk result ((g : Grid) (dots : List Dot) → Stands g raster → IsAbove g raster rows.now
            → PlanesHave g dots self.old.planes → LaidIn g raster rows.now dots self.new.planes) }
        ensures unchanged { OnErr result (self.new ≡ self.old) }
    {
        let mut planes = self.take_planes()?;
        raster.lay(rows, &mut planes);
        self.state = next;
        self.planes = Some(planes);
        Ok(())
    }

    // The planes of the current sheet; those of a sheet without dots are spare ones, or made.
    fn take_planes(&mut self) -> Result<Planes, Memory>
        requires { 1 ≤ unwrap_or self.old.state.page 0 }
        ensures state { self.new.state ≡ self.old.state }
        ensures steps { self.new.steps ≡ self.old.steps }
        ensures taken { TakesPlanes (sheet_rows self.old.state.page self.old.steps.row) self.old.planes result }
        ensures none { OnOk result (self.new.planes ≡ None) }
        ensures unchanged { OnErr result (self.new ≡ self.old) }
    {
        match self.planes.take() {
            Some(planes) => Ok(planes),
            None => self.take_blank(),
        }
    }

    // Planes of the current sheet's rows without a dot: the spare ones where they have these rows, else new ones.
    fn take_blank(&mut self) -> Result<Planes, Memory>
        requires { 1 ≤ unwrap_or self.old.state.page 0 }
        ensures state { self.new.state ≡ self.old.state }
        ensures steps { self.new.steps ≡ self.old.steps }
        ensures planes { self.new.planes ≡ self.old.planes }
        ensures taken { IfOk result (Taken (sheet_rows self.old.state.page self.old.steps.row) None) }
        ensures unchanged { OnErr result (self.new ≡ self.old) }
    {
        let rows = self.rows();
        if has_rows(&self.spare, rows) {
            if let Some(spare) = self.spare.take() {
                return Ok(spare);
            }
        }
        Planes::make(self.alloc, MOST_COLUMNS, rows, 4)
    }
}

// Whether there are planes of so many rows.
fn has_rows(planes: &Option<Planes>, rows: u32) -> bool
    ensures { result ≡ true → HasHeight rows planes.now }
{
    match planes {
        Some(planes) => planes.rows() == rows,
        None => false,
    }
}
