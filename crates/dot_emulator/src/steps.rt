//! Commands that fire no dots and eject no sheet: why each is refused, and the state after it.
ghost use Rattle.dot_emulator.specs.States.{IsStep, is_plain, machine_of};
ghost use Rattle.escp2_definitions.specs.Commands.{in_table};
ghost use Rattle.escp2_definitions.specs.Machine.{Dot, has_dots as is_dotted};
ghost use Rattle.escp2_definitions.specs.declared.command.Command.TheVariants as c;
ghost use Rattle.printer_definitions.specs.Printer.{Printer};
ghost use Rattle.std.specs.Prelude.{IfOk, List, Ok, OnOk, true, unwrap_or, ◌<◌, ◌≡◌, ◌≤◌};

use crate::state::{Margins, State};
use crate::{Command, EmulatorFault};
use base_definitions::LONGEST_PAGE;
use printer_definitions::Ink;

impl State {
    /// Starts again, if the sheet has no dots.
    pub(crate) fn init(&self, has_dots: bool) -> Result<State, EmulatorFault>
        ensures { (p : Printer) (dots : List Dot) → has_dots ≡ is_dotted (machine_of self.now dots)
            → IsStep p (machine_of self.now dots) c.Init result }
    {
        if has_dots {
            return Err(EmulatorFault::Backward);
        }
        Ok(State::start())
    }

    pub(crate) fn graphics(&self) -> State
        ensures { (p : Printer) (dots : List Dot) → IsStep p (machine_of self.now dots) c.Graphics (Ok result) }
    {
        let mut next = *self;
        next.graphics = true;
        next
    }

    /// Sets the unit.
    pub(crate) fn set_unit(&self, m: u8) -> State
        requires { 1 ≤ m }
        ensures { (p : Printer) (dots : List Dot) → IsStep p (machine_of self.now dots) (c.Unit m) (Ok result) }
    {
        let mut next = *self;
        next.unit = Some(m);
        next
    }

    /// Sets the page's length.
    pub(crate) fn set_length(&self, n: u16, has_dots: bool) -> Result<State, EmulatorFault>
        ensures { (p : Printer) (dots : List Dot) → has_dots ≡ is_dotted (machine_of self.now dots)
            → IsStep p (machine_of self.now dots) (c.Length n) result }
    {
        if self.unit.is_none() {
            return Err(EmulatorFault::NoUnit);
        }
        if has_dots {
            return Err(EmulatorFault::Backward);
        }
        let length = self.units(n);
        if length > LONGEST_PAGE {
            return Err(EmulatorFault::OffSheet);
        }
        let mut next = *self;
        next.page = Some(length);
        next.margins = None;
        next.down = 0;
        next.across = 0;
        Ok(next)
    }

    /// Sets the margins.
    pub(crate) fn set_margins(
        &self,
        top: u16,
        bottom: u16,
        has_dots: bool,
    ) -> Result<State, EmulatorFault>
        requires { top < bottom }
        ensures { (p : Printer) (dots : List Dot) → has_dots ≡ is_dotted (machine_of self.now dots)
            → IsStep p (machine_of self.now dots) (c.Margins top bottom) result }
    {
        if self.unit.is_none() {
            return Err(EmulatorFault::NoUnit);
        }
        if self.page.is_none() {
            return Err(EmulatorFault::NoMargins);
        }
        if has_dots {
            return Err(EmulatorFault::Backward);
        }
        let margins = Margins {
            top: self.units(top),
            bottom: self.units(bottom),
        };
        if margins.bottom > self.page_length() {
            return Err(EmulatorFault::OffSheet);
        }
        let mut next = *self;
        next.margins = Some(margins);
        next.down = 0;
        next.across = 0;
        Ok(next)
    }

    /// Moves down to a position from the top margin.
    pub(crate) fn down_to(&self, n: u16) -> Result<State, EmulatorFault>
        ensures { (p : Printer) (dots : List Dot) → IsStep p (machine_of self.now dots) (c.DownTo n) result }
    {
        if self.unit.is_none() {
            return Err(EmulatorFault::NoUnit);
        }
        if self.margins.is_none() {
            return Err(EmulatorFault::NoMargins);
        }
        let down = self.units(n);
        if down < self.down {
            return Err(EmulatorFault::Backward);
        }
        if self.top() + down > self.page_length() {
            return Err(EmulatorFault::OffSheet);
        }
        let mut next = *self;
        next.down = down;
        Ok(next)
    }

    /// Moves down.
    pub(crate) fn down_by(&self, n: u16) -> Result<State, EmulatorFault>
        ensures { (p : Printer) (dots : List Dot) → IsStep p (machine_of self.now dots) (c.DownBy n) result }
    {
        if self.unit.is_none() {
            return Err(EmulatorFault::NoUnit);
        }
        if self.margins.is_none() {
            return Err(EmulatorFault::NoMargins);
        }
        let down = self.down + self.units(n);
        if self.top() + down > self.page_length() {
            return Err(EmulatorFault::OffSheet);
        }
        let mut next = *self;
        next.down = down;
        Ok(next)
    }

    /// Moves to a position from the left margin.
    pub(crate) fn across_to(&self, n: u16) -> Result<State, EmulatorFault>
        ensures { (p : Printer) (dots : List Dot) → IsStep p (machine_of self.now dots) (c.Across n) result }
    {
        if self.unit.is_none() {
            return Err(EmulatorFault::NoUnit);
        }
        let mut next = *self;
        next.across = self.units(n);
        Ok(next)
    }

    /// Moves back to the left margin.
    pub(crate) fn return_left(&self) -> State
        ensures { (p : Printer) (dots : List Dot) → IsStep p (machine_of self.now dots) c.Return (Ok result) }
    {
        let mut next = *self;
        next.across = 0;
        next
    }

    /// Sets the ink that is fired.
    pub(crate) fn set_colour(&self, ink: Ink) -> State
        ensures { (p : Printer) (dots : List Dot) → IsStep p (machine_of self.now dots) (c.Colour ink) (Ok result) }
    {
        let mut next = *self;
        next.colour = ink;
        next
    }

    /// Begins the next sheet.
    pub(crate) fn eject(&self) -> Result<State, EmulatorFault>
        ensures step { (p : Printer) (dots : List Dot) → IsStep p (machine_of self.now dots) c.Eject result }
        ensures page { OnOk result (1 ≤ unwrap_or self.now.page 0) }
        ensures same { IfOk result (λ s. s.page ≡ self.now.page) }
    {
        if self.margins.is_none() {
            return Err(EmulatorFault::NoMargins);
        }
        let mut next = *self;
        next.down = 0;
        next.across = 0;
        next.columns = 1;
        Ok(next)
    }

    /// The state after a command that fires no dots and ejects no sheet, or why the command is refused.
    pub(crate) fn after(&self, command: Command, has_dots: bool) -> Result<State, EmulatorFault>
        requires plain { is_plain command ≡ true }
        requires in_range { in_table command ≡ true }
        ensures { (p : Printer) (dots : List Dot) → has_dots ≡ is_dotted (machine_of self.now dots)
            → IsStep p (machine_of self.now dots) command result }
    {
        match command {
            Command::Init => self.init(has_dots),
            Command::Graphics => Ok(self.graphics()),
            Command::Unit { m } => Ok(self.set_unit(m)),
            Command::Length { n } => self.set_length(n, has_dots),
            Command::Margins { top, bottom } => self.set_margins(top, bottom, has_dots),
            Command::DownTo { n } => self.down_to(n),
            Command::DownBy { n } => self.down_by(n),
            Command::Across { n } => self.across_to(n),
            Command::Return => Ok(self.return_left()),
            Command::Colour { ink } => Ok(self.set_colour(ink)),
            _ => Ok(*self),
        }
    }
}
