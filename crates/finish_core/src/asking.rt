//! The text that stops a run.
ghost use Rattle.finish_core.specs.Passing.{IsAskHalt, is_reset as is_reset_seen};
ghost use Rattle.finish_core.specs.Sides.{ShelfLacks};
ghost use Rattle.std.specs.Option.{option_map};
ghost use Rattle.std.specs.Prelude.{IfErr, OnOk, true, ◌≡◌, ◌≤◌};

use crate::halts::Halt;
use escp2_definitions::Command;
use page_watch::SeenState;
use std::alloc::Global;
use weave_base::{Found, Shelf, ShelfStop};

/// Asks the shelf for the text that stops the run, if there is to be one. A text of any length counts.
pub fn ask<L: Shelf>(alloc: Global, stop: Option<&str>, shelf: &mut L) -> Result<(), Halt>
    ensures lacks { OnOk result (ShelfLacks (option_map (λ name. name.now) stop.entry) (L.files shelf.old)) }
    ensures halt { IfErr result (IsAskHalt (option_map (λ name. name.now) stop.entry) (L.files shelf.old)
        (L.faults shelf.old) (L.faults shelf.new)) }
    ensures later { L.faults shelf.old ≤ L.faults shelf.new }
    ensures stay { L.files shelf.new ≡ L.files shelf.old }
{
    let Some(name) = stop else {
        return Ok(());
    };
    match shelf.read_text(alloc, name, 0) {
        Ok(Found::Absent) => Ok(()),
        Ok(Found::Text(_) | Found::TooLong) => Err(Halt::Asked),
        Err(ShelfStop::Failed) => Err(Halt::Shelf),
        Err(ShelfStop::Memory) => Err(Halt::Memory),
    }
}

// Whether a reset was seen.
fn is_reset(state: SeenState) -> bool
    ensures { result ≡ is_reset_seen state }
{
    match state {
        SeenState::Due(event) => matches!(event.command, Command::Init),
        SeenState::More | SeenState::Fault { .. } => false,
    }
}

/// Asks the shelf behind a reset.
pub fn ask_behind<L: Shelf>(
    alloc: Global,
    stop: Option<&str>,
    state: SeenState,
    shelf: &mut L,
) -> Result<(), Halt>
    ensures reset { IfErr result (λ why. is_reset_seen state ≡ true) }
    ensures halt { IfErr result (IsAskHalt (option_map (λ name. name.now) stop.entry) (L.files shelf.old)
        (L.faults shelf.old) (L.faults shelf.new)) }
    ensures later { L.faults shelf.old ≤ L.faults shelf.new }
    ensures stay { L.files shelf.new ≡ L.files shelf.old }
{
    if is_reset(state) {
        ask(alloc, stop, shelf)
    } else {
        Ok(())
    }
}
