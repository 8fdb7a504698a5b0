//! The laws of the events, each the contract of an empty function.
ghost use Rattle.std.specs.Prelude.{List, ℕ, ◌<◌, ◌≡◌};
ghost use Rattle.board_core.specs.Legal.{IsIdle, Legal};
ghost use Rattle.board_core.specs.Records.{IsRecord, IsResult, TileResult, Window};
ghost use Rattle.board_core.specs.States.{CoreState, IsBegun, IsCore, start};
ghost use Rattle.board_core.specs.Steps.{IsAccepted, IsReadyTile, Runs, after};
ghost use Rattle.board_core.specs.declared.events.Event.{Event};
ghost use Rattle.tile_shape.specs.Geometry.{IsShape, IsTile};
ghost use Rattle.tile_shape.specs.declared.tiles.Place.{Place};
ghost use Rattle.tile_shape.specs.declared.tiles.Shape.{Shape};

/// The start is legal.
pub fn the_start_is_legal()
    ensures core { (s : Shape) → IsShape s → IsCore (start s) }
    ensures legal { (s : Shape) → IsShape s → Legal (start s) }
{}

/// An accepted event keeps a legal state legal.
pub fn an_accepted_event_keeps_legal()
    ensures core { (core : CoreState) (e : Event) → IsCore core → IsCore (after core e) }
    ensures legal { (core : CoreState) (e : Event) → IsCore core → Legal core → IsAccepted core e
        → Legal (after core e) }
{}

/// After any list of accepted events from the start the state is legal.
pub fn every_run_is_legal()
    ensures core { (s : Shape) (events : List Event) (core : CoreState) → IsShape s → Runs (start s) events core
        → IsCore core }
    ensures legal { (s : Shape) (events : List Event) (core : CoreState) → IsShape s → Runs (start s) events core
        → Legal core }
{}

/// If no tile is taken and not all are posted, one is ready: no order of work is a dead end.
pub fn idle_seats_have_a_ready_tile()
    ensures { (core : CoreState) → IsCore core → Legal core → IsIdle core → (p : Place) × IsReadyTile core p }
{}

/// In whatever order the tiles are worked, each that is taken or posted has the dots and the edges
/// of row-by-row diffusion.
pub fn any_order()
    ensures { (s : Shape) (events : List Event) (core : CoreState) (w : Window) (results : Place → TileResult)
        → IsShape s → Runs (start s) events core → IsRecord w core results
        → (p : Place) → IsTile s p → IsBegun core p → IsResult w p (results p) }
{}
