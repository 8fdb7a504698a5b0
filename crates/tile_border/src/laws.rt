//! Laws of work on a board, and of the content of its tiles. Each is the contract of a function, which calls the laws
//! that it follows from.
ghost use Rattle.board_core.specs.Records.{IsRecord, IsResult};
ghost use Rattle.board_core.specs.States.{CoreState, IsBegun, start};
ghost use Rattle.board_core.specs.Steps.{Runs};
ghost use Rattle.board_core.specs.declared.events.Event.{Event};
ghost use Rattle.diffusion_definitions.specs.Diffusion.{Errors};
ghost use Rattle.diffusion_kernel.specs.declared.tables.Kernel.{Kernel};
ghost use Rattle.dot_planes.specs.Tables.{AmountTable};
ghost use Rattle.std.specs.Prelude.{List, ℕ, ℤ, ◌<◌, ◌≡◌};
ghost use Rattle.tile_border.specs.Tops.{edges_of};
ghost use Rattle.tile_border.specs.Worked.{AreErrors, AreWorked, result_of, window_with};
ghost use Rattle.tile_border.specs.Works.{Border, HasInks, IsWhole, Works};
ghost use Rattle.tile_border.specs.Content.{bottoms, errors_below, given};
ghost use Rattle.tile_border.specs.Tiles.{AreDone, AreHanded, AreReady};
ghost use Rattle.tile_edges.specs.Tops.{AreBottoms};
ghost use Rattle.tile_lanes.specs.Done.{window_of};
ghost use Rattle.tile_shape.specs.Geometry.{IsShape, IsTile, columns_of};
ghost use Rattle.tile_shape.specs.declared.tiles.Place.{Place};

/// If each tile is handed the edges that the tiles before it gave, what the tiles give is a record.
pub fn what_work_gives_is_a_record()
    ensures { (k : Kernel) (rows : AmountTable) (top : List (List (List ℤ))) (errors : ℕ → Errors) (core : CoreState)
        (handed given : Place → Border) → AreErrors k rows top errors → AreWorked k rows top core handed given
        → IsRecord (window_with k rows errors) core (λ p. result_of (given p)) }
{
    tile_edges::handed::what_is_handed_is_right();
}

/// In whatever order a board is worked, each tile that is taken or posted has the dots and the edges of row-by-row
/// diffusion below the board's top.
pub fn any_order()
    ensures { (k : Kernel) (rows : AmountTable) (top : List (List (List ℤ))) (errors : ℕ → Errors) (events : List Event)
        (core : CoreState) (handed given : Place → Border)
        → IsShape (window_of rows) → Runs (start (window_of rows)) events core
        → AreErrors k rows top errors → AreWorked k rows top core handed given
        → (p : Place) → IsTile (window_of rows) p → IsBegun core p
        → IsResult (window_with k rows errors) p (result_of (given p)) }
{
    board_core::laws::any_order();
    what_work_gives_is_a_record();
}

/// The edges and the dots of `given` are right, and there is one list of each for each ink.
pub fn what_is_given_is_right()
    ensures inks { (k : Kernel) (rows : AmountTable) (top : List (List (List ℤ))) (p : Place)
        → HasInks rows.inks (given k rows top p) }
    ensures done { (k : Kernel) (rows : AmountTable) (top : List (List (List ℤ))) (p : Place)
        → AreDone k rows top p (given k rows top p) }
{}

/// Edges and dots that are right, of full length and in each ink, are those of `given`.
pub fn what_is_right_is_given()
    ensures { (k : Kernel) (rows : AmountTable) (top : List (List (List ℤ))) (p : Place) (b : Border)
        → HasInks rows.inks b → IsWhole b → AreDone k rows top p b → b ≡ given k rows top p }
{}

/// If the tiles that send a tile its edges gave those of `given`, the edges that the tile is handed are right.
pub fn what_is_handed_is_right()
    ensures { (k : Kernel) (rows : AmountTable) (top : List (List (List ℤ))) (p : Place) (b : Border)
        → IsTile (window_of rows) p → AreHanded k rows top p b → AreReady k rows top p b }
{
    tile_edges::handed::what_is_handed_is_right();
}

/// From right edges `work` makes right edges and dots.
pub fn what_work_gives_is_right()
    ensures { (k : Kernel) (rows : AmountTable) (top : List (List (List ℤ))) (p : Place) (old new : Border)
        → ((i : ℕ) → i < rows.inks → Works k rows p i old new) → AreReady k rows top p old → AreDone k rows top p new }
{}

/// The bottom edges of `given` for a band's tiles are the errors of the band's rows 30 and 31.
pub fn bottoms_are_given()
    ensures { (k : Kernel) (rows : AmountTable) (top : List (List (List ℤ))) (j i : ℕ) → i < rows.inks
        → AreBottoms (window_of rows) (errors_below k rows top i) j
        (edges_of (bottoms k rows top j (columns_of (window_of rows))) i) }
{}
