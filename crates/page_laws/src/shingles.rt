//! Worked strokes that are not passes of the weave: each function does nothing, and the checker computes its
//! contract.
#![tactic(auto, unfolding(escp2_definitions::specs::Commands::command_at, escp2_definitions::specs::Commands::commands_from, escp2_definitions::specs::Least::cost_from, escp2_definitions::specs::Least::costs, escp2_definitions::specs::Least::equal_at, escp2_definitions::specs::Least::least, escp2_definitions::specs::Least::least_packet, escp2_definitions::specs::Least::least_row, escp2_definitions::specs::Least::literals, escp2_definitions::specs::Least::packets_at, escp2_definitions::specs::Least::packets_from, escp2_definitions::specs::Least::runs, escp2_definitions::specs::Machine::execute_from, escp2_definitions::specs::Machine::rows_dots, escp2_definitions::specs::RowCode::row_at, escp2_definitions::specs::RowCode::rows_at))]

ghost use Rattle.escp2_definitions.specs.Commands.{commands};
ghost use Rattle.escp2_definitions.specs.Machine.{execute};
ghost use Rattle.escp2_laws.specs.Examples.{three_nozzles};
ghost use Rattle.page_definitions.specs.PageBytes.{page_coding};
ghost use Rattle.page_definitions.specs.Strokes.{Fires, fired, strokes_bytes};
ghost use Rattle.page_laws.specs.Shingles.{fired_twice, fired_twice_bytes, made_up, made_up_bytes, made_up_dots};
ghost use Rattle.page_laws.specs.Shingles.{fired_twice_dots, two_black_rows};
ghost use Rattle.std.specs.Prelude.{None, [], length, ◌∷◌, ◌≡◌};

/// The worked strokes print their window: those that fire rows twice, and those in which another nozzle makes up the
/// rows of a nozzle that fires nothing.
pub fn worked_strokes_fire()
    ensures shingled_rows { Fires three_nozzles two_black_rows fired_twice }
    ensures made_up_rows { Fires three_nozzles two_black_rows made_up }
{}

/// The bytes of rows that are fired twice, and the dots of their strokes.
pub fn shingled_rows_fire_even_and_odd_columns()
    ensures len { length fired_twice_bytes ≡ 142 }
    ensures bytes { strokes_bytes page_coding three_nozzles 8 2 12 fired_twice ≡ fired_twice_bytes }
    ensures dots { fired three_nozzles fired_twice ≡ fired_twice_dots }
{}

/// What the printer makes of these bytes: two black rows.
pub fn shingled_rows_are_printed()
    ensures { execute three_nozzles (commands fired_twice_bytes).entries ≡ record {
      sheets = record { rows = 6; columns = 8; dots = fired_twice_dots } ∷ [];
      refused = None;
    } }
{}

/// The bytes of rows that another nozzle makes up for a nozzle that fires nothing, and the dots of their strokes. The
/// bytes leave out a stroke without a dot.
pub fn rows_of_a_dead_nozzle_are_made_up()
    ensures len { length made_up_bytes ≡ 99 }
    ensures bytes { strokes_bytes page_coding three_nozzles 8 2 12 made_up ≡ made_up_bytes }
    ensures dots { fired three_nozzles made_up ≡ made_up_dots }
{}

/// What the printer makes of these bytes: two black rows.
pub fn made_up_rows_are_printed()
    ensures { execute three_nozzles (commands made_up_bytes).entries ≡ record {
      sheets = record { rows = 6; columns = 8; dots = made_up_dots } ∷ [];
      refused = None;
    } }
{}
