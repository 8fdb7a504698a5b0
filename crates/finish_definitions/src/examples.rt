//! Worked jobs that were cut: each function does nothing, and the checker computes its contract.
#![tactic(auto, unfolding(escp2_definitions::specs::Commands::command_at, escp2_definitions::specs::Commands::commands_from, escp2_definitions::specs::RowCode::row_at, escp2_definitions::specs::RowCode::rows_at, crate::specs::Finished::whole_from))]

ghost use Rattle.escp2_laws.specs.Examples.{black_row, graphics, length_12, listing, listing_prefix, margins_12, unit_5};
ghost use Rattle.finish_definitions.specs.Examples.{form_feed, reset, states_at};
ghost use Rattle.finish_definitions.specs.Finished.{finished, page_state};
ghost use Rattle.finish_definitions.specs.declared.state.PageState.TheVariants.{Begun, Between, Ejected, Open};
ghost use Rattle.std.specs.Prelude.{[], take, ◌++◌, ◌∷◌, ◌≡◌};

/// A job of 92 bytes and one page, cut behind each of its commands: after the first reset; after the commands before
/// the margins; from the margins to the last raster; after the form feed; and whole.
pub fn a_listing_has_its_states()
    ensures nothing { page_state [] ≡ Between }
    ensures begun { states_at (2 ∷ 8 ∷ 14 ∷ 20 ∷ 23 ∷ 30 ∷ [])
        ≡ Between ∷ Begun ∷ Begun ∷ Begun ∷ Begun ∷ Begun ∷ [] }
    ensures open { states_at (39 ∷ 46 ∷ 49 ∷ 50 ∷ 64 ∷ 71 ∷ 74 ∷ 75 ∷ 89 ∷ [])
        ≡ Open ∷ Open ∷ Open ∷ Open ∷ Open ∷ Open ∷ Open ∷ Open ∷ Open ∷ [] }
    ensures ended { states_at (90 ∷ 92 ∷ []) ≡ Ejected ∷ Between ∷ [] }
{}

/// What ends the page of a job that is cut between commands.
pub fn pages_are_ended()
    ensures nothing { finished [] ≡ [] }
    ensures first_reset { finished (take 2 listing) ≡ take 2 listing }
    ensures before_margins { finished (take 30 listing) ≡ take 30 listing ++ reset }
    ensures after_margins { finished (take 39 listing) ≡ take 39 listing ++ form_feed ++ reset }
    ensures after_raster { finished (take 64 listing) ≡ take 64 listing ++ form_feed ++ reset }
    ensures after_form_feed { finished (take 90 listing) ≡ take 90 listing ++ reset }
    ensures whole { finished listing ≡ listing }
{}

/// A command that is cut is dropped, and so is what the table does not have, with all that follows.
pub fn a_cut_command_is_dropped()
    ensures in_margins { finished (take 38 listing) ≡ take 30 listing ++ reset }
    ensures in_raster { finished (take 63 listing) ≡ take 50 listing ++ form_feed ++ reset }
    ensures in_reset { finished (take 91 listing) ≡ take 90 listing ++ reset }
    ensures unknown { finished (listing_prefix ++ 0x41 ∷ listing) ≡ listing_prefix ++ form_feed ++ reset }
{}

/// Jobs that this driver does not write: a page without a reset before it; margins once for two sheets; a length that
/// begins a page anew; and colours behind a form feed, which use no paper.
pub fn foreign_jobs_are_ended()
    ensures without_reset { page_state (graphics ++ unit_5 ++ length_12) ≡ Begun }
    ensures second_sheet { page_state (listing_prefix ++ 0x0C ∷ black_row) ≡ Open }
    ensures second_length { page_state (listing_prefix ++ length_12) ≡ Begun }
    ensures second_margins { page_state (listing_prefix ++ 0x0C ∷ length_12 ++ margins_12) ≡ Open }
    ensures colour { page_state (listing_prefix ++ 0x0C ∷ 0x1B ∷ 0x72 ∷ 0x01 ∷ []) ≡ Ejected }
{}
