//! What a print job becomes that was cut: its whole commands, and the commands that end its page.
//!
//! A job is cut if its sender stops, is cancelled, or fails. The command in hand is dropped. A page whose margins are
//! set is ended by a form feed and `ESC @`; a page that was only begun, or whose sheet was just ejected, by `ESC @`; a
//! job that ends with a whole page gets nothing. `specs/Finished.antt` has the definitions, `finished` last.
//!
//! `PageState` is declared here because the definitions mention it.
#![tactic(auto)]

mod examples;
mod state;

pub use examples::{
    a_cut_command_is_dropped, a_listing_has_its_states, foreign_jobs_are_ended, pages_are_ended,
};
pub use state::PageState;
