//! Laws of print jobs and of the code of rows, and worked jobs that the checker computes. Spelled commands and rows are
//! read back, whatever follows. Bytes that are read as a whole command or as whole rows spell them. No spelling is a
//! proper prefix of another. The least code of a row is a code of the row, and no other code is shorter. Later bytes do
//! not change what was read of a command. Each law is the contract of an empty function.
#![tactic(auto)]

mod codes;
mod examples;
mod laws;
mod machine_examples;
mod standing;

pub use codes::{
    code_is_read, costs_are_reached, least_is_a_code, least_is_short, no_code_begins_another,
    no_code_is_shorter, packets_are_all, what_is_read_is_a_code,
};
pub use examples::{
    columns_are_limited, commands_are_refused, early_rasters_are_refused, faults_are_told,
    least_row_is_worked, listing_is_printed, listing_is_read, listing_is_refused,
    numbers_are_limited, pages_are_limited, widest_row_is_read,
};
pub use laws::{
    job_is_its_commands, no_spelling_begins_another, spelled_is_read, written_is_spelled,
};
pub use machine_examples::{
    colours_and_second_rows_are_read, rows_are_printed, sheets_begin_narrow,
    single_refusals_are_told, the_earlier_refusal_is_told,
};
pub use standing::{
    a_command_stands, a_fault_ends_a_job, a_fault_stands, a_prefix_has_no_more_rasters,
    a_prefix_is_incomplete, heard_is_spelled,
};
