//! Laws of pages on paper. The dots that a page asks for are distinct. Strokes that fire these dots print them. The
//! bytes of pages print the pages. Each law is the contract of a function with an empty body. Worked pages compare the
//! definitions with results worked by hand.
#![tactic(auto)]

mod examples;
mod healed;
mod laws;
mod rows;
mod shingled;
mod shingles;
mod ways;

pub use examples::{
    black_page_with_margins, colours_have_their_amounts, grey_128_has_its_amounts,
    inks_go_in_the_order_of_their_set, one_nozzle_prints_three_rasters, pages_that_are_taken,
    resolutions_differ_across_and_down, small_page_has_its_bytes, small_page_is_printed,
    small_page_wants_two_dots, tiny_prints_ninety_two_bytes, two_rows_are_fired,
    white_page_takes_no_stroke, window_inside_margins,
};
pub use healed::{dead_rows_are_blank, healed_fires, healed_have_passes, worked_rows_are_healed};
pub use laws::{
    counts_of_planes, page_is_short, pages_are_printed, rows_are_coded, stroked_pages_are_printed,
    strokes_are_printed, strokes_have_rasters, wanted_are_distinct, weave_fires,
};
pub use rows::rasters_have_rows;
pub use shingled::{
    shingled_rows_are_halves, shingles_fire, shingles_have_passes, worked_shingles_are_shingled,
};
pub use shingles::{
    made_up_rows_are_printed, rows_of_a_dead_nozzle_are_made_up, shingled_rows_are_printed,
    shingled_rows_fire_even_and_odd_columns, worked_strokes_fire,
};
pub use ways::{pages_are_printed_by_ways, pages_keep_to_their_way};
