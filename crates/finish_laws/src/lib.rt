//! Laws of print jobs that were cut and finished, each the contract of an empty function.
//!
//! A whole job stays as it is, a finished job is whole, and finishing again changes nothing. If a printer takes a job,
//! it takes each front of the job when that is finished. Of a job that prints pages, by each way of a head, each
//! finished front gives the sheets of the whole pages, and for a page that was cut behind its margins one sheet more,
//! with the first dots of that page.
#![tactic(auto)]

mod fronts;
mod laws;

pub use fronts::{
    a_cut_job_prints_its_front, a_cut_job_prints_its_pages, a_cut_print_ends_its_page,
};
pub use laws::{
    a_finished_job_is_whole, a_printed_job_stays, a_whole_job_stays,
    finishing_again_changes_nothing, nothing_of_a_front_is_lost,
};
