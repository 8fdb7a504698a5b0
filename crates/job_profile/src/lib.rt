//! The profile that a command uses, read and checked: a built-in one, or the one that the shelf's text of its name
//! describes.
//!
//! `find_profile` returns exactly the profile that the name means (`found`), or why the profile is refused (`refused`).
//! Both go by the shelf's text of this name, or by some text or none if the shelf does not report its texts. `Failed`
//! is returned only if the shelf's count of faults rose (`failed`). The count never falls (`later`), and the texts stay
//! (`stay`). For the name of a built-in profile the shelf is not asked and does not change (`built_in`), and the result
//! is neither `Failed` (`unasked`) nor `Memory` (`no_memory`).
#![tactic(auto)]

mod finding;
mod stops;

pub use dead_nozzles::DeadFault;
pub use finding::find_profile;
pub use printer_profile::Profile;
pub use stops::{ProfileCause, ProfileStop};
