//! Tests of printer profiles, of the words of a command line, and of the answers of a run: `key_values`,
//! `printer_profile`, `job_profile`, `job_words` and `driver_answer`.
#![tactic(auto)]

#[cfg(test)]
mod answers;
#[cfg(test)]
mod pairs;
#[cfg(test)]
mod profiles;
#[cfg(test)]
mod shelf;
#[cfg(test)]
mod texts;
#[cfg(test)]
mod words;
