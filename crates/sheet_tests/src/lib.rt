//! Tests of planes of dots, of the emulator and the images of its sheets, of jobs that are played, and of meters.
#![tactic(auto)]

#[cfg(test)]
mod bands;
#[cfg(test)]
mod checks;
#[cfg(test)]
mod counting;
#[cfg(test)]
mod emulator;
#[cfg(test)]
mod images;
#[cfg(test)]
mod machine;
#[cfg(test)]
mod meters;
#[cfg(test)]
mod page_counts;
#[cfg(test)]
mod planes;
#[cfg(test)]
mod player;
