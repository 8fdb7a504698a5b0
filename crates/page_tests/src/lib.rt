//! Tests of pages on paper: of what is made of a page's pixels, and of the writer of pages, with one worker and with
//! several. The writer is tested with interleaved passes, shingled passes, and the strokes of heads with dead nozzles.
#![tactic(auto)]

#[cfg(test)]
mod checks;
#[cfg(test)]
mod halftones;
#[cfg(test)]
mod healed;
#[cfg(test)]
mod making_up;
#[cfg(test)]
mod pages;
#[cfg(test)]
mod shingled;
#[cfg(test)]
mod shingling;
#[cfg(test)]
mod weaving;
#[cfg(test)]
mod workers;
#[cfg(test)]
mod writing;
