//! Tests of the page stream: headers, run-coded lines, whole streams, and made ones, by worked examples.
#![tactic(auto)]

#[cfg(test)]
mod checks;
#[cfg(test)]
mod headers;
#[cfg(test)]
mod lines;
#[cfg(test)]
mod made;
#[cfg(test)]
mod streams;
