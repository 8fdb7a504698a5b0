//! Tests of error diffusion: of one pixel, of the plain program by the definition, of tiles and of boards, and of slabs
//! that a team diffuses. These slabs are compared with the plain program dot by dot and error by error.
//!
//! Boards that several passes work have the dots of the definition. Boards that two threads work have the dots that an
//! independent program computed. Claims carry the words that they found.
#![tactic(auto)]

#[cfg(test)]
mod boards;
#[cfg(test)]
mod checks;
#[cfg(test)]
mod fills;
#[cfg(test)]
mod gates;
#[cfg(test)]
mod kernel;
#[cfg(test)]
mod plain;
#[cfg(test)]
mod slabs;
#[cfg(test)]
mod team;
#[cfg(test)]
mod tiles;
#[cfg(test)]
mod windows;
