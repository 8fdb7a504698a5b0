//! Tests of tiles, by their public calls alone: the geometry, one ink of a tile and all of them, what a tile gives, the
//! core of a board, and the atomic steps at a board.

mod border;
mod content;
mod lanes;
mod scheduler;
mod shapes;
mod steps;
