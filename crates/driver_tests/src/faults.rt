//! Runs over hostile input, and with an outside that fails: every prefix, every failing read and write, and every byte
//! changed.
//!
//! The expected values are those of slow programs that follow the definitions and share no code with the driver.

mod answers;
mod changed;
mod first_refusals;
mod fixture;
mod inputs;
mod passes;
mod plain_head;
mod plain_stream;
mod prefixes;
mod reads;
mod writes;
