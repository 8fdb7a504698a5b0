//! Laws of the format of a stream of pages, and examples that the check computes. Every spelling is read, whatever
//! follows. Bytes that are read without a fault are a spelling. No spelling of a group begins another. The bytes up to
//! a fault of a group decide the fault. No function has code: each is a contract with its proof.
#![tactic(auto)]

pub mod examples;
pub mod groups;
pub mod pages;
