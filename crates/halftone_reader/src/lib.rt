//! Reads the pages of a stream and halftones them: each page is read to its last line, and leaves its dots.
//!
//! `read_page` returns the next page (`page`): its bytes come next in the input, whatever follows them, and are used,
//! and the planes have the dots of its halftone. It returns `None` at the end of the input (`none`), or the fault at
//! which the remaining pages end (`input`). In each case the bytes used are a prefix of the input (`used`). On `Read`
//! the source's count of faults rose (`read`); the count never falls (`later`). The bytes taken then have no further
//! whole page, and no fault but one that more bytes could mend (`taken`). No clause says when memory may run out; tests
//! cover that.
//!
//! A page is read a slab ahead, so that the caller can read the lines of the next slab (`next_slab`) while others
//! diffuse a full one. If a slab is full before a group of lines ends, the rest of the group comes first in the next
//! slab. The stop that is returned does not depend on the workers.
#![tactic(auto)]

mod pages;
mod slabs;

pub use pages::{HalftonedPage, read_page};
