//! Definitions that every layer uses: counting, packing dots into bytes and back, the limits of a page, and the error
//! that memory ran out. Each limit of a page has one name, defined here.
//!
//! The code has the types of the definitions, `greatest_common_divisor`, which is exact for two numbers below 256 and 0
//! for two zeros, and `ones_in`, which counts the bits of bytes that are 1.
#![tactic(auto)]

mod answers;
mod divisors;
mod limits;
mod ones;

pub use answers::Memory;
pub use divisors::greatest_common_divisor;
pub use limits::{LONGEST_PAGE, MOST_COLUMNS, MOST_ROW_BYTES, MOST_ROWS};
pub use ones::ones_in;
