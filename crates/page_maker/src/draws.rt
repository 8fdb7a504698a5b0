//! The draws that pages are made of.
ghost use Rattle.page_maker.specs.Made.{draw, drawn, next_state, state_after};
ghost use Rattle.std.specs.Prelude.{length, ◌≡◌};

// The factor and the summand of the generator.
const FACTOR: u32 = 1664525;

const SUMMAND: u32 = 1013904223;

/// A linear congruential generator of 32 bits. A draw returns the highest byte of its state. The same seed gives the
/// same bytes.
#[derive(Clone, Copy, Debug, PartialEq, Eq)]
pub struct Draws {
    state: u32,
}

impl Draws {
    /// The draws from a seed.
    pub fn new(seed: u32) -> Draws
        ensures { result.state ≡ seed }
    {
        Draws { state: seed }
    }

    /// The next byte.
    pub fn next(&mut self) -> u8
        ensures byte { result ≡ draw self.old.state }
        ensures state { self.new.state ≡ next_state self.old.state }
    {
        self.state = self.state.wrapping_mul(FACTOR).wrapping_add(SUMMAND);
        (self.state >> 24) as u8
    }

    /// Fills the bytes with draws.
    pub fn fill(&mut self, bytes: &mut [u8])
        ensures bytes { bytes.new ≡ drawn (length bytes.old) self.old.state }
        ensures state { self.new.state ≡ state_after (length bytes.old) self.old.state }
    {
        for byte in bytes.iter_mut() {
            *byte = self.next();
        }
    }
}
