//! Eight dots that begin inside a byte.
ghost use Rattle.base_definitions.specs.Packed.{bit_at};
ghost use Rattle.std.specs.Prelude.{nat_le, nat_lt, ℕ, ◌&&◌, ◌+◌, ◌-◌, ◌<◌, ◌≡◌, ◌≤◌};

// The dots of a byte, moved `by` places to the left: `left` are those that leave it, at the end of a byte, and `stay`
// those that stay.
#[inline(always)]
fn moved(byte: u8, by: usize) -> (u8, u8)
    requires { by ≤ 8 }
    ensures left { (j : ℕ) → j < 8 → bit_at result.0 j ≡ (nat_le 8 (j + by) && bit_at byte (j + by - 8)) }
    ensures stay { (j : ℕ) → j < 8 → bit_at result.1 j ≡ (nat_lt (j + by) 8 && bit_at byte (j + by)) }
{
    let wide = u16::from(byte) << by;
    ((wide >> 8) as u8, (wide & 255) as u8)
}

/// The eight dots of two bytes from bit `by` of the first one on.
#[inline(always)]
pub(crate) fn eight_from(left: u8, right: u8, by: usize) -> u8
    requires { by ≤ 8 }
    ensures left { (k : ℕ) → k + by < 8 → bit_at result k ≡ bit_at left (k + by) }
    ensures right { (k : ℕ) → k < 8 → 8 ≤ k + by → bit_at result k ≡ bit_at right (k + by - 8) }
{
    moved(left, by).1 | moved(right, by).0
}
