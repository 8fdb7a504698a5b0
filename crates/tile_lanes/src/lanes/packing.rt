//! Dots of lanes, sixteen at a time, into the bits of a tile.
ghost use Rattle.std.specs.Prelude.{slice_index, ◌%◌, ◌*◌, ◌+◌, ◌-◌, ◌/◌, ◌<◌, ◌^◌, ◌≡◌, ◌≢◌, ◌⊎◌, ℕ};
ghost use Rattle.tile_lanes.specs.Paces.{delay_of};
ghost use Rattle.tile_lanes.specs.Rows.{bit};

use super::pace::Pace;

// Puts a word of row r, sixteen dots with the last in the lowest bit, at offset 16 (n - 3). Where n is below 3 or above
// 6 the row has no such offset, and nothing is put.
#[inline(always)]
fn put_word(bits: &mut [u8; 256], r: usize, n: usize, word: u16)
    requires row { r < 32 }
    ensures there { (o : ℕ) → o < 64 → o / 16 + 3 ≡ n → bit bits.new (64 * r + o) ≡ word / 2 ^ (15 - o % 16) % 2 }
    ensures kept { (q o : ℕ) → q < 32 → o < 64 → (q ≢ r) ⊎ (o / 16 + 3 ≢ n)
        → bit bits.new (64 * q + o) ≡ bit bits.old (64 * q + o) }
{
    if 3 <= n && n < 7 {
        let at = 8 * r + 2 * (n - 3);
        bits[at] = (word / 256) as u8;
        bits[at + 1] = (word % 256) as u8;
    }
}

// Puts the last sixteen dots of all rows, at the steps at which level rows complete a word.
#[inline(always)]
fn put_level_words(bits: &mut [u8; 256], step: usize, dots: &[u16; 32])
    requires step { step < 103 }
    ensures there { (r o : ℕ) → r < 32 → o < 64 → 16 * (o / 16) + 23 ≡ step
        → bit bits.new (64 * r + o) ≡ slice_index dots.now r / 2 ^ (15 - o % 16) % 2 }
    ensures kept { (r o : ℕ) → r < 32 → o < 64 → 16 * (o / 16) + 23 ≢ step
        → bit bits.new (64 * r + o) ≡ bit bits.old (64 * r + o) }
{
    if step % 16 != 7 {
        return;
    }
    for r in 0..32 {
        put_word(bits, r, (step + 25) / 16, dots[r]);
    }
}

// Puts the last sixteen dots of the two lagging rows for which a step completes a word: r and r + 16, where r is
// step + 9 modulo 16.
#[inline(always)]
fn put_lagging_words(bits: &mut [u8; 256], step: usize, dots: &[u16; 32])
    requires step { step < 103 }
    ensures there { (r o : ℕ) → r < 32 → o < 64 → 16 * (o / 16) + r + 23 ≡ step
        → bit bits.new (64 * r + o) ≡ slice_index dots.now r / 2 ^ (15 - o % 16) % 2 }
    ensures kept { (r o : ℕ) → r < 32 → o < 64 → 16 * (o / 16) + r + 23 ≢ step
        → bit bits.new (64 * r + o) ≡ bit bits.old (64 * r + o) }
{
    let r = (step + 9) % 16;
    let n = (step + 9) / 16;
    put_word(bits, r, n + 1, dots[r]);
    put_word(bits, r + 16, n, dots[r + 16]);
}

/// Puts the last sixteen dots of each row for which a step completes a word.
#[inline(always)]
pub(crate) fn put_words(pace: Pace, bits: &mut [u8; 256], step: usize, dots: &[u16; 32])
    requires step { step < 103 }
    ensures there { (r o : ℕ) → r < 32 → o < 64 → 16 * (o / 16) + delay_of pace r + 23 ≡ step
        → bit bits.new (64 * r + o) ≡ slice_index dots.now r / 2 ^ (15 - o % 16) % 2 }
    ensures kept { (r o : ℕ) → r < 32 → o < 64 → 16 * (o / 16) + delay_of pace r + 23 ≢ step
        → bit bits.new (64 * r + o) ≡ bit bits.old (64 * r + o) }
{
    match pace {
        Pace::Level => put_level_words(bits, step, dots),
        Pace::Lagging => put_lagging_words(bits, step, dots),
    }
}
