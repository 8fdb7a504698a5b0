//! Dots of packed rows, counted.
ghost use Rattle.base_definitions.specs.Limits.{most_row_bytes};
ghost use Rattle.std.specs.List.{sum_by};
ghost use Rattle.std.specs.Prelude.{count_ones, length, slice_index, true, ℕ, ◌%◌, ◌*◌, ◌≡◌, ◌≤◌};

use base_definitions::ones_in;

/// Whether all bytes are 0. The loop has no test, so that it becomes vectors where the caller knows the length.
#[inline(always)]
pub(crate) fn are_zero(bytes: &[u8]) -> bool
    ensures { result ≡ true → (k : ℕ) → slice_index bytes.now k ≡ 0 }
{
    let mut any = 0;
    for k in 0..bytes.len() {
        any |= bytes[k];
    }
    any == 0
}

/// The number of dots in a packed row: in blocks of 64 bytes, most of which are blank, and in the bytes after them.
pub(crate) fn count_row(row: &[u8]) -> u32
    requires { length row.now ≤ most_row_bytes }
    ensures is { result ≡ sum_by count_ones row.now }
    ensures most { result ≤ 8 * most_row_bytes }
{
    let (blocks, rest) = row.split_at(row.len() / 64 * 64);
    count_blocks(blocks) + count_bytes(rest)
}

// The number of dots in whole blocks of 64 bytes.
#[inline]
fn count_blocks(bytes: &[u8]) -> u32
    requires whole { length bytes.now % 64 ≡ 0 }
    requires most { length bytes.now ≤ most_row_bytes }
    ensures is { result ≡ sum_by count_ones bytes.now }
    ensures most { result ≤ 8 * length bytes.now }
{
    let mut dots = 0;
    'parts: for i in 0..bytes.len() / 64 {
        dots += count_block(&bytes[64 * i..64 * i + 64]);
    }
    dots
}

// The number of dots in 64 bytes.
#[inline(always)]
fn count_block(block: &[u8]) -> u32
    requires { length block.now ≡ 64 }
    ensures is { result ≡ sum_by count_ones block.now }
    ensures most { result ≤ 512 }
{
    if are_zero(block) {
        0
    } else {
        count_words(block)
    }
}

// The number of dots in bytes: in words of eight bytes, and in the bytes after them.
#[inline]
fn count_bytes(bytes: &[u8]) -> u32
    requires { length bytes.now ≤ most_row_bytes }
    ensures is { result ≡ sum_by count_ones bytes.now }
    ensures most { result ≤ 8 * length bytes.now }
{
    let (words, rest) = bytes.split_at(bytes.len() / 8 * 8);
    count_words(words) + ones_in(rest)
}

// The number of dots in whole words of eight bytes.
#[inline]
fn count_words(bytes: &[u8]) -> u32
    requires whole { length bytes.now % 8 ≡ 0 }
    requires most { length bytes.now ≤ most_row_bytes }
    ensures is { result ≡ sum_by count_ones bytes.now }
    ensures most { result ≤ 8 * length bytes.now }
{
    let mut dots = 0;
    'words: for i in 0..bytes.len() / 8 {
        dots += count_word(&bytes[8 * i..8 * i + 8]);
    }
    dots
}

// The number of dots in eight bytes.
#[inline]
fn count_word(word: &[u8]) -> u32
    requires { length word.now ≡ 8 }
    ensures is { result ≡ sum_by count_ones word.now }
    ensures most { result ≤ 64 }
{
    let bytes = [
        word[0], word[1], word[2], word[3], word[4], word[5], word[6], word[7],
    ];
    u64::from_le_bytes(bytes).count_ones()
}
