//! Counting the dots of bytes, in blocks of 64.
ghost use Rattle.base_definitions.specs.Limits.{most_row_bytes};
ghost use Rattle.std.specs.List.{sum_by};
ghost use Rattle.std.specs.Prelude.{count_ones, length, slice_index, true, ℕ, ◌%◌, ◌*◌, ◌<◌, ◌≡◌, ◌≤◌};

/// How many bits of the bytes are 1. There are at most as many bytes as a raster has.
pub(crate) fn count_dots(bytes: &[u8]) -> u32
    requires { length bytes.now ≤ 255 * most_row_bytes }
    ensures is { result ≡ sum_by count_ones bytes.now }
    ensures most { result ≤ 8 * length bytes.now }
{
    let (blocks, rest) = bytes.split_at(bytes.len() / 64 * 64);
    count_blocks(blocks) + count_rest(rest)
}

// The same of whole blocks.
#[inline]
fn count_blocks(bytes: &[u8]) -> u32
    requires whole { length bytes.now % 64 ≡ 0 }
    requires most { length bytes.now ≤ 255 * most_row_bytes }
    ensures is { result ≡ sum_by count_ones bytes.now }
    ensures most { result ≤ 8 * length bytes.now }
{
    let mut dots = 0;
    for i in 0..bytes.len() / 64 {
        dots += count_block(&bytes[64 * i..64 * i + 64]);
    }
    dots
}

// The same of less than a block, which is filled up with zeros: a block takes less time than a loop over its bytes.
#[inline]
fn count_rest(rest: &[u8]) -> u32
    requires { length rest.now < 64 }
    ensures is { result ≡ sum_by count_ones rest.now }
    ensures most { result ≤ 8 * length rest.now }
{
    let mut block = [0; 64];
    block[..rest.len()].copy_from_slice(rest);
    count_block(&block)
}

// The same of a block. Most blocks of a page are blank, and a test takes less time than a count.
#[inline(always)]
fn count_block(block: &[u8]) -> u32
    requires { length block.now ≡ 64 }
    ensures is { result ≡ sum_by count_ones block.now }
    ensures most { result ≤ 512 }
{
    if is_blank(block) {
        return 0;
    }
    count_words(block)
}

// Whether all bytes of a block are 0. The loop has a known length and no test, so that it becomes vectors.
#[inline(always)]
fn is_blank(block: &[u8]) -> bool
    requires { length block.now ≡ 64 }
    ensures { result ≡ true → (k : ℕ) → slice_index block.now k ≡ 0 }
{
    let mut all = 0;
    for k in 0..64 {
        all |= block[k];
    }
    all == 0
}

// The number of dots in the eight words of a block. The loop has a known length, so that it is unrolled.
#[inline(always)]
fn count_words(block: &[u8]) -> u32
    requires { length block.now ≡ 64 }
    ensures is { result ≡ sum_by count_ones block.now }
    ensures most { result ≤ 512 }
{
    let mut dots = 0;
    for i in 0..8 {
        dots += count_word(&block[8 * i..8 * i + 8]);
    }
    dots
}

// The number of dots in eight bytes.
#[inline(always)]
fn count_word(word: &[u8]) -> u32
    requires { length word.now ≡ 8 }
    ensures is { result ≡ sum_by count_ones word.now }
    ensures most { result ≤ 64 }
{
    let bytes = [
        word[0], word[1], word[2], word[3], word[4], word[5], word[6], word[7],
    ];
    u64::from_le_bytes(bytes).count_ones()
}
