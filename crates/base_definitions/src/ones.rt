//! The bits of bytes that are 1.
ghost use Rattle.base_definitions.specs.Limits.{most_row_bytes};
ghost use Rattle.std.specs.List.{sum_by};
ghost use Rattle.std.specs.Prelude.{count_ones, length, ◌*◌, ◌≡◌, ◌≤◌};

/// How many bits of the bytes are 1.
#[inline]
pub fn ones_in(bytes: &[u8]) -> u32
    requires { length bytes.now ≤ most_row_bytes }
    ensures is { result ≡ sum_by count_ones bytes.now }
    ensures most { result ≤ 8 * length bytes.now }
{
    let mut ones = 0;
    for byte in bytes {
        ones += byte.count_ones();
    }
    ones
}
