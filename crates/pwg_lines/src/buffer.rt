//! The bytes of a line, of which a prefix is filled.
ghost use Rattle.std.specs.Prelude.{drop, length, take, ◌*◌, ◌++◌, ◌+◌, ◌≡◌, ◌≤◌};
ghost use Rattle.pwg_definitions.specs.Groups.{copies};

/// Puts the bytes after the filled ones.
pub fn fill_bytes(line: &mut [u8], filled: usize, bytes: &[u8])
    requires { filled + length bytes.now ≤ length line.old }
    ensures { take (filled + length bytes.now) line.new ≡ take filled line.old ++ bytes.now }
{
    line[filled..filled + bytes.len()].copy_from_slice(bytes);
}

/// Puts `count` copies of a unit after the filled bytes. The unit's first `read` bytes are there already, and
/// `others` are the rest of it. The bytes behind the copies are unchanged.
pub fn fill_units(line: &mut [u8], filled: usize, read: usize, others: &[u8], count: usize)
    requires some { 1 ≤ count }
    requires fits { filled + count * (read + length others.now) ≤ length line.old }
    ensures filled { take (filled + count * (read + length others.now)) line.new
        ≡ take filled line.old ++ copies count (take read (drop filled line.old) ++ others.now) }
    ensures behind { drop (filled + count * (read + length others.now)) line.new
        ≡ drop (filled + count * (read + length others.now)) line.old }
{
    if let (0, [byte]) = (read, others) {
        line[filled..filled + count].fill(*byte);
        return;
    }
    let unit = read + others.len();
    line[filled + read..filled + unit].copy_from_slice(others);
    repeat_unit(&mut line[filled..filled + count * unit], unit, count);
}

// Fills the bytes with their first unit. It is not inlined, since the reader's loop is faster without it.
#[inline(never)]
fn repeat_unit(bytes: &mut [u8], unit: usize, count: usize)
    requires some { 1 ≤ count }
    requires whole { length bytes.old ≡ count * unit }
    ensures { bytes.new ≡ copies count (take unit bytes.old) }
{
    let mut times = 1;
    'doublings: while times < count {
        let more = times.min(count - times);
        let (front, behind) = bytes.split_at_mut(times * unit);
        behind[..more * unit].copy_from_slice(&front[..more * unit]);
        times += more;
    }
}
