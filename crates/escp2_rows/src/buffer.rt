//! Appending bytes to a vector that has room for them.
ghost use Rattle.std.specs.Prelude.{length, replicate, vec_capacity, vec_len, ◌++◌, ◌+◌, ◌≡◌, ◌≤◌};

/// Appends the byte `count` times.
pub fn push_run(out: &mut Vec<u8>, count: usize, byte: u8)
    requires { vec_len out.old + count ≤ vec_capacity out.old }
    ensures items { out.new.items ≡ out.old.items ++ replicate count byte }
    ensures len { vec_len out.new ≡ vec_len out.old + count }
    ensures capacity { vec_capacity out.old ≤ vec_capacity out.new }
{
    out.resize(out.len() + count, byte).unwrap();
}

/// Appends the bytes.
pub fn push_bytes(out: &mut Vec<u8>, bytes: &[u8])
    requires { vec_len out.old + length bytes.now ≤ vec_capacity out.old }
    ensures items { out.new.items ≡ out.old.items ++ bytes.now }
    ensures len { vec_len out.new ≡ vec_len out.old + length bytes.now }
    ensures capacity { vec_capacity out.old ≤ vec_capacity out.new }
{
    out.extend_from_slice(bytes).unwrap();
}
