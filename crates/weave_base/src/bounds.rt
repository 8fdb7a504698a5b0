//! Which calls of a source or a sink in memory fail, and how many bytes the others move.
ghost use Rattle.std.specs.Prelude.{All, Contains, IsTrue, ◌↔◌, ◌≡◌, ◌≤◌};
ghost use Rattle.weave_base.specs.InMemory.{bytes_moved};

/// Whether a call is among the listed ones.
pub(crate) fn is_listed(call: u64, listed: &[u32]) -> bool
    ensures { IsTrue result ↔ Contains listed.now call }
{
    listed.iter().any(|k| u64::from(*k) == call)
}

/// How many bytes a call moves if it could move `most`. Entry `(k - 1) mod bounds.len()` bounds call `k`, counted from
/// 1.
pub(crate) fn bytes_moved(call: u64, bounds: &[u32], most: usize) -> usize
    requires call { 1 ≤ call }
    requires some { All (λ n. 1 ≤ n) bounds.now }
    ensures value { result ≡ bytes_moved bounds.now call most }
    ensures most { result ≤ most }
    ensures some { 1 ≤ most → 1 ≤ result }
{
    if bounds.is_empty() {
        return most;
    }
    let turn = (call - 1) % (bounds.len() as u64);
    most.min(bounds[turn as usize] as usize)
}
