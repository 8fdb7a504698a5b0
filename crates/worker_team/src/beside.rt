//! Shares of work in threads of their own, and the errand of the caller beside them.
ghost use denote.Param.Send.{IsSend, IsSync};
ghost use Rattle.worker_team.specs.Shares.{AllReady, AllWorked};
ghost use Rattle.std.specs.Prelude.{length, ◌≡◌};

use std::thread::{Threads, join_mut};

/// A share of work, which one worker does.
pub trait Share {
    /// When the share may begin.
    ghost ready: { Self → Type 0 };

    /// What the share does, by its values before and after.
    ghost does: { Self → Self → Type 0 };

    /// Works.
    fn work(&mut self)
        requires { ready self.old }
        ensures { does self.old self.new };
}

/// Does each share and the errand once. The errand runs on the caller's own thread, so neither the errand nor its
/// captures have to cross threads. Neither the thread of a share nor the order of work is promised.
#[cycle(workers)]
pub fn run_beside<R: Threads + Sync, W: Share + Send, F: FnMut() -> A, A>(
    threads: &R,
    shares: &mut [W],
    errand: &mut F,
) -> A
    requires shares { AllReady W.ready shares.old }
    requires errand { F.pre errand.old }
    ensures shares { AllWorked W.does shares.old shares.new }
    ensures errand { F.step errand.old result errand.new }
{
    let Some((first, rest)) = shares.split_first_mut() else {
        return errand();
    };
    if rest.is_empty() {
        let done = errand();
        first.work();
        done
    } else {
        run_first(threads, first, rest, errand)
    }
}

// Does the first share in a thread of its own, if one can be started, and the rest as `run_beside` does.
#[cycle(workers)]
fn run_first<R: Threads + Sync, W: Share + Send, F: FnMut() -> A, A>(
    threads: &R,
    first: &mut W,
    rest: &mut [W],
    errand: &mut F,
) -> A
    requires first { W.ready first.old }
    requires rest { AllReady W.ready rest.old }
    requires errand { F.pre errand.old }
    ensures first { W.does first.old first.new }
    ensures rest { AllWorked W.does rest.old rest.new }
    ensures errand { F.step errand.old result errand.new }
{
    let mut one = ||
        requires { W.ready first.now }
        ensures { W.does first.entry.now first.exit.now }
    { first.work() };
    let mut others = || -> A
        requires { IsSync R.row × IsSend W.row × AllReady W.ready rest.now × F.pre errand.now }
        ensures { AllWorked W.does rest.entry.now rest.exit.now × F.step errand.entry.now result errand.exit.now }
    { run_beside(threads, rest, errand) };
    let (_, done) = join_mut(threads, &mut one, &mut others);
    done
}
