//! What a pass knows, the rule of the queue, and its kinds of step.
use crate::job::SpoolJob;
use crossbeam_queue::protocol::{Join, Lesson, Outcome, Protocol, Split};
use std::collections::LinkedList;

/// What a pass knows. Only proofs see such a value; none is made.
pub struct QueueView {
    /// Whether the pass is the one pass of a sender.
    pub sends: bool,
    /// The sender of the pass, and the streams that it has sent.
    pub sender: u64,
    pub sent: LinkedList<LinkedList<u8>>,
    /// Whether the pass is the one pass that takes.
    pub prints: bool,
    /// The jobs that the pass has taken.
    pub taken: LinkedList<SpoolJob>,
    /// How many senders there are: 1, 2 and so on.
    pub senders: u64,
    /// All that the first of these senders sent, whose passes are spent.
    pub ended: LinkedList<LinkedList<LinkedList<u8>>>,
}

/// The rule of the spool.
pub struct SpoolRule;

impl Protocol<SpoolJob, QueueView> for SpoolRule {
    ghost use Rattle.std.specs.Prelude.{[]};
    ghost use Rattle.spool_queue.specs.Rule.{FollowsRule, printer_view};

    ghost holds = { FollowsRule };

    ghost first = { printer_view 0 [] [] };
}

/// One more sender gets its pass.
pub struct Enrols;

impl Split<QueueView> for Enrols {
    ghost use Rattle.std.specs.Prelude.{[], suc};
    ghost use Rattle.spool_queue.specs.Rule.{printer_view, sender_view};

    ghost left = { λ v. printer_view (suc v.senders) v.taken v.ended };

    ghost right = { λ v. sender_view (suc v.senders) [] };
}

/// The next sender ends: the printer gets its pass.
pub struct Ends;

impl Join<QueueView> for Ends {
    ghost use Rattle.std.specs.Prelude.{[], ◌++◌, ◌∷◌};
    ghost use Rattle.spool_queue.specs.Rule.{printer_view, spent_view};

    ghost both = { λ v w. printer_view v.senders v.taken (v.ended ++ w.sent ∷ []) };

    ghost spent = { spent_view };
}

/// A sender pushes its next job.
pub struct SendsJob;

impl Outcome<SpoolJob, QueueView> for SendsJob {
    ghost use Rattle.std.specs.Prelude.{[], ◌++◌, ◌≡◌, ◌∷◌};
    ghost use Rattle.spool_queue.specs.Rule.{sender_view};

    ghost then = { λ v x w. w ≡ sender_view v.sender (v.sent ++ x.stream ∷ []) };
}

impl Lesson<SpoolJob, QueueView> for SendsJob {
    ghost fact = { λ v items. Unit {0} };
}

/// The printer takes a job.
pub struct PopsJob;

impl Outcome<SpoolJob, QueueView> for PopsJob {
    ghost use Rattle.std.specs.Prelude.{[], ◌++◌, ◌≡◌, ◌∷◌};
    ghost use Rattle.spool_queue.specs.Rule.{IsNext, printer_view};

    ghost then = { λ v x w. (w ≡ printer_view v.senders (v.taken ++ x ∷ []) v.ended) × IsNext v x };
}

impl Lesson<SpoolJob, QueueView> for PopsJob {
    ghost fact = { λ v items. Unit {0} };
}

/// The printer takes a job after all senders have ended.
pub struct Drains;

impl Outcome<SpoolJob, QueueView> for Drains {
    ghost use Rattle.std.specs.Prelude.{[], length, ◌++◌, ◌≡◌, ◌≤◌, ◌∷◌};
    ghost use Rattle.spool_queue.specs.Jobs.{count_sent};
    ghost use Rattle.spool_queue.specs.Rule.{printer_view};

    ghost then = { λ v x w. (w ≡ printer_view v.senders (v.taken ++ x ∷ []) v.ended)
        × (length (v.taken ++ x ∷ []) ≤ count_sent v.ended) };
}

impl Lesson<SpoolJob, QueueView> for Drains {
    ghost use Rattle.spool_queue.specs.Rule.{IsSettled};

    ghost fact = { IsSettled };
}
