//! The rule of the spool, and what follows if jobs are those that were sent (`AreSent`). The functions do nothing;
//! their contracts are the laws.
ghost use Rattle.crossbeam_queue.specs.Fifo.{Forks, Merges, Pops, Pushes};
ghost use Rattle.spool_queue.specs.Jobs.{AreSent, Stream, job};
ghost use Rattle.spool_queue.specs.Rule.{FollowsRule, IsAsSent, IsNext, printer_view, sender_view, spent_view};
ghost use Rattle.spool_queue.specs.declared.job.SpoolJob.{SpoolJob};
ghost use Rattle.spool_queue.specs.declared.rule.QueueView.{QueueView};
ghost use Rattle.std.specs.Prelude.{Contains, List, [], length, slice_index_or, suc, true, ℕ};
ghost use Rattle.std.specs.Prelude.{◌++◌, ◌-◌, ◌<◌, ◌≡◌, ◌≤◌, ◌∷◌};
ghost use lib.ListN.{get_elem?};
ghost use mathlib.Core.Option.{some};

/// The rule holds for a new queue, and each step of any pass keeps the rule: a sender gets its pass, a sender pushes
/// its next job, the printer takes a job, and the printer is given the pass of a sender that ends. So the rule holds
/// between any two steps, in every order of the threads.
pub fn each_step_keeps_the_rule()
    ensures first { FollowsRule [] (printer_view 0 [] [] ∷ []) }
    ensures enrols { (pass : ℕ) (v : QueueView) → v.prints ≡ true
        → Forks FollowsRule pass v (printer_view (suc v.senders) v.taken v.ended) (sender_view (suc v.senders) []) }
    ensures sends { (n pass : ℕ) (v : QueueView) (x : SpoolJob) → v.sends ≡ true → x.sender ≡ v.sender
        → x.number ≡ suc (length v.sent)
        → Pushes FollowsRule n pass v x (λ w. w ≡ sender_view v.sender (v.sent ++ x.stream ∷ [])) }
    ensures takes { (pass : ℕ) (v : QueueView) → v.prints ≡ true
        → Pops FollowsRule pass v
        (λ x w. (w ≡ printer_view v.senders (v.taken ++ x ∷ []) v.ended) × IsNext v x) }
    ensures ends { (pass : ℕ) (v : QueueView) (other : ℕ) (u : QueueView) → v.prints ≡ true
        → u ≡ sender_view (suc (length v.ended)) u.sent
        → Merges FollowsRule pass v other u (printer_view v.senders v.taken (v.ended ++ u.sent ∷ [])) spent_view }
{}

/// If the rule holds, the jobs that the printer has taken, and then the jobs in the queue, are what the senders sent.
pub fn jobs_are_as_sent_between_steps()
    ensures { (items : List SpoolJob) (views : List QueueView) (pass : ℕ) (printer : QueueView)
        → FollowsRule items views → get_elem? views pass ≡ some printer → printer.prints ≡ true
        → IsAsSent items views printer }
{}

/// Each job is the one that its sender sent under the job's number.
pub fn each_job_was_sent()
    ensures { (sent : ℕ → List Stream) (before after : List SpoolJob) (x : SpoolJob)
        → AreSent sent (before ++ x ∷ after)
        → (1 ≤ x.number) × (x.number ≤ length (sent x.sender))
        × (x.stream ≡ slice_index_or (sent x.sender) (x.number - 1) []) }
{}

/// Every stream that was sent is there, as a job of its sender and with its number: none is lost.
pub fn each_stream_is_there()
    ensures { (sent : ℕ → List Stream) (jobs : List SpoolJob) (s k : ℕ) → AreSent sent jobs → k < length (sent s)
        → Contains jobs (job s (suc k) (slice_index_or (sent s) k [])) }
{}

/// Of two jobs of a sender the later one has the greater number. So no job is there twice, and none before an earlier
/// one.
pub fn jobs_of_a_sender_are_in_order()
    ensures { (sent : ℕ → List Stream) (before between after : List SpoolJob) (x y : SpoolJob)
        → AreSent sent (before ++ x ∷ (between ++ y ∷ after)) → x.sender ≡ y.sender → x.number < y.number }
{}
