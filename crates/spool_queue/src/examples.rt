//! A spool worked by hand: the function does nothing, and the checker computes its contract.
#![tactic(auto, unfolding(crate::specs::Jobs::count_sent, crate::specs::Jobs::jobs_of, crate::specs::Jobs::numbered, crate::specs::Jobs::sent_by))]

ghost use Rattle.spool_queue.specs.Jobs.{count_sent, job, jobs_of, numbered, sent_by};
ghost use Rattle.std.specs.Prelude.{[], ◌≡◌, ◌∷◌};

/// Sender 1 sent the streams 7 and 8, and sender 2 the stream 9. Job 2.1 was taken first.
pub fn three_jobs()
    ensures first { jobs_of 1 (job 2 1 (9 ∷ []) ∷ job 1 1 (7 ∷ []) ∷ job 1 2 (8 ∷ []) ∷ [])
        ≡ numbered 1 1 (sent_by (((7 ∷ []) ∷ (8 ∷ []) ∷ []) ∷ ((9 ∷ []) ∷ []) ∷ []) 1) }
    ensures second { jobs_of 2 (job 2 1 (9 ∷ []) ∷ job 1 1 (7 ∷ []) ∷ job 1 2 (8 ∷ []) ∷ [])
        ≡ numbered 2 1 (sent_by (((7 ∷ []) ∷ (8 ∷ []) ∷ []) ∷ ((9 ∷ []) ∷ []) ∷ []) 2) }
    ensures nobody { sent_by (((7 ∷ []) ∷ (8 ∷ []) ∷ []) ∷ ((9 ∷ []) ∷ []) ∷ []) 3 ≡ [] }
    ensures count { count_sent (((7 ∷ []) ∷ (8 ∷ []) ∷ []) ∷ ((9 ∷ []) ∷ []) ∷ []) ≡ 3 }
{}
