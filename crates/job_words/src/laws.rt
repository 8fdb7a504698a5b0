//! Laws of the meaning of command lines: the functions do nothing; their contracts are the laws.
ghost use Rattle.dead_nozzles.specs.Dead.{IsRising};
ghost use Rattle.job_words.specs.DeadLists.{dead_text, dead_value};
ghost use Rattle.job_words.specs.Jobs.{AreNozzles, IsOneWay, IsWithinBounds};
ghost use Rattle.job_words.specs.Meaning.{job_meaning};
ghost use Rattle.job_words.specs.Values.{greatest_most};
ghost use Rattle.job_words.specs.declared.reading.Job.{Job};
ghost use Rattle.job_words.specs.declared.table.Verb.TheVariants as verb;
ghost use Rattle.std.specs.List.{AllByRecursion};
ghost use Rattle.std.specs.Prelude.{List, Ok, Some, [], false, length, ℕ, ◌<◌, ◌≡◌, ◌≤◌};

/// No job reads more bytes than the greatest number that a word may give.
#[tactic(auto, using(crate::proofs::Jobs::most_of_job))]
pub fn a_job_has_a_greatest_length()
    ensures { (words : List (List ℕ)) (job : Job) → job_meaning words ≡ Ok job → job.most ≤ greatest_most }
{}

/// The numbers of a job are those that its words may give.
#[tactic(auto, using(crate::proofs::Jobs::within_bounds))]
pub fn a_job_is_within_bounds()
    ensures { (words : List (List ℕ)) (job : Job) → job_meaning words ≡ Ok job → IsWithinBounds job }
{}

/// The dead nozzles of a job are at most 255 numbers below 255, in rising order.
pub fn dead_nozzles_rise()
    ensures { (words : List (List ℕ)) (job : Job) → job_meaning words ≡ Ok job → AreNozzles job.dead.items }
{}

/// A job whose passes are shingled has no dead nozzle.
#[tactic(auto, using(crate::proofs::Heads::one_way))]
pub fn shingled_heads_have_no_dead_nozzle()
    ensures { (words : List (List ℕ)) (job : Job) → job_meaning words ≡ Ok job → IsOneWay job }
{}

/// The jobs of the commands that print nothing have neither shingled passes nor dead nozzles.
pub fn other_commands_have_whole_heads()
    ensures { (words : List (List ℕ)) (job : Job) → job_meaning words ≡ Ok job
        → (job.verb ≡ verb.Print → ⊥) → (job.verb ≡ verb.Trial → ⊥)
        → (job.shingle ≡ false) × (job.dead.items ≡ []) }
{}

/// A list of nozzles in rising order, written in decimal with commas between, is read back.
#[tactic(auto, using(crate::proofs::NozzleLists::written_is_read))]
pub fn a_written_list_is_read()
    ensures { (numbers : List ℕ) → 1 ≤ length numbers → IsRising numbers
        → AllByRecursion (λ number. number < 255) numbers → dead_value (dead_text numbers) ≡ Some numbers }
{}
