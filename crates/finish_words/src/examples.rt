//! Words of the finisher worked by hand: each function does nothing, and the checker computes its contract.
#![tactic(auto, unfolding(crate::specs::Meaning::finish_meaning, job_words::specs::Meaning::refused, job_words::specs::Meaning::word_fault))]

ghost use Rattle.finish_words.specs.Meaning.{finish_meaning, stop_named};
ghost use Rattle.job_words.specs.Meaning.{fault_at};
ghost use Rattle.job_words.specs.declared.usage.UsageCause.TheVariants.{BadValue, NotKeyValue, RepeatedKey, UnknownKey};
ghost use Rattle.std.specs.Prelude.{Err, None, Ok, Some, [], codes, false, true, ◌∷◌, ◌≡◌};

/// Requests, and the name of the text that stops the run.
pub fn requests()
    ensures bare { finish_meaning [] ≡ Ok (record { pages = false; progress = false; stop_word = 0 }) }
    ensures pages { finish_meaning (codes "pages=1" ∷ [])
        ≡ Ok (record { pages = true; progress = false; stop_word = 0 }) }
    ensures progress { finish_meaning (codes "pages=0" ∷ codes "progress=1" ∷ [])
        ≡ Ok (record { pages = false; progress = true; stop_word = 0 }) }
    ensures turned { finish_meaning (codes "stop=job-7" ∷ codes "progress=0" ∷ codes "pages=1" ∷ [])
        ≡ Ok (record { pages = true; progress = false; stop_word = 1 }) }
    ensures all { finish_meaning (codes "pages=1" ∷ codes "progress=1" ∷ codes "stop=a" ∷ [])
        ≡ Ok (record { pages = true; progress = true; stop_word = 3 }) }
    ensures named { stop_named (codes "pages=1" ∷ codes "stop=job-7" ∷ []) ≡ Some (codes "job-7") }
    ensures any_byte { stop_named (codes "stop=a=b,../c" ∷ []) ≡ Some (codes "a=b,../c") }
    ensures no_name { stop_named (codes "pages=1" ∷ []) ≡ None }
{}

/// Each cause, at the word that has it.
pub fn refused_words()
    ensures not_key_value { finish_meaning (codes "pages" ∷ []) ≡ Err (fault_at 1 NotKeyValue) }
    ensures no_command { finish_meaning (codes "list" ∷ codes "pages=1" ∷ []) ≡ Err (fault_at 1 NotKeyValue) }
    ensures an_empty_word { finish_meaning (codes "pages=1" ∷ codes "" ∷ []) ≡ Err (fault_at 2 NotKeyValue) }
    ensures unknown_key { finish_meaning (codes "pages=1" ∷ codes "profile=tiny" ∷ [])
        ≡ Err (fault_at 2 UnknownKey) }
    ensures no_shingles { finish_meaning (codes "dead=2" ∷ codes "shingle=1" ∷ []) ≡ Err (fault_at 1 UnknownKey) }
    ensures capital { finish_meaning (codes "Stop=a" ∷ []) ≡ Err (fault_at 1 UnknownKey) }
    ensures repeated { finish_meaning (codes "stop=a" ∷ codes "pages=1" ∷ codes "stop=b" ∷ [])
        ≡ Err (fault_at 3 RepeatedKey) }
    ensures repeated_first { finish_meaning (codes "pages=0" ∷ codes "pages=2" ∷ [])
        ≡ Err (fault_at 2 RepeatedKey) }
    ensures bad_pages { finish_meaning (codes "pages=2" ∷ []) ≡ Err (fault_at 1 BadValue) }
    ensures bad_progress { finish_meaning (codes "progress=yes" ∷ []) ≡ Err (fault_at 1 BadValue) }
    ensures leading_zero { finish_meaning (codes "pages=01" ∷ []) ≡ Err (fault_at 1 BadValue) }
    ensures an_empty_name { finish_meaning (codes "stop=" ∷ []) ≡ Err (fault_at 1 BadValue) }
    ensures first_counts { finish_meaning (codes "progress=1" ∷ codes "pages=" ∷ codes "x" ∷ [])
        ≡ Err (fault_at 2 BadValue) }
{}
