//! Words of the spool worked by hand: each function does nothing, and the checker computes its contract.
#![tactic(auto, unfolding(crate::specs::Meaning::spool_meaning, job_words::specs::Meaning::refused, crate::specs::Meaning::word_fault, key_values::specs::Numbers::number_within))]

ghost use Rattle.diffusion_kernel.specs.declared.tables.Kernel.TheVariants.{Floyd, Jarvis};
ghost use Rattle.spool_words.specs.Meaning.{fault_at, names_of, profile_named, spool_meaning};
ghost use Rattle.spool_words.specs.declared.faults.SpoolCause.TheVariants.{BadValue, NoSend, NotKeyValue};
ghost use Rattle.spool_words.specs.declared.faults.SpoolCause.TheVariants.{RepeatedKey, UnknownKey};
ghost use Rattle.std.specs.Prelude.{Err, Ok, [], codes, ◌∷◌, ◌≡◌};

/// Requests, the profile's name, and the names of each sender.
pub fn requests()
    ensures bare { spool_meaning (codes "send=a" ∷ [])
        ≡ Ok (record { profile_word = 0; kernel = Floyd; grain = 0; workers = 1; senders = 1 }) }
    ensures desk { spool_meaning (codes "profile=tiny" ∷ codes "send=a,b" ∷ codes "send=c" ∷ [])
        ≡ Ok (record { profile_word = 1; kernel = Floyd; grain = 0; workers = 1; senders = 2 }) }
    ensures turned { spool_meaning (codes "send=a" ∷ codes "workers=64" ∷ codes "kernel=jjn" ∷ codes "profile=c" ∷ [])
        ≡ Ok (record { profile_word = 4; kernel = Jarvis; grain = 0; workers = 64; senders = 1 }) }
    ensures grained { spool_meaning (codes "grain=32" ∷ codes "send=a" ∷ [])
        ≡ Ok (record { profile_word = 0; kernel = Floyd; grain = 32; workers = 1; senders = 1 }) }
    ensures twice { spool_meaning (codes "send=a" ∷ codes "send=a" ∷ [])
        ≡ Ok (record { profile_word = 0; kernel = Floyd; grain = 0; workers = 1; senders = 2 }) }
    ensures names { names_of (codes "send=a,b" ∷ codes "profile=tiny" ∷ codes "send=c,c" ∷ [])
        ≡ (codes "a" ∷ codes "b" ∷ []) ∷ (codes "c" ∷ codes "c" ∷ []) ∷ [] }
    ensures any_byte { names_of (codes "send=a=b,../c" ∷ []) ≡ (codes "a=b" ∷ codes "../c" ∷ []) ∷ [] }
    ensures built_in { profile_named (codes "send=a" ∷ []) ≡ codes "p360cmyk" }
    ensures named { profile_named (codes "send=a" ∷ codes "profile=a=b" ∷ []) ≡ codes "a=b" }
{}

/// Each cause, at the word that has it.
pub fn refused_words()
    ensures no_word { spool_meaning [] ≡ Err (fault_at 1 NoSend) }
    ensures no_sender { spool_meaning (codes "profile=tiny" ∷ []) ≡ Err (fault_at 2 NoSend) }
    ensures not_key_value { spool_meaning (codes "send" ∷ []) ≡ Err (fault_at 1 NotKeyValue) }
    ensures no_command { spool_meaning (codes "print" ∷ codes "send=a" ∷ []) ≡ Err (fault_at 1 NotKeyValue) }
    ensures unknown_key { spool_meaning (codes "send=a" ∷ codes "cap=1" ∷ []) ≡ Err (fault_at 2 UnknownKey) }
    ensures repeated { spool_meaning (codes "send=a" ∷ codes "kernel=fs" ∷ codes "kernel=fs" ∷ [])
        ≡ Err (fault_at 3 RepeatedKey) }
    ensures repeated_first { spool_meaning (codes "workers=1" ∷ codes "workers=0" ∷ codes "send=a" ∷ [])
        ≡ Err (fault_at 2 RepeatedKey) }
    ensures bad_value { spool_meaning (codes "workers=0" ∷ codes "send=a" ∷ []) ≡ Err (fault_at 1 BadValue) }
    ensures past_the_most_grain { spool_meaning (codes "send=a" ∷ codes "grain=33" ∷ [])
        ≡ Err (fault_at 2 BadValue) }
    ensures no_names { spool_meaning (codes "send=" ∷ []) ≡ Err (fault_at 1 BadValue) }
    ensures an_empty_name { spool_meaning (codes "send=a,,b" ∷ []) ≡ Err (fault_at 1 BadValue) }
    ensures comma_at_the_end { spool_meaning (codes "send=a" ∷ codes "send=b," ∷ []) ≡ Err (fault_at 2 BadValue) }
    ensures refused_before_no_sender { spool_meaning (codes "profile=tiny" ∷ codes "workers=65" ∷ [])
        ≡ Err (fault_at 2 BadValue) }
    ensures a_ninth_sender { spool_meaning (codes "send=a" ∷ codes "send=b" ∷ codes "send=c" ∷ codes "send=d"
        ∷ codes "send=e" ∷ codes "send=f" ∷ codes "send=g" ∷ codes "send=h" ∷ codes "send=i" ∷ [])
        ≡ Err (fault_at 9 BadValue) }
{}
