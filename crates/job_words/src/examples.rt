//! Command lines worked by hand: each function does nothing, and the checker computes its contract.
#![tactic(auto, unfolding(crate::specs::DeadLists::dead_value, crate::specs::Meaning::job_meaning, crate::specs::Meaning::refused, crate::specs::Meaning::word_fault, key_values::specs::Numbers::number_within))]

ghost use Rattle.job_words.specs.declared.usage.UsageCause.TheVariants.{BadValue, NoCommand, NotKeyValue};
ghost use Rattle.job_words.specs.declared.usage.UsageCause.TheVariants.{RepeatedKey, Together, UnknownCommand, UnknownKey};
ghost use Rattle.diffusion_kernel.specs.declared.tables.Kernel.TheVariants.{Jarvis, Stucki};
ghost use Rattle.job_words.specs.DeadLists.{dead_value};
ghost use Rattle.job_words.specs.Examples.{plain_job};
ghost use Rattle.job_words.specs.Meaning.{fault_at, job_meaning, profile_named};
ghost use Rattle.key_values.specs.Numbers.{number_within};
ghost use Rattle.job_words.specs.declared.table.Verb.TheVariants as verb;
ghost use Rattle.pwg_definitions.specs.declared.pages.Kind.TheVariants.{Cmyk8};
ghost use Rattle.std.specs.Prelude.{Err, None, Ok, Some, [], codes, true, ◌∷◌, ◌≡◌};

/// Jobs, and the profile's name.
pub fn jobs()
    ensures bare { job_meaning (codes "print" ∷ []) ≡ Ok (plain_job verb.Print) }
    ensures whole { job_meaning (codes "print" ∷ codes "profile=a=b" ∷ codes "kernel=stucki" ∷ codes "workers=64" ∷ [])
        ≡ Ok (record (plain_job verb.Print) { profile_word = 2; kernel = Stucki; workers = 64 }) }
    ensures turned { job_meaning (codes "print" ∷ codes "workers=10" ∷ codes "kernel=jjn" ∷ codes "profile=c" ∷ [])
        ≡ Ok (record (plain_job verb.Print) { profile_word = 4; kernel = Jarvis; workers = 10 }) }
    ensures profile { job_meaning (codes "profile" ∷ codes "profile=c" ∷ [])
        ≡ Ok (record (plain_job verb.Profile) { profile_word = 2 }) }
    ensures grained { job_meaning (codes "print" ∷ codes "grain=32" ∷ [])
        ≡ Ok (record (plain_job verb.Print) { grain = 32 }) }
    ensures capped { job_meaning (codes "print" ∷ codes "cap=0" ∷ [])
        ≡ Ok (record (plain_job verb.Print) { cap = Some 0 }) }
    ensures listed { job_meaning (codes "list" ∷ codes "most=10" ∷ [])
        ≡ Ok (record (plain_job verb.List) { most = 10 }) }
    ensures shown { job_meaning (codes "dots" ∷ codes "profile=tiny" ∷ [])
        ≡ Ok (record (plain_job verb.Dots) { profile_word = 2 }) }
    ensures shingled { job_meaning (codes "print" ∷ codes "shingle=1" ∷ [])
        ≡ Ok (record (plain_job verb.Print) { shingle = true }) }
    ensures healed { job_meaning (codes "print" ∷ codes "shingle=0" ∷ codes "dead=0,2" ∷ [])
        ≡ Ok (record (plain_job verb.Print) { dead = record { items = 0 ∷ 2 ∷ [] } }) }
    ensures tried { job_meaning (codes "trial" ∷ [])
        ≡ Ok (plain_job verb.Trial) }
    ensures made { job_meaning (codes "trial" ∷ codes "seed=0" ∷ codes "pages=16" ∷ codes "kind=cmyk" ∷ codes "height=1" ∷ [])
        ≡ Ok (record (plain_job verb.Trial) { seed = 0; pages = 16; kind = Cmyk8; height = 1 }) }
    ensures made_with_grain { job_meaning (codes "trial" ∷ codes "grain=1" ∷ codes "seed=0" ∷ [])
        ≡ Ok (record (plain_job verb.Trial) { grain = 1; seed = 0 }) }
    ensures built_in { profile_named (codes "print" ∷ []) ≡ codes "p360cmyk" }
    ensures named { profile_named (codes "print" ∷ codes "kernel=fs" ∷ codes "profile=a=b" ∷ []) ≡ codes "a=b" }
{}

/// Each cause, at the word that has it.
pub fn refused_lines()
    ensures no_command { job_meaning [] ≡ Err (fault_at 1 NoCommand) }
    ensures unknown_command { job_meaning (codes "plot" ∷ []) ≡ Err (fault_at 1 UnknownCommand) }
    ensures not_key_value { job_meaning (codes "print" ∷ codes "x" ∷ []) ≡ Err (fault_at 2 NotKeyValue) }
    ensures unknown_key { job_meaning (codes "print" ∷ codes "most=1" ∷ []) ≡ Err (fault_at 2 UnknownKey) }
    ensures no_profile_of_a_list { job_meaning (codes "list" ∷ codes "profile=tiny" ∷ [])
        ≡ Err (fault_at 2 UnknownKey) }
    ensures past_the_most_grain { job_meaning (codes "print" ∷ codes "grain=33" ∷ []) ≡ Err (fault_at 2 BadValue) }
    ensures no_grain_of_a_list { job_meaning (codes "list" ∷ codes "grain=0" ∷ []) ≡ Err (fault_at 2 UnknownKey) }
    ensures past_64_bits { job_meaning (codes "print" ∷ codes "kernel=fs" ∷ codes "cap=18446744073709551616" ∷ [])
        ≡ Err (fault_at 3 BadValue) }
    ensures key_of_another { job_meaning (codes "profile" ∷ codes "kernel=fs" ∷ []) ≡ Err (fault_at 2 UnknownKey) }
    ensures repeated { job_meaning (codes "print" ∷ codes "kernel=fs" ∷ codes "kernel=fs" ∷ [])
        ≡ Err (fault_at 3 RepeatedKey) }
    ensures bad_value { job_meaning (codes "print" ∷ codes "workers=0" ∷ []) ≡ Err (fault_at 2 BadValue) }
    ensures repeated_first { job_meaning (codes "print" ∷ codes "workers=1" ∷ codes "workers=0" ∷ [])
        ≡ Err (fault_at 3 RepeatedKey) }
    ensures falling { job_meaning (codes "print" ∷ codes "profile=tiny" ∷ codes "dead=2,1" ∷ [])
        ≡ Err (fault_at 3 BadValue) }
    ensures together { job_meaning (codes "print" ∷ codes "profile=tiny" ∷ codes "shingle=1" ∷ codes "dead=2" ∷ [])
        ≡ Err (fault_at 4 Together) }
    ensures together_turned { job_meaning (codes "trial" ∷ codes "dead=2" ∷ codes "seed=2" ∷ codes "shingle=1" ∷ [])
        ≡ Err (fault_at 4 Together) }
    ensures bad_before_together { job_meaning (codes "print" ∷ codes "shingle=1" ∷ codes "dead=2,1" ∷ [])
        ≡ Err (fault_at 3 BadValue) }
    ensures no_seed_of_a_print { job_meaning (codes "print" ∷ codes "seed=1" ∷ []) ≡ Err (fault_at 2 UnknownKey) }
    ensures first_counts { job_meaning (codes "print" ∷ codes "workers=0" ∷ codes "x" ∷ [])
        ≡ Err (fault_at 2 BadValue) }
{}

/// Which texts are numbers.
pub fn numbers()
    ensures zero { number_within 0 64 (codes "0") ≡ Some 0 }
    ensures high { number_within 1 64 (codes "64") ≡ Some 64 }
    ensures past { number_within 1 64 (codes "65") ≡ None }
    ensures below { number_within 1 64 (codes "0") ≡ None }
    ensures leading_zero { number_within 1 64 (codes "01") ≡ None }
    ensures sign { number_within 1 64 (codes "+1") ≡ None }
    ensures blank { number_within 1 64 (codes " 1") ≡ None }
    ensures letter { number_within 1 64 (codes "1x") ≡ None }
    ensures long { number_within 1 64 (codes "1000000000000000000000000000000000000001") ≡ None }
    ensures nothing { number_within 0 64 [] ≡ None }
{}

/// Which texts list dead nozzles.
pub fn dead_lists()
    ensures one { dead_value (codes "0") ≡ Some (0 ∷ []) }
    ensures last { dead_value (codes "254") ≡ Some (254 ∷ []) }
    ensures three { dead_value (codes "0,7,254") ≡ Some (0 ∷ 7 ∷ 254 ∷ []) }
    ensures past { dead_value (codes "255") ≡ None }
    ensures nothing { dead_value [] ≡ None }
    ensures comma_at_the_end { dead_value (codes "0,") ≡ None }
    ensures leading_zero { dead_value (codes "00") ≡ None }
    ensures twice { dead_value (codes "2,2") ≡ None }
    ensures falling { dead_value (codes "2,1") ≡ None }
    ensures blank { dead_value (codes "1, 2") ≡ None }
{}
