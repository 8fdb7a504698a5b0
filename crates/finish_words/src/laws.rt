//! Laws of the words of the finisher: the functions do nothing; their contracts are the laws.
ghost use Rattle.finish_words.specs.Faults.{IsFaultOf};
ghost use Rattle.finish_words.specs.Meaning.{finish_meaning};
ghost use Rattle.finish_words.specs.Requests.{KeepsName};
ghost use Rattle.finish_words.specs.declared.reading.FinishRequest.{FinishRequest};
ghost use Rattle.job_words.specs.declared.usage.UsageFault.{UsageFault};
ghost use Rattle.std.specs.Prelude.{Err, List, Ok, ℕ, ◌≡◌};

/// The name of a request has 1 to 255 bytes, and is the value of the word whose number the request has. A request
/// without a name has the number 0.
pub fn a_request_keeps_its_name()
    ensures { (words : List (List ℕ)) (request : FinishRequest)
        → finish_meaning words ≡ Ok request → KeepsName words request }
{}

/// A fault is at one of the words, and its cause is `NotKeyValue`, `UnknownKey`, `RepeatedKey` or `BadValue`.
pub fn a_fault_is_at_a_word()
    ensures { (words : List (List ℕ)) (fault : UsageFault)
        → finish_meaning words ≡ Err fault → IsFaultOf words fault }
{}
