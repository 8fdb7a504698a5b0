//! A law of the words of the spool: the function does nothing; its contract is the law.
ghost use Rattle.spool_words.specs.Meaning.{profile_named, spool_meaning};
ghost use Rattle.spool_words.specs.Requests.{IsName, IsWithinBounds};
ghost use Rattle.spool_words.specs.declared.reading.SpoolRequest.{SpoolRequest};
ghost use Rattle.std.specs.Prelude.{List, Ok, ℕ, ◌≡◌};

/// A request has a grain of 32 at most, 1 to 64 workers and 1 to 8 senders, and its words list as many senders, each of
/// 1 to 64 names of 1 to 255 bytes. The name of its profile has 1 to 255 bytes.
pub fn a_request_is_within_bounds()
    ensures request { (words : List (List ℕ)) (request : SpoolRequest)
        → spool_meaning words ≡ Ok request → IsWithinBounds words request }
    ensures profile { (words : List (List ℕ)) (request : SpoolRequest)
        → spool_meaning words ≡ Ok request → IsName (profile_named words) }
{}
