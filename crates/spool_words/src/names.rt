//! The names of the files that senders send.
ghost use Rattle.job_words.specs.Meaning.{gives as gives_of};
ghost use Rattle.key_values.specs.Pairs.{value_of as value_in};
ghost use Rattle.spool_words.specs.Keys.{send_key};
ghost use Rattle.spool_words.specs.Meaning.{names_from, sender_count, spool_meaning};
ghost use Rattle.std.specs.Option.{option_map};
ghost use Rattle.std.specs.Prelude.{Ok, Some, filter, length, slice_get, ◌-◌, ◌≡◌, ◌≤◌};

use crate::given::gives;
use crate::keys::KeyName;
use crate::reading::SpoolRequest;
use crate::values::count_names;
use key_values::value_of;
use weave_base::Words;

// The value of the word of this sender, counted from 1.
fn sent_by(words: &Words, sender: u8) -> &str
    requires some { 1 ≤ sender }
    requires within { sender ≤ sender_count words.now }
    ensures { option_map value_in (slice_get (filter (gives_of send_key) words.now) (sender - 1)) ≡ Some result.now }
{
    let mut senders = 0;
    for i in 0..words.len() {
        let word = words.get(i);
        if gives(KeyName::Send, word) {
            senders += 1;
            if senders == sender {
                return value_of(word);
            }
        }
    }
    unreachable!()
}

/// How many names a sender has, 1 to 64. Senders are counted from 1, in the order of their words. The request must be
/// the one that was read from these words.
pub fn name_count(words: &Words, request: &SpoolRequest, sender: u8) -> u32
    requires read { spool_meaning words.now ≡ Ok request.now }
    requires some { 1 ≤ sender }
    requires within { sender ≤ request.now.senders }
    ensures count { result ≡ length (names_from words.now sender) }
    ensures least { 1 ≤ result }
    ensures most { result ≤ 64 }
{
    prove!(sender <= request.senders);
    count_names(sent_by(words, sender)) as u32
}

/// The name of this number among a sender's names, of 1 to 255 bytes: any but a comma. Senders and their names are
/// counted from 1, in the order of the words. The request must be the one that was read from these words.
pub fn name<'a>(words: &'a Words, request: &SpoolRequest, sender: u8, number: u32) -> &'a str
    requires read { spool_meaning words.now ≡ Ok request.now }
    requires some_sender { 1 ≤ sender }
    requires sender { sender ≤ request.now.senders }
    requires some_number { 1 ≤ number }
    requires number { number ≤ length (names_from words.now sender) }
    ensures { slice_get (names_from words.now sender) (number - 1) ≡ Some result.now }
{
    prove!(sender <= request.senders);
    sent_by(words, sender)
        .split(',')
        .nth(number as usize - 1)
        .unwrap()
}
