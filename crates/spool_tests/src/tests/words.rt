//! Words of the spool, good and bad.
ghost use Rattle.spool_words.specs.Meaning.{spool_meaning};
ghost use Rattle.std.specs.Prelude.{Ok, ◌≡◌};

use super::same;
use spool_words::{
    Kernel, SpoolCause, SpoolFault, SpoolRequest, Words, name, name_count, profile_name,
    read_spool_words,
};
use std::alloc::Global;
use std::process::Abort;
use std::test::*;

// The words of a line, of which there are at most twelve.
pub(super) fn words_of(alloc: Global, line: &[&str]) -> Result<Words, Fail> {
    let mut words = Words::make(alloc);
    for word in line {
        if words.len() < 12 {
            words.push(word)?;
        }
    }
    Ok(words)
}

// A line, and the number and the cause of its first refused word.
type Refused = (&'static [&'static str], u32, SpoolCause);

// The names of each sender, a blank after each name and a semicolon after each sender.
fn names_of(alloc: Global, words: &Words, request: &SpoolRequest) -> Result<String, Fail>
    requires { spool_meaning words.now ≡ Ok request.now }
{
    let mut text = String::new(alloc);
    for sender in 1..=request.senders {
        for number in 1..=name_count(words, request, sender) {
            text.push_str(name(words, request, sender, number))?;
            text.push(' ')?;
        }
        text.push(';')?;
    }
    Ok(text)
}

// Stops the test where words do not ask for this profile, or their senders have not these names.
fn same_names(
    rt: &impl Abort,
    alloc: Global,
    words: &Words,
    profile: &str,
    names: &str,
) -> Result<SpoolRequest, Fail> {
    let request = read_spool_words(words)?;
    assert!(rt;
        profile_name(words, &request) == profile,
        "the profile {profile}"
    );
    let read = names_of(alloc, words, &request)?;
    assert!(rt; read.as_str() == names, "{names}");
    Ok(request)
}

const REQUESTS: [(&[&str], SpoolRequest, &str, &str); 4] = [
    (
        &["send=a"],
        SpoolRequest {
            profile_word: 0,
            kernel: Kernel::Floyd,
            grain: 0,
            workers: 1,
            senders: 1,
        },
        "p360cmyk",
        "a ;",
    ),
    (
        &["profile=tiny", "send=a,b", "send=c"],
        SpoolRequest {
            profile_word: 1,
            kernel: Kernel::Floyd,
            grain: 0,
            workers: 1,
            senders: 2,
        },
        "tiny",
        "a b ;c ;",
    ),
    (
        &[
            "send=x=y,x=y",
            "kernel=stucki",
            "send=x=y",
            "workers=64",
            "profile=a=b",
        ],
        SpoolRequest {
            profile_word: 5,
            kernel: Kernel::Stucki,
            grain: 0,
            workers: 64,
            senders: 2,
        },
        "a=b",
        "x=y x=y ;x=y ;",
    ),
    (
        &["workers=7", "grain=32", "send=../c,.,\u{e9}", "kernel=jjn"],
        SpoolRequest {
            profile_word: 0,
            kernel: Kernel::Jarvis,
            grain: 32,
            workers: 7,
            senders: 1,
        },
        "p360cmyk",
        "../c . \u{e9} ;",
    ),
];

#[test]
fn requests_are_read_with_their_names(rt: HostRuntime) -> Result<(), Fail> {
    for &(line, wanted, profile, names) in &REQUESTS {
        let words = words_of(rt.alloc(), line)?;
        let request = same_names(&rt, rt.alloc(), &words, profile, names)?;
        same(&rt, names, &request, &wanted);
    }
    Ok(())
}

const LINES: [Refused; 44] = [
    // bad words
    (&["send=a", ""], 2, SpoolCause::NotKeyValue),
    (&["print", "send=a"], 1, SpoolCause::NotKeyValue),
    (&["send=a", "cap=1"], 2, SpoolCause::UnknownKey),
    (&["send=a", "shingle=1"], 2, SpoolCause::UnknownKey),
    (&["dead=0", "send=a"], 1, SpoolCause::UnknownKey),
    (&["send=a", "most=1"], 2, SpoolCause::UnknownKey),
    (&["send=a", "=a"], 2, SpoolCause::UnknownKey),
    (&["send=a", "Send=a"], 2, SpoolCause::UnknownKey),
    (&["send=a", "send =a"], 2, SpoolCause::UnknownKey),
    (&["send="], 1, SpoolCause::BadValue),
    (&["send=,a"], 1, SpoolCause::BadValue),
    (&["send=a,"], 1, SpoolCause::BadValue),
    (&["send=a", "send=b,,c"], 2, SpoolCause::BadValue),
    (&["send=,"], 1, SpoolCause::BadValue),
    (&["workers=0", "x", "send=a"], 1, SpoolCause::BadValue),
    (&["x", "workers=0"], 1, SpoolCause::NotKeyValue),
    // each cause at each key
    (&["send=a", "profile"], 2, SpoolCause::NotKeyValue),
    (&["send=a", "profiles=c"], 2, SpoolCause::UnknownKey),
    (
        &["profile=c", "send=a", "profile="],
        3,
        SpoolCause::RepeatedKey,
    ),
    (&["send=a", "profile="], 2, SpoolCause::BadValue),
    (&["send=a", "kernel"], 2, SpoolCause::NotKeyValue),
    (&["send=a", "kernels=fs"], 2, SpoolCause::UnknownKey),
    (
        &["kernel=fs", "kernel=fs", "send=a"],
        2,
        SpoolCause::RepeatedKey,
    ),
    (&["kernel=floyd", "send=a"], 1, SpoolCause::BadValue),
    (&["send=a", "grain"], 2, SpoolCause::NotKeyValue),
    (&["send=a", "grains=1"], 2, SpoolCause::UnknownKey),
    (
        &["grain=0", "grain=16", "send=a"],
        2,
        SpoolCause::RepeatedKey,
    ),
    (&["grain=33", "send=a"], 1, SpoolCause::BadValue),
    (&["send=a", "grain=x"], 2, SpoolCause::BadValue),
    (&["send=a", "workers"], 2, SpoolCause::NotKeyValue),
    (&["send=a", "worker=1"], 2, SpoolCause::UnknownKey),
    (
        &["workers=1", "send=a", "send=b", "workers=0"],
        4,
        SpoolCause::RepeatedKey,
    ),
    (&["send=a", "workers=65"], 2, SpoolCause::BadValue),
    (&["send=a", "workers=01"], 2, SpoolCause::BadValue),
    (&["send"], 1, SpoolCause::NotKeyValue),
    (&["sends=a"], 1, SpoolCause::UnknownKey),
    (&["send=a", "send="], 2, SpoolCause::BadValue),
    // no sender is told after the last word
    (&[], 1, SpoolCause::NoSend),
    (&["profile=tiny"], 2, SpoolCause::NoSend),
    (
        &["kernel=fs", "workers=2", "profile=x"],
        4,
        SpoolCause::NoSend,
    ),
    (&["kernel=fs", "workers=65"], 2, SpoolCause::BadValue),
    // a ninth sender is refused whatever its value
    (
        &[
            "send=a", "send=a", "send=a", "send=a", "send=a", "send=a", "send=a", "send=a",
            "send=a",
        ],
        9,
        SpoolCause::BadValue,
    ),
    (
        &[
            "send=a",
            "send=b",
            "send=c",
            "send=d",
            "workers=2",
            "send=e",
            "send=f",
            "send=g",
            "send=h",
            "send=,",
        ],
        10,
        SpoolCause::BadValue,
    ),
    (
        &[
            "send=a", "send=b", "send=c", "send=d", "send=e", "send=f", "send=g", "send=h",
            "cap=1", "send=i",
        ],
        9,
        SpoolCause::UnknownKey,
    ),
];

#[test]
fn each_bad_word_has_its_cause(rt: HostRuntime) -> Result<(), Fail> {
    for &(line, word, cause) in &LINES {
        let words = words_of(rt.alloc(), line)?;
        let fault = SpoolFault { word, cause };
        assert!(rt; read_spool_words(&words).err() == Some(fault), "{line:?}");
    }
    Ok(())
}

// The word of a sender whose names are its number and theirs, as `send=3-1,3-2`.
fn sender_word(alloc: Global, sender: u8, count: u32) -> Result<String, Fail> {
    let mut word = String::from_str(alloc, "send")?;
    for number in 1..=count {
        word.push(if number == 1 { '=' } else { ',' })?;
        word.push_str(&format!(in alloc; "{sender}-{number}")?)?;
    }
    Ok(word)
}

// The words of eight senders of 64 names.
fn eight_senders(alloc: Global) -> Result<Words, Fail> {
    let mut words = Words::make(alloc);
    for sender in 1..=8 {
        let word = sender_word(alloc, sender, 64)?;
        if words.len() < 12 {
            words.push(word.as_str())?;
        }
    }
    Ok(words)
}

// Their names, as `names_of` writes them.
fn all_names(alloc: Global) -> Result<String, Fail> {
    let mut text = String::new(alloc);
    for sender in 1..=8 {
        for number in 1..=64 {
            text.push_str(&format!(in alloc; "{sender}-{number} ")?)?;
        }
        text.push(';')?;
    }
    Ok(text)
}

#[test]
fn eight_senders_of_64_names_are_read(rt: HostRuntime) -> Result<(), Fail> {
    let words = eight_senders(rt.alloc())?;
    let names = all_names(rt.alloc())?;
    let request = same_names(&rt, rt.alloc(), &words, "p360cmyk", names.as_str())?;
    same(&rt, "senders", &request.senders, &8);
    Ok(())
}

#[test]
fn a_sender_has_no_more_than_64_names_of_255_bytes(rt: HostRuntime) -> Result<(), Fail> {
    const WORDS: [(&str, &str, usize, bool); 6] = [
        ("send=a,", "x", 255, true),
        ("send=a,", "x", 256, false),
        ("send=", "\u{e9}", 127, true),
        ("send=", "\u{e9}", 128, false),
        ("profile=", "x", 255, true),
        ("profile=", "x", 256, false),
    ];
    for (count, is_taken) in [(1, true), (64, true), (65, false), (300, false)] {
        let word = sender_word(rt.alloc(), 1, count)?;
        let words = words_of(rt.alloc(), &[word.as_str()])?;
        assert!(rt;
            read_spool_words(&words).is_ok() == is_taken,
            "{count} names"
        );
    }
    for &(key, letter, count, is_taken) in &WORDS {
        let name = letter.repeat(rt.alloc(), count)?;
        let word = format!(in rt.alloc(); "{key}{name}")?;
        let words = words_of(rt.alloc(), &["send=b", word.as_str()])?;
        assert!(rt;
            read_spool_words(&words).is_ok() == is_taken,
            "{key} {count}"
        );
    }
    Ok(())
}
