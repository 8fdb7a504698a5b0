//! Texts that are numbers, and texts that are not.
use key_values::{cut_at, cut_word, number_within};

#[test]
fn numbers_are_digits_within_bounds(rt: HostRuntime) {
    const UP_TO_64: [(&[u8], Option<u64>); 12] = [
        (b"0", Some(0)),
        (b"64", Some(64)),
        (b"65", None),
        (b"", None),
        (b"00", None),
        (b"064", None),
        (b"+1", None),
        (b"-1", None),
        (b" 1", None),
        (b"1 ", None),
        (b"1x", None),
        (b"1000000000000000000000000000000000000001", None),
    ];
    for &(text, number) in &UP_TO_64 {
        assert!(rt; number_within(0, 64, text) == number, "{text:?}");
    }
}

#[test]
fn bounds_are_taken_and_what_is_past_them_is_not(rt: HostRuntime) {
    const TEXTS: [(u64, u64, &[u8], Option<u64>); 3] = [
        (1, 64, b"0", None),
        (0, u64::MAX, b"18446744073709551615", Some(u64::MAX)),
        (0, u64::MAX, b"18446744073709551616", None),
    ];
    for &(least, most, text, number) in &TEXTS {
        assert!(rt; number_within(least, most, text) == number, "{text:?}");
    }
}

#[test]
fn the_first_equals_sign_cuts(rt: HostRuntime) {
    const WORDS: [(&str, Option<(&str, &str)>); 3] = [
        ("a=b=c", Some(("a", "b=c"))),
        ("a=", Some(("a", ""))),
        ("a", None),
    ];
    for &(word, pair) in &WORDS {
        assert_eq!(rt; cut_word(word), pair);
    }
    let cut = [cut_at(b'=', b"=").is_some(), cut_at(b'=', b"a").is_some()];
    assert!(rt; cut == [true, false]);
}
