//! A profile from a text.
ghost use Rattle.printer_profile.specs.Text.{nothing, is_skipped as is_skipped_of, missing as missing_of};
ghost use Rattle.printer_profile.specs.Text.{profile_text, profile_unless, with_lines};
ghost use Rattle.std.specs.List.{list_all};
ghost use Rattle.std.specs.Str.Lines.{lines};
ghost use Rattle.std.specs.Char.{is_ascii};
ghost use Rattle.std.specs.Prelude.{Some, ◌≡◌};

use crate::fields::{Profile, UNSAID};
use crate::keys::{Key, Version};
use crate::lines::first_line;
use key_values::cut_at;
use thiserror::Error;

/// Why a text is not a profile. If a line has several causes, the first in the order of these variants counts.
#[derive(Clone, Copy, Debug, PartialEq, Eq, Error)]
pub enum TextCause {
    #[error("neither `escp2-profile 1` nor `escp2-profile 2`")]
    BadHead,
    #[error("a byte outside of ASCII")]
    NotAscii,
    #[error("not `key=value`")]
    NoEquals,
    #[error("there is no such key")]
    UnknownKey,
    #[error("the key stands above")]
    RepeatedKey,
    #[error("the key does not take this value")]
    BadValue,
    /// The key's place in the table of keys, counted from 1.
    #[error("key {key} of the table is missing")]
    Missing { key: u8 },
}

/// The first fault of a text.
#[derive(Clone, Copy, Debug, PartialEq, Eq, Error)]
#[error("line {line}: {cause}")]
pub struct TextFault {
    /// The line, counted from 1, or 0 if the fault is not in a line. Lines from 4,294,967,295 on have that number.
    pub line: u32,
    pub cause: TextCause,
}

// What the lines so far set: the profile, and for each key whether it was given.
#[derive(Clone, Copy)]
struct Given {
    profile: Profile,
    keys: [bool; 18],
}

fn is_skipped(line: &[u8]) -> bool
    ensures { result ≡ is_skipped_of line.now }
{
    match line {
        [] => true,
        [first, ..] => *first == b'#',
    }
}

fn is_text(line: &[u8]) -> bool
    ensures { result ≡ list_all is_ascii line.now }
{
    line.iter().all(|byte| byte.is_ascii())
}

impl Given {
    ghost use Rattle.printer_profile.specs.Text.{with_key, with_line};

    fn nothing() -> Given
        ensures { result ≡ nothing }
    {
        Given {
            profile: UNSAID,
            keys: [false; 18],
        }
    }

    // Sets the value of a key.
    fn with_key(self, key: Key, value: &[u8]) -> Result<Given, TextCause>
        ensures { result ≡ with_key self value.now (Some key) }
    {
        let place = usize::from(key.place()) - 1;
        if self.keys[place] {
            return Err(TextCause::RepeatedKey);
        }
        let Some(profile) = self.profile.with_value(key, value) else {
            return Err(TextCause::BadValue);
        };
        let mut keys = self.keys;
        keys[place] = true;
        Ok(Given { profile, keys })
    }

    // Takes a line of a text of this version.
    fn with_line(self, version: Version, line: &[u8]) -> Result<Given, TextCause>
        ensures { result ≡ with_line version self line.now }
    {
        if is_skipped(line) {
            return Ok(self);
        }
        if !is_text(line) {
            return Err(TextCause::NotAscii);
        }
        match cut_at(b'=', line) {
            None => Err(TextCause::NoEquals),
            Some((name, value)) => match version.key_named(name) {
                None => Err(TextCause::UnknownKey),
                Some(key) => self.with_key(key, value),
            },
        }
    }

    // The first required key that is absent.
    fn missing(&self) -> Option<Key>
        ensures { result ≡ missing_of self.now }
    {
        Key::ALL.iter().copied().find(|key| key.is_required()
            && !self.keys[usize::from(key.place()) - 1])
    }

    fn profile(&self) -> Result<Profile, TextFault>
        ensures { result ≡ profile_unless self.now (missing_of self.now) }
    {
        match self.missing() {
            None => Ok(self.profile),
            Some(key) => Err(TextFault {
                line: 0,
                cause: TextCause::Missing { key: key.place() },
            }),
        }
    }
}

// What the lines after the first line of a text set; they are numbered from 2.
fn read_lines(version: Version, text: &[u8]) -> Result<Given, TextFault>
    ensures { result ≡ with_lines version 2 nothing (lines text.now) }
{
    let mut given = Given::nothing();
    let mut number: u32 = 2;
    let mut rest = text;
    'lines: while !rest.is_empty() {
        let (line, suffix) = first_line(rest);
        given = match given.with_line(version, line) {
            Ok(more) => more,
            Err(cause) => return Err(TextFault {
                line: number,
                cause,
            }),
        };
        number = number.saturating_add(1);
        rest = suffix;
    }
    Ok(given)
}

/// Reads a profile's text, of either version: its first line, and lines `key=value`. Returns the profile, or the first
/// refused line. If all lines are good, the fault is the first required key that is absent.
pub fn read(text: &[u8]) -> Result<Profile, TextFault>
    ensures { result ≡ profile_text text.now }
{
    let bad_head = TextFault {
        line: 1,
        cause: TextCause::BadHead,
    };
    if text.is_empty() {
        return Err(bad_head);
    }
    let (head, rest) = first_line(text);
    let Some(version) = Version::with_head(head) else {
        return Err(bad_head);
    };
    read_lines(version, rest)?.profile()
}
