//! The commands that have a length: `ESC (`, a letter, the number of bytes that follow, and these.
ghost use Rattle.escp2_definitions.specs.Commands.{escape};
ghost use Rattle.escp2_reader.specs.Headers.{IsByte, IsLength, IsNumber, IsRead};
ghost use Rattle.std.specs.Prelude.{◌∷◌, ◌≡◌};

use crate::headers::{HeaderState, bad_value, is_in, unknown};
use crate::{Command, JobCause};
use escp2_definitions::MOST_UNITS;

/// What the bytes after `ESC (` are.
pub(crate) fn after_paren(bytes: &[u8]) -> HeaderState
    ensures { IsRead result 1 escape (0x28 ∷ bytes.now) }
{
    match bytes {
        [] => HeaderState::Part,
        [b'G', rest @ ..] => graphics(rest),
        [b'U', rest @ ..] => unit(rest),
        [b'i', rest @ ..] => micro_weave(rest),
        [b'C', rest @ ..] => page_length(rest),
        [b'c', rest @ ..] => margins(rest),
        [b'V', rest @ ..] => down_to(rest),
        [b'v', rest @ ..] => down_by(rest),
        _ => unknown(2),
    }
}

fn bad_length(place: u8) -> HeaderState
    ensures { result ≡ HeaderState.Fault place JobCause.BadLength }
{
    HeaderState::Fault {
        place,
        cause: JobCause::BadLength,
    }
}

// The bytes after the length of a command, which is to be `len`.
fn after_length(len: u8, bytes: &[u8]) -> Result<&[u8], HeaderState>
    ensures { IsLength result len bytes.now }
{
    let [low, rest @ ..] = bytes else {
        return Err(HeaderState::Part);
    };
    if *low != len {
        return Err(bad_length(3));
    }
    let [high, rest @ ..] = rest else {
        return Err(HeaderState::Part);
    };
    if *high != 0 {
        return Err(bad_length(4));
    }
    Ok(rest)
}

// The byte of a command that has one.
fn byte_of(bytes: &[u8]) -> Result<u8, HeaderState>
    ensures { IsByte result bytes.now }
{
    match after_length(1, bytes)? {
        [] => Err(HeaderState::Part),
        [n, ..] => Ok(*n),
    }
}

// The number of a command that has one of two bytes.
fn number_of(bytes: &[u8]) -> Result<u16, HeaderState>
    ensures { IsNumber result bytes.now }
{
    let [low, rest @ ..] = after_length(2, bytes)? else {
        return Err(HeaderState::Part);
    };
    let [high, ..] = rest else {
        return Err(HeaderState::Part);
    };
    Ok(u16::from_le_bytes([*low, *high]))
}

fn graphics(bytes: &[u8]) -> HeaderState
    ensures { IsRead result 1 escape (0x28 ∷ 0x47 ∷ bytes.now) }
{
    match byte_of(bytes) {
        Ok(1) => HeaderState::Whole(Command::Graphics),
        Ok(_) => bad_value(5),
        Err(end) => end,
    }
}

fn unit(bytes: &[u8]) -> HeaderState
    ensures { IsRead result 1 escape (0x28 ∷ 0x55 ∷ bytes.now) }
{
    match byte_of(bytes) {
        Ok(0) => bad_value(5),
        Ok(m) => HeaderState::Whole(Command::Unit { m }),
        Err(end) => end,
    }
}

fn micro_weave(bytes: &[u8]) -> HeaderState
    ensures { IsRead result 1 escape (0x28 ∷ 0x69 ∷ bytes.now) }
{
    match byte_of(bytes) {
        Ok(0) => HeaderState::Whole(Command::MicroWeave { n: 0 }),
        Ok(_) => bad_value(5),
        Err(end) => end,
    }
}

fn page_length(bytes: &[u8]) -> HeaderState
    ensures { IsRead result 1 escape (0x28 ∷ 0x43 ∷ bytes.now) }
{
    match number_of(bytes) {
        Ok(n) if is_in(1, MOST_UNITS, n) => HeaderState::Whole(Command::Length { n }),
        Ok(_) => bad_value(5),
        Err(end) => end,
    }
}

fn down_to(bytes: &[u8]) -> HeaderState
    ensures { IsRead result 1 escape (0x28 ∷ 0x56 ∷ bytes.now) }
{
    match number_of(bytes) {
        Ok(n) if n <= MOST_UNITS => HeaderState::Whole(Command::DownTo { n }),
        Ok(_) => bad_value(5),
        Err(end) => end,
    }
}

fn down_by(bytes: &[u8]) -> HeaderState
    ensures { IsRead result 1 escape (0x28 ∷ 0x76 ∷ bytes.now) }
{
    match number_of(bytes) {
        Ok(n) if n <= MOST_UNITS => HeaderState::Whole(Command::DownBy { n }),
        Ok(_) => bad_value(5),
        Err(end) => end,
    }
}

fn margins(bytes: &[u8]) -> HeaderState
    ensures { IsRead result 1 escape (0x28 ∷ 0x63 ∷ bytes.now) }
{
    let rest = match after_length(4, bytes) {
        Ok(rest) => rest,
        Err(end) => return end,
    };
    let [low, high, rest @ ..] = rest else {
        return HeaderState::Part;
    };
    let top = u16::from_le_bytes([*low, *high]);
    if top > MOST_UNITS {
        return bad_value(5);
    }
    let [low, high, ..] = rest else {
        return HeaderState::Part;
    };
    let bottom = u16::from_le_bytes([*low, *high]);
    if !is_in(top + 1, MOST_UNITS, bottom) {
        return bad_value(7);
    }
    HeaderState::Whole(Command::Margins { top, bottom })
}
