//! The bytes of a command before the rows of a raster (ESC/P Reference Manual, graphics commands).
ghost use Rattle.escp2_definitions.specs.Commands.{command_at, escape, is_between};
ghost use Rattle.escp2_reader.specs.Headers.{IsRead};
ghost use Rattle.std.specs.Prelude.{◌∷◌, ◌≡◌};

use crate::sized::after_paren;
use crate::{Command, JobCause, RasterHead};
use escp2_definitions::{MOST_UNITS, RASTER_COLUMNS};
use printer_definitions::Ink;

/// What the gathered bytes of a command are.
#[derive(Clone, Copy)]
pub(crate) enum HeaderState {
    /// A part of a command, or of the numbers of a raster.
    Part,
    Whole(Command),
    /// A raster, whose rows follow.
    Rows(RasterHead),
    /// A fault, at this place of the command.
    Fault { place: u8, cause: JobCause },
}

/// No command has this byte at this place.
pub(crate) fn unknown(place: u8) -> HeaderState
    ensures { result ≡ HeaderState.Fault place JobCause.Unknown }
{
    HeaderState::Fault {
        place,
        cause: JobCause::Unknown,
    }
}

/// A number at this place is out of its range.
pub(crate) fn bad_value(place: u8) -> HeaderState
    ensures { result ≡ HeaderState.Fault place JobCause.BadValue }
{
    HeaderState::Fault {
        place,
        cause: JobCause::BadValue,
    }
}

pub(crate) fn is_in(low: u16, high: u16, n: u16) -> bool
    ensures { result ≡ is_between low high n }
{
    low <= n && n <= high
}

/// What the gathered bytes of a command are.
#[tactic(auto, unfolding(escp2_definitions::specs::Commands::command_at))]
pub(crate) fn header_of(bytes: &[u8]) -> HeaderState
    ensures { IsRead result 0 command_at bytes.now }
{
    match bytes {
        [] => HeaderState::Part,
        [0x1B, rest @ ..] => after_escape(rest),
        [b'\r', ..] => HeaderState::Whole(Command::Return),
        [0x0C, ..] => HeaderState::Whole(Command::Eject),
        _ => unknown(0),
    }
}

// What the bytes after `ESC` are.
fn after_escape(bytes: &[u8]) -> HeaderState
    ensures { IsRead result 1 escape bytes.now }
{
    match bytes {
        [] => HeaderState::Part,
        [b'@', ..] => HeaderState::Whole(Command::Init),
        [b'U', rest @ ..] => one_way(rest),
        [b'$', rest @ ..] => across(rest),
        [b'r', rest @ ..] => colour(rest),
        [b'.', rest @ ..] => raster(rest),
        [b'(', rest @ ..] => after_paren(rest),
        _ => unknown(1),
    }
}

fn one_way(bytes: &[u8]) -> HeaderState
    ensures { IsRead result 1 escape (0x55 ∷ bytes.now) }
{
    let [n, ..] = *bytes else {
        return HeaderState::Part;
    };
    if n > 1 {
        return bad_value(2);
    }
    HeaderState::Whole(Command::OneWay { n })
}

fn across(bytes: &[u8]) -> HeaderState
    ensures { IsRead result 1 escape (0x24 ∷ bytes.now) }
{
    let [low, high, ..] = *bytes else {
        return HeaderState::Part;
    };
    let n = u16::from_le_bytes([low, high]);
    if n > MOST_UNITS {
        return bad_value(2);
    }
    HeaderState::Whole(Command::Across { n })
}

fn colour(bytes: &[u8]) -> HeaderState
    ensures { IsRead result 1 escape (0x72 ∷ bytes.now) }
{
    let ink = match bytes {
        [] => return HeaderState::Part,
        [0, ..] => Ink::Black,
        [1, ..] => Ink::Magenta,
        [2, ..] => Ink::Cyan,
        [4, ..] => Ink::Yellow,
        _ => return bad_value(2),
    };
    HeaderState::Whole(Command::Colour { ink })
}

// The numbers of a raster.
fn raster(bytes: &[u8]) -> HeaderState
    ensures { IsRead result 1 escape (0x2E ∷ bytes.now) }
{
    let [c, rest @ ..] = bytes else {
        return HeaderState::Part;
    };
    if *c > 1 {
        return bad_value(2);
    }
    let [v, rest @ ..] = rest else {
        return HeaderState::Part;
    };
    if *v == 0 {
        return bad_value(3);
    }
    let [h, rest @ ..] = rest else {
        return HeaderState::Part;
    };
    if *h == 0 {
        return bad_value(4);
    }
    let [m, rest @ ..] = rest else {
        return HeaderState::Part;
    };
    if *m == 0 {
        return bad_value(5);
    }
    let [low, high, ..] = rest else {
        return HeaderState::Part;
    };
    let n = u16::from_le_bytes([*low, *high]);
    if !is_in(1, RASTER_COLUMNS, n) {
        return bad_value(6);
    }
    HeaderState::Rows(RasterHead {
        c: *c,
        v: *v,
        h: *h,
        m: *m,
        n,
    })
}
