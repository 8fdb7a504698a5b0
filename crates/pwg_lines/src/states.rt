//! The states of a reader of lines.
ghost use Rattle.pwg_lines.specs.States.{behind_packet};
ghost use Rattle.std.specs.Prelude.{◌≡◌};
ghost use Rattle.pwg_definitions.specs.Groups as groups;

use pwg_definitions::LineFault;

/// Where in a group a reader stands.
#[derive(Clone, Copy)]
pub enum State {
    /// Before the group's count.
    Start,
    /// Before a packet, with one unit of the line left or more.
    Packet,
    /// Within the unit of a run of `units` units, of which `read` bytes are read.
    Run { units: usize, read: usize },
    /// Before this many bytes of a literal, one or more.
    Literal(usize),
    /// After the group's last byte.
    Full,
    /// After the byte that shows the fault.
    Failed(LineFault),
}

/// How many units the packet with this first byte gives, if the line has `left` units left.
pub fn units_of(left: usize, first: u8) -> usize
    ensures { result ≡ groups.units_of left first }
{
    match first {
        0..=127 => usize::from(first) + 1,
        128 => left,
        _ => 257 - usize::from(first),
    }
}

/// The state of a reader after a packet, if the line has `left` units left.
pub fn state_after(left: usize) -> State
    ensures { result ≡ behind_packet left }
{
    if left == 0 {
        State::Full
    } else {
        State::Packet
    }
}
