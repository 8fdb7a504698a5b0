//! The steps of a reader of lines: it reads a count, the first byte of a packet, or bytes of a unit or of a literal.
ghost use Rattle.pwg_lines.specs.Reading.{Takes};
ghost use Rattle.pwg_lines.specs.States.{IsOpen};
ghost use Rattle.std.specs.Prelude.{[], length, min, take, ◌-◌, ◌<◌, ◌∷◌, ◌≡◌, ◌≤◌};
ghost use Rattle.pwg_definitions.specs.Header.{row_of};

use crate::buffer::{fill_bytes, fill_units};
use crate::reader::LineReader;
use crate::states::{State, state_after, units_of};
use crate::whole_packets::read_whole;
use pwg_definitions::{Kind, LineFault};

impl LineReader {
    /// Reads one part of a group, at least a byte, and returns its length.
    pub(crate) fn step(&mut self, bytes: &[u8]) -> usize
        requires some { 0 < length bytes.now }
        requires is_open { IsOpen self.old.state }
        ensures least { 0 < result }
        ensures most { result ≤ length bytes.now }
        ensures takes { Takes self.old self.new (take result bytes.now) }
    {
        match self.state {
            State::Start => self.feed_start(bytes[0]),
            State::Packet => return self.feed_packets(bytes),
            State::Run { units, read } => return self.feed_run(units, read, bytes),
            State::Literal(wanted) => return self.feed_literal(wanted, bytes),
            State::Full | State::Failed(_) => {}
        }
        1
    }

    // Reads a group's count.
    fn feed_start(&mut self, count: u8)
        requires { self.old.state ≡ State.Start }
        ensures { Takes self.old self.new (count ∷ []) }
    {
        let repeats = u32::from(count) + 1;
        if self.lines_left < repeats {
            self.state = State::Failed(LineFault::GroupPastPage);
            return;
        }
        self.repeats = repeats;
        self.filled = 0;
        self.left = self.line.len() / self.form.kind.unit();
        self.state = State::Packet;
    }

    // Reads whole packets, and the first byte of the next packet if there is one, and gives the number of bytes.
    fn feed_packets(&mut self, bytes: &[u8]) -> usize
        requires some { 0 < length bytes.now }
        requires state { self.old.state ≡ State.Packet }
        ensures least { 0 < result }
        ensures most { result ≤ length bytes.now }
        ensures takes { Takes self.old self.new (take result bytes.now) }
    {
        let used = self.feed_whole(bytes);
        if used == bytes.len() {
            return used;
        }
        self.feed_packet(bytes[used]);
        used + 1
    }

    // Reads whole packets, of any number, and gives the number of bytes. Each kind is a constant of its own call, so
    // that each has a loop of its own.
    fn feed_whole(&mut self, bytes: &[u8]) -> usize
        requires { self.old.state ≡ State.Packet }
        ensures most { result ≤ length bytes.now }
        ensures state { self.new.state ≡ State.Packet }
        ensures takes { Takes self.old self.new (take result bytes.now) }
    {
        let (line, filled, left) = (&mut self.line, self.filled, self.left);
        let place = match self.form.kind {
            Kind::Rgb8 => read_whole(line, filled, left, Kind::Rgb8, bytes),
            Kind::Cmyk8 => read_whole(line, filled, left, Kind::Cmyk8, bytes),
            Kind::Gray8 | Kind::Black8 | Kind::Black1 => read_whole(
                line,
                filled,
                left,
                Kind::Gray8,
                bytes,
            ),
        };
        self.filled = place.filled;
        self.left = place.left;
        place.used
    }

    // Reads the first byte of a packet.
    fn feed_packet(&mut self, first: u8)
        requires { self.old.state ≡ State.Packet }
        ensures { Takes self.old self.new (first ∷ []) }
    {
        let units = units_of(self.left, first);
        if self.left < units {
            self.state = State::Failed(LineFault::RunPastLine);
            return;
        }
        if first == 128 {
            self.fill_white();
            return;
        }
        self.left -= units;
        self.state = if first < 128 {
            State::Run { units, read: 0 }
        } else {
            State::Literal(units * self.form.kind.unit())
        };
    }

    // Fills the rest of the line with white.
    fn fill_white(&mut self)
        requires { self.old.state ≡ State.Packet }
        ensures { Takes self.old self.new (128 ∷ []) }
    {
        let white = self.form.kind.white();
        fill_units(&mut self.line, self.filled, 0, white, self.left);
        self.filled = self.line.len();
        self.left = 0;
        self.state = State::Full;
    }

    // Reads bytes of the unit of a run, as many as are wanted or as there are, and gives their number.
    fn feed_run(&mut self, units: usize, read: usize, bytes: &[u8]) -> usize
        requires { self.old.state ≡ State.Run units read }
        ensures count { result ≡ min (length bytes.now) ((row_of self.old.form.kind).unit - read) }
        ensures takes { Takes self.old self.new (take result bytes.now) }
    {
        let unit = self.form.kind.unit();
        let wanted = unit - read;
        if bytes.len() < wanted {
            fill_bytes(&mut self.line, self.filled + read, bytes);
            let read = read + bytes.len();
            self.state = State::Run { units, read };
            return bytes.len();
        }
        fill_units(&mut self.line, self.filled, read, &bytes[..wanted], units);
        self.filled += units * unit;
        self.state = state_after(self.left);
        wanted
    }

    // Reads bytes of a literal, as many as are wanted or as there are, and gives their number.
    fn feed_literal(&mut self, wanted: usize, bytes: &[u8]) -> usize
        requires { self.old.state ≡ State.Literal wanted }
        ensures count { result ≡ min (length bytes.now) wanted }
        ensures takes { Takes self.old self.new (take result bytes.now) }
    {
        let count = bytes.len().min(wanted);
        fill_bytes(&mut self.line, self.filled, &bytes[..count]);
        self.filled += count;
        self.state = if count < wanted {
            State::Literal(wanted - count)
        } else {
            state_after(self.left)
        };
        count
    }
}
