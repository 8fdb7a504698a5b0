//! Lines of drawn units.
ghost use Rattle.page_maker.specs.Made.{drawn, made_line, state_after};
ghost use Rattle.pwg_definitions.specs.Groups.{copies};
ghost use Rattle.std.specs.Prelude.{length, take, ◌%◌, ◌*◌, ◌++◌, ◌+◌, ◌/◌, ◌≡◌, ◌≤◌};

use crate::draws::Draws;
use pwg_lines::fill_units;

// The most bytes of a unit.
const MOST_UNIT: usize = 4;

/// Fills a line of whole units, of 1 to 4 bytes each, with runs of drawn units.
pub fn fill_line(draws: &mut Draws, unit: usize, line: &mut [u8])
    requires some { 1 ≤ unit }
    requires few { unit ≤ MOST_UNIT }
    requires whole { length line.old % unit ≡ 0 }
    ensures bytes { line.new
        ≡ (made_line unit (length line.old / unit) (length line.old / unit) draws.old.state).bytes }
    ensures state { draws.new.state
        ≡ (made_line unit (length line.old / unit) (length line.old / unit) draws.old.state).state }
{
    let mut filled = 0;
    'runs: while filled < line.len() {
        let left = (line.len() - filled) / unit;
        let times = (1 + usize::from(draws.next() % 8)).min(left);
        put_run(draws, unit, line, filled, times);
        filled += times * unit;
    }
}

// Puts a drawn unit after the filled bytes, `times` times.
fn put_run(draws: &mut Draws, unit: usize, line: &mut [u8], filled: usize, times: usize)
    requires some { 1 ≤ times }
    requires few { unit ≤ MOST_UNIT }
    requires fits { filled + times * unit ≤ length line.old }
    ensures bytes { take (filled + times * unit) line.new
        ≡ take filled line.old ++ copies times (drawn unit draws.old.state) }
    ensures state { draws.new.state ≡ state_after unit draws.old.state }
{
    let mut bytes = [0; MOST_UNIT];
    let drawn = &mut bytes[..unit];
    draws.fill(drawn);
    fill_units(line, filled, 0, drawn, times);
}
