//! Reading one group of lines, from as many pieces as it needs.
ghost use Rattle.pwg_lines.specs.Reading.{IsAnew, form_of, lines_left_of, next_group};
ghost use Rattle.pwg_stream.specs.Groups.{GivesLine, IsBadGroup, IsNoGroup, OnNoGroup, TakesPart};
ghost use Rattle.buffered_bytes.specs.Text.{UsesSome, text_behind};
ghost use Rattle.pwg_stream.specs.declared.groups.GroupStop.TheVariants as stop;
ghost use Rattle.std.specs.Prelude.{IfOk, IfSome, IsErrOf, OnErr, OnOk, ◌≡◌, ◌≤◌, ◌⊎◌};
ghost use Rattle.weave_base.specs.Causes.{Rose};

use buffered_bytes::Unread;
use pwg_definitions::InputCause;
use pwg_lines::{Fill, LineReader};
use weave_base::Source;

/// Why no group was read.
#[derive(Clone, Copy, Debug, PartialEq, Eq)]
pub enum GroupStop {
    /// The text does not begin with a group of the page, for this cause.
    Input(InputCause),
    /// A read failed.
    Read,
}

/// Reads the next group of a page and returns its repeats. `lines` has its line.
pub fn read_group<S: Source>(
    unread: &mut Unread,
    lines: &mut LineReader,
    source: &mut S,
) -> Result<u32, GroupStop>
    requires { IsAnew lines.old }
    ensures form { form_of lines.new ≡ form_of lines.old }
    ensures line { IfOk result
        (GivesLine lines.old lines.new (text_behind unread.old (S.left source.old))
        (text_behind unread.new (S.left source.new))) }
    ensures fresh { OnOk result (IsAnew lines.new) }
    ensures lines { OnErr result (lines_left_of lines.new ≡ lines_left_of lines.old) }
    ensures input { OnNoGroup result (λ why. IfSome (text_behind unread.old (S.left source.old)) (λ text.
        IsNoGroup (next_group lines.old text) why ⊎ IsBadGroup (next_group lines.old text) why)) }
    ensures read { IsErrOf result stop.Read → Rose (S.faults source.old) (S.faults source.new) }
    ensures part { IsErrOf result stop.Read
        → TakesPart lines.old (text_behind unread.old (S.left source.old)) (S.left source.new) }
    ensures used { UsesSome (text_behind unread.old (S.left source.old)) (text_behind unread.new (S.left source.new)) }
    ensures later { S.faults source.old ≤ S.faults source.new }
{
    // a group has a count, and at most two bytes for each byte of its line
    let most = 2 * lines.line().len() as u128 + 1;
    'pieces: for turn in 0..most + 2 {
        let fed = lines.feed(unread.bytes());
        unread.use_up(fed.used);
        match fed.state {
            Fill::Line { repeats } => return Ok(repeats),
            Fill::Fault(fault) => return Err(GroupStop::Input(InputCause::Line(fault))),
            Fill::More => {}
        }
        match unread.more(source) {
            Ok(0) => return Err(GroupStop::Input(InputCause::Truncated)),
            Ok(_) => {}
            Err(_) => return Err(GroupStop::Read),
        }
    }
    unreachable!()
}
