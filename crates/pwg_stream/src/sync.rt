//! Reading the sync word (PWG 5102.4, section 4.1).
ghost use Rattle.pwg_stream.specs.Stops.{OnInput};
ghost use Rattle.pwg_stream.specs.Taken.{TakesAllPages, TakesFewer};
ghost use Rattle.buffered_bytes.specs.Text.{UsesSome, text_behind};
ghost use Rattle.pwg_stream.specs.declared.stops.StreamStop.TheVariants as stop;
ghost use Rattle.std.specs.Io.KnownBytes.{Consumes};
ghost use Rattle.std.specs.Prelude.{IfSome, IsErrOf, OnOk, [], length, ◌≡◌, ◌≤◌};
ghost use Rattle.pwg_definitions.specs.Stream.StreamEnd.{Fault};
ghost use Rattle.pwg_definitions.specs.Stream.{stream, sync_word};
ghost use Rattle.pwg_definitions.specs.declared.pages.Wanted.{Wanted};
ghost use Rattle.weave_base.specs.Causes.{Rose};

use crate::stops::StreamStop;
use buffered_bytes::Unread;
use pwg_definitions::InputCause;
use weave_base::Source;

/// Reads the sync word.
pub fn read_sync<S: Source>(unread: &mut Unread, source: &mut S) -> Result<(), StreamStop>
    ensures ok { OnOk result
        (Consumes (text_behind unread.old (S.left source.old)) (text_behind unread.new (S.left source.new)) sync_word) }
    ensures input { OnInput result (λ page line cause. IfSome (text_behind unread.old (S.left source.old)) (λ text.
        (want : Wanted) → stream want text ≡ record { pages = []; end = Fault page line cause })) }
    ensures place { OnInput result (λ page line cause. (page ≡ 0) × (line ≡ 0)) }
    ensures read { IsErrOf result stop.Read → Rose (S.faults source.old) (S.faults source.new) }
    ensures taken { IsErrOf result stop.Read → (want : Wanted)
        → TakesAllPages want (text_behind unread.old (S.left source.old)) (S.left source.new) [] }
    ensures short { IsErrOf result stop.Read → TakesFewer (length sync_word)
        (text_behind unread.old (S.left source.old)) (S.left source.new) }
    ensures memory { IsErrOf result stop.Memory → ⊥ }
    ensures used { UsesSome (text_behind unread.old (S.left source.old)) (text_behind unread.new (S.left source.new)) }
    ensures later { S.faults source.old ≤ S.faults source.new }
{
    unread.fill(source, 4)?;
    if !unread.bytes().starts_with(b"RaS2") {
        return Err(StreamStop::Input {
            page: 0,
            line: 0,
            cause: InputCause::BadSync,
        });
    }
    unread.use_up(4);
    Ok(())
}
