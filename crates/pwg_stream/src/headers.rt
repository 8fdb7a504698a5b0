//! Reading the header of a page (PWG 5102.4, section 4.3).
ghost use Rattle.pwg_stream.specs.Pages.{GivesHeader};
ghost use Rattle.pwg_stream.specs.Stops.{OnInput};
ghost use Rattle.pwg_stream.specs.Taken.{TakesFewer, TakesNoPage};
ghost use Rattle.buffered_bytes.specs.Text.{UsesSome, text_behind};
ghost use Rattle.pwg_stream.specs.declared.stops.StreamStop.TheVariants as stop;
ghost use Rattle.std.specs.Io.KnownBytes.{IsAtEnd};
ghost use Rattle.std.specs.Prelude.{IfNone, IfOk, IfSome, IsErrOf, IsSome, MatchOption, [], length, take, ◌+◌};
ghost use Rattle.std.specs.Prelude.{◌-◌, ◌<◌, ◌≡◌, ◌≤◌};
ghost use Rattle.pwg_definitions.specs.Stream.StreamEnd.{Fault};
ghost use Rattle.pwg_definitions.specs.Stream.{pages_from};
ghost use Rattle.pwg_definitions.specs.Limits.{header_length, most_pages};
ghost use Rattle.weave_base.specs.Causes.{Rose};

use crate::stops::StreamStop;
use buffered_bytes::Unread;
use pwg_definitions::InputCause;
use pwg_header::{HEADER_LEN, PageForm, Wanted, check, read_header};
use weave_base::Source;

/// The most pages of a stream.
pub const MOST_PAGES: u32 = 9999;

// The stop at a page's header.
fn refuse<T>(page: u32, cause: InputCause) -> Result<T, StreamStop>
    ensures { result ≡ Err (stop.Input page 0 cause) }
{
    Err(StreamStop::Input {
        page,
        line: 0,
        cause,
    })
}

// The first bytes as a header, where there are enough of them.
fn first_header(bytes: &[u8]) -> Option<&[u8; HEADER_LEN]>
    ensures { MatchOption result (length bytes.now < header_length)
        (λ header. (header.now ≡ take header_length bytes.now) × (header_length ≤ length bytes.now)) }
{
    let (header, _behind) = bytes.split_first_chunk()?;
    Some(header)
}

/// Reads the header of the next page, after `pages` pages. Returns `None` if the text is at its end.
pub fn read_page_header<S: Source>(
    unread: &mut Unread,
    source: &mut S,
    pages: u32,
    want: Wanted,
) -> Result<Option<PageForm>, StreamStop>
    requires { pages ≤ most_pages }
    ensures form { IfOk result
        (λ o. IfSome o (GivesHeader want (text_behind unread.old (S.left source.old))
        (text_behind unread.new (S.left source.new)))) }
    ensures number { IfOk result (λ o. IsSome o → pages < most_pages) }
    ensures none { IfOk result
        (λ o. IfNone o (IsAtEnd (text_behind unread.old (S.left source.old))
        × IsAtEnd (text_behind unread.new (S.left source.new)))) }
    ensures input { OnInput result (λ page line cause. IfSome (text_behind unread.old (S.left source.old)) (λ text.
        pages_from want (most_pages - pages) (pages + 1) text ≡ record { pages = []; end = Fault page line cause })) }
    ensures place { OnInput result (λ page line cause. (page ≡ pages + 1) × (line ≡ 0)) }
    ensures read { IsErrOf result stop.Read → Rose (S.faults source.old) (S.faults source.new) }
    ensures taken { IsErrOf result stop.Read
        → TakesNoPage want pages (text_behind unread.old (S.left source.old)) (S.left source.new) }
    ensures short { IsErrOf result stop.Read
        → TakesFewer header_length (text_behind unread.old (S.left source.old)) (S.left source.new) }
    ensures memory { IsErrOf result stop.Memory → ⊥ }
    ensures used { UsesSome (text_behind unread.old (S.left source.old)) (text_behind unread.new (S.left source.new)) }
    ensures later { S.faults source.old ≤ S.faults source.new }
{
    unread.fill(source, 1)?;
    if unread.bytes().len() == 0 {
        return Ok(None);
    }
    if pages == MOST_PAGES {
        return refuse(pages + 1, InputCause::TooManyPages);
    }
    unread.fill(source, HEADER_LEN)?;
    let checked = match first_header(unread.bytes()) {
        None => return refuse(pages + 1, InputCause::Truncated),
        Some(header) => check(&read_header(header), want),
    };
    match checked {
        Ok(form) => {
            unread.use_up(HEADER_LEN);
            Ok(Some(form))
        }
        Err(fault) => refuse(pages + 1, InputCause::Header(fault)),
    }
}
