//! A reader of the pages of a stream.
ghost use Rattle.pwg_lines.specs.Reading.{IsAnew, form_of as form_of_lines, lines_left_of as lines_left_of_lines};
ghost use Rattle.base_definitions.specs.Limits.{most_columns, most_rows};
ghost use Rattle.pwg_definitions.specs.Limits.{header_length, most_pages};
ghost use Rattle.pwg_stream.specs.Stops.{line_stop};
ghost use Rattle.std.specs.Option.{ForSome};
ghost use Rattle.std.specs.Prelude.{None, ◌+◌, ◌≡◌, ◌≤◌};

use crate::groups::{GroupStop, read_group};
use crate::headers::read_page_header;
use crate::stops::StreamStop;
use crate::sync::read_sync;
use buffered_bytes::Unread;
use pwg_header::{PageForm, Wanted};
use pwg_lines::LineReader;
use std::alloc::Global;
use weave_base::{Memory, Source};

/// Reads the pages of a stream, line by line. It does not hold the source: each call borrows the same one.
///
/// It keeps 64 KiB of the stream and one line, whatever the number of pages.
#[derive(Drop)]
pub struct PageReader {
    alloc: Global,
    unread: Unread,
    page: u32,
    lines: Option<LineReader>,
    given: u32,
    at_end: bool,
    stop: Option<StreamStop>,
    ghost last: { page ≤ most_pages },
    ghost fresh: { ForSome lines (λ r. stop ≡ None → IsAnew r) },
    ghost counted: { ForSome lines (λ r. given + lines_left_of_lines r ≡ (form_of_lines r).height) },
}

// The stop at a line of a page.
fn stop_at(page: u32, line: u32, fault: GroupStop) -> StreamStop
    ensures { result ≡ line_stop page line fault }
{
    match fault {
        GroupStop::Input(cause) => StreamStop::Input { page, line, cause },
        GroupStop::Read => StreamStop::Read,
    }
}

impl PageReader {
    ghost use Rattle.pwg_stream.specs.Reading.{BeginsPage, GivesLines, HasLineFault, current_form, has_ended, line_of};
    ghost use Rattle.pwg_stream.specs.Reading.{lines_left_of, page_of, stop_of, text_of};
    ghost use Rattle.pwg_stream.specs.Stops.{OnInput};
    ghost use Rattle.pwg_stream.specs.Taken.{TakesAllPages, TakesFewer, TakesNoGroup, TakesNoPage};
    ghost use Rattle.buffered_bytes.specs.Text.{UsesSome};
    ghost use Rattle.pwg_stream.specs.declared.stops.StreamStop.{StreamStop};
    ghost use Rattle.pwg_stream.specs.declared.stops.StreamStop.TheVariants as stop;
    ghost use Rattle.std.specs.Io.KnownBytes.{Consumes, IsAtEnd};
    ghost use Rattle.std.specs.Prelude.{IfErr, IfNone, IfOk, IfSome, IsErrOf, OnErr, OnOk, Some, [], false, length};
    ghost use Rattle.std.specs.Prelude.{true, ◌<◌, ◌-◌};
    ghost use Rattle.pwg_definitions.specs.Header.{line_bytes, row_of};
    ghost use Rattle.pwg_definitions.specs.Stream.StreamEnd.{Fault};
    ghost use Rattle.pwg_definitions.specs.Stream.{pages_from, stream, sync_word};
    ghost use Rattle.pwg_definitions.specs.declared.pages.PageForm.{PageForm};
    ghost use Rattle.pwg_definitions.specs.declared.pages.Wanted.{Wanted};
    ghost use Rattle.weave_base.specs.Causes.{Rose};

    /// A reader of the source's pages. It allocates its buffer, and reads the sync word.
    pub fn begin<S: Source>(alloc: Global, source: &mut S) -> Result<PageReader, StreamStop>
        ensures sync { IfOk result
            (λ reader. Consumes (S.left source.old) (text_of reader (S.left source.new)) sync_word) }
        ensures none { IfOk result (λ reader. (page_of reader ≡ 0) × (lines_left_of reader ≡ 0)
            × (has_ended reader ≡ false)) }
        ensures going { IfOk result (λ reader. stop_of reader ≡ None) }
        ensures input { OnInput result (λ page line cause. IfSome (S.left source.old) (λ bytes.
            (want : Wanted) → stream want bytes ≡ record { pages = []; end = Fault page line cause })) }
        ensures place { OnInput result (λ page line cause. (page ≡ 0) × (line ≡ 0)) }
        ensures read { IsErrOf result stop.Read → Rose (S.faults source.old) (S.faults source.new) }
        ensures taken { IsErrOf result stop.Read → (want : Wanted)
            → TakesAllPages want (S.left source.old) (S.left source.new) [] }
        ensures short { IsErrOf result stop.Read
            → TakesFewer (length sync_word) (S.left source.old) (S.left source.new) }
        ensures used { OnErr result (UsesSome (S.left source.old) (S.left source.new)) }
        ensures later { S.faults source.old ≤ S.faults source.new }
    {
        let mut unread = Unread::make(alloc)?;
        read_sync(&mut unread, source)?;
        Ok(PageReader {
            alloc,
            unread,
            page: 0,
            lines: None,
            given: 0,
            at_end: false,
            stop: None,
        })
    }

    /// Begins the next page and returns its form, or `None` at the end of the text. All lines of the page before must
    /// have been read.
    pub fn next_page<S: Source>(
        &mut self,
        source: &mut S,
        want: Wanted,
    ) -> Result<Option<PageForm>, StreamStop>
        requires whole { lines_left_of self.old ≡ 0 }
        requires narrowest { 1 ≤ want.least_width }
        requires widest { want.most_width ≤ most_columns }
        requires lowest { 1 ≤ want.least_height }
        requires tallest { want.most_height ≤ most_rows }

        ensures page { IfOk result
            (λ o. IfSome o (BeginsPage want self.old self.new (S.left source.old) (S.left source.new))) }
        ensures none { has_ended self.old ≡ false
            → IfOk result (λ o. IfNone o (IsAtEnd (text_of self.old (S.left source.old))
            × IsAtEnd (text_of self.new (S.left source.new)))) }
        ensures input { stop_of self.old ≡ None
            → OnInput result (λ page line cause. IfSome (text_of self.old (S.left source.old)) (λ text.
            pages_from want (most_pages - page_of self.old) (page_of self.old + 1) text ≡ record {
              pages = [];
              end = Fault page line cause;
            })) }
        ensures place { stop_of self.old ≡ None
            → OnInput result (λ page line cause. (page ≡ page_of self.old + 1) × (line ≡ 0)) }
        ensures read { stop_of self.old ≡ None → IsErrOf result stop.Read
            → Rose (S.faults source.old) (S.faults source.new) }
        ensures taken { stop_of self.old ≡ None → IsErrOf result stop.Read
            → TakesNoPage want (page_of self.old) (text_of self.old (S.left source.old)) (S.left source.new) }
        ensures short { stop_of self.old ≡ None → IsErrOf result stop.Read
            → TakesFewer header_length (text_of self.old (S.left source.old)) (S.left source.new) }

        ensures used { UsesSome (text_of self.old (S.left source.old)) (text_of self.new (S.left source.new)) }
        ensures later { S.faults source.old ≤ S.faults source.new }

        // If no page was begun, no line is left.
        ensures none_left { IfOk result (λ o. IfNone o (lines_left_of self.new ≡ 0)) }
        ensures left { OnErr result (lines_left_of self.new ≡ 0) }

        // After a stop each later call returns the same stop. The same holds for the end.
        ensures going { OnOk result (stop_of self.new ≡ None) }
        ensures stop { IfErr result (λ stop. stop_of self.new ≡ Some stop) }
        ensures again { (stop : StreamStop) → stop_of self.old ≡ Some stop → (result ≡ Err stop) × (self.new ≡ self.old)
            × (source.new ≡ source.old) }
        ensures end { IfOk result (λ o. IfNone o (has_ended self.new ≡ true)) }
        ensures end_again { has_ended self.old ≡ true → stop_of self.old ≡ None → (result ≡ Ok None)
            × (self.new ≡ self.old) × (source.new ≡ source.old) }
    {
        if let Some(stop) = self.stop {
            return Err(stop);
        }
        if self.at_end {
            return Ok(None);
        }
        match self.begin_page(source, want) {
            Err(stop) => {
                self.stop = Some(stop);
                Err(stop)
            }
            Ok(None) => {
                self.at_end = true;
                Ok(None)
            }
            Ok(Some(form)) => Ok(Some(form)),
        }
    }

    // Begins the next page, where one follows.
    fn begin_page<S: Source>(
        &mut self,
        source: &mut S,
        want: Wanted,
    ) -> Result<Option<PageForm>, StreamStop>
        requires going { stop_of self.old ≡ None }
        requires unended { has_ended self.old ≡ false }
        requires narrowest { 1 ≤ want.least_width }
        requires widest { want.most_width ≤ most_columns }
        requires lowest { 1 ≤ want.least_height }
        requires tallest { want.most_height ≤ most_rows }
        ensures page { IfOk result
            (λ o. IfSome o (BeginsPage want self.old self.new (S.left source.old) (S.left source.new))) }
        ensures none { IfOk result
            (λ o. IfNone o (IsAtEnd (text_of self.old (S.left source.old))
            × IsAtEnd (text_of self.new (S.left source.new)))) }
        ensures going { stop_of self.new ≡ None }
        ensures input { OnInput result (λ page line cause. IfSome (text_of self.old (S.left source.old)) (λ text.
            pages_from want (most_pages - page_of self.old) (page_of self.old + 1) text ≡ record {
              pages = [];
              end = Fault page line cause;
            })) }
        ensures place { OnInput result (λ page line cause. (page ≡ page_of self.old + 1) × (line ≡ 0)) }
        ensures read { IsErrOf result stop.Read → Rose (S.faults source.old) (S.faults source.new) }
        ensures taken { IsErrOf result stop.Read
            → TakesNoPage want (page_of self.old) (text_of self.old (S.left source.old)) (S.left source.new) }
        ensures short { IsErrOf result stop.Read
            → TakesFewer header_length (text_of self.old (S.left source.old)) (S.left source.new) }
        ensures used { UsesSome (text_of self.old (S.left source.old)) (text_of self.new (S.left source.new)) }
        ensures later { S.faults source.old ≤ S.faults source.new }
        ensures none_left { IfOk result (λ o. IfNone o (lines_left_of self.new ≡ lines_left_of self.old)) }
        ensures left { OnErr result (lines_left_of self.new ≡ lines_left_of self.old) }
    {
        match read_page_header(&mut self.unread, source, self.page, want)? {
            None => Ok(None),
            Some(form) => {
                self.begin_lines(form)?;
                self.page += 1;
                Ok(Some(form))
            }
        }
    }

    // Begins the lines of a page of this form. It reuses the allocation of the page before where that is enough.
    fn begin_lines(&mut self, form: PageForm) -> Result<(), Memory>
        requires going { stop_of self.old ≡ None }
        requires narrowest { 1 ≤ form.width }
        requires widest { form.width ≤ most_columns }
        requires lowest { 1 ≤ form.height }
        requires tallest { form.height ≤ most_rows }
        requires bytes { form.bytes_per_line ≡ line_bytes form.width (row_of form.kind).bits_per_pixel }
        ensures form { OnOk result (current_form self.new ≡ Some form) }
        ensures lines { OnOk result (lines_left_of self.new ≡ form.height) }
        ensures left { OnErr result (lines_left_of self.new ≡ lines_left_of self.old) }
        ensures unread { self.new.unread ≡ self.old.unread }
        ensures page { page_of self.new ≡ page_of self.old }
        ensures unended { has_ended self.new ≡ has_ended self.old }
        ensures going { stop_of self.new ≡ None }
    {
        match &mut self.lines {
            Some(lines) => lines.restart(form)?,
            None => self.lines = Some(LineReader::begin(self.alloc, form)?),
        }
        self.given = 0;
        Ok(())
    }

    /// Reads the next group of the page's lines and returns its repeats, 1 to 256. `line` returns its line.
    ///
    /// It returns `StreamStop::Memory` only if an earlier call did.
    pub fn next_line<S: Source>(&mut self, source: &mut S) -> Result<u32, StreamStop>
        requires { 0 < lines_left_of self.old }

        ensures lines { IfOk result (GivesLines self.old self.new (S.left source.old) (S.left source.new)) }
        ensures input { stop_of self.old ≡ None → OnInput result (HasLineFault self.old (S.left source.old)) }
        ensures read { stop_of self.old ≡ None → IsErrOf result stop.Read
            → Rose (S.faults source.old) (S.faults source.new) }
        ensures taken { stop_of self.old ≡ None → IsErrOf result stop.Read
            → TakesNoGroup self.old (S.left source.old) (S.left source.new) }
        ensures memory { stop_of self.old ≡ None → IsErrOf result stop.Memory → ⊥ }

        ensures used { UsesSome (text_of self.old (S.left source.old)) (text_of self.new (S.left source.new)) }
        ensures later { S.faults source.old ≤ S.faults source.new }
        ensures left { OnErr result (lines_left_of self.new ≡ lines_left_of self.old) }

        // After a stop each later call returns the same stop.
        ensures going { OnOk result (stop_of self.new ≡ None) }
        ensures stop { IfErr result (λ stop. stop_of self.new ≡ Some stop) }
        ensures again { (stop : StreamStop) → stop_of self.old ≡ Some stop → (result ≡ Err stop) × (self.new ≡ self.old)
            × (source.new ≡ source.old) }
    {
        if let Some(stop) = self.stop {
            return Err(stop);
        }
        match &mut self.lines {
            None => unreachable!(),
            Some(lines) => match read_group(&mut self.unread, lines, source) {
                Ok(repeats) => {
                    self.given += repeats;
                    Ok(repeats)
                }
                Err(fault) => {
                    let stop = stop_at(self.page, self.given + 1, fault);
                    self.stop = Some(stop);
                    Err(stop)
                }
            },
        }
    }

    /// How many lines of the page are not yet read: 0 if no page was begun.
    pub fn lines_left(&self) -> u32
        ensures { result ≡ lines_left_of self.now }
    {
        match &self.lines {
            Some(lines) => lines.lines_left(),
            None => 0,
        }
    }

    /// The line that `next_line` read, until the reader is called again to read.
    pub fn line(&self) -> &[u8]
        ensures line { result.now ≡ line_of self.now }
        ensures sized { (form : PageForm) → current_form self.now ≡ Some form → length result.now ≡ form.bytes_per_line }
    {
        match &self.lines {
            Some(lines) => lines.line(),
            None => &[],
        }
    }
}
