//! Streams read whole and in pieces, and where they stop.
use crate::checks::{WANT, same, same_bytes};
use pwg_definitions::{HeaderFault, InputCause, LineFault};
use pwg_header::{HEADER_LEN, Kind, PageForm, write_header};
use pwg_stream::{PageReader, StreamStop};
use std::alloc::Global;
use std::process::Abort;
use std::test::Fail;
use weave_base::MemSource;

// A page's kind, width, height, and the bytes of a line.
macro_rules! form {
    ($kind:ident, $width:literal, $height:literal, $bytes_per_line:literal) => {
        PageForm {
            width: $width,
            height: $height,
            kind: Kind::$kind,
            bytes_per_line: $bytes_per_line,
        }
    };
}

// A page: its form, and the bytes of its groups.
type PageBytes = (PageForm, &'static [u8]);

const TWO_PAGES: [PageBytes; 2] = [
    (
        form!(Gray8, 4, 6, 4),
        &[
            0x01, 0xFD, 0x01, 0x02, 0x03, 0x04, 0x00, 0x01, 0x05, 0x80, 0x02, 0x03, 0x07,
        ],
    ),
    (form!(Gray8, 2, 1, 2), &[0x00, 0x80]),
];

// Appends a page to a stream.
fn push_page(stream: &mut Vec<u8>, page: &PageBytes) -> Result<(), Fail> {
    let mut header = [0; HEADER_LEN];
    write_header(&page.0, 360, 360, &mut header);
    stream.extend_from_slice(&header)?;
    stream.extend_from_slice(page.1)?;
    Ok(())
}

// The bytes of a stream of these pages.
fn stream_of(alloc: Global, pages: &[PageBytes]) -> Result<Vec<u8>, Fail> {
    let mut stream = Vec::from_slice(alloc, b"RaS2")?;
    for page in pages {
        push_page(&mut stream, page)?;
    }
    Ok(stream)
}

// A source of these bytes: whether it gives one byte a call, and which call fails, 0 for none.
fn source(alloc: Global, bytes: Vec<u8>, is_slow: bool, failing: u32) -> Result<MemSource, Fail> {
    let mut pieces = Vec::new(alloc);
    if is_slow {
        pieces.push(1)?;
    }
    let mut fails = Vec::new(alloc);
    fails.push(failing)?;
    Ok(MemSource::make(bytes, pieces, fails))
}

// What a call of a reader gave.
#[derive(Clone, Copy, Debug, PartialEq)]
enum Given {
    Page(PageForm),
    Lines(u32),
    End,
    Stop(StreamStop),
}

// Reads the next group, and appends its repeats and its line; or, where no line is left, the next page.
fn next(
    reader: &mut PageReader,
    source: &mut MemSource,
    groups: &mut Vec<u8>,
) -> Result<Given, Fail> {
    if reader.lines_left() == 0 {
        return Ok(match reader.next_page(source, WANT) {
            Ok(Some(form)) => Given::Page(form),
            Ok(None) => Given::End,
            Err(stop) => Given::Stop(stop),
        });
    }
    match reader.next_line(source) {
        Ok(repeats) => {
            groups.push(u8::try_from(repeats).unwrap_or(0))?;
            groups.extend_from_slice(reader.line())?;
            Ok(Given::Lines(repeats))
        }
        Err(stop) => Ok(Given::Stop(stop)),
    }
}

#[test]
fn a_page_is_given_group_by_group(rt: HostRuntime) -> Result<(), Fail> {
    const GREY: PageForm = form!(Gray8, 2, 3, 2);
    const COLOURS: PageForm = form!(Rgb8, 2, 1, 6);
    const PAGES: [PageBytes; 2] = [
        (GREY, &[0x01, 0x01, 0x07, 0x00, 0x80]),
        (COLOURS, &[0x00, 0x01, 0x01, 0x02, 0x03]),
    ];
    // what each call gives, and how many lines are then left
    const CALLS: [(Given, u32); 7] = [
        (Given::Page(GREY), 3),
        (Given::Lines(2), 1),
        (Given::Lines(1), 0),
        (Given::Page(COLOURS), 1),
        (Given::Lines(1), 0),
        (Given::End, 0),
        (Given::End, 0),
    ];
    let mut source = source(rt.alloc(), stream_of(rt.alloc(), &PAGES)?, false, 0)?;
    let mut reader = PageReader::begin(rt.alloc(), &mut source)?;
    let mut groups = Vec::new(rt.alloc());
    for wanted in &CALLS {
        let given = next(&mut reader, &mut source, &mut groups)?;
        same(&rt, "a call", &(given, reader.lines_left()), wanted);
    }
    let wanted = [2, 7, 7, 1, 255, 255, 1, 1, 2, 3, 1, 2, 3];
    same_bytes(&rt, "the groups", groups.as_slice(), &wanted);
    Ok(())
}

// Reads to the end or a stop.
fn read_on(
    reader: &mut PageReader,
    source: &mut MemSource,
    groups: &mut Vec<u8>,
) -> Result<Given, Fail> {
    let mut given = Given::Lines(0);
    for _ in 0..20_000 {
        if matches!(given, Given::Page(_) | Given::Lines(_)) {
            given = next(reader, source, groups)?;
        }
    }
    Ok(given)
}

// Reads a stream to the end or a stop, which a further call gives again, and appends its groups.
fn read_all(
    rt: &impl Abort,
    alloc: Global,
    mut source: MemSource,
    groups: &mut Vec<u8>,
) -> Result<Given, Fail> {
    let mut reader = match PageReader::begin(alloc, &mut source) {
        Ok(reader) => reader,
        Err(stop) => return Ok(Given::Stop(stop)),
    };
    let given = read_on(&mut reader, &mut source, groups)?;
    let length = groups.len();
    let again = read_on(&mut reader, &mut source, groups)?;
    assert!(rt; again == given && groups.len() == length);
    Ok(given)
}

// Reads the stream of these pages.
fn read_pages(
    rt: &impl Abort,
    alloc: Global,
    pages: &[PageBytes],
    (is_slow, failing): (bool, u32),
    groups: &mut Vec<u8>,
) -> Result<Given, Fail> {
    let source = source(alloc, stream_of(alloc, pages)?, is_slow, failing)?;
    read_all(rt, alloc, source, groups)
}

// The stream of these pages gives these groups, read whole and a byte a call.
fn gives(rt: &impl Abort, alloc: Global, pages: &[PageBytes], wanted: &[u8]) -> Result<(), Fail> {
    for is_slow in [false, true] {
        let mut groups = Vec::new(alloc);
        let given = read_pages(rt, alloc, pages, (is_slow, 0), &mut groups)?;
        same(rt, "the end", &given, &Given::End);
        same_bytes(rt, "the groups", groups.as_slice(), wanted);
    }
    Ok(())
}

#[test]
fn pieces_give_the_same_pages(rt: HostRuntime) -> Result<(), Fail> {
    const GROUPS: [u8; 18] = [2, 1, 2, 3, 4, 1, 5, 5, 255, 255, 3, 7, 7, 7, 7, 1, 255, 255];
    gives(&rt, rt.alloc(), &TWO_PAGES, &GROUPS)
}

#[test]
fn pages_of_five_kinds_follow_each_other(rt: HostRuntime) -> Result<(), Fail> {
    const PAGES: [PageBytes; 5] = [
        (form!(Gray8, 2, 1, 2), &[0x00, 0x80]),
        (form!(Cmyk8, 2, 1, 8), &[0x00, 0x01, 0x01, 0x02, 0x03, 0x04]),
        (form!(Black1, 9, 1, 2), &[0x00, 0xFF, 0xA5, 0xFF]),
        (form!(Rgb8, 1, 2, 3), &[0x01, 0x00, 0x01, 0x02, 0x03]),
        (form!(Black8, 2, 1, 2), &[0x00, 0x80]),
    ];
    const GROUPS: [u8; 22] = [
        1, 255, 255, // grey
        1, 1, 2, 3, 4, 1, 2, 3, 4, // four inks
        1, 0xA5, 0xFF, // bits
        2, 1, 2, 3, // colours
        1, 0, 0, // black
    ];
    gives(&rt, rt.alloc(), &PAGES, &GROUPS)
}

// Reads of which one fails: whether each gives one byte, and not all; the first and the last call that is to fail; how
// reading then ends; and how many bytes of groups were given.
type Failing = (bool, u32, u32, Given, usize);

// Reads a stream whose call of this number fails.
fn fails_at(
    rt: &impl Abort,
    alloc: Global,
    stream: &[u8],
    call: u32,
    (is_slow, _, _, wanted, length): Failing,
) -> Result<(), Fail> {
    let source = source(alloc, Vec::from_slice(alloc, stream)?, is_slow, call)?;
    let mut groups = Vec::new(alloc);
    let given = read_all(rt, alloc, source, &mut groups)?;
    same(
        rt,
        "a failing call",
        &(given, groups.len()),
        &(wanted, length),
    );
    Ok(())
}

// The same for the first and for the last call of a row.
fn fails_at_ends(rt: &impl Abort, alloc: Global, stream: &[u8], row: Failing) -> Result<(), Fail> {
    fails_at(rt, alloc, stream, row.1, row)?;
    fails_at(rt, alloc, stream, row.2, row)
}

// The same for each row of a table.
fn fails_so(rt: &impl Abort, alloc: Global, stream: &[u8], rows: &[Failing]) -> Result<(), Fail> {
    for row in rows {
        fails_at_ends(rt, alloc, stream, *row)?;
    }
    Ok(())
}

const READ: Given = Given::Stop(StreamStop::Read);

#[test]
fn a_failing_read_leaves_all_whole_groups(rt: HostRuntime) -> Result<(), Fail> {
    // the groups of the first page end at 1806, 1810 and 1813, and the second page at 3611
    const ROWS: [Failing; 7] = [
        (true, 1, 1806, READ, 0),
        (true, 1807, 1810, READ, 5),
        (true, 1811, 1813, READ, 10),
        (true, 1814, 3611, READ, 15),
        (true, 3612, 3612, READ, 18),
        (true, 3613, 3613, Given::End, 18),
        (false, 2, 2, READ, 18),
    ];
    let stream = stream_of(rt.alloc(), &TWO_PAGES)?;
    fails_so(&rt, rt.alloc(), stream.as_slice(), &ROWS)
}

// Reads a stream, which is to end or to stop so.
fn ends(rt: &impl Abort, alloc: Global, stream: Vec<u8>, wanted: Given) -> Result<(), Fail> {
    let source = source(alloc, stream, false, 0)?;
    let given = read_all(rt, alloc, source, &mut Vec::new(alloc))?;
    same(rt, "the end of a stream", &given, &wanted);
    Ok(())
}

// A fault of a stream.
fn fault(page: u32, line: u32, cause: InputCause) -> Given {
    Given::Stop(StreamStop::Input { page, line, cause })
}

#[test]
fn a_short_input_is_bad_sync(rt: HostRuntime) -> Result<(), Fail> {
    let bad = fault(0, 0, InputCause::BadSync);
    let streams: [(&[u8], Given); 3] = [(b"", bad), (b"Ra", bad), (b"RaS2", Given::End)];
    for (bytes, wanted) in streams {
        ends(&rt, rt.alloc(), Vec::from_slice(rt.alloc(), bytes)?, wanted)?;
    }
    Ok(())
}

#[test]
fn a_bad_sync_word_comes_before_a_failed_read(rt: HostRuntime) -> Result<(), Fail> {
    let bad = fault(0, 0, InputCause::BadSync);
    let rows = [
        (true, 1, 4, READ, 0),
        (true, 5, 5, bad, 0),
        (false, 2, 2, bad, 0),
    ];
    fails_so(&rt, rt.alloc(), b"XaS2", &rows)
}

#[test]
fn a_refused_header_comes_before_a_failed_read(rt: HostRuntime) -> Result<(), Fail> {
    let bad = fault(1, 0, InputCause::Header(HeaderFault::NotPwg));
    let rows = [
        (true, 1, 1800, READ, 0),
        (true, 1801, 1801, bad, 0),
        (false, 2, 2, bad, 0),
    ];
    let mut stream = stream_of(rt.alloc(), &[])?;
    stream.extend_from_slice(&[0; HEADER_LEN])?;
    fails_so(&rt, rt.alloc(), stream.as_slice(), &rows)
}

#[test]
fn a_refused_line_comes_before_a_failed_read(rt: HostRuntime) -> Result<(), Fail> {
    // The first group ends at 1803, and the second is refused at its second byte.
    const PAGE: PageBytes = (form!(Gray8, 2, 3, 2), &[0x01, 0x01, 0x07, 0x00, 0x02]);
    let bad = fault(1, 3, InputCause::Line(LineFault::RunPastLine));
    let rows = [
        (true, 1, 1803, READ, 0),
        (true, 1804, 1805, READ, 3),
        (true, 1806, 1806, bad, 3),
        (false, 2, 2, bad, 3),
    ];
    let stream = stream_of(rt.alloc(), &[PAGE])?;
    fails_so(&rt, rt.alloc(), stream.as_slice(), &rows)
}

// A stream of the most pages, and a byte behind them.
fn many_pages(alloc: Global) -> Result<Vec<u8>, Fail> {
    let mut stream = stream_of(alloc, &[])?;
    for _ in 0..9999 {
        push_page(&mut stream, &(form!(Gray8, 1, 1, 1), &[0x00, 0x00, 0x99]))?;
    }
    stream.push(0x50)?;
    Ok(stream)
}

#[test]
fn a_byte_after_page_9999_is_too_many_pages(rt: HostRuntime) -> Result<(), Fail> {
    let wanted = fault(10_000, 0, InputCause::TooManyPages);
    ends(&rt, rt.alloc(), many_pages(rt.alloc())?, wanted)
}

// The two pages, and a header without its last byte.
fn short_header(alloc: Global) -> Result<Vec<u8>, Fail> {
    let mut stream = stream_of(alloc, &TWO_PAGES)?;
    push_page(&mut stream, &(form!(Gray8, 8, 6, 8), &[]))?;
    let _last = stream.pop();
    Ok(stream)
}

#[test]
fn a_short_header_is_truncated(rt: HostRuntime) -> Result<(), Fail> {
    let wanted = fault(3, 0, InputCause::Truncated);
    ends(&rt, rt.alloc(), short_header(rt.alloc())?, wanted)
}

#[test]
fn a_stop_in_a_page_has_its_line(rt: HostRuntime) -> Result<(), Fail> {
    const RUN: InputCause = InputCause::Line(LineFault::RunPastLine);
    const GROUP: InputCause = InputCause::Line(LineFault::GroupPastPage);
    const CUT: InputCause = InputCause::Truncated;
    const COLOURS: PageForm = form!(Rgb8, 2, 2, 6);
    const CASES: [(PageBytes, u32, InputCause); 5] = [
        ((form!(Gray8, 8, 6, 8), &[0x00, 0x08, 0x00]), 1, RUN),
        ((form!(Gray8, 8, 255, 8), &[0xFF, 0x07, 0x00]), 1, GROUP),
        ((form!(Gray8, 2, 3, 2), &[0x01, 0x01, 0x07, 0x00]), 3, CUT),
        ((COLOURS, &[0x00, 0x80, 0x00, 0x01, 0x01, 0x02]), 2, CUT),
        (
            (COLOURS, &[0x00, 0x80, 0x00, 0x02, 0x01, 0x02, 0x03]),
            2,
            RUN,
        ),
    ];
    for &(page, line, cause) in &CASES {
        let stream = stream_of(rt.alloc(), &[page])?;
        ends(&rt, rt.alloc(), stream, fault(1, line, cause))?;
    }
    Ok(())
}
