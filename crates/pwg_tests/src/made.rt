//! Made streams, appended and read as a source. A program outside this repository computed the expected results.
use crate::checks::{WANT, same, same_bytes};
use hash_fixtures::hash_of;
use page_maker::{PageMaker, made_form, make_pages};
use pwg_header::{HEADER_LEN, Kind, write_header};
use pwg_stream::PageReader;
use std::alloc::Global;
use std::process::Abort;
use std::test::Fail;
use weave_base::Source;

// A made stream: what it is made from, its length in bytes, its checksum, and the checksum of its groups, each its
// repeats and the bytes of its line.
#[derive(Clone, Copy)]
struct Made {
    seed: u32,
    pages: u8,
    width: u32,
    height: u32,
    kind: Kind,
    length: usize,
    sum: u32,
    groups: u32,
}

macro_rules! made {
    ($seed:literal, $pages:literal, $width:literal, $height:literal, $kind:ident, $length:literal, $sum:literal, $groups:literal) => {
        Made {
            seed: $seed,
            pages: $pages,
            width: $width,
            height: $height,
            kind: Kind::$kind,
            length: $length,
            sum: $sum,
            groups: $groups,
        }
    };
}

// Streams of each kind, with all lengths of runs and all repeats.
const MADE: [Made; 7] = [
    made!(0, 1, 4, 2, Gray8, 1808, 0xCAEC9701, 0x63F1B424),
    made!(1, 2, 300, 40, Gray8, 7635, 0xB1F3390D, 0xB21B327E),
    made!(7, 1, 17, 9, Black8, 1834, 0x968D004B, 0xA9477866),
    made!(123456789, 1, 33, 20, Rgb8, 2094, 0x1929ADB8, 0x8404AC04),
    made!(4294967295, 3, 61, 25, Black1, 5579, 0xA606C11B, 0x2E74AABE),
    made!(42, 1, 19, 11, Cmyk8, 1889, 0xD4BFB463, 0xE101AE09),
    made!(5, 16, 1, 1, Rgb8, 28820, 0x2A95E8A9, 0xDC285E01),
];

// The bytes as the digits of a number in base 31, modulo 2 to the power of 32.
fn checksum(bytes: &[u8]) -> u32 {
    let mut sum = 0u32;
    for byte in bytes {
        sum = sum.wrapping_mul(31).wrapping_add(u32::from(*byte));
    }
    sum
}

// Appends the stream.
fn push_made(made: &Made, out: &mut Vec<u8>) -> Result<(), Fail> {
    let Made {
        seed,
        pages,
        width,
        height,
        kind,
        ..
    } = *made;
    make_pages(seed, pages, width.min(8191), height, kind, 360, 360, out)?;
    Ok(())
}

// The stream as a source.
fn maker_of(alloc: Global, made: &Made) -> Result<PageMaker, Fail> {
    let form = made_form(made.width.min(8191), made.height, made.kind);
    Ok(PageMaker::make(alloc, made.seed, made.pages, form, 360, 360)?)
}

#[test]
fn seed_zero_is_appended(rt: HostRuntime) -> Result<(), Fail> {
    let mut out = Vec::from_slice(rt.alloc(), &[9])?;
    push_made(&MADE[0], &mut out)?;
    let mut header = [0; HEADER_LEN];
    write_header(&made_form(4, 2, Kind::Gray8), 360, 360, &mut header);
    let mut wanted = Vec::from_slice(rt.alloc(), b"\x09RaS2")?;
    wanted.extend_from_slice(&header)?;
    wanted.extend_from_slice(&[0x00, 0x03, 0xD1, 0x00, 0x02, 0x9F, 0x00, 0xA3])?;
    same_bytes(&rt, "the stream", out.as_slice(), wanted.as_slice());
    Ok(())
}

#[test]
fn each_kind_is_made(rt: HostRuntime) -> Result<(), Fail> {
    for made in &MADE {
        let mut out = Vec::new(rt.alloc());
        push_made(made, &mut out)?;
        let got = (out.len(), checksum(out.as_slice()));
        same(&rt, "a stream", &got, &(made.length, made.sum));
    }
    Ok(())
}

#[test]
fn a_grey_page_of_seed_seven_is_made(rt: HostRuntime) -> Result<(), Fail> {
    let mut out = Vec::new(rt.alloc());
    make_pages(7, 1, 200, 70, Kind::Gray8, 360, 360, &mut out)?;
    let got = (out.len(), hash_of(out.as_slice()));
    same(&rt, "the stream", &got, &(4343, 0x77FB_E70E_4D6D_6154));
    Ok(())
}

// Reads the stream as pages, whose forms are to be the made one, and appends the groups of all. It gives the number of
// pages.
fn read_pages(
    rt: &impl Abort,
    alloc: Global,
    made: &Made,
    groups: &mut Vec<u8>,
) -> Result<u8, Fail> {
    let form = made_form(made.width.min(8191), made.height, made.kind);
    let mut maker = maker_of(alloc, made)?;
    let mut reader = PageReader::begin(alloc, &mut maker)?;
    let mut pages = 0u8;
    for _ in 0..2_000 {
        if reader.lines_left() > 0 {
            let repeats = reader.next_line(&mut maker)?;
            groups.push(u8::try_from(repeats).unwrap_or(0))?;
            groups.extend_from_slice(reader.line())?;
        } else if let Some(read) = reader.next_page(&mut maker, WANT)? {
            same(rt, "a form", &read, &form);
            pages = pages.saturating_add(1);
        } else {
            return Ok(pages);
        }
    }
    Ok(0)
}

#[test]
fn made_pages_are_read(rt: HostRuntime) -> Result<(), Fail> {
    for made in &MADE {
        let mut groups = Vec::new(rt.alloc());
        let pages = read_pages(&rt, rt.alloc(), made, &mut groups)?;
        let got = (pages, checksum(groups.as_slice()));
        same(&rt, "the pages", &got, &(made.pages, made.groups));
    }
    Ok(())
}

// Reads the whole stream by reads of this length, and appends what they give.
fn read_cut(alloc: Global, made: &Made, length: usize, out: &mut Vec<u8>) -> Result<(), Fail> {
    let mut maker = maker_of(alloc, made)?;
    let mut buffer = vec![in alloc; 0; length]?;
    for _ in 0..10_000 {
        let count = maker.read(&mut buffer)?;
        out.extend_from_slice(&buffer[..count])?;
    }
    Ok(())
}

#[test]
fn reads_of_any_length_give_the_same_bytes(rt: HostRuntime) -> Result<(), Fail> {
    let made = &MADE[1];
    for length in [1, 2, 3, 7, 64, 1795, 1796, 1797, 9000] {
        let mut out = Vec::new(rt.alloc());
        read_cut(rt.alloc(), made, length, &mut out)?;
        let got = (out.len(), checksum(out.as_slice()));
        same(&rt, "reads of a length", &got, &(made.length, made.sum));
    }
    Ok(())
}
