//! A page of one black line and one white line, and a stream that ends inside it.
use diffusion_kernel::Kernel;
use halftone_reader::{HalftonedPage, read_page};
use printer_profile::TINY1;
use pwg_definitions::InputCause;
use pwg_stream::{PageReader, StreamStop};
use std::alloc::Global;
use std::process::Abort;
use std::test::Fail;
use std::thread::Threads;
use weave_base::MemSource;
use worker_team::{OpenGate, Team};

/// What is not 0 in the numbers of a header for eight columns and two lines of grey, by places in a stream, in which
/// the header begins at byte 4 (PWG 5102.4, section 4.3).
const NUMBERS: [(usize, u8); 14] = [
    (282, 1),
    (283, 0x68),
    (286, 1),
    (287, 0x68),
    (347, 1),
    (379, 8),
    (383, 2),
    (391, 8),
    (395, 8),
    (399, 8),
    (407, 18),
    (427, 1),
    (463, 1),
    (467, 1),
];

/// The sync word, the header, and these bytes of lines.
fn stream(alloc: Global, lines: &[u8]) -> Result<MemSource, Fail> {
    let mut bytes = Vec::from_slice(alloc, b"RaS2PwgRaster")?;
    bytes.resize(1800, 0)?;
    for &(place, number) in &NUMBERS {
        if let Some(at) = bytes.get_mut(place) {
            *at = number;
        }
    }
    bytes.extend_from_slice(lines)?;
    Ok(MemSource::make(bytes, Vec::new(alloc), Vec::new(alloc)))
}

/// Reads the first page of a stream with these bytes of lines.
fn read<R: Abort + Threads + Sync>(
    rt: &R,
    alloc: Global,
    lines: &[u8],
) -> Result<Result<Option<HalftonedPage>, StreamStop>, Fail> {
    let mut s = stream(alloc, lines)?;
    assert!(rt; TINY1.check().is_ok());
    let Ok(mut reader) = PageReader::begin(alloc, &mut s) else {
        return Err("no sync word")?;
    };
    let team = Team {
        threads: rt,
        workers: 2,
        gate: &OpenGate,
    };
    Ok(read_page(&team, alloc, &mut reader, &TINY1, Kernel::Floyd, 0, &mut s))
}

#[test]
fn a_black_line_is_all_dots_and_a_white_line_none(rt: HostRuntime) -> Result<(), Fail> {
    let page = read(&rt, rt.alloc(), &[0, 7, 0x00, 0, 7, 0xFF])?;
    let planes = page?.ok_or("no page")?.planes;
    assert!(rt; planes.inks() == 1 && planes.width() == 8 && planes.rows() == 2);
    let is_right = planes.row(0, 0) == [0xFF].as_slice() && planes.row(0, 1) == [0].as_slice();
    assert!(rt; is_right, "the dots");
    Ok(())
}

#[test]
fn a_stream_that_ends_in_a_page_stops_at_its_line(rt: HostRuntime) -> Result<(), Fail> {
    let stop = read(&rt, rt.alloc(), &[0, 7, 0x00])?.err();
    let cut = StreamStop::Input {
        page: 1,
        line: 2,
        cause: InputCause::Truncated,
    };
    assert!(rt; stop == Some(cut));
    Ok(())
}
