//! Pages of each kind of pixel, for each set of inks with each kernel: the job fires exactly the dots that a page
//! asks for.
use crate::any_printer::{PLAINEST, Printer};
use crate::fixture::{BY_TEXT, leaves, run_bytes, text_shelf};
use crate::pictures::{Picture, print_picture, prints_its_dots};
use crate::plain::{GRAINED, KERNELS, PLAIN_FLOYD, Screening};
use driver_fixtures::begin;
use pwg_header::Kind;
use std::alloc::Global;
use std::process::Abort;
use std::test::Fail;
use std::thread::Threads;
use weave_base::InkSet;

const KINDS: [Kind; 5] = [
    Kind::Gray8,
    Kind::Black8,
    Kind::Rgb8,
    Kind::Black1,
    Kind::Cmyk8,
];

// Curves of black, cyan, magenta and yellow: one that is bent, the straight one, one that is full from its second point
// on, and one with flat parts that ends below 255.
const CURVES: [[u16; 17]; 4] = [
    [
        0, 6, 13, 22, 31, 42, 54, 67, 81, 97, 114, 133, 153, 176, 200, 227, 256,
    ],
    [
        0, 16, 32, 48, 64, 80, 96, 112, 128, 144, 160, 176, 192, 208, 224, 240, 256,
    ],
    [
        0, 256, 256, 256, 256, 256, 256, 256, 256, 256, 256, 256, 256, 256, 256, 256, 256,
    ],
    [
        0, 0, 0, 40, 40, 40, 80, 81, 82, 100, 100, 100, 150, 150, 150, 200, 200,
    ],
];

// A printer of one nozzle with these inks, with a black start and limits unlike the simplest printer's.
fn printer_of(inks: InkSet) -> Printer {
    Printer {
        inks,
        black_start: 64,
        limits: (240, 224, 255, 100),
        ..PLAINEST
    }
}

// Prints a picture with each of these kernels.
fn prints_by_each<R: Abort + Threads + Sync>(
    rt: &R,
    alloc: Global,
    printer: &Printer,
    picture: &Picture,
    kernels: &[Screening],
) -> Result<(), Fail> {
    for how in kernels {
        prints_its_dots(rt, alloc, printer, picture, how)?;
    }
    Ok(())
}

// The columns and rows of pictures, the curves of their printer, the seed of the first picture, and the kernels.
type Size = (
    (u32, u32),
    Option<&'static [[u16; 17]; 4]>,
    u64,
    &'static [Screening],
);

// The last rows of the tallest pictures are in a second slab.
const SIZES: [Size; 8] = [
    ((1, 11), None, 1, &KERNELS),
    ((7, 11), None, 1, &KERNELS),
    ((8, 11), None, 1, &KERNELS),
    ((9, 11), None, 1, &KERNELS),
    ((1, 9), None, 1, &GRAINED),
    ((70, 11), None, 1, &GRAINED),
    ((5, 260), None, 1, &GRAINED),
    ((13, 9), Some(&CURVES), 11, &FLOYD),
];

const FLOYD: [Screening; 1] = [PLAIN_FLOYD];

// Prints a picture of each kind.
fn try_size<R: Abort + Threads + Sync>(
    rt: &R,
    alloc: Global,
    inks: InkSet,
    (size, curves, seed, kernels): Size,
) -> Result<(), Fail> {
    let printer = Printer {
        curves,
        ..printer_of(inks)
    };
    for (kind, more) in KINDS.into_iter().zip(0u64..5) {
        let picture = Picture::random(alloc, kind, size, seed.wrapping_add(more))?;
        prints_by_each(rt, alloc, &printer, &picture, kernels)?;
    }
    Ok(())
}

#[test]
fn each_kind_is_printed_by_each_set_and_kernel(rt: HostRuntime) -> Result<(), Fail> {
    for &size in &SIZES {
        for inks in [InkSet::K, InkSet::Cmy, InkSet::Cmyk] {
            try_size(&rt, rt.alloc(), inks, size)?;
        }
    }
    Ok(())
}

#[test]
fn pixels_of_one_bit_are_printed_behind_any_left_margin(rt: HostRuntime) -> Result<(), Fail> {
    let alloc = rt.alloc();
    for left in 1u16..10 {
        let printer = Printer { left, ..PLAINEST };
        for width in [10, 16, 17, 90] {
            let picture = Picture::random(alloc, Kind::Black1, (width, 5), u64::from(left))?;
            prints_its_dots(&rt, alloc, &printer, &picture, &PLAIN_FLOYD)?;
        }
    }
    Ok(())
}

// A page of each kind on a printer of four inks: their stream, and their jobs one after another.
fn five_kinds<R: Threads + Sync>(
    rt: &R,
    alloc: Global,
    printer: &Printer,
) -> Result<(Vec<u8>, Vec<u8>), Fail> {
    let (mut stream, mut jobs) = (begin(alloc)?, Vec::new(alloc));
    for (kind, seed) in KINDS.into_iter().zip(21u64..26) {
        let picture = Picture::random(alloc, kind, (9, 6), seed)?;
        picture.add_to(&mut stream, (360, 360))?;
        let left = print_picture(rt, alloc, printer, &picture, &PLAIN_FLOYD)?;
        jobs.extend_from_slice(left.out.bytes())?;
    }
    Ok((stream, jobs))
}

#[test]
fn a_stream_of_five_kinds_is_printed_page_by_page(rt: HostRuntime) -> Result<(), Fail> {
    let printer = printer_of(InkSet::Cmyk);
    let (stream, jobs) = five_kinds(&rt, rt.alloc(), &printer)?;
    let text = printer.text(rt.alloc())?;
    let shelf = text_shelf(rt.alloc(), text.as_bytes())?;
    let left = run_bytes(&rt, rt.alloc(), &BY_TEXT, stream, shelf)?;
    leaves(&rt, "five kinds", &left, (0, &jobs, b""));
    Ok(())
}

#[test]
fn pages_of_the_greatest_width_are_printed(rt: HostRuntime) -> Result<(), Fail> {
    let alloc = rt.alloc();
    for kind in [Kind::Rgb8, Kind::Black1, Kind::Cmyk8] {
        let picture = Picture::random(alloc, kind, (8191, 2), 5)?;
        prints_by_each(&rt, alloc, &printer_of(InkSet::Cmyk), &picture, &KERNELS)?;
        prints_by_each(&rt, alloc, &printer_of(InkSet::Cmyk), &picture, &GRAINED)?;
    }
    Ok(())
}
