//! Pages that are printed and then played: the images have the dots that the page asks for.
use crate::any_printer::{PLAINEST, Printer};
use crate::fixture::{leaves, run_bytes, text_shelf};
use crate::grid::Grid;
use crate::pictures::{Picture, print_picture};
use crate::plain::{INKS, KERNELS, Screening, wanted};
use driver_fixtures::Left;
use pwg_header::Kind;
use std::alloc::{AllocError, Global};
use std::process::Abort;
use std::test::Fail;
use std::thread::Threads;
use weave_base::InkSet;

// Appends a row of an image.
fn add_row(dots: &Grid, y: i64, image: &mut Vec<u8>) -> Result<(), AllocError> {
    let mut x: i64 = 0;
    for _ in 0..dots.width.wrapping_add(7).div_euclid(8) {
        let mut byte = 0;
        for mask in [0x80, 0x40, 0x20, 0x10, 8, 4, 2, 1] {
            if dots.get(x, y) != 0 {
                byte |= mask;
            }
            x = x.wrapping_add(1);
        }
        image.extend_from_slice(&[byte])?;
    }
    Ok(())
}

// Appends the image of a sheet of this many rows, which has these dots below the top margin.
fn add_image(
    alloc: Global,
    dots: &Grid,
    rows: u32,
    top: u16,
    image: &mut Vec<u8>,
) -> Result<(), AllocError> {
    let header = format!(in alloc; "P4\n{} {}\n", dots.width, rows)?;
    image.extend_from_slice(header.as_bytes())?;
    for y in 0..rows {
        add_row(dots, i64::from(y).wrapping_sub(i64::from(top)), image)?;
    }
    Ok(())
}

// The images of a sheet that has the dots that the picture asks for.
fn images_of(
    alloc: Global,
    printer: &Printer,
    picture: &Picture,
    how: &Screening,
) -> Result<Vec<u8>, Fail> {
    let mut images = Vec::new(alloc);
    for &ink in &INKS {
        let dots = wanted(alloc, printer, picture, how, ink)?;
        add_image(alloc, &dots, picture.height, printer.top, &mut images)?;
    }
    Ok(images)
}

// Prints a picture and plays the job.
fn played<R: Abort + Threads + Sync>(
    rt: &R,
    alloc: Global,
    printer: &Printer,
    picture: &Picture,
    how: &Screening,
) -> Result<Left, Fail> {
    let job = print_picture(rt, alloc, printer, picture, how)?;
    assert!(rt; job.status == 0);
    let text = printer.text(alloc)?;
    let job = job.out.bytes().to_vec(alloc)?;
    let shelf = text_shelf(alloc, text.as_bytes())?;
    let words = ["dots", "profile=m1.txt"];
    Ok(run_bytes(rt, alloc, &words, job, shelf)?)
}

// Asserts that the images of a printed picture have the dots that it asks for, with each kernel.
fn plays_its_dots<R: Abort + Threads + Sync>(
    rt: &R,
    alloc: Global,
    printer: &Printer,
    picture: &Picture,
) -> Result<(), Fail> {
    for how in &KERNELS {
        let left = played(rt, alloc, printer, picture, how)?;
        let images = images_of(alloc, printer, picture, how)?;
        leaves(rt, how.kernel_word, &left, (0, &images, b""));
    }
    Ok(())
}

// Three nozzles two rows apart, and margins.
fn printer_of(inks: InkSet) -> Printer {
    Printer {
        nozzles: 3,
        pitch: 2,
        inks,
        black_start: 64,
        left: 2,
        right: 1,
        top: 5,
        bottom: 3,
        ..PLAINEST
    }
}

// Prints and plays a picture of each kind on a printer with these inks.
fn plays_each_kind<R: Abort + Threads + Sync>(
    rt: &R,
    alloc: Global,
    inks: InkSet,
) -> Result<(), Fail> {
    const KINDS: [(Kind, u64); 3] = [(Kind::Gray8, 7), (Kind::Black8, 8), (Kind::Rgb8, 9)];
    for &(kind, seed) in &KINDS {
        let picture = Picture::random(alloc, kind, (20, 23), seed)?;
        plays_its_dots(rt, alloc, &printer_of(inks), &picture)?;
    }
    Ok(())
}

#[test]
fn printed_pages_are_played_to_their_dots(rt: HostRuntime) -> Result<(), Fail> {
    for inks in [InkSet::K, InkSet::Cmy, InkSet::Cmyk] {
        plays_each_kind(&rt, rt.alloc(), inks)?;
    }
    Ok(())
}
