//! Headers by their fields and by their bytes.
use crate::checks::same_bytes;
use pwg_header::{
    HEADER_LEN, Header, HeaderFault, Kind, PageForm, Wanted, check, read_header, write_header,
};

const WANTED: Wanted = Wanted {
    hdpi: 360,
    vdpi: 720,
    least_width: 2,
    most_width: 8191,
    least_height: 3,
    most_height: 200,
};

const ANY_WIDTH: Wanted = Wanted {
    most_width: u32::MAX,
    ..WANTED
};

// The fields of a page in red, green and blue.
const COLOURS: Header = Header {
    is_pwg: true,
    hres: 360,
    vres: 720,
    width: 8191,
    height: 30,
    bits_per_color: 8,
    bits_per_pixel: 24,
    bytes_per_line: 24573,
    color_order: 0,
    color_space: 19,
    cross_transform: 1,
    feed_transform: 0,
};

const ONE_BYTE_A_PIXEL: Header = Header {
    bits_per_pixel: 8,
    bytes_per_line: 8191,
    ..COLOURS
};

const WIDEST: Header = Header {
    width: u32::MAX,
    bytes_per_line: u32::MAX,
    ..COLOURS
};

const MOST_BITS: Header = Header {
    bits_per_pixel: u32::MAX,
    ..WIDEST
};

const FORM: PageForm = PageForm {
    width: 8191,
    height: 30,
    kind: Kind::Rgb8,
    bytes_per_line: 24573,
};

#[test]
fn a_header_gives_its_form_or_its_fault_and_the_widest_does_not_overflow(rt: HostRuntime) {
    const CASES: [(Header, Wanted, Result<PageForm, HeaderFault>); 4] = [
        (COLOURS, WANTED, Ok(FORM)),
        (ONE_BYTE_A_PIXEL, WANTED, Err(HeaderFault::Kind)),
        (WIDEST, ANY_WIDTH, Err(HeaderFault::BytesPerLine)),
        (MOST_BITS, ANY_WIDTH, Err(HeaderFault::Kind)),
    ];
    for (header, wanted, answer) in &CASES {
        assert!(rt; check(header, *wanted) == *answer, "at {header:?}");
    }
}

#[test]
fn what_is_written_is_read(rt: HostRuntime) {
    const SMALL: PageForm = PageForm {
        width: 0x51,
        height: 3,
        kind: Kind::Rgb8,
        bytes_per_line: 0xF3,
    };
    let mut bytes = [0xFF; HEADER_LEN];
    write_header(&SMALL, 360, 720, &mut bytes);
    same_bytes(&rt, "its name", &bytes[..12], b"PwgRaster\0\0\0");
    let resolution = [0, 0, 1, 0x68, 0, 0, 2, 0xD0];
    same_bytes(&rt, "its resolution", &bytes[276..284], &resolution);
    let pixels = [
        0, 0, 0, 8, 0, 0, 0, 24, 0, 0, 0, 0xF3, 0, 0, 0, 0, 0, 0, 0, 19,
    ];
    same_bytes(&rt, "its pixels", &bytes[384..404], &pixels);
    same_bytes(&rt, "its colours", &bytes[420..424], &[0, 0, 0, 3]);
    assert!(rt; check(&read_header(&bytes), WANTED) == Ok(SMALL));
}

// A page of 9 by 3 pixels: its kind, and the bytes of a line.
macro_rules! form {
    ($kind:ident, $bytes_per_line:literal) => {
        PageForm {
            width: 9,
            height: 3,
            kind: Kind::$kind,
            bytes_per_line: $bytes_per_line,
        }
    };
}

#[test]
fn each_kind_is_written_with_its_colours_and_read_back(rt: HostRuntime) {
    // a form, and its NumColors
    const CASES: [(PageForm, u8); 5] = [
        (form!(Gray8, 9), 1),
        (form!(Black8, 9), 1),
        (form!(Rgb8, 27), 3),
        (form!(Black1, 2), 1),
        (form!(Cmyk8, 36), 4),
    ];
    let mut bytes = [0xFF; HEADER_LEN];
    for (form, colours) in &CASES {
        write_header(form, 360, 720, &mut bytes);
        same_bytes(&rt, "its colours", &bytes[420..424], &[0, 0, 0, *colours]);
        assert!(rt;
            check(&read_header(&bytes), WANTED) == Ok(*form),
            "at {form:?}"
        );
    }
}

// The fields of a page of 8,191 pixels a line: its colour space, its bits, and the bytes of a line.
macro_rules! pixels {
    ($space:literal, $bits_per_color:literal, $bits_per_pixel:literal, $bytes_per_line:literal) => {
        Header {
            color_space: $space,
            bits_per_color: $bits_per_color,
            bits_per_pixel: $bits_per_pixel,
            bytes_per_line: $bytes_per_line,
            ..COLOURS
        }
    };
}

#[test]
fn other_pixels_and_other_lengths_of_lines_are_refused(rt: HostRuntime) {
    const CASES: [(Header, HeaderFault); 8] = [
        // grey of one bit, black of 16 bits, colours of a device, and four inks in three bytes
        (pixels!(18, 1, 1, 1024), HeaderFault::Kind),
        (pixels!(3, 16, 16, 16382), HeaderFault::Kind),
        (pixels!(17, 8, 24, 24573), HeaderFault::Kind),
        (pixels!(6, 8, 24, 24573), HeaderFault::Kind),
        (pixels!(6, 8, 32, 32763), HeaderFault::BytesPerLine),
        (pixels!(6, 8, 32, 32765), HeaderFault::BytesPerLine),
        (pixels!(3, 1, 1, 1023), HeaderFault::BytesPerLine),
        (pixels!(3, 1, 1, 1025), HeaderFault::BytesPerLine),
    ];
    for (header, fault) in &CASES {
        assert!(rt; check(header, WANTED) == Err(*fault), "at {header:?}");
    }
}
