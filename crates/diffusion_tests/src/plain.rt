//! The plain program against counts and rows that are known from elsewhere.
use diffusion_kernel::Kernel;
use plain_diffusion::{Above, Amounts, Definition};
use std::alloc::Global;

// How many dots a window of one amount has by Floyd and Steinberg, and which its first four pixels have.
fn dots_of(alloc: Global, amount: u8, width: u32, height: u32) -> Option<(u32, [bool; 4])> {
    let (fill, above) = (Amounts::All(amount), Above::Edges(0));
    let known = Definition::make(alloc, Kernel::Floyd, fill, above, width, height)?;
    let mut count = 0u32;
    for y in 0..height {
        for x in 0..width {
            count = count.wrapping_add(u32::from(known.dot(i64::from(x), i64::from(y))));
        }
    }
    let first = [
        known.dot(0, 0),
        known.dot(1, 0),
        known.dot(2, 0),
        known.dot(3, 0),
    ];
    Some((count, first))
}

#[test]
fn even_amounts_have_the_known_dots(rt: HostRuntime) {
    // an amount, columns and rows, and the dots, of which an independent program computed the first
    const WINDOWS: [(u8, u32, u32, u32, [bool; 4]); 2] = [
        (100, 200, 70, 5478, [false, true, false, false]),
        (128, 4, 1, 2, [true, false, true, false]),
    ];
    for &(amount, width, height, count, first) in &WINDOWS {
        let dots = dots_of(rt.alloc(), amount, width, height);
        assert!(rt;
            dots == Some((count, first)),
            "{amount} in {width} by {height}"
        );
    }
}

#[test]
fn what_is_out_of_range_is_refused(rt: HostRuntime) {
    const CASES: [(i16, u32, u32); 4] = [(-2041, 1, 1), (2040, 1, 1), (0, 65536, 1), (0, 1, 65536)];
    for &(error, width, height) in &CASES {
        let (kernel, fill) = (Kernel::Floyd, Amounts::All(0));
        let known = Definition::make(rt.alloc(), kernel, fill, Above::Edges(error), width, height);
        assert!(rt; known.is_none(), "{width} by {height} below {error}");
    }
}
