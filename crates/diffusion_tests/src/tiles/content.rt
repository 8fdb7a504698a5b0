//! A tile's dots, made with ample memory.
use crate::checks::same;
use dot_planes::TileBits;
use std::test::Fail;

#[test]
fn the_dots_of_a_tile_are_made_as_256_zero_bytes_in_each_ink(rt: HostRuntime) -> Result<(), Fail> {
    for inks in 1..5 {
        let bits = TileBits::make(rt.alloc(), inks)?;
        same(&rt, "the inks", &bits.inks(), &inks);
        for ink in 0..bits.inks() {
            same(&rt, "an ink", bits.ink(ink), &[0; 256]);
        }
    }
    Ok(())
}
