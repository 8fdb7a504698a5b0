//! Images of a sheet of ten columns, whose planes have more columns, and of the sheet of a small job.
ghost use Rattle.dot_emulator.specs.Sheets.{IsBlankFrom};
ghost use Rattle.base_definitions.specs.Limits.{most_columns};
ghost use Rattle.std.specs.Prelude.{◌≡◌};

use crate::checks::same;
use crate::machine::{at_start, run};
use base_definitions::MOST_COLUMNS;
use dot_emulator::{Command, Sheet};
use dot_planes::Planes;
use job_fixtures::{TINY_COMMANDS, TINY_IMAGES, tiny_rows};
use job_player::write_plane;
use std::alloc::Global;
use std::process::Abort;
use std::test::Fail;
use weave_base::{Failed, MemSink};

// A sheet of two rows, with a dot of cyan in the last column of the second.
fn sheet(mut planes: Planes) -> Sheet
    requires width { planes.width ≡ most_columns }
    requires rows { planes.rows ≡ 2 }
    requires inks { planes.inks ≡ 4 }
    requires blank { IsBlankFrom 10 planes }
{
    planes.turn_on(1, 9, 1);
    Sheet {
        rows: 2,
        columns: 10,
        planes,
    }
}

// Writes these inks of a sheet to a sink with this room, which is to hold these bytes then; `done` tells how the last
// write ends.
fn writes(
    rt: &impl Abort,
    alloc: Global,
    (sheet, inks): (&Sheet, &[u8]),
    room: usize,
    (done, bytes): (Result<(), Failed>, &[u8]),
) -> Result<(), Fail> {
    let mut sink = MemSink::make(alloc, room, Vec::new(alloc), Vec::new(alloc))?;
    let mut last = Ok(());
    for ink in inks {
        assert!(rt; *ink < 4 && last == Ok(()));
        last = write_plane(sheet, *ink, &mut sink);
    }
    same(rt, "the end", &last, &done);
    assert!(rt; sink.bytes() == bytes);
    Ok(())
}

#[test]
fn images_have_their_columns_alone(rt: HostRuntime) -> Result<(), Fail> {
    let bytes = b"P4\n10 2\n\x00\x00\x00\x40P4\n10 2\n\x00\x00\x00\x00".as_slice();
    let sheet = sheet(Planes::make(rt.alloc(), MOST_COLUMNS, 2, 4)?);
    writes(&rt, rt.alloc(), (&sheet, &[1, 0]), 24, (Ok(()), bytes))
}

#[test]
fn a_full_sink_ends_an_image(rt: HostRuntime) -> Result<(), Fail> {
    let bytes = b"P4\n10 2\n\x00\x00\x00".as_slice();
    let sheet = sheet(Planes::make(rt.alloc(), MOST_COLUMNS, 2, 4)?);
    writes(&rt, rt.alloc(), (&sheet, &[1]), 11, (Err(Failed), bytes))
}

#[test]
fn dots_gives_four_images_of_a_sheet(rt: HostRuntime) -> Result<(), Fail> {
    let mut emulator = at_start(&rt, rt.alloc());
    for i in 0..15 {
        let given = run(&rt, &mut emulator, TINY_COMMANDS[i], tiny_rows(i))?;
        assert!(rt; given.is_none(), "a sheet at {i}");
    }
    let sheet = run(&rt, &mut emulator, Command::Eject, &[])?.ok_or("no sheet")?;
    let inks = [0, 1, 2, 3];
    writes(&rt, rt.alloc(), (&sheet, &inks), 56, (Ok(()), TINY_IMAGES))
}
