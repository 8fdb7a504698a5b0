//! A small printer: columns and rows of dots are 10/3600 inch apart, and its three nozzles 20/3600 inch.
ghost use Rattle.escp2_definitions.specs.Commands.{rows_len as rows_len_of};
ghost use Rattle.std.specs.Prelude.{◌≡◌};

use crate::checks::same;
use dot_emulator::{Command, Emulator, EmulatorFault, EmulatorStop, Sheet};
use escp2_definitions::in_table;
use printer_profile::TINY;
use std::alloc::Global;
use std::process::Abort;
use std::test::Fail;

fn rows_len(command: Command) -> usize
    ensures { result ≡ rows_len_of command }
{
    match command {
        Command::Raster { head: header } => usize::from(header.m)
            * ((usize::from(header.n) + 7) / 8),
        _ => 0,
    }
}

/// Runs a command; for a raster, with these rows.
pub(crate) fn run(
    rt: &impl Abort,
    emulator: &mut Emulator,
    command: Command,
    rows: &[u8],
) -> Result<Option<Sheet>, EmulatorStop> {
    assert!(rt; in_table(&command));
    assert_eq!(rt; rows.len(), rows_len(command));
    emulator.run(&command, rows)
}

/// A command, its rows, and why it is refused, if it is.
pub(crate) type Case = (Command, &'static [u8], Option<EmulatorFault>);

/// Runs commands in turn, each with the answer that is wanted.
pub(crate) fn each(rt: &impl Abort, emulator: &mut Emulator, cases: &[Case]) {
    for (command, rows, fault) in cases {
        let stop = run(rt, emulator, *command, rows).err();
        assert!(rt; stop == fault.map(EmulatorStop::Refused), "at {command:?}");
    }
}

/// The printer at the start of a job.
pub(crate) fn at_start(rt: &impl Abort, alloc: Global) -> Emulator {
    assert!(rt; TINY.check() == Ok(()));
    Emulator::make(alloc, &TINY)
}

// What a sheet shows: its rows, its columns, and the dots of the first two inks.
fn shown(sheet: &Sheet) -> [u64; 4] {
    [
        u64::from(sheet.rows),
        u64::from(sheet.columns),
        sheet.planes.count(0),
        sheet.planes.count(1),
    ]
}

/// Ejects the sheet, which is to show this and to have these dots, each an ink, a column and a row.
pub(crate) fn eject(
    rt: &impl Abort,
    emulator: &mut Emulator,
    wanted: [u64; 4],
    dots: &[(u8, u32, u32)],
) -> Result<(), Fail> {
    let sheet = run(rt, emulator, Command::Eject, &[])?.ok_or("no sheet")?;
    same(rt, "a sheet", &shown(&sheet), &wanted);
    for (ink, x, y) in dots {
        assert!(rt; *ink < 4 && *x < sheet.planes.width() && *y < sheet.planes.rows());
        assert!(rt; sheet.planes.dot(*ink, *x, *y), "no dot at {x}");
    }
    Ok(())
}
