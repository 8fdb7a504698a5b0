//! Lines of commands.
use crate::checks::{HEADER, is_fit, same};
use escp2_definitions::{Command, RasterHead};
use job_lister::{Line, push_line};
use printer_definitions::Ink;

#[test]
fn each_line_has_place_name_and_numbers(rt: HostRuntime) {
    const MARGINS: Command = Command::Margins { top: 0, bottom: 12 };
    // The bits past the eleventh column are no dots.
    const ROWS: &[u8] = &[0xFF, 0xFF, 0x01, 0x20];
    const RASTER: Command = Command::Raster {
        head: RasterHead {
            m: 2,
            n: 11,
            ..HEADER
        },
    };
    const LONGEST: &str = "18446744073709551615 RASTER 1 20 10 2 11 13\n";
    const CASES: [(u64, Command, &[u8], &str); 4] = [
        (0, Command::Init, &[], "0 INIT\n"),
        (30, MARGINS, &[], "30 MARGINS 0 12\n"),
        (
            46,
            Command::Colour { ink: Ink::Yellow },
            &[],
            "46 COLOUR 4\n",
        ),
        (u64::MAX, RASTER, ROWS, LONGEST),
    ];
    for &(place, command, rows, wanted) in &CASES {
        is_fit(&rt, &command, rows);
        let mut line = Line::new();
        push_line(place, &command, rows, &mut line);
        same(&rt, "a line", &line.as_str(), &wanted);
    }
}
