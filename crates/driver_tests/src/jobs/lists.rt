//! The command `list`.
use crate::rows::{Given, Part, ROOMY, Row, Table, try_tables};
use std::test::Fail;

// The listing of the job for the printer `tiny`: its first two lines, and the others.
const FIRST_LINES: &[u8] = b"0 INIT\n2 GRAPHICS\n";

const OTHER_LINES: &[u8] =
    b"8 UNIT 5\n14 MICROWEAVE 0\n20 ONEWAY 1\n23 LENGTH 12\n30 MARGINS 0 12\n\
    39 DOWNTO 0\n46 COLOUR 0\n49 RETURN\n50 RASTER 1 20 10 3 8 8\n64 DOWNBY 6\n71 COLOUR 0\n74 RETURN\n\
    75 RASTER 1 20 10 3 8 8\n89 EJECT\n90 INIT\n";

const LIST: [&str; 1] = ["list"];

const KNOWN: [Part; 1] = [Part::Known(0, 92)];

const WHOLE: [Row; 1] = [(
    &LIST,
    Given::Job(&KNOWN, (7, 0), ROOMY),
    (0, &[FIRST_LINES, OTHER_LINES], b""),
)];

const SHORT: [&str; 2] = ["list", "most=99"];

const READER_FAULTS: [Row; 6] = [
    (
        &SHORT,
        Given::Job(&[Part::Known(0, 10)], (3, 0), ROOMY),
        (8, &[FIRST_LINES], b"job: offset 8: Cut\n"),
    ),
    (
        &["list", "most=10"],
        Given::Job(&[Part::Known(0, 11)], (3, 0), ROOMY),
        (8, &[FIRST_LINES], b"job: offset 10: TooLong\n"),
    ),
    (
        &SHORT,
        Given::Job(&[Part::Bytes(&[0x1B, 0x41])], (3, 0), ROOMY),
        (8, &[], b"job: offset 1: Unknown\n"),
    ),
    (
        &SHORT,
        Given::Job(&[Part::Bytes(&[0x1B, 0x28, 0x47, 2, 0])], (3, 0), ROOMY),
        (8, &[], b"job: offset 3: BadLength\n"),
    ),
    (
        &SHORT,
        Given::Job(&[Part::Bytes(&[0x1B, 0x72, 3])], (3, 0), ROOMY),
        (8, &[], b"job: offset 2: BadValue\n"),
    ),
    (
        &SHORT,
        Given::Job(
            &[Part::Bytes(&[0x1B, 0x2E, 1, 0x14, 0x0A, 3, 8, 0, 0x80])],
            (3, 0),
            ROOMY,
        ),
        (8, &[], b"job: offset 8: RunCode\n"),
    ),
];

const FAILED_CALLS: [Row; 2] = [
    (
        &LIST,
        Given::Job(&KNOWN, (1, 9), ROOMY),
        (4, &[FIRST_LINES], b"read failed\n"),
    ),
    (
        &LIST,
        Given::Job(&KNOWN, (92, 0), 30),
        (
            5,
            &[FIRST_LINES, b"8 UNIT 5\n14 "],
            b"write failed: page 0\n",
        ),
    ),
];

#[test]
fn list_gives_the_lines_before_a_stop(rt: HostRuntime) -> Result<(), Fail> {
    const TABLES: [Table; 3] = [
        ("list gives seventeen lines", &WHOLE),
        ("list names each reader fault", &READER_FAULTS),
        (
            "a failed read and a full sink leave what was listed",
            &FAILED_CALLS,
        ),
    ];
    try_tables(&rt, rt.alloc(), &TABLES)
}
