//! The command `dots`.
use crate::fixture::Wanted;
use crate::rows::{Given, Part, ROOMY, Row, Table, try_tables};
use job_fixtures::TINY_IMAGES;
use std::test::Fail;

// Playing on the printer `tiny`, whose known job has one sheet.
const DOTS: [&str; 2] = ["dots", "profile=tiny"];

const KNOWN: Part = Part::Known(0, 92);

const PLAYED: Wanted = (0, &[TINY_IMAGES], b"");

const IMAGES: [Row; 3] = [
    (&DOTS, Given::Job(&[KNOWN], (1, 0), ROOMY), PLAYED),
    (&DOTS, Given::Job(&[KNOWN], (50, 0), ROOMY), PLAYED),
    (&DOTS, Given::Job(&[KNOWN], (92, 0), ROOMY), PLAYED),
];

const TWICE: [Part; 3] = [
    Part::Known(0, 64),
    Part::Bytes(&[0x0D]),
    Part::Known(50, 64),
];

const OVERPRINT: [Row; 1] = [(
    &DOTS,
    Given::Job(&TWICE, (92, 0), ROOMY),
    (8, &[], b"job: offset 65: Overprint\n"),
)];

const DENSITY: [Row; 1] = [(
    &["dots", "profile=tiny1"],
    Given::Job(&[KNOWN], (92, 0), ROOMY),
    (8, &[], b"job: offset 50: Density\n"),
)];

const CUT: [Part; 2] = [KNOWN, Part::Known(0, 60)];

const STOPPED: [Row; 5] = [
    (
        &DOTS,
        Given::Job(&CUT, (33, 0), ROOMY),
        (8, &[TINY_IMAGES], b"job: offset 142: Cut\n"),
    ),
    (
        &DOTS,
        Given::Job(&CUT, (50, 3), ROOMY),
        (4, &[TINY_IMAGES], b"read failed\n"),
    ),
    (
        &["dots", "profile=tiny", "most=91"],
        Given::Job(&[KNOWN], (50, 0), ROOMY),
        (8, &[TINY_IMAGES], b"job: offset 91: TooLong\n"),
    ),
    // a full sink
    (
        &DOTS,
        Given::Job(&[KNOWN, KNOWN], (92, 0), 60),
        (
            5,
            &[TINY_IMAGES, b"P4\n8 6\n\x00"],
            b"write failed: page 2\n",
        ),
    ),
    // a job without a sheet
    (
        &DOTS,
        Given::Job(&[Part::Known(0, 50)], (92, 0), 64),
        (0, &[], b""),
    ),
];

#[test]
fn dots_gives_the_images_of_each_whole_sheet(rt: HostRuntime) -> Result<(), Fail> {
    const TABLES: [Table; 4] = [
        ("dots gives four images of a sheet", &IMAGES),
        ("a raster fired twice is overprint", &OVERPRINT),
        ("another profile is density", &DENSITY),
        ("sheets before a stop are written", &STOPPED),
    ];
    try_tables(&rt, rt.alloc(), &TABLES)
}
