//! Words and profiles that are refused, and profiles that are shown.
use crate::fixture::{BY_TEXT, Page, leaves};
use crate::printers::MOVED_JOB;
use crate::rows::{Given, JUST_ENOUGH, Row, Table, run_given, try_tables};
use job_fixtures::TINY_TEXT;
use pwg_header::Kind;
use std::test::Fail;

const BAD_WORDS: [Row; 13] = [
    (&[], Given::Unread, (1, &[], b"usage: word 1: NoCommand\n")),
    (
        &["plot"],
        Given::Unread,
        (1, &[], b"usage: word 1: UnknownCommand\n"),
    ),
    (
        &["Print"],
        Given::Unread,
        (1, &[], b"usage: word 1: UnknownCommand\n"),
    ),
    (
        &["print", "workers=0"],
        Given::Unread,
        (1, &[], b"usage: word 2: BadValue\n"),
    ),
    (
        &["print", "workers=65"],
        Given::Unread,
        (1, &[], b"usage: word 2: BadValue\n"),
    ),
    (
        &["print", "workers=01"],
        Given::Unread,
        (1, &[], b"usage: word 2: BadValue\n"),
    ),
    (
        &["print", "profile="],
        Given::Unread,
        (1, &[], b"usage: word 2: BadValue\n"),
    ),
    (
        &["print", "kernel=fs", "kernel=fs"],
        Given::Unread,
        (1, &[], b"usage: word 3: RepeatedKey\n"),
    ),
    (
        &["print", "kernel=fs", "kernel=x"],
        Given::Unread,
        (1, &[], b"usage: word 3: RepeatedKey\n"),
    ),
    (
        &["print", "x"],
        Given::Unread,
        (1, &[], b"usage: word 2: NotKeyValue\n"),
    ),
    (
        &["print", "most=1"],
        Given::Unread,
        (1, &[], b"usage: word 2: UnknownKey\n"),
    ),
    (
        &["profile", "kernel=fs"],
        Given::Unread,
        (1, &[], b"usage: word 2: UnknownKey\n"),
    ),
    (
        &["list", "profile=tiny"],
        Given::Unread,
        (1, &[], b"usage: word 2: UnknownKey\n"),
    ),
];

const FAILING_SHELF: [Row; 2] = [
    (
        &["profile", "profile=none.txt"],
        Given::Unread,
        (4, &[], b"read failed\n"),
    ),
    (
        &["print", "profile=none.txt"],
        Given::Unread,
        (4, &[], b"read failed\n"),
    ),
];

#[test]
fn each_bad_word_has_its_cause(rt: HostRuntime) -> Result<(), Fail> {
    const TABLES: [Table; 2] = [
        ("each bad word has its cause", &BAD_WORDS),
        ("a failing shelf is a failed read", &FAILING_SHELF),
    ];
    try_tables(&rt, rt.alloc(), &TABLES)
}

// The words that show the printer `tiny`, and the printer of the file `m1.txt`.
const SHOW_TINY: [&str; 2] = ["profile", "profile=tiny"];

const SHOW: [&str; 2] = ["profile", "profile=m1.txt"];

const CANONICAL: [Row; 2] = [
    (&SHOW_TINY, Given::Room(423), (0, &[TINY_TEXT], b"")),
    (
        &["profile", "profile=none.txt"],
        Given::Bytes(b""),
        (2, &[], b"profile: line 0: Absent\n"),
    ),
];

const JUST_ENOUGH_WHOLE: &[u8] =
    b"escp2-profile 2\nhdpi=360\nvdpi=720\nnozzles=31\npitch=8\ninks=k\nblack_start=0\nlimit_k=255\nlimit_c=255\n\
    limit_m=255\nlimit_y=255\nleft=0\nright=0\ntop=240\nbottom=0\n\
    curve_k=0,16,32,48,64,80,96,112,128,144,160,176,192,208,224,240,256\n\
    curve_c=0,16,32,48,64,80,96,112,128,144,160,176,192,208,224,240,256\n\
    curve_m=0,16,32,48,64,80,96,112,128,144,160,176,192,208,224,240,256\n\
    curve_y=0,16,32,48,64,80,96,112,128,144,160,176,192,208,224,240,256\n";

// The same in version 2.
const JUST_ENOUGH_2: &[u8] =
    b"escp2-profile 2\nhdpi=360\nvdpi=720\nnozzles=31\npitch=8\ninks=k\ntop=240\n";

const SHOWN: [Row; 3] = [
    (
        &SHOW,
        Given::Text(&[JUST_ENOUGH]),
        (0, &[JUST_ENOUGH_WHOLE], b""),
    ),
    (
        &SHOW,
        Given::Text(&[JUST_ENOUGH_WHOLE]),
        (0, &[JUST_ENOUGH_WHOLE], b""),
    ),
    // a version 1 text migrates
    (&SHOW, Given::Text(&[CUT]), (0, &[CUT_WHOLE], b"")),
];

const LENGTHS: [Row; 2] = [
    (&SHOW, Given::Long(65_536), (0, &[JUST_ENOUGH_WHOLE], b"")),
    (
        &SHOW,
        Given::Long(65_537),
        (2, &[], b"profile: line 0: TooLong\n"),
    ),
];

const FAILED_CHECKS: [Row; 9] = [
    (
        &SHOW,
        Given::Text(&[
            JUST_ENOUGH_2,
            b"curve_k=0,16,8,256,256,256,256,256,256,256,256,256,256,256,256,256,256\n",
        ]),
        (2, &[], b"profile: line 0: Curve 0\n"),
    ),
    (
        &SHOW,
        Given::Text(&[
            JUST_ENOUGH_2,
            b"curve_y=1,1,1,1,1,1,1,1,1,1,1,1,1,1,1,1,1\n",
        ]),
        (2, &[], b"profile: line 0: Curve 3\n"),
    ),
    (
        &SHOW,
        Given::Text(&[
            b"escp2-profile 1\nvdpi=720\nnozzles=32\npitch=8\ninks=k\ntop=300\nhdpi=360\n",
        ]),
        (2, &[], b"profile: line 0: NotCoprime 8\n"),
    ),
    (
        &SHOW,
        Given::Text(&[
            b"escp2-profile 1\nvdpi=720\nnozzles=31\npitch=8\ninks=k\ntop=239\nhdpi=360\n",
        ]),
        (2, &[], b"profile: line 0: TopMargin 240\n"),
    ),
    (
        &SHOW,
        Given::Text(&[b"escp2-profile 1\nvdpi=360\nnozzles=1\npitch=26\ninks=k\nhdpi=360\n"]),
        (2, &[], b"profile: line 0: RowStep\n"),
    ),
    (
        &SHOW,
        Given::Text(&[b"escp2-profile 1\nvdpi=360\nnozzles=0\npitch=26\ninks=k\nhdpi=360\n"]),
        (2, &[], b"profile: line 0: Nozzles\n"),
    ),
    (
        &SHOW,
        Given::Text(&[b"escp2-profile 1\nvdpi=360\nnozzles=1\npitch=0\ninks=k\nhdpi=360\n"]),
        (2, &[], b"profile: line 0: Pitch\n"),
    ),
    (
        &SHOW,
        Given::Text(&[b"escp2-profile 1\nvdpi=300\nnozzles=0\npitch=0\ninks=k\nhdpi=360\n"]),
        (2, &[], b"profile: line 0: Resolution\n"),
    ),
    (
        &SHOW,
        Given::Text(&[
            b"escp2-profile 1\nvdpi=360\nnozzles=1\npitch=1\ninks=k\nhdpi=720\nblack_start=255",
        ]),
        (2, &[], b"profile: line 0: BlackStart\n"),
    ),
];

const BAD_TEXTS: [Row; 10] = [
    (
        &SHOW,
        Given::Text(&[JUST_ENOUGH_2, b"curve_k=0,16\n"]),
        (2, &[], b"profile: line 8: BadValue\n"),
    ),
    (
        &SHOW,
        Given::Text(&[JUST_ENOUGH, b"curve_k=0,16\n"]),
        (2, &[], b"profile: line 8: UnknownKey\n"),
    ),
    (
        &SHOW,
        Given::Text(&[b""]),
        (2, &[], b"profile: line 1: BadHead\n"),
    ),
    (
        &SHOW,
        Given::Text(&[b"escp2-profile 3\n"]),
        (2, &[], b"profile: line 1: BadHead\n"),
    ),
    (
        &SHOW,
        Given::Text(&[b"escp2-profile 1\n#\xFF\nh\xFF=1\n"]),
        (2, &[], b"profile: line 3: NotAscii\n"),
    ),
    (
        &SHOW,
        Given::Text(&[b"escp2-profile 1\n\nhdpi\n"]),
        (2, &[], b"profile: line 3: NoEquals\n"),
    ),
    (
        &SHOW,
        Given::Text(&[b"escp2-profile 1\r\ndpi=1\r\n"]),
        (2, &[], b"profile: line 2: UnknownKey\n"),
    ),
    (
        &SHOW,
        Given::Text(&[b"escp2-profile 1\ntop=1\ntop=x\n"]),
        (2, &[], b"profile: line 3: RepeatedKey\n"),
    ),
    (
        &SHOW,
        Given::Text(&[b"escp2-profile 1\ntop= 1\n"]),
        (2, &[], b"profile: line 2: BadValue\n"),
    ),
    (
        &SHOW,
        Given::Text(&[b"escp2-profile 1\nhdpi=360\nvdpi=360\n"]),
        (2, &[], b"profile: line 0: Missing nozzles\n"),
    ),
];

// A printer of one nozzle and black, whose margins cut one pixel off at the left and at the top.
const CUT: &[u8] =
    b"escp2-profile 1\nhdpi=360\nvdpi=360\nnozzles=1\npitch=1\ninks=k\nleft=1\ntop=1\n";

const CUT_WHOLE: &[u8] =
    b"escp2-profile 2\nhdpi=360\nvdpi=360\nnozzles=1\npitch=1\ninks=k\nblack_start=0\nlimit_k=255\nlimit_c=255\n\
    limit_m=255\nlimit_y=255\nleft=1\nright=0\ntop=1\nbottom=0\n\
    curve_k=0,16,32,48,64,80,96,112,128,144,160,176,192,208,224,240,256\n\
    curve_c=0,16,32,48,64,80,96,112,128,144,160,176,192,208,224,240,256\n\
    curve_m=0,16,32,48,64,80,96,112,128,144,160,176,192,208,224,240,256\n\
    curve_y=0,16,32,48,64,80,96,112,128,144,160,176,192,208,224,240,256\n";

// A grey page of four columns and two lines, black.
const BLACK_4: Page<'static> = (Kind::Gray8, (4, 2), &[1, 3, 0]);

const PRINTED: [Row; 2] = [
    (
        &BY_TEXT,
        Given::Pages(&[CUT], &[BLACK_4]),
        (0, &[&MOVED_JOB], b""),
    ),
    (
        &BY_TEXT,
        Given::Pages(&[CUT_WHOLE], &[BLACK_4]),
        (0, &[&MOVED_JOB], b""),
    ),
];

// A sheet of one row without a dot.
const BLANK_JOB: [u8; 49] = [
    0x1B, 0x40, 0x1B, 0x28, 0x47, 1, 0, 1, 0x1B, 0x28, 0x55, 1, 0, 5, 0x1B, 0x28, 0x69, 1, 0, 0,
    0x1B, 0x55, 1, 0x1B, 0x28, 0x43, 2, 0, 2, 0, 0x1B, 0x28, 0x63, 4, 0, 0, 0, 2, 0, 0x1B, 0x28,
    0x56, 2, 0, 0, 0, 0x0C, 0x1B, 0x40,
];

const HALF: &[u8] = b"escp2-profile 2\nhdpi=360\nvdpi=360\nnozzles=1\npitch=1\ninks=k\n\
    curve_k=0,8,16,24,32,40,48,56,64,72,80,88,96,104,112,120,128\n";

const BELOW: [Row; 1] = [(
    &BY_TEXT,
    Given::Pages(&[HALF], &[(Kind::Gray8, (1, 1), &[0, 0, 0])]),
    (0, &[&BLANK_JOB], b""),
)];

#[test]
fn each_profile_is_shown_and_printed_by_or_refused(rt: HostRuntime) -> Result<(), Fail> {
    const TABLES: [Table; 7] = [
        ("profile prints its canonical text", &CANONICAL),
        ("a profile is shown whole", &SHOWN),
        ("a text of 65537 bytes is too long", &LENGTHS),
        ("profile checks name gcd, margin and step", &FAILED_CHECKS),
        ("a bad text is refused at its line", &BAD_TEXTS),
        ("a version 1 text migrates", &PRINTED),
        ("a tone below the threshold leaves a blank page", &BELOW),
    ];
    assert!(rt; TINY_TEXT.len() == 423);
    let left = run_given(&rt, rt.alloc(), &SHOW_TINY, Given::Room(150))?;
    let cut = (5, &TINY_TEXT[..150], b"write failed: page 0\n".as_slice());
    leaves(&rt, "a failing sink is no page", &left, cut);
    try_tables(&rt, rt.alloc(), &TABLES)
}
