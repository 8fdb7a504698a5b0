//! Trials.
use crate::rows::{Given, Row, Table, try_tables};
use std::test::Fail;

const SEED_ZERO: [Row; 1] = [(
    &["trial", "profile=tiny1", "seed=0", "width=4", "height=2"],
    Given::Mine,
    (
        0,
        &[b"pages=1 sheets=1 bytes=70 rasters=1 k=2 c=0 m=0 y=0\n"],
        b"",
    ),
)];

const NARROW: [Row; 4] = [
    (
        &["trial", "profile=p360k", "width=90"],
        Given::Mine,
        (3, &[], b"input: page 1 line 0: Width\n"),
    ),
    (
        &["trial", "profile=p360k", "width=91", "height=180"],
        Given::Mine,
        (3, &[], b"input: page 1 line 0: Height\n"),
    ),
    (
        &["trial", "profile=p360k", "width=90", "height=180"],
        Given::Mine,
        (3, &[], b"input: page 1 line 0: Width\n"),
    ),
    (
        &["trial", "profile=p360k", "width=91", "height=7921"],
        Given::Mine,
        (3, &[], b"input: page 1 line 0: Height\n"),
    ),
];

const REFUSED: [Row; 14] = [
    (
        &["trial", "profile=tiny", "dead=3"],
        Given::Mine,
        (2, &[], b"profile: line 0: NoSuchNozzle 3\n"),
    ),
    (
        &["trial", "profile=none"],
        Given::Mine,
        (2, &[], b"profile: line 0: Absent\n"),
    ),
    (
        &["trial", "pages=0"],
        Given::Mine,
        (1, &[], b"usage: word 2: BadValue\n"),
    ),
    (
        &["trial", "pages=17"],
        Given::Mine,
        (1, &[], b"usage: word 2: BadValue\n"),
    ),
    (
        &["trial", "width=0"],
        Given::Mine,
        (1, &[], b"usage: word 2: BadValue\n"),
    ),
    (
        &["trial", "width=8192"],
        Given::Mine,
        (1, &[], b"usage: word 2: BadValue\n"),
    ),
    (
        &["trial", "height=0"],
        Given::Mine,
        (1, &[], b"usage: word 2: BadValue\n"),
    ),
    (
        &["trial", "height=15841"],
        Given::Mine,
        (1, &[], b"usage: word 2: BadValue\n"),
    ),
    (
        &["trial", "seed=4294967296"],
        Given::Mine,
        (1, &[], b"usage: word 2: BadValue\n"),
    ),
    (
        &["trial", "grain=33"],
        Given::Mine,
        (1, &[], b"usage: word 2: BadValue\n"),
    ),
    (
        &["trial", "grain="],
        Given::Mine,
        (1, &[], b"usage: word 2: BadValue\n"),
    ),
    (
        &["trial", "kind=grey"],
        Given::Mine,
        (1, &[], b"usage: word 2: BadValue\n"),
    ),
    (
        &["trial", "cap=1"],
        Given::Mine,
        (1, &[], b"usage: word 2: UnknownKey\n"),
    ),
    (
        &["trial", "most=1"],
        Given::Mine,
        (1, &[], b"usage: word 2: UnknownKey\n"),
    ),
];

macro_rules! odd {
    ($($word:literal),*) => {
        &["trial", "seed=11", "pages=2", "width=113", "height=193", $($word),*]
    };
}

// The lines are those of a plain program that follows the definitions.
const KINDS: [Row; 24] = [
    (
        &[
            "trial",
            "profile=tiny1",
            "seed=4294967295",
            "pages=16",
            "width=1",
            "height=1",
        ],
        Given::Mine,
        (
            0,
            &[b"pages=16 sheets=16 bytes=910 rasters=9 k=9 c=0 m=0 y=0\n"],
            b"",
        ),
    ),
    (
        &["trial", "profile=tiny1", "width=8191", "height=1"],
        Given::Mine,
        (
            0,
            &[b"pages=1 sheets=1 bytes=1092 rasters=1 k=4128 c=0 m=0 y=0\n"],
            b"",
        ),
    ),
    (
        &["trial", "profile=tiny1", "width=1", "height=7920"],
        Given::Mine,
        (
            0,
            &[b"pages=1 sheets=1 bytes=84574 rasters=4025 k=4025 c=0 m=0 y=0\n"],
            b"",
        ),
    ),
    (
        &["trial", "profile=tiny1"],
        Given::Mine,
        (
            0,
            &[b"pages=1 sheets=1 bytes=15640 rasters=300 k=38356 c=0 m=0 y=0\n"],
            b"",
        ),
    ),
    (
        &[
            "trial",
            "profile=tiny1",
            "kernel=fs",
            "seed=7",
            "width=200",
            "height=70",
        ],
        Given::Mine,
        (
            0,
            &[b"pages=1 sheets=1 bytes=3192 rasters=70 k=7178 c=0 m=0 y=0\n"],
            b"",
        ),
    ),
    (
        &[
            "trial",
            "profile=tiny1",
            "kernel=jjn",
            "seed=7",
            "width=200",
            "height=70",
        ],
        Given::Mine,
        (
            0,
            &[b"pages=1 sheets=1 bytes=3192 rasters=70 k=7174 c=0 m=0 y=0\n"],
            b"",
        ),
    ),
    (
        &[
            "trial",
            "profile=tiny1",
            "kernel=stucki",
            "seed=7",
            "width=200",
            "height=70",
        ],
        Given::Mine,
        (
            0,
            &[b"pages=1 sheets=1 bytes=3191 rasters=70 k=7179 c=0 m=0 y=0\n"],
            b"",
        ),
    ),
    (
        odd!("profile=p360k", "kernel=fs", "kind=gray"),
        Given::Mine,
        (
            0,
            &[b"pages=2 sheets=2 bytes=946 rasters=10 k=243 c=0 m=0 y=0\n"],
            b"",
        ),
    ),
    (
        odd!("profile=p360k", "kernel=jjn", "kind=black"),
        Given::Mine,
        (
            0,
            &[b"pages=2 sheets=2 bytes=946 rasters=10 k=356 c=0 m=0 y=0\n"],
            b"",
        ),
    ),
    (
        odd!("profile=p360k", "kernel=stucki", "kind=rgb"),
        Given::Mine,
        (
            0,
            &[b"pages=2 sheets=2 bytes=946 rasters=10 k=291 c=0 m=0 y=0\n"],
            b"",
        ),
    ),
    (
        odd!("profile=p360k", "kernel=fs", "kind=black1"),
        Given::Mine,
        (
            0,
            &[b"pages=2 sheets=2 bytes=926 rasters=10 k=286 c=0 m=0 y=0\n"],
            b"",
        ),
    ),
    (
        odd!("profile=p360k", "kernel=jjn", "kind=cmyk"),
        Given::Mine,
        (
            0,
            &[b"pages=2 sheets=2 bytes=946 rasters=10 k=512 c=0 m=0 y=0\n"],
            b"",
        ),
    ),
    (
        odd!("profile=mine", "kernel=fs", "kind=gray"),
        Given::Mine,
        (
            0,
            &[b"pages=2 sheets=2 bytes=3354 rasters=54 k=0 c=1584 m=1584 y=1584\n"],
            b"",
        ),
    ),
    (
        odd!("profile=mine", "kernel=jjn", "kind=black"),
        Given::Mine,
        (
            0,
            &[b"pages=2 sheets=2 bytes=3354 rasters=54 k=0 c=1776 m=1776 y=1776\n"],
            b"",
        ),
    ),
    (
        odd!("profile=mine", "kernel=stucki", "kind=rgb"),
        Given::Mine,
        (
            0,
            &[b"pages=2 sheets=2 bytes=3350 rasters=54 k=0 c=1586 m=1675 y=1586\n"],
            b"",
        ),
    ),
    (
        odd!("profile=mine", "kernel=fs", "kind=black1"),
        Given::Mine,
        (
            0,
            &[b"pages=2 sheets=2 bytes=3066 rasters=54 k=0 c=1814 m=1814 y=1814\n"],
            b"",
        ),
    ),
    (
        odd!("profile=mine", "kernel=jjn", "kind=cmyk"),
        Given::Mine,
        (
            0,
            &[b"pages=2 sheets=2 bytes=3354 rasters=54 k=0 c=2804 m=2801 y=2759\n"],
            b"",
        ),
    ),
    (
        odd!("profile=p360cmyk", "kernel=fs", "kind=gray"),
        Given::Mine,
        (
            0,
            &[b"pages=2 sheets=2 bytes=1258 rasters=18 k=1584 c=0 m=0 y=0\n"],
            b"",
        ),
    ),
    (
        odd!("profile=p360cmyk", "kernel=jjn", "kind=black"),
        Given::Mine,
        (
            0,
            &[b"pages=2 sheets=2 bytes=1258 rasters=18 k=1776 c=0 m=0 y=0\n"],
            b"",
        ),
    ),
    (
        odd!("profile=p360cmyk", "kernel=stucki", "kind=rgb"),
        Given::Mine,
        (
            0,
            &[b"pages=2 sheets=2 bytes=4236 rasters=69 k=730 c=825 m=907 y=824\n"],
            b"",
        ),
    ),
    (
        odd!("profile=p360cmyk", "kernel=fs", "kind=black1"),
        Given::Mine,
        (
            0,
            &[b"pages=2 sheets=2 bytes=1162 rasters=18 k=1814 c=0 m=0 y=0\n"],
            b"",
        ),
    ),
    (
        odd!("profile=p360cmyk", "kernel=jjn", "kind=cmyk"),
        Given::Mine,
        (
            0,
            &[b"pages=2 sheets=2 bytes=4400 rasters=72 k=1580 c=1686 m=1695 y=1704\n"],
            b"",
        ),
    ),
    (
        odd!("profile=p360cmyk", "kind=rgb", "shingle=1"),
        Given::Mine,
        (
            0,
            &[b"pages=2 sheets=2 bytes=8364 rasters=142 k=742 c=822 m=911 y=821\n"],
            b"",
        ),
    ),
    (
        odd!("profile=p360cmyk", "kind=rgb", "dead=0,7,14"),
        Given::Mine,
        (
            0,
            &[b"pages=2 sheets=2 bytes=6142 rasters=112 k=742 c=822 m=911 y=821\n"],
            b"",
        ),
    ),
];

const PLAIN: &[u8] =
    b"pages=2 sheets=2 bytes=11790021 rasters=2216 k=5870606 c=5921779 m=5922593 y=5922293\n";

macro_rules! a4 {
    ($($word:literal),*) => {
        &["trial", "profile=p360cmyk", "kind=rgb", "width=2976", "height=4209", "pages=2", $($word),*]
    };
}

const LARGE: [Row; 8] = [
    (a4!("workers=1"), Given::Mine, (0, &[PLAIN], b"")),
    (a4!("workers=4"), Given::Mine, (0, &[PLAIN], b"")),
    (a4!("workers=1"), Given::Mine, (0, &[PLAIN], b"")),
    (a4!("workers=4"), Given::Mine, (0, &[PLAIN], b"")),
    (
        a4!("kernel=jjn", "workers=4"),
        Given::Mine,
        (
            0,
            &[
                b"pages=2 sheets=2 bytes=11666579 rasters=2216 k=5869277 c=5921199 m=5921979 y=5921702\n",
            ],
            b"",
        ),
    ),
    (
        a4!("kernel=stucki", "workers=4"),
        Given::Mine,
        (
            0,
            &[
                b"pages=2 sheets=2 bytes=11699163 rasters=2216 k=5869511 c=5921281 m=5922091 y=5921759\n",
            ],
            b"",
        ),
    ),
    (
        a4!("shingle=1", "workers=4"),
        Given::Mine,
        (
            0,
            &[
                b"pages=2 sheets=2 bytes=22510414 rasters=4736 k=5870606 c=5921779 m=5922593 y=5922293\n",
            ],
            b"",
        ),
    ),
    (
        a4!("dead=0,7,14", "workers=4"),
        Given::Mine,
        (
            0,
            &[
                b"pages=2 sheets=2 bytes=12016625 rasters=4400 k=5870606 c=5921779 m=5922593 y=5922293\n",
            ],
            b"",
        ),
    ),
];

#[test]
fn each_trial_has_its_line_or_its_refusal(rt: HostRuntime) -> Result<(), Fail> {
    const TABLES: [Table; 4] = [
        ("trial of seed zero counts two dots", &SEED_ZERO),
        ("trial refuses a page too narrow", &NARROW),
        ("each kind is tried by each set of inks", &KINDS),
        ("each word of trial has its bounds", &REFUSED),
    ];
    try_tables(&rt, rt.alloc(), &TABLES)
}

#[test]
fn trial_gives_one_line_for_every_worker_count(rt: HostRuntime) -> Result<(), Fail> {
    const TABLES: [Table; 1] = [("trial gives one line", &LARGE)];
    try_tables(&rt, rt.alloc(), &TABLES)
}
