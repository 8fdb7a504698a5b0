//! Pages by shingled passes, and around dead nozzles.
use crate::fixture::{BLACK, leaves, run_bytes};
use crate::rows::{Given, Row, Table, run_given, try_tables};
use driver_fixtures::no_files;
use job_fixtures::{TINY_HEALED_JOB, TINY_IMAGES, TINY_SHINGLED_JOB};
use std::alloc::Global;
use std::process::Abort;
use std::test::Fail;
use std::thread::Threads;

const BLACK_PAGE: Given = Given::Pages(&[], &[BLACK]);

const SHINGLED: [&str; 3] = ["print", "profile=tiny", "shingle=1"];

const HEALED: [&str; 3] = ["print", "profile=tiny", "dead=2"];

const JOBS: [Row; 2] = [
    (&SHINGLED, BLACK_PAGE, (0, &[&TINY_SHINGLED_JOB], b"")),
    (&HEALED, BLACK_PAGE, (0, &[&TINY_HEALED_JOB], b"")),
];

const WITHOUT_HALVES: [Row; 4] = [
    (
        &["print", "profile=tiny1", "shingle=1"],
        BLACK_PAGE,
        (2, &[], b"profile: line 0: NoShingle 0 1\n"),
    ),
    (
        &["trial", "profile=tiny1", "shingle=1"],
        BLACK_PAGE,
        (2, &[], b"profile: line 0: NoShingle 0 1\n"),
    ),
    (
        &["print", "profile=absent", "shingle=1"],
        BLACK_PAGE,
        (2, &[], b"profile: line 0: Absent\n"),
    ),
    (
        &["print", "profile=tiny", "shingle=2"],
        BLACK_PAGE,
        (1, &[], b"usage: word 3: BadValue\n"),
    ),
];

const BAD_LISTS: [Row; 13] = [
    (
        &["print", "profile=tiny", "dead=0,1,2"],
        BLACK_PAGE,
        (2, &[], b"profile: line 0: AllDead 3\n"),
    ),
    (
        &["print", "profile=tiny", "dead=3"],
        BLACK_PAGE,
        (2, &[], b"profile: line 0: NoSuchNozzle 3\n"),
    ),
    (
        &["print", "profile=tiny", "dead=0,1,2,3"],
        BLACK_PAGE,
        (2, &[], b"profile: line 0: NoSuchNozzle 3\n"),
    ),
    (
        &["print", "profile=tiny", "dead=2,1"],
        BLACK_PAGE,
        (1, &[], b"usage: word 3: BadValue\n"),
    ),
    (
        &["print", "profile=tiny", "dead=2,2"],
        BLACK_PAGE,
        (1, &[], b"usage: word 3: BadValue\n"),
    ),
    (
        &["print", "profile=tiny", "dead="],
        BLACK_PAGE,
        (1, &[], b"usage: word 3: BadValue\n"),
    ),
    (
        &["print", "profile=tiny", "dead=0,"],
        BLACK_PAGE,
        (1, &[], b"usage: word 3: BadValue\n"),
    ),
    (
        &["print", "profile=tiny", "dead=00"],
        BLACK_PAGE,
        (1, &[], b"usage: word 3: BadValue\n"),
    ),
    (
        &["print", "profile=tiny", "dead=255"],
        BLACK_PAGE,
        (1, &[], b"usage: word 3: BadValue\n"),
    ),
    (
        &["print", "profile=tiny", "shingle=1", "dead=2"],
        BLACK_PAGE,
        (1, &[], b"usage: word 4: Together\n"),
    ),
    (
        &["print", "dead=2", "profile=tiny", "shingle=1"],
        BLACK_PAGE,
        (1, &[], b"usage: word 4: Together\n"),
    ),
    (
        &["print", "dead=2", "shingle=2"],
        BLACK_PAGE,
        (1, &[], b"usage: word 3: BadValue\n"),
    ),
    (
        &["dots", "profile=tiny", "dead=2"],
        BLACK_PAGE,
        (1, &[], b"usage: word 3: UnknownKey\n"),
    ),
];

#[test]
fn each_way_has_its_job_or_its_refusal(rt: HostRuntime) -> Result<(), Fail> {
    const TABLES: [Table; 3] = [
        ("a way has its job", &JOBS),
        ("one nozzle cannot shingle", &WITHOUT_HALVES),
        ("bad dead lists are refused", &BAD_LISTS),
    ];
    try_tables(&rt, rt.alloc(), &TABLES)
}

// Asserts that `dots` gives the known images of the job that these words print of a black page.
fn shows_tiny<R: Abort + Threads + Sync>(
    rt: &R,
    alloc: Global,
    words: &[&str],
) -> Result<(), Fail> {
    let job = run_given(rt, alloc, words, BLACK_PAGE)?;
    let job = job.out.bytes().to_vec(alloc)?;
    let dots = ["dots", "profile=tiny"];
    let left = run_bytes(rt, alloc, &dots, job, no_files(alloc))?;
    leaves(
        rt,
        words.last().copied().unwrap_or(""),
        &left,
        (0, TINY_IMAGES, b""),
    );
    Ok(())
}

// Shingled rows fire even and odd columns, and rows of a dead nozzle are made up.
#[test]
fn each_way_gives_the_images_of_a_job_without_a_word(rt: HostRuntime) -> Result<(), Fail> {
    const WAYS: [&[&str]; 6] = [
        &["print", "profile=tiny"],
        &["print", "profile=tiny", "shingle=0"],
        &SHINGLED,
        &["print", "profile=tiny", "dead=0"],
        &HEALED,
        &["print", "profile=tiny", "dead=0,1"],
    ];
    for &words in &WAYS {
        shows_tiny(&rt, rt.alloc(), words)?;
    }
    Ok(())
}
