//! Command lines, good and bad.
use job_words::{
    DeadNozzles, Job, Kernel, Kind, UsageCause, UsageFault, Verb, Words, profile_name, read_words,
};
use std::alloc::Global;
use std::process::Abort;
use std::test::Fail;

// The words of a line, of which there are at most twelve.
fn words_of(alloc: Global, line: &[&str]) -> Result<Words, Fail> {
    let mut words = Words::make(alloc);
    for word in line {
        if words.len() < 12 {
            words.push(word)?;
        }
    }
    Ok(words)
}

// Stops the test where a line is not refused at this word for this cause, or, without a cause, is refused.
fn same_fault(
    rt: &impl Abort,
    alloc: Global,
    line: &[&str],
    word: u32,
    cause: Option<UsageCause>,
) -> Result<(), Fail> {
    let words = words_of(alloc, line)?;
    let wanted = cause.map(|cause| UsageFault { word, cause });
    assert!(rt; read_words(&words).err() == wanted, "{line:?}");
    Ok(())
}

// What a line says of a job.
#[derive(Clone, Copy)]
enum Said {
    /// The place of the word that names a profile, and the name.
    Profile(u32, &'static str),
    Kernel(Kernel),
    Grain(u8),
    Workers(u8),
    Cap(u64),
    Most(u64),
    Shingle,
    Dead(&'static [u8]),
    /// The seed, the pages, their width and height, and their kind.
    Made(u32, u8, u32, u32, Kind),
}

// What a verb means without further words.
fn plain_job(verb: Verb) -> Job {
    Job {
        verb,
        profile_word: 0,
        kernel: Kernel::Floyd,
        grain: 0,
        workers: 1,
        cap: None,
        most: 17_179_869_184,
        shingle: false,
        dead: DeadNozzles::new(),
        seed: 1,
        pages: 1,
        width: 256,
        height: 300,
        kind: Kind::Gray8,
    }
}

// The job of a verb of which this is said.
fn job_of(verb: Verb, said: &[Said]) -> Result<Job, Fail> {
    let mut job = plain_job(verb);
    for &part in said {
        match part {
            Said::Profile(word, _) => job.profile_word = word,
            Said::Kernel(kernel) => job.kernel = kernel,
            Said::Grain(grain) => job.grain = grain,
            Said::Workers(workers) => job.workers = workers,
            Said::Cap(cap) => job.cap = Some(cap),
            Said::Most(most) => job.most = most,
            Said::Shingle => job.shingle = true,
            Said::Dead(dead) => job.dead = DeadNozzles::try_from(dead)?,
            Said::Made(seed, pages, width, height, kind) => {
                (job.seed, job.pages, job.kind) = (seed, pages, kind);
                (job.width, job.height) = (width, height);
            }
        }
    }
    Ok(job)
}

// The name of the profile of a job of which this is said.
fn name_of(said: &[Said]) -> &'static str {
    match said.first() {
        Some(Said::Profile(_, name)) => name,
        _ => "p360cmyk",
    }
}

// A line, its verb, and what else it says: of the profile first.
type Line = (&'static [&'static str], Verb, &'static [Said]);

// Stops the test where a line is not read as its job with a profile of its name.
fn same_job(rt: &impl Abort, alloc: Global, (line, verb, said): Line) -> Result<(), Fail> {
    let words = words_of(alloc, line)?;
    let job = read_words(&words)?;
    assert!(rt;
        job == job_of(verb, said)? && profile_name(&words, &job) == name_of(said),
        "{line:?}"
    );
    Ok(())
}

#[test]
fn each_bad_word_has_its_cause(rt: HostRuntime) -> Result<(), Fail> {
    const LINES: [(&[&str], u32, UsageCause); 14] = [
        (&[], 1, UsageCause::NoCommand),
        (&["plot"], 1, UsageCause::UnknownCommand),
        (&["print", "workers=0"], 2, UsageCause::BadValue),
        (
            &["print", "kernel=fs", "kernel=fs"],
            3,
            UsageCause::RepeatedKey,
        ),
        (
            &["print", "grain=16", "grain=33"],
            3,
            UsageCause::RepeatedKey,
        ),
        (&["print", "x"], 2, UsageCause::NotKeyValue),
        (&["print", "most=1"], 2, UsageCause::UnknownKey),
        (&["profile", "kernel=fs"], 2, UsageCause::UnknownKey),
        (&["dots", "grain=0"], 2, UsageCause::UnknownKey),
        (&["list", "grain=0"], 2, UsageCause::UnknownKey),
        (&["profile", "dead=0"], 2, UsageCause::UnknownKey),
        (&["dots", "shingle=0"], 2, UsageCause::UnknownKey),
        (&["list", "most=17179869185"], 2, UsageCause::BadValue),
        (
            &["print", "profile=tiny", "cap=18446744073709551616"],
            3,
            UsageCause::BadValue,
        ),
    ];
    for &(line, word, cause) in &LINES {
        same_fault(&rt, rt.alloc(), line, word, Some(cause))?;
    }
    Ok(())
}

const REFUSED_WAYS: [(&[&str], u32, UsageCause); 10] = [
    (
        &["print", "profile=tiny", "shingle=1", "dead=2"],
        4,
        UsageCause::Together,
    ),
    (&["print", "dead=2", "shingle=1"], 3, UsageCause::Together),
    (
        &["trial", "shingle=1", "seed=2", "dead=0"],
        4,
        UsageCause::Together,
    ),
    (
        &["trial", "dead=0", "kind=rgb", "shingle=1", "x"],
        4,
        UsageCause::Together,
    ),
    (&["print", "shingle=1", "dead=2,1"], 3, UsageCause::BadValue),
    (&["print", "dead=2", "shingle=2"], 3, UsageCause::BadValue),
    (
        &["print", "shingle=1", "shingle=1", "dead=2"],
        3,
        UsageCause::RepeatedKey,
    ),
    (
        &["print", "shingle=1", "x", "dead=2"],
        3,
        UsageCause::NotKeyValue,
    ),
    (
        &["print", "shingle=0", "dead=2", "shingle=1"],
        4,
        UsageCause::RepeatedKey,
    ),
    (
        &["print", "profile=tiny", "dead=2,1"],
        3,
        UsageCause::BadValue,
    ),
];

#[test]
fn shingled_passes_and_dead_nozzles_are_refused_at_the_later_word(
    rt: HostRuntime,
) -> Result<(), Fail> {
    for &(line, word, cause) in &REFUSED_WAYS {
        same_fault(&rt, rt.alloc(), line, word, Some(cause))?;
    }
    Ok(())
}

const JOB_LINES: [Line; 13] = [
    (
        &["print", "profile=a=b", "kernel=stucki", "workers=64"],
        Verb::Print,
        &[
            Said::Profile(2, "a=b"),
            Said::Kernel(Kernel::Stucki),
            Said::Workers(64),
        ],
    ),
    (&["print", "grain=0"], Verb::Print, &[]),
    (&["print", "grain=1"], Verb::Print, &[Said::Grain(1)]),
    (&["print", "grain=16"], Verb::Print, &[Said::Grain(16)]),
    (&["print", "grain=32"], Verb::Print, &[Said::Grain(32)]),
    (&["profile"], Verb::Profile, &[]),
    (&["dots", "most=10"], Verb::Dots, &[Said::Most(10)]),
    (&["list", "most=10"], Verb::List, &[Said::Most(10)]),
    (
        &["print", "cap=18446744073709551615"],
        Verb::Print,
        &[Said::Cap(18_446_744_073_709_551_615)],
    ),
    (&["print", "shingle=1"], Verb::Print, &[Said::Shingle]),
    (
        &["print", "shingle=0", "dead=0,7,254"],
        Verb::Print,
        &[Said::Dead(&[0, 7, 254])],
    ),
    (&["trial"], Verb::Trial, &[]),
    (
        &[
            "trial",
            "kind=cmyk",
            "height=15840",
            "width=8191",
            "pages=16",
            "seed=0",
            "dead=2",
            "grain=32",
            "profile=c",
        ],
        Verb::Trial,
        &[
            Said::Profile(9, "c"),
            Said::Dead(&[2]),
            Said::Grain(32),
            Said::Made(0, 16, 8191, 15_840, Kind::Cmyk8),
        ],
    ),
];

#[test]
fn a_line_is_read_as_a_job(rt: HostRuntime) -> Result<(), Fail> {
    for &line in &JOB_LINES {
        same_job(&rt, rt.alloc(), line)?;
    }
    Ok(())
}

const VALUES: [(&str, Option<UsageCause>); 67] = [
    ("workers=1", None),
    ("workers=64", None),
    ("workers=0", Some(UsageCause::BadValue)),
    ("workers=65", Some(UsageCause::BadValue)),
    ("workers=064", Some(UsageCause::BadValue)),
    ("workers=+1", Some(UsageCause::BadValue)),
    ("workers= 1", Some(UsageCause::BadValue)),
    ("workers=1 ", Some(UsageCause::BadValue)),
    ("workers=1=1", Some(UsageCause::BadValue)),
    ("workers=", Some(UsageCause::BadValue)),
    (
        "workers=1000000000000000000000000000000000000001",
        Some(UsageCause::BadValue),
    ),
    ("cap=0", None),
    ("cap=18446744073709551615", None),
    ("cap=18446744073709551616", Some(UsageCause::BadValue)),
    ("cap=00", Some(UsageCause::BadValue)),
    ("cap=", Some(UsageCause::BadValue)),
    ("cap=-1", Some(UsageCause::BadValue)),
    ("kernel=fs", None),
    ("kernel=jjn", None),
    ("kernel=stucki", None),
    ("kernel=Fs", Some(UsageCause::BadValue)),
    ("kernel=", Some(UsageCause::BadValue)),
    ("grain=0", None),
    ("grain=1", None),
    ("grain=16", None),
    ("grain=32", None),
    ("grain=33", Some(UsageCause::BadValue)),
    ("grain=x", Some(UsageCause::BadValue)),
    ("grain=", Some(UsageCause::BadValue)),
    ("grain=01", Some(UsageCause::BadValue)),
    ("grain=+1", Some(UsageCause::BadValue)),
    ("grain=256", Some(UsageCause::BadValue)),
    ("grain=-1", Some(UsageCause::BadValue)),
    ("shingle=0", None),
    ("shingle=1", None),
    ("dead=0", None),
    ("dead=254", None),
    ("dead=0,254", None),
    ("dead=1,2,3", None),
    ("shingle=2", Some(UsageCause::BadValue)),
    ("shingle=", Some(UsageCause::BadValue)),
    ("shingle=01", Some(UsageCause::BadValue)),
    ("shingle=true", Some(UsageCause::BadValue)),
    ("dead=", Some(UsageCause::BadValue)),
    ("dead=0,", Some(UsageCause::BadValue)),
    ("dead=,0", Some(UsageCause::BadValue)),
    ("dead=0,,1", Some(UsageCause::BadValue)),
    ("dead=00", Some(UsageCause::BadValue)),
    ("dead=0,01", Some(UsageCause::BadValue)),
    ("dead=2,2", Some(UsageCause::BadValue)),
    ("dead=2,1", Some(UsageCause::BadValue)),
    ("dead=0,2,1", Some(UsageCause::BadValue)),
    ("dead=255", Some(UsageCause::BadValue)),
    ("dead=0,255", Some(UsageCause::BadValue)),
    ("dead=256", Some(UsageCause::BadValue)),
    ("dead=+1", Some(UsageCause::BadValue)),
    ("dead= 1", Some(UsageCause::BadValue)),
    ("dead=1 ", Some(UsageCause::BadValue)),
    ("dead=0, 1", Some(UsageCause::BadValue)),
    ("dead=1;2", Some(UsageCause::BadValue)),
    ("dead=none", Some(UsageCause::BadValue)),
    ("seed=1", Some(UsageCause::UnknownKey)),
    ("=1", Some(UsageCause::UnknownKey)),
    ("worker=1", Some(UsageCause::UnknownKey)),
    ("Workers=1", Some(UsageCause::UnknownKey)),
    ("print", Some(UsageCause::NotKeyValue)),
    ("", Some(UsageCause::NotKeyValue)),
];

#[test]
fn each_value_is_taken_or_refused_at_word_2(rt: HostRuntime) -> Result<(), Fail> {
    for &(word, cause) in &VALUES {
        same_fault(&rt, rt.alloc(), &["print", word, "profile=c"], 2, cause)?;
    }
    Ok(())
}

#[test]
fn each_value_is_taken_or_refused_at_word_3(rt: HostRuntime) -> Result<(), Fail> {
    for &(word, cause) in &VALUES {
        let number = if cause.is_none() { 4 } else { 3 };
        let cause = cause.unwrap_or(UsageCause::NotKeyValue);
        let line = ["print", "profile=c", word, "x"];
        same_fault(&rt, rt.alloc(), &line, number, Some(cause))?;
    }
    Ok(())
}

#[test]
fn a_profile_has_1_to_255_bytes(rt: HostRuntime) -> Result<(), Fail> {
    for (len, is_taken) in [(0, false), (1, true), (255, true), (256, false)] {
        let mut word = String::from_str(rt.alloc(), "profile=")?;
        for _ in 0..len {
            word.push('c')?;
        }
        let words = words_of(rt.alloc(), &["print", word.as_str()])?;
        assert!(rt; read_words(&words).is_ok() == is_taken, "{len}");
    }
    Ok(())
}

const TRIAL_VALUES: [(&str, Option<UsageCause>); 35] = [
    ("seed=0", None),
    ("seed=4294967295", None),
    ("pages=1", None),
    ("pages=16", None),
    ("width=1", None),
    ("width=8191", None),
    ("height=1", None),
    ("height=15840", None),
    ("kind=gray", None),
    ("kind=black", None),
    ("kind=rgb", None),
    ("kind=black1", None),
    ("kind=cmyk", None),
    ("kernel=jjn", None),
    ("grain=32", None),
    ("workers=64", None),
    ("shingle=1", None),
    ("dead=254", None),
    ("seed=4294967296", Some(UsageCause::BadValue)),
    ("seed=-1", Some(UsageCause::BadValue)),
    ("seed=", Some(UsageCause::BadValue)),
    ("pages=0", Some(UsageCause::BadValue)),
    ("pages=17", Some(UsageCause::BadValue)),
    ("width=0", Some(UsageCause::BadValue)),
    ("width=8192", Some(UsageCause::BadValue)),
    ("height=0", Some(UsageCause::BadValue)),
    ("height=15841", Some(UsageCause::BadValue)),
    ("kind=Gray", Some(UsageCause::BadValue)),
    ("kind=grey", Some(UsageCause::BadValue)),
    ("kind=", Some(UsageCause::BadValue)),
    ("workers=65", Some(UsageCause::BadValue)),
    ("grain=33", Some(UsageCause::BadValue)),
    ("cap=1", Some(UsageCause::UnknownKey)),
    ("most=1", Some(UsageCause::UnknownKey)),
    ("page=1", Some(UsageCause::UnknownKey)),
];

#[test]
fn each_value_of_a_trial_is_taken_or_refused(rt: HostRuntime) -> Result<(), Fail> {
    for &(word, cause) in &TRIAL_VALUES {
        same_fault(&rt, rt.alloc(), &["trial", word, "profile=c"], 2, cause)?;
    }
    Ok(())
}

// The word that lists the first nozzles, with commas between.
fn first_nozzles(alloc: Global, count: u32) -> Result<String, Fail> {
    let mut word = String::from_str(alloc, "dead=0")?;
    for nozzle in 1..count {
        word.push(',')?;
        word.push_str(&format!(in alloc; "{nozzle}")?)?;
    }
    Ok(word)
}

#[test]
fn all_nozzles_of_the_greatest_head_are_listed_and_no_more(rt: HostRuntime) -> Result<(), Fail> {
    for (count, is_taken) in [(1, true), (254, true), (255, true), (256, false)] {
        let word = first_nozzles(rt.alloc(), count)?;
        let words = words_of(rt.alloc(), &["print", word.as_str()])?;
        let listed = read_words(&words).ok().map(|job| job.dead.len() as u32);
        assert!(rt;
            listed == if is_taken { Some(count) } else { None },
            "{count}"
        );
    }
    Ok(())
}
