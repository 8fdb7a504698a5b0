//! Profiles by their names, on a shelf in memory.
use job_profile::{Profile, ProfileCause, ProfileStop, find_profile};
use printer_profile::{ProfileFault, TINY1, TextCause};
use std::alloc::Global;
use std::process::Abort;
use std::test::Fail;
use weave_base::{MemShelf, ShelfFile};

const TINY1_TEXT: &[u8] = b"escp2-profile 1\nhdpi=360\nvdpi=360\nnozzles=1\npitch=1\ninks=k\n";

type Found = Result<Profile, ProfileStop>;

// A shelf with one file, whose first call fails where that is asked for.
fn shelf(alloc: Global, name: &str, bytes: Vec<u8>, fails: bool) -> Result<MemShelf, Fail> {
    let mut files = Vec::new(alloc);
    files.push(ShelfFile {
        name: String::from_str(alloc, name)?,
        bytes,
    })?;
    let mut calls = Vec::new(alloc);
    if fails {
        calls.push(1)?;
    }
    Ok(MemShelf::make(files, calls))
}

// What is found for the name `own` where the shelf has this text.
fn own(alloc: Global, text: Vec<u8>) -> Result<Found, Fail> {
    let mut shelf = shelf(alloc, "own", text, false)?;
    Ok(find_profile(alloc, &mut shelf, "own"))
}

// Stops the test where a profile is not found as it should be.
fn same(rt: &impl Abort, at: &str, found: &Found, wanted: &Found) {
    assert!(rt; *found == *wanted, "{at}: {found:?}");
}

#[test]
fn the_shelf_is_asked_for_what_is_not_built_in(rt: HostRuntime) -> Result<(), Fail> {
    const ABSENT: ProfileStop = ProfileStop::Refused {
        line: 0,
        cause: ProfileCause::Absent,
    };
    const CALLS: [(&str, Found); 3] = [
        ("tiny1", Ok(TINY1)),
        ("own", Err(ProfileStop::Failed)),
        ("own", Err(ABSENT)),
    ];
    let text = Vec::from_slice(rt.alloc(), b"no profile")?;
    let mut shelf = shelf(rt.alloc(), "tiny1", text, true)?;
    for (name, wanted) in &CALLS {
        same(
            &rt,
            name,
            &find_profile(rt.alloc(), &mut shelf, name),
            wanted,
        );
    }
    Ok(())
}

const TEXTS: [(&[u8], Found); 4] = [
    (TINY1_TEXT, Ok(TINY1)),
    (
        b"escp2-profile 1\n\npitch=0360\n",
        Err(ProfileStop::Refused {
            line: 3,
            cause: ProfileCause::Text(TextCause::BadValue),
        }),
    ),
    (
        b"escp2-profile 1\nhdpi=360\nvdpi=360\nnozzles=0\npitch=1\ninks=k\n",
        Err(ProfileStop::Refused {
            line: 0,
            cause: ProfileCause::Check(ProfileFault::Nozzles),
        }),
    ),
    (
        b"escp2-profile 2\nhdpi=360\nvdpi=360\nnozzles=1\npitch=1\ninks=k\n\
        curve_c=0,1,2,3,4,5,6,7,8,9,10,11,12,13,14,15,14\n",
        Err(ProfileStop::Refused {
            line: 0,
            cause: ProfileCause::Check(ProfileFault::Curve { ink: 1 }),
        }),
    ),
];

#[test]
fn a_text_is_read_and_checked(rt: HostRuntime) -> Result<(), Fail> {
    for (text, wanted) in &TEXTS {
        let bytes = Vec::from_slice(rt.alloc(), text)?;
        same(&rt, "a text", &own(rt.alloc(), bytes)?, wanted);
    }
    Ok(())
}

#[test]
fn a_text_has_at_most_65536_bytes(rt: HostRuntime) -> Result<(), Fail> {
    const TOO_LONG: ProfileStop = ProfileStop::Refused {
        line: 0,
        cause: ProfileCause::TooLong,
    };
    for (len, wanted) in [(65_536, Ok(TINY1)), (65_537, Err(TOO_LONG))] {
        let mut text = Vec::from_slice(rt.alloc(), TINY1_TEXT)?;
        text.resize(len, b'\n')?;
        same(&rt, "a long text", &own(rt.alloc(), text)?, &wanted);
    }
    Ok(())
}
