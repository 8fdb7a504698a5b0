//! Profiles by their names, their checks and their texts.
use job_fixtures::TINY_TEXT;
use printer_profile::{
    InkSet, PageForm, Profile, ProfileFault, STRAIGHT_CURVE, SetFault, TextCause, TextFault,
    Window, built_in, read,
};
use pwg_definitions::Kind;
use std::alloc::Global;
use std::process::Abort;
use std::test::Fail;

// The built-in profile `p720cmyk`.
const GOOD: Profile = Profile {
    hdpi: 720,
    vdpi: 720,
    nozzles: 31,
    pitch: 8,
    inks: InkSet::Cmyk,
    black_start: 64,
    limits: [255, 224, 224, 224],
    curves: [STRAIGHT_CURVE; 4],
    left: 90,
    right: 90,
    top: 240,
    bottom: 120,
};

const HALF: [u16; 17] = [
    0, 8, 16, 24, 32, 40, 48, 56, 64, 72, 80, 88, 96, 104, 112, 120, 128,
];
// All of the ink from the amount 16 on.
const FULL: [u16; 17] = [
    0, 256, 256, 256, 256, 256, 256, 256, 256, 256, 256, 256, 256, 256, 256, 256, 256,
];
// Flat from the amount 16 to 32, and from 48 on.
const STEPS: [u16; 17] = [
    0, 10, 10, 20, 20, 20, 20, 20, 20, 20, 20, 20, 20, 20, 20, 20, 20,
];

const FALLS: [u16; 17] = [
    0, 16, 32, 48, 64, 80, 96, 112, 128, 144, 160, 176, 192, 208, 224, 240, 239,
];

const ONES: [u16; 17] = [1; 17];

const LAST_FALLS: [u16; 17] = [1, 1, 1, 1, 1, 1, 1, 1, 1, 1, 1, 1, 1, 1, 1, 1, 0];

const CHECKS: [(Profile, Result<(), ProfileFault>); 14] = [
    (GOOD, Ok(())),
    (Profile { hdpi: 300, ..GOOD }, Err(ProfileFault::Resolution)),
    (Profile { vdpi: 0, ..GOOD }, Err(ProfileFault::Resolution)),
    (Profile { nozzles: 0, ..GOOD }, Err(ProfileFault::Nozzles)),
    (Profile { pitch: 0, ..GOOD }, Err(ProfileFault::Pitch)),
    (
        Profile {
            nozzles: 32,
            top: 300,
            ..GOOD
        },
        Err(ProfileFault::NotCoprime { gcd: 8 }),
    ),
    (
        Profile {
            vdpi: 360,
            nozzles: 1,
            pitch: 26,
            ..GOOD
        },
        Err(ProfileFault::RowStep),
    ),
    (
        Profile { top: 239, ..GOOD },
        Err(ProfileFault::TopMargin { needs: 240 }),
    ),
    (
        Profile {
            black_start: 255,
            ..GOOD
        },
        Err(ProfileFault::BlackStart),
    ),
    (
        Profile {
            curves: [HALF, FULL, STEPS, [0; 17]],
            ..GOOD
        },
        Ok(()),
    ),
    (
        Profile {
            curves: [ONES, STRAIGHT_CURVE, STRAIGHT_CURVE, STRAIGHT_CURVE],
            ..GOOD
        },
        Err(ProfileFault::Curve { ink: 0 }),
    ),
    (
        Profile {
            curves: [STRAIGHT_CURVE, FALLS, STRAIGHT_CURVE, ONES],
            ..GOOD
        },
        Err(ProfileFault::Curve { ink: 1 }),
    ),
    (
        Profile {
            curves: [STRAIGHT_CURVE, HALF, FULL, FALLS],
            ..GOOD
        },
        Err(ProfileFault::Curve { ink: 3 }),
    ),
    (
        Profile {
            black_start: 255,
            curves: [ONES; 4],
            ..GOOD
        },
        Err(ProfileFault::BlackStart),
    ),
];

#[test]
fn profile_checks_name_gcd_margin_and_step(rt: HostRuntime) {
    for (profile, answer) in &CHECKS {
        assert_eq!(rt; profile.check(), *answer);
    }
}

// The tone of an amount of black, and of an amount of yellow, if the profile has them.
fn tones(profile: &Profile, a: u8) -> Option<[u8; 2]> {
    match profile.check() {
        Ok(()) => Some([profile.tone(0, a), profile.tone(3, a)]),
        Err(_) => None,
    }
}

// Profiles with the half curve, the full one and the one with flat parts for black, and the straight one for yellow.
const HALVED: Profile = Profile {
    curves: [HALF, FULL, FULL, STRAIGHT_CURVE],
    ..GOOD
};

const FILLED: Profile = Profile {
    curves: [FULL, HALF, HALF, STRAIGHT_CURVE],
    ..GOOD
};

const STEPPED: Profile = Profile {
    curves: [STEPS, FULL, FULL, STRAIGHT_CURVE],
    ..GOOD
};

// Stops the test where amounts do not have these tones of black.
fn same_tones(rt: &impl Abort, profile: &Profile, cases: &[(u8, u8)]) {
    for (a, tone) in cases {
        assert!(rt; tones(profile, *a) == Some([*tone, *a]), "{a}");
    }
}

#[test]
fn tones_of_the_half_curve(rt: HostRuntime) {
    const CASES: [(u8, u8); 5] = [(255, 127), (16, 8), (1, 0), (2, 1), (0, 0)];
    same_tones(&rt, &HALVED, &CASES);
}

#[test]
fn tones_of_curves_with_flat_parts(rt: HostRuntime) {
    const FULL_TONES: [(u8, u8); 5] = [(0, 0), (1, 16), (15, 240), (16, 255), (255, 255)];
    const STEP_TONES: [(u8, u8); 5] = [(16, 10), (31, 10), (32, 10), (40, 15), (255, 20)];
    same_tones(&rt, &FILLED, &FULL_TONES);
    same_tones(&rt, &STEPPED, &STEP_TONES);
}

#[test]
fn built_in_profiles_go_by_their_names(rt: HostRuntime) {
    for name in ["tiny1", "tiny", "p360k", "p360cmyk", "p720cmyk"] {
        let checked = built_in(name).map(|profile| profile.check());
        assert!(rt; checked == Some(Ok(())), "{name}");
    }
    let (named, absent) = (built_in("p720cmyk"), built_in("p720"));
    assert!(rt; named == Some(GOOD) && absent == None);
}

#[test]
fn a_page_is_printed_inside_its_margins(rt: HostRuntime) {
    let wanted = GOOD.wanted();
    let bounds = [wanted.least_width, wanted.least_height, wanted.most_height];
    let page = PageForm {
        width: 5950,
        height: 8410,
        kind: Kind::Gray8,
        bytes_per_line: 5950,
    };
    let window = Window {
        left: 90,
        top: 240,
        width: 5770,
        height: 8050,
    };
    assert!(rt; bounds == [181, 361, 15840] && GOOD.window(page) == window);
}

const TINY_1: &[u8] =
    b"escp2-profile 1\nhdpi=360\nvdpi=360\nnozzles=3\npitch=2\ninks=k\nblack_start=0\nlimit_k=255\nlimit_c=255\n\
    limit_m=255\nlimit_y=255\nleft=0\nright=0\ntop=4\nbottom=0\n";

#[test]
fn profile_prints_its_canonical_text(rt: HostRuntime) -> Result<(), Fail> {
    let mut out = vec![in rt.alloc(); b'!']?;
    let tiny = built_in("tiny").ok_or("tiny")?;
    let printed = tiny.print(&mut out);
    let (prefix, text) = out.as_slice().split_at(1);
    let is_appended = prefix == b"!".as_slice() && text == TINY_TEXT;
    assert!(rt; printed == Ok(()) && is_appended && read(text) == Ok(tiny));
    Ok(())
}

#[test]
fn a_version_1_text_migrates(rt: HostRuntime) -> Result<(), Fail> {
    let mut out = Vec::new(rt.alloc());
    let printed = read(TINY_1)?.print(&mut out);
    assert!(rt; printed == Ok(()) && out.as_slice() == TINY_TEXT);
    Ok(())
}

#[test]
fn keys_are_set_by_their_names(rt: HostRuntime) {
    const LINES: [(&str, &str, Result<(), SetFault>); 6] = [
        (
            "curve_m",
            "0,8,16,24,32,40,48,56,64,72,80,88,96,104,112,120,128",
            Ok(()),
        ),
        ("curve_m", "0", Err(SetFault::BadValue)),
        ("limit_y", "7", Ok(())),
        ("inks", "cmy", Ok(())),
        ("top", "65536", Err(SetFault::BadValue)),
        ("Top", "6", Err(SetFault::UnknownKey)),
    ];
    let mut profile = GOOD;
    for &(key, value, answer) in &LINES {
        assert!(rt; profile.set(key, value) == answer, "{key}={value}");
    }
    let set = Profile {
        limits: [255, 224, 224, 7],
        curves: [STRAIGHT_CURVE, STRAIGHT_CURVE, HALF, STRAIGHT_CURVE],
        inks: InkSet::Cmy,
        ..GOOD
    };
    assert_eq!(rt; profile, set);
}

const REFUSED: [(&[u8], u32, TextCause); 19] = [
    (b"", 1, TextCause::BadHead),
    (b"\nescp2-profile 1\n", 1, TextCause::BadHead),
    (b"escp2-profile 1\r", 1, TextCause::BadHead),
    (b"escp2-profile 3\n", 1, TextCause::BadHead),
    (b"escp2-profile 2 \n", 1, TextCause::BadHead),
    (
        b"escp2-profile 2\ncurve_y=0,16,32,48,64,80,96,112,128,144,160,176,192,208,224,240,256\ncurve_y=x\n",
        3,
        TextCause::RepeatedKey,
    ),
    (b"escp2-profile 1\xff\n", 1, TextCause::BadHead),
    (b"escp2-profile 1\nhdpi\xff\n", 2, TextCause::NotAscii),
    (
        b"escp2-profile 1\n# \xff\n\r\nhdpi\n",
        4,
        TextCause::NoEquals,
    ),
    (b"escp2-profile 1\n #\n", 2, TextCause::NoEquals),
    (b"escp2-profile 1\ndpi=360\n", 2, TextCause::UnknownKey),
    (
        b"escp2-profile 1\nhdpi=9\nhdpi=x\n",
        3,
        TextCause::RepeatedKey,
    ),
    (b"escp2-profile 1\nhdpi=0360\n", 2, TextCause::BadValue),
    (b"escp2-profile 1\nhdpi=65536\n", 2, TextCause::BadValue),
    (
        b"escp2-profile 1\npitch=99999999999999999999999\n",
        2,
        TextCause::BadValue,
    ),
    (b"escp2-profile 1\ninks=cmyk=\n", 2, TextCause::BadValue),
    (b"escp2-profile 1\r\ntop=4\r", 2, TextCause::BadValue),
    (
        b"escp2-profile 1\nhdpi=360\npitch=1",
        0,
        TextCause::Missing { key: 2 },
    ),
    (b"escp2-profile 1", 0, TextCause::Missing { key: 1 }),
];

#[test]
fn a_text_is_refused_at_its_first_fault(rt: HostRuntime) {
    for &(text, line, cause) in &REFUSED {
        assert_eq!(rt; read(text), Err(TextFault { line, cause }));
    }
}

#[test]
fn a_text_may_leave_out_what_has_a_default(rt: HostRuntime) {
    let text =
        b"escp2-profile 1\r\n# a printer\n\npitch=1\r\nnozzles=1\ninks=k\nvdpi=360\nhdpi=360".as_slice();
    assert_eq!(rt; read(text).ok(), built_in("tiny1"));
}

// What follows the name of a curve's key in a refused line: another count of numbers, and values that are no numbers
// from 0 to 256.
const BAD_CURVES: [&[u8]; 11] = [
    b"=0,16,32,48,64,80,96,112,128,144,160,176,192,208,224,240\n",
    b"=0,16,32,48,64,80,96,112,128,144,160,176,192,208,224,240,256,256\n",
    b"=0,16,32,48,64,80,96,112,128,144,160,176,192,208,224,240,257\n",
    b"=0, 16,32,48,64,80,96,112,128,144,160,176,192,208,224,240,256\n",
    b"=0,16,32,48,64,80,96,112,128,144,160,176,192,208,224,240,256,\n",
    b"=0,016,32,48,64,80,96,112,128,144,160,176,192,208,224,240,256\n",
    b"=\n",
    b"=,0,16,32,48,64,80,96,112,128,144,160,176,192,208,224,240,256\n",
    b"=0,,32,48,64,80,96,112,128,144,160,176,192,208,224,240,256\n",
    b"=0;16,32,48,64,80,96,112,128,144,160,176,192,208,224,240,256\n",
    b"=0,16,32,48,64,80,96,112,128,144,160,176,192,208,224,240,1000000000000000000000000000000000000256\n",
];

const CURVE_KEYS: [&[u8]; 4] = [b"curve_k", b"curve_c", b"curve_m", b"curve_y"];

// Stops the test where a text of two lines, of which the second begins with the name of a key, is not refused there.
fn same_refusal(
    rt: &impl Abort,
    alloc: Global,
    head: &[u8],
    key: &[u8],
    rest: &[u8],
    cause: TextCause,
) -> Result<(), Fail> {
    let mut text = Vec::from_slice(alloc, head)?;
    text.extend_from_slice(key)?;
    text.extend_from_slice(rest)?;
    assert!(rt;
        read(text.as_slice()) == Err(TextFault { line: 2, cause }),
        "{key:?} {rest:?}"
    );
    Ok(())
}

#[test]
fn bad_curves_are_refused(rt: HostRuntime) -> Result<(), Fail> {
    for &rest in &BAD_CURVES {
        for &key in &CURVE_KEYS {
            let head = b"escp2-profile 2\n";
            same_refusal(&rt, rt.alloc(), head, key, rest, TextCause::BadValue)?;
        }
    }
    Ok(())
}

#[test]
fn each_cause_comes_at_each_curve_key(rt: HostRuntime) -> Result<(), Fail> {
    const CAUSES: [(&[u8], &[u8], TextCause); 4] = [
        (b"escp2-profile 2\n", b"=\xff\n", TextCause::NotAscii),
        (b"escp2-profile 2\n", b"\n", TextCause::NoEquals),
        (b"escp2-profile 2\n", b"s=0\n", TextCause::UnknownKey),
        (b"escp2-profile 1\n", b"=0\n", TextCause::UnknownKey),
    ];
    for &(head, rest, cause) in &CAUSES {
        for &key in &CURVE_KEYS {
            same_refusal(&rt, rt.alloc(), head, key, rest, cause)?;
        }
    }
    Ok(())
}

#[test]
fn curves_are_read_from_lines_that_end_with_cr_lf(rt: HostRuntime) {
    let text =
        b"escp2-profile 2\r\ncurve_k=0,8,16,24,32,40,48,56,64,72,80,88,96,104,112,120,128\r\n\
        hdpi=360\r\nvdpi=360\r\nnozzles=1\r\npitch=1\r\ninks=k\r\ncurve_y=1,1,1,1,1,1,1,1,1,1,1,1,1,1,1,1,0";
    let curves = [HALF, STRAIGHT_CURVE, STRAIGHT_CURVE, LAST_FALLS];
    assert!(rt; read(text).map(|profile| profile.curves) == Ok(curves));
}
