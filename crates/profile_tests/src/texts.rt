//! Random texts of both versions, against a plain reader of drawn lines.
use printer_profile::{TextCause, TextFault, read};
use std::alloc::{AllocError, Global};
use std::test::Fail;

// What a key takes.
#[derive(Clone, Copy, PartialEq)]
enum Sort {
    Wide,
    Byte,
    Inks,
    Curve,
}

// The keys in the order of the table. The first five are required, the last four are those of version 2.
const KEYS: [(&str, Sort); 18] = [
    ("hdpi", Sort::Wide),
    ("vdpi", Sort::Wide),
    ("nozzles", Sort::Byte),
    ("pitch", Sort::Byte),
    ("inks", Sort::Inks),
    ("black_start", Sort::Byte),
    ("limit_k", Sort::Byte),
    ("limit_c", Sort::Byte),
    ("limit_m", Sort::Byte),
    ("limit_y", Sort::Byte),
    ("left", Sort::Wide),
    ("right", Sort::Wide),
    ("top", Sort::Wide),
    ("bottom", Sort::Wide),
    ("curve_k", Sort::Curve),
    ("curve_c", Sort::Curve),
    ("curve_m", Sort::Curve),
    ("curve_y", Sort::Curve),
];

// A text of a value, and the sort of keys that take it, if there is one. Keys of wide numbers take bytes too.
type Value = (&'static str, Option<Sort>);

const NUMBER: Value = ("0", Some(Sort::Byte));

const INKS: Value = ("k", Some(Sort::Inks));

// The first three are one for each sort of key.
const VALUES: [Value; 16] = [
    NUMBER,
    INKS,
    (
        "0,16,32,48,64,80,96,112,128,144,160,176,192,208,224,240,256",
        Some(Sort::Curve),
    ),
    ("255", Some(Sort::Byte)),
    ("256", Some(Sort::Wide)),
    ("65535", Some(Sort::Wide)),
    ("cmyk", Some(Sort::Inks)),
    ("9,9,0,256,1,2,3,4,5,6,7,8,9,10,11,12,13", Some(Sort::Curve)),
    ("", None),
    ("65536", None),
    ("01", None),
    ("-1", None),
    ("CMY", None),
    (
        "0,16,32,48,64,80,96,112,128,144,160,176,192,208,224,240",
        None,
    ),
    (
        "0,16,32,48,64,80,96,112,128,144,160,176,192,208,224,240,257",
        None,
    ),
    (
        "0,16,32,48,64,80,96,112,128,144,160,176,192,208,224,240,256,",
        None,
    ),
];

// Whether a key of this sort takes a value that keys of that sort take.
fn takes(sort: Sort, taken_by: Option<Sort>) -> bool {
    taken_by == Some(sort) || sort == Sort::Wide && taken_by == Some(Sort::Byte)
}

// A linear congruential generator.
#[derive(Drop)]
struct Draws {
    state: u32,
}

impl Draws {
    // A number below `most`, or 0.
    fn below(&mut self, most: usize) -> usize {
        self.state = self
            .state
            .wrapping_mul(1_664_525)
            .wrapping_add(1_013_904_223);
        (self.state >> 16) as usize % most.max(1)
    }
}

// A text that is drawn line by line, the keys that it has, and its first fault.
#[derive(Drop)]
struct Drawn {
    version: usize,
    text: Vec<u8>,
    line: u32,
    seen: [bool; 18],
    fault: Option<TextFault>,
}

// A text with the first line alone.
fn begun(alloc: Global, version: usize) -> Result<Drawn, AllocError> {
    let head: &[u8] = if version == 1 {
        b"escp2-profile 1\n"
    } else {
        b"escp2-profile 2\n"
    };
    Ok(Drawn {
        version,
        text: head.to_vec(alloc)?,
        line: 1,
        seen: [false; 18],
        fault: None,
    })
}

// Why a line is refused whose key stands at this place of the table.
fn cause(version: usize, place: usize, seen: bool, taken: bool) -> Option<TextCause> {
    if version == 1 && place >= 14 {
        Some(TextCause::UnknownKey)
    } else if seen {
        Some(TextCause::RepeatedKey)
    } else if taken {
        None
    } else {
        Some(TextCause::BadValue)
    }
}

// Appends a line with the key of a place and a value.
fn add_line(drawn: &mut Drawn, place: usize, (text, taken_by): Value) -> Result<(), AllocError> {
    drawn.line = drawn.line.saturating_add(1);
    let (Some((name, sort)), Some(seen)) = (KEYS.get(place), drawn.seen.get_mut(place)) else {
        return Ok(());
    };
    let why = cause(drawn.version, place, *seen, takes(*sort, taken_by));
    *seen = true;
    if let (None, Some(cause)) = (drawn.fault, why) {
        drawn.fault = Some(TextFault {
            line: drawn.line,
            cause,
        });
    }
    drawn.text.extend_from_slice(name.as_bytes())?;
    drawn.text.extend_from_slice(b"=")?;
    drawn.text.extend_from_slice(text.as_bytes())?;
    drawn.text.extend_from_slice(b"\n")
}

// Appends the required keys from a place on.
fn add_required(drawn: &mut Drawn, first: usize) -> Result<(), AllocError> {
    for place in first..5 {
        add_line(drawn, place, if place == 4 { INKS } else { NUMBER })?;
    }
    Ok(())
}

// Appends up to seven lines with any keys. Of four values three are one of the first three, so that lines are often
// good.
fn add_lines(drawn: &mut Drawn, draws: &mut Draws) -> Result<(), AllocError> {
    for _ in 0..draws.below(8) {
        let place = draws.below(18);
        let most = if draws.below(4) == 0 { 16 } else { 3 };
        if let Some(value) = VALUES.get(draws.below(most)) {
            add_line(drawn, place, *value)?;
        }
    }
    Ok(())
}

// The fault of a text: that of its first refused line, or the first required key that is absent.
fn fault_of(drawn: &Drawn) -> Option<TextFault> {
    if drawn.fault.is_some() {
        return drawn.fault;
    }
    for (seen, key) in drawn.seen.iter().zip(1u8..6) {
        if !*seen {
            return Some(TextFault {
                line: 0,
                cause: TextCause::Missing { key },
            });
        }
    }
    None
}

// Draws a text, and says whether it is read with its fault.
fn agrees(alloc: Global, draws: &mut Draws) -> Result<bool, AllocError> {
    let mut drawn = begun(alloc, draws.below(2).wrapping_add(1))?;
    add_required(&mut drawn, draws.below(16).saturating_sub(10))?;
    add_lines(&mut drawn, draws)?;
    Ok(read(&drawn.text).err() == fault_of(&drawn))
}

#[test]
fn random_texts_of_both_versions_have_their_faults(rt: HostRuntime) -> Result<(), Fail> {
    let mut draws = Draws { state: 7 };
    for count in 0..5000 {
        let alike = agrees(rt.alloc(), &mut draws)?;
        assert!(rt; alike, "text {count}");
    }
    Ok(())
}
