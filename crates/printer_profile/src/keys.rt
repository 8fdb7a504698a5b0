//! The table of the keys of a profile's text: place, name, and whether a text must have the key; and the versions of
//! the text.
ghost use Rattle.printer_profile.specs.Keys.{name_at};
ghost use Rattle.std.specs.Prelude.{false, length, true, ◌≡◌, ◌≤◌};

/// A key of a profile's text.
#[derive(Clone, Copy)]
pub(crate) enum Key {
    Hdpi,
    Vdpi,
    Nozzles,
    Pitch,
    Inks,
    BlackStart,
    LimitBlack,
    LimitCyan,
    LimitMagenta,
    LimitYellow,
    Left,
    Right,
    Top,
    Bottom,
    CurveBlack,
    CurveCyan,
    CurveMagenta,
    CurveYellow,
}

/// A version of the text. Version 2 has the keys of version 1 and the keys of the curves.
#[derive(Clone, Copy)]
pub(crate) enum Version {
    One,
    Two,
}

// What a text says of a key: its place in the table, its name, and whether a text must have it.
#[derive(Clone, Copy)]
struct Row {
    place: u8,
    name: &'static str,
    required: bool,
}

fn required(place: u8, name: &'static str) -> Row
    ensures place { result.place ≡ place }
    ensures name { result.name.now ≡ name.now }
    ensures required { result.required ≡ true }
{
    Row {
        place,
        name,
        required: true,
    }
}

fn optional(place: u8, name: &'static str) -> Row
    ensures place { result.place ≡ place }
    ensures name { result.name.now ≡ name.now }
    ensures required { result.required ≡ false }
{
    Row {
        place,
        name,
        required: false,
    }
}

impl Key {
    ghost use Rattle.printer_profile.specs.Keys.{key_at, profile_key_row};

    /// All keys, in the order of the table.
    pub(crate) const ALL: [Key; 18] = [
        Key::Hdpi,
        Key::Vdpi,
        Key::Nozzles,
        Key::Pitch,
        Key::Inks,
        Key::BlackStart,
        Key::LimitBlack,
        Key::LimitCyan,
        Key::LimitMagenta,
        Key::LimitYellow,
        Key::Left,
        Key::Right,
        Key::Top,
        Key::Bottom,
        Key::CurveBlack,
        Key::CurveCyan,
        Key::CurveMagenta,
        Key::CurveYellow,
    ];

    // The key's row of the table.
    fn row(self) -> Row
        ensures place { result.place ≡ (profile_key_row self).place }
        ensures name { result.name.now ≡ (profile_key_row self).name }
        ensures required { result.required ≡ (profile_key_row self).required }
        ensures least { 1 ≤ result.place }
        ensures most { result.place ≤ 18 }
        ensures len { length result.name.now ≤ 11 }
    {
        match self {
            Key::Hdpi => required(1, "hdpi"),
            Key::Vdpi => required(2, "vdpi"),
            Key::Nozzles => required(3, "nozzles"),
            Key::Pitch => required(4, "pitch"),
            Key::Inks => required(5, "inks"),
            Key::BlackStart => optional(6, "black_start"),
            Key::LimitBlack => optional(7, "limit_k"),
            Key::LimitCyan => optional(8, "limit_c"),
            Key::LimitMagenta => optional(9, "limit_m"),
            Key::LimitYellow => optional(10, "limit_y"),
            Key::Left => optional(11, "left"),
            Key::Right => optional(12, "right"),
            Key::Top => optional(13, "top"),
            Key::Bottom => optional(14, "bottom"),
            Key::CurveBlack => optional(15, "curve_k"),
            Key::CurveCyan => optional(16, "curve_c"),
            Key::CurveMagenta => optional(17, "curve_m"),
            Key::CurveYellow => optional(18, "curve_y"),
        }
    }

    // The key's place in the table, counted from 1.
    pub(crate) fn place(self) -> u8
        ensures place { result ≡ (profile_key_row self).place }
        ensures least { 1 ≤ result }
        ensures most { result ≤ 18 }
    {
        self.row().place
    }

    pub(crate) fn name(self) -> &'static str
        ensures name { result.now ≡ (profile_key_row self).name }
        ensures len { length result.now ≤ 11 }
    {
        self.row().name
    }

    // Whether a text must have the key.
    pub(crate) fn is_required(self) -> bool
        ensures { result ≡ (profile_key_row self).required }
    {
        self.row().required
    }

    // The key at a place of the table.
    fn at(place: u8) -> Option<Key>
        ensures { result ≡ key_at place }
    {
        Key::ALL.iter().copied().find(|key| key.place() == place)
    }
}

impl Version {
    ghost use Rattle.printer_profile.specs.Keys.{key_named, keys_of};
    ghost use Rattle.printer_profile.specs.Text.{head_of, version_of};

    const ALL: [Version; 2] = [Version::One, Version::Two];

    /// The first line of a text.
    pub(crate) fn head(self) -> &'static str
        ensures head { result.now ≡ head_of self }
        ensures len { length result.now ≡ 15 }
    {
        match self {
            Version::One => "escp2-profile 1",
            Version::Two => "escp2-profile 2",
        }
    }

    /// The version of a text with this first line.
    pub(crate) fn with_head(line: &[u8]) -> Option<Version>
        ensures { result ≡ version_of line.now }
    {
        Version::ALL
            .iter()
            .copied()
            .find(|version| line == version.head().as_bytes())
    }

    // The keys, in the order of the table.
    fn keys(self) -> &'static [Key]
        ensures { result.now ≡ keys_of self }
    {
        match self {
            Version::One => &Key::ALL[..14],
            Version::Two => &Key::ALL,
        }
    }

    /// The key with this name.
    pub(crate) fn key_named(self, name: &[u8]) -> Option<Key>
        ensures { result ≡ key_named self name.now }
    {
        self.keys()
            .iter()
            .copied()
            .find(|key| key.name().as_bytes() == name)
    }
}

/// The name of the key at a place of the table, counted from 1. Empty at any other place.
pub fn key_name(place: u8) -> &'static str
    ensures name { result.now ≡ name_at place }
    ensures len { length result.now ≤ 11 }
{
    match Key::at(place) {
        Some(key) => key.name(),
        None => "",
    }
}
