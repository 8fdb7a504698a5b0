//! The amounts of an ink from what pixels give to it: by the ink's tones and its limit.
ghost use Rattle.ink_separation.specs.Scaling.{by_ink, scaled};
ghost use Rattle.printer_definitions.specs.Inks.{ink_place};
ghost use Rattle.printer_definitions.specs.Printer.{straight_curve, tone_on};
ghost use Rattle.printer_definitions.specs.declared.inks.Ink.{Ink};
ghost use Rattle.printer_profile.specs.Validity.{check};
ghost use Rattle.std.specs.Prelude.{IsOk, [], slice_index, slice_index_or, true, ℕ, ◌*◌, ◌+◌, ◌/◌, ◌<◌, ◌≡◌, ◌≤◌};

use crate::pixels::{PIXELS, Values};
use crate::planes::Plane;
use printer_definitions::Ink;
use printer_profile::{Profile, STRAIGHT_CURVE};

/// How the amounts of an ink are made from what pixels give to it.
#[derive(Drop)]
pub(crate) enum Scale {
    /// As they are: the ink's curve is straight, and its limit is 255.
    Whole,
    /// By this limit alone: the ink's curve is straight.
    Straight(u8),
    /// By a table of tones, scaled by the ink's limit.
    Table([u8; 256]),
}

// The amount of a tone, scaled by a limit.
#[inline(always)]
fn part(tone: u8, limit: u8) -> u8
    ensures { result ≡ tone * limit / 255 }
{
    (u16::from(tone) * u16::from(limit) / 255) as u8
}

// Whether a curve leaves each amount as it is.
fn is_straight(curve: &[u16; 17]) -> bool
    ensures { result ≡ true → curve.now ≡ straight_curve }
{
    *curve == STRAIGHT_CURVE
}

// The tones of an ink, 0 to 3 for black, cyan, magenta and yellow, scaled by this limit.
fn table_of(p: &Profile, ink: u8, limit: u8) -> [u8; 256]
    requires ink { ink < 4 }
    requires checked { IsOk (check p.now) }
    ensures { (a : ℕ) → a < 256
        → slice_index result a ≡ tone_on (slice_index_or p.now.curves ink []) a * limit / 255 }
{
    let mut amounts = [0; 256];
    for a in 0..256usize {
        amounts[a] = part(p.tone(ink, a as u8), limit);
    }
    amounts
}

impl Scale {
    // That of a limit alone.
    fn of_limit(limit: u8) -> Scale
        ensures { (a : ℕ) → scaled result a ≡ a * limit / 255 }
    {
        if limit == 255 {
            Scale::Whole
        } else {
            Scale::Straight(limit)
        }
    }

    /// The scale of an ink, 0 to 3 for black, cyan, magenta and yellow.
    pub(crate) fn of(p: &Profile, ink: u8) -> Scale
        requires ink { ink < 4 }
        requires checked { IsOk (check p.now) }
        ensures { (a : ℕ) → a < 256
            → scaled result a ≡ tone_on (slice_index_or p.now.curves ink []) a * slice_index p.now.limits ink / 255 }
    {
        let limit = p.limits[usize::from(ink)];
        if is_straight(&p.curves[usize::from(ink)]) {
            Scale::of_limit(limit)
        } else {
            Scale::Table(table_of(p, ink, limit))
        }
    }

    /// The amounts of what pixels give.
    #[inline(always)]
    pub(crate) fn amounts(&self, given: &Values) -> Values
        ensures { (x : ℕ) → x < 64 → slice_index result x ≡ scaled self.now (slice_index given.now x) }
    {
        match self {
            Scale::Whole => *given,
            Scale::Straight(limit) => limited(given, *limit),
            Scale::Table(amounts) => looked_up(given, amounts),
        }
    }

    /// Scales what the pixels of a tile give.
    fn scale(&self, plane: &mut Plane)
        ensures { (n : ℕ) → n < 2048 → slice_index plane.new n ≡ scaled self.now (slice_index plane.old n) }
    {
        match self {
            Scale::Whole => {}
            Scale::Straight(limit) => limit_all(plane, *limit),
            Scale::Table(amounts) => look_all_up(plane, amounts),
        }
    }

    // The amount of a number that is given.
    #[inline(always)]
    fn amount(&self, a: u8) -> u8
        ensures { result ≡ scaled self.now a }
    {
        match self {
            Scale::Whole => a,
            Scale::Straight(limit) => part(a, *limit),
            Scale::Table(amounts) => amounts[usize::from(a)],
        }
    }
}

/// The scales of a printer's inks. Contracts see its limits and curves, of black, cyan, magenta and yellow.
#[derive(Drop)]
pub(crate) struct Scales {
    limits: [u8; 4],
    curves: [[u16; 17]; 4],
    black: Scale,
    cyan: Scale,
    magenta: Scale,
    yellow: Scale,
    ghost made: { (ink : Ink) (a : ℕ) → a < 256 → scaled (by_ink black cyan magenta yellow ink) a
        ≡ tone_on (slice_index_or curves (ink_place ink) []) a * slice_index limits (ink_place ink) / 255 },
}

impl Scales {
    /// The scales of a printer.
    pub(crate) fn make(p: &Profile) -> Scales
        requires { IsOk (check p.now) }
        ensures limits { result.limits ≡ p.now.limits }
        ensures curves { result.curves ≡ p.now.curves }
    {
        Scales {
            limits: p.limits,
            curves: p.curves,
            black: Scale::of(p, 0),
            cyan: Scale::of(p, 1),
            magenta: Scale::of(p, 2),
            yellow: Scale::of(p, 3),
        }
    }

    // That of an ink.
    #[inline(always)]
    fn of(&self, ink: Ink) -> &Scale
        ensures { result.now ≡ by_ink self.now.black self.now.cyan self.now.magenta self.now.yellow ink }
    {
        match ink {
            Ink::Black => &self.black,
            Ink::Cyan => &self.cyan,
            Ink::Magenta => &self.magenta,
            Ink::Yellow => &self.yellow,
        }
    }

    /// The amounts of what pixels give to an ink.
    #[inline(always)]
    pub(crate) fn amounts(&self, ink: Ink, given: &Values) -> Values
        ensures { (x : ℕ) → x < 64 → slice_index result x
            ≡ tone_on (slice_index_or self.now.curves (ink_place ink) []) (slice_index given.now x)
            * slice_index self.now.limits (ink_place ink) / 255 }
    {
        self.of(ink).amounts(given)
    }

    /// Makes amounts of an ink of what the pixels of a tile give to it.
    pub(crate) fn scale(&self, ink: Ink, plane: &mut Plane)
        ensures { (n : ℕ) → n < 2048 → slice_index plane.new n
            ≡ tone_on (slice_index_or self.now.curves (ink_place ink) []) (slice_index plane.old n)
            * slice_index self.now.limits (ink_place ink) / 255 }
    {
        self.of(ink).scale(plane);
    }

    /// The amount of an ink for one value that a pixel gives to it.
    #[inline(always)]
    pub(crate) fn amount(&self, ink: Ink, a: u8) -> u8
        ensures { result ≡ tone_on (slice_index_or self.now.curves (ink_place ink) []) a
            * slice_index self.now.limits (ink_place ink) / 255 }
    {
        self.of(ink).amount(a)
    }
}

// The amounts by a limit.
#[inline(always)]
fn limited(given: &Values, limit: u8) -> Values
    ensures { (x : ℕ) → x < 64 → slice_index result x ≡ slice_index given.now x * limit / 255 }
{
    let mut amounts = [0; PIXELS];
    for x in 0..PIXELS {
        amounts[x] = part(given[x], limit);
    }
    amounts
}

// The amounts by a table.
#[inline(always)]
fn looked_up(given: &Values, table: &[u8; 256]) -> Values
    ensures { (x : ℕ) → x < 64 → slice_index result x ≡ slice_index table.now (slice_index given.now x) }
{
    let mut amounts = [0; PIXELS];
    look_up(given, table, &mut amounts);
    amounts
}

// The same. It is not inlined, so that each amount is written where it belongs: a loop over known places becomes 64
// lookups without a counter.
#[inline(never)]
fn look_up(given: &Values, table: &[u8; 256], amounts: &mut Values)
    ensures { (x : ℕ) → x < 64 → slice_index amounts.new x ≡ slice_index table.now (slice_index given.now x) }
{
    look_up_sixteen(given, table, 0, amounts);
    look_up_sixteen(given, table, 16, amounts);
    look_up_sixteen(given, table, 32, amounts);
    look_up_sixteen(given, table, 48, amounts);
}

// The amounts of 16 pixels after those of the first.
#[inline(always)]
fn look_up_sixteen(given: &Values, table: &[u8; 256], first: usize, amounts: &mut Values)
    requires first { first ≤ 48 }
    requires before { (x : ℕ) → x < first
        → slice_index amounts.old x ≡ slice_index table.now (slice_index given.now x) }
    ensures { (x : ℕ) → x < first + 16
        → slice_index amounts.new x ≡ slice_index table.now (slice_index given.now x) }
{
    for x in first..first + 16 {
        amounts[x] = table[usize::from(given[x])];
    }
}

// Scales a tile's amounts by a limit.
fn limit_all(plane: &mut Plane, limit: u8)
    ensures { (n : ℕ) → n < 2048 → slice_index plane.new n ≡ slice_index plane.old n * limit / 255 }
{
    for n in 0..2048 {
        plane[n] = part(plane[n], limit);
    }
}

// Looks a tile's amounts up in a table.
fn look_all_up(plane: &mut Plane, table: &[u8; 256])
    ensures { (n : ℕ) → n < 2048 → slice_index plane.new n ≡ slice_index table.now (slice_index plane.old n) }
{
    for n in 0..2048 {
        plane[n] = table[usize::from(plane[n])];
    }
}
