//! The values of keys.
ghost use Rattle.key_values.specs.Numbers.{number_within as number_of};
ghost use Rattle.printer_profile.specs.Values.{curve_written};
ghost use Rattle.printer_profile.specs.Views.{has_points};
ghost use Rattle.printer_profile.specs.Values.{ink_set_name as ink_set_name_of, ink_set_named as ink_set_of};
ghost use Rattle.std.specs.Prelude.{◌≡◌, ◌≤◌, IfSome, length, true};

use key_values::{cut_at, number_within};
use printer_definitions::InkSet;

/// A number from 0 to 65535.
pub fn pixels_of(text: &[u8]) -> Option<u16>
    ensures { result ≡ number_of 0 65535 text.now }
{
    let number = number_within(0, 65535, text)?;
    Some(number as u16)
}

/// A number from 0 to 255.
pub fn byte_of(text: &[u8]) -> Option<u8>
    ensures { result ≡ number_of 0 255 text.now }
{
    let number = number_within(0, 255, text)?;
    Some(number as u8)
}

// A point of a curve: a number from 0 to 256.
fn point_of(text: &[u8]) -> Option<u16>
    ensures point { result ≡ number_of 0 256 text.now }
    ensures most { IfSome result (λ point. point ≤ 256) }
{
    let number = number_within(0, 256, text)?;
    Some(number as u16)
}

/// A curve: 17 points with commas between.
pub fn curve_of(text: &[u8]) -> Option<[u16; 17]>
    ensures curve { result ≡ curve_written text.now }
    ensures points { IfSome result (λ curve. has_points curve ≡ true) }
{
    let mut curve = [0; 17];
    let mut rest = text;
    'points: for place in 0..16 {
        let (point, others) = cut_at(b',', rest)?;
        curve[place] = point_of(point)?;
        rest = others;
    }
    curve[16] = point_of(rest)?;
    Some(curve)
}

/// The set of inks with this name.
pub fn ink_set_named(text: &[u8]) -> Option<InkSet>
    ensures { result ≡ ink_set_of text.now }
{
    if text == b"k".as_slice() {
        Some(InkSet::K)
    } else if text == b"cmy".as_slice() {
        Some(InkSet::Cmy)
    } else if text == b"cmyk".as_slice() {
        Some(InkSet::Cmyk)
    } else {
        None
    }
}

/// The name of a set of inks.
pub fn ink_set_name(inks: InkSet) -> &'static str
    ensures name { result.now ≡ ink_set_name_of inks }
    ensures len { length result.now ≤ 4 }
{
    match inks {
        InkSet::K => "k",
        InkSet::Cmy => "cmy",
        InkSet::Cmyk => "cmyk",
    }
}
