//! A profile as a text.
ghost use Rattle.arrayvec.specs.ArrayString.{array_string_len};
ghost use Rattle.printer_profile.specs.Text.{key_line, profile_text_of};
ghost use Rattle.printer_profile.specs.Keys.{profile_key_row};
ghost use Rattle.printer_profile.specs.Values.{curve_text};
ghost use Rattle.std.specs.Fmt.{decimal};
ghost use Rattle.std.specs.Prelude.{◌+◌, ◌++◌, ◌≡◌, ◌≤◌, OnErr, OnOk, [], ◌<◌, length};
ghost use Rattle.std.specs.Vec.{vec_capacity, vec_len};

use crate::fields::Profile;
use crate::keys::{Key, Version};
use crate::values::ink_set_name;
use arrayvec::ArrayString;
use base_definitions::Memory;
use itoa::Buffer;

// No less than the bytes of any profile's text: 16 of its first line, and at most 114 of each key's line.
const ROOM: usize = 2068;

fn push_number(n: u16, out: &mut ArrayString<ROOM>)
    requires { array_string_len out.old + 5 ≤ ROOM }
    ensures bytes { out.new.bytes ≡ out.old.bytes ++ decimal n }
    ensures len { array_string_len out.new ≤ array_string_len out.old + 5 }
{
    let mut buffer = Buffer::new();
    out.push_str(buffer.format(n));
}

// Appends the points with commas between.
fn push_curve(curve: &[u16; 17], out: &mut ArrayString<ROOM>)
    requires { array_string_len out.old + 101 ≤ ROOM }
    ensures bytes { out.new.bytes ≡ out.old.bytes ++ curve_text curve.now }
    ensures len { array_string_len out.new ≤ array_string_len out.old + 101 }
{
    push_number(curve[0], out);
    'points: for place in 1..17 {
        out.push_str(",");
        push_number(curve[place], out);
    }
}

fn push_value(p: &Profile, key: Key, out: &mut ArrayString<ROOM>)
    requires { array_string_len out.old + 101 ≤ ROOM }
    ensures bytes { out.new.bytes ≡ out.old.bytes ++ (profile_key_row key).text p.now }
    ensures len { array_string_len out.new ≤ array_string_len out.old + 101 }
{
    match key {
        Key::Hdpi => push_number(p.hdpi, out),
        Key::Vdpi => push_number(p.vdpi, out),
        Key::Nozzles => push_number(u16::from(p.nozzles), out),
        Key::Pitch => push_number(u16::from(p.pitch), out),
        Key::Inks => out.push_str(ink_set_name(p.inks)),
        Key::BlackStart => push_number(u16::from(p.black_start), out),
        Key::LimitBlack => push_number(u16::from(p.limits[0]), out),
        Key::LimitCyan => push_number(u16::from(p.limits[1]), out),
        Key::LimitMagenta => push_number(u16::from(p.limits[2]), out),
        Key::LimitYellow => push_number(u16::from(p.limits[3]), out),
        Key::Left => push_number(p.left, out),
        Key::Right => push_number(p.right, out),
        Key::Top => push_number(p.top, out),
        Key::Bottom => push_number(p.bottom, out),
        Key::CurveBlack => push_curve(&p.curves[0], out),
        Key::CurveCyan => push_curve(&p.curves[1], out),
        Key::CurveMagenta => push_curve(&p.curves[2], out),
        Key::CurveYellow => push_curve(&p.curves[3], out),
    }
}

fn push_line(p: &Profile, key: Key, out: &mut ArrayString<ROOM>)
    requires { array_string_len out.old + 114 ≤ ROOM }
    ensures bytes { out.new.bytes ≡ out.old.bytes ++ key_line p.now key }
    ensures len { array_string_len out.new ≤ array_string_len out.old + 114 }
{
    out.push_str(key.name());
    out.push_str("=");
    push_value(p, key, out);
    out.push_str("\n");
}

fn push_text(p: &Profile, out: &mut ArrayString<ROOM>)
    requires { out.old.bytes ≡ [] }
    ensures { out.new.bytes ≡ profile_text_of p.now }
{
    out.push_str(Version::Two.head());
    out.push_str("\n");
    'keys: for key in Key::ALL {
        push_line(p, key, out);
    }
}

impl Profile {
    /// Appends the profile's text of version 2, with every key: at most 2068 bytes. `read` returns the profile again
    /// from this text.
    pub fn print(&self, out: &mut Vec<u8>) -> Result<(), Memory>
        ensures ok { OnOk result (out.new.items ≡ out.old.items ++ profile_text_of self.now) }
        ensures len { length (profile_text_of self.now) ≤ ROOM }
        ensures err { OnErr result (out.new.items ≡ out.old.items) }
        ensures full { OnErr result (vec_capacity out.old < vec_len out.old + length (profile_text_of self.now)) }
    {
        let mut text = ArrayString::new();
        push_text(self, &mut text);
        out.extend_from_slice(text.as_str().as_bytes())?;
        Ok(())
    }
}
