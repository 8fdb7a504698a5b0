//! Setting one key of a profile.
ghost use Rattle.std.specs.Prelude.{◌≡◌, IfErr, OnErr, OnOk};

use crate::fields::Profile;
use crate::keys::{Key, Version};
use crate::values::{byte_of, curve_of, ink_set_named, pixels_of};
use thiserror::Error;

/// Why a key is not set.
#[derive(Clone, Copy, Debug, PartialEq, Eq, Error)]
pub enum SetFault {
    #[error("there is no such key")]
    UnknownKey,
    #[error("the key does not take this value")]
    BadValue,
}

impl Profile {
    ghost use Rattle.printer_profile.specs.Keys.{profile_key_row, set_key};

    // The profile with the value of a key, if the key takes the value.
    #[tactic(auto, using(crate::proofs::CurveTexts::points_kept))]
    pub(crate) fn with_value(self, key: Key, text: &[u8]) -> Option<Profile>
        ensures { result ≡ (profile_key_row key).put text.now self }
    {
        let mut profile = self;
        match key {
            Key::Hdpi => profile.hdpi = pixels_of(text)?,
            Key::Vdpi => profile.vdpi = pixels_of(text)?,
            Key::Nozzles => profile.nozzles = byte_of(text)?,
            Key::Pitch => profile.pitch = byte_of(text)?,
            Key::Inks => profile.inks = ink_set_named(text)?,
            Key::BlackStart => profile.black_start = byte_of(text)?,
            Key::LimitBlack => profile.limits[0] = byte_of(text)?,
            Key::LimitCyan => profile.limits[1] = byte_of(text)?,
            Key::LimitMagenta => profile.limits[2] = byte_of(text)?,
            Key::LimitYellow => profile.limits[3] = byte_of(text)?,
            Key::Left => profile.left = pixels_of(text)?,
            Key::Right => profile.right = pixels_of(text)?,
            Key::Top => profile.top = pixels_of(text)?,
            Key::Bottom => profile.bottom = pixels_of(text)?,
            Key::CurveBlack => profile.curves[0] = curve_of(text)?,
            Key::CurveCyan => profile.curves[1] = curve_of(text)?,
            Key::CurveMagenta => profile.curves[2] = curve_of(text)?,
            Key::CurveYellow => profile.curves[3] = curve_of(text)?,
        }
        Some(profile)
    }

    /// Sets the key with this name, as a line `key=value` of a profile's text would.
    pub fn set(&mut self, key: &str, value: &str) -> Result<(), SetFault>
        ensures ok { OnOk result (set_key key.now value.now self.old ≡ Ok self.new) }
        ensures fault { IfErr result (λ fault. set_key key.now value.now self.old ≡ Err fault) }
        ensures err { OnErr result (self.new ≡ self.old) }
    {
        let key = Version::Two
            .key_named(key.as_bytes())
            .ok_or(SetFault::UnknownKey)?;
        *self = self
            .with_value(key, value.as_bytes())
            .ok_or(SetFault::BadValue)?;
        Ok(())
    }
}
