//! Whether a profile makes sense.
ghost use Rattle.printer_profile.specs.Validity.{curve_tests, first_profile_fault, gcd_of, is_curve as is_curve_of, is_resolution as is_resolution_of};
ghost use Rattle.std.specs.Prelude.{◌≡◌, ◌<◌, not, position};

use crate::fields::Profile;
use base_definitions::greatest_common_divisor;
use thiserror::Error;

/// Why a profile makes no sense, in the order of the checks.
#[derive(Clone, Copy, Debug, PartialEq, Eq, Error)]
pub enum ProfileFault {
    #[error("a resolution is neither 360 nor 720 dots an inch")]
    Resolution,
    #[error("the head has no nozzles")]
    Nozzles,
    #[error("the nozzles are no rows apart")]
    Pitch,
    /// Passes of equal steps fire every row once only if the number of nozzles and the pitch are coprime.
    #[error("the nozzles and the pitch have the common divisor {gcd}")]
    NotCoprime { gcd: u8 },
    /// The distance between two nozzles, in 1/3600 inch, is one byte of the raster command.
    #[error("the nozzles are more than 255/3600 inch apart")]
    RowStep,
    /// The first rows of a page are below the first nozzle by up to the head's length, in rows.
    #[error("the top margin is below {needs}")]
    TopMargin { needs: u32 },
    #[error("no darkness is moved into black")]
    BlackStart,
    /// The ink counts from 0 in the order black, cyan, magenta and yellow.
    #[error("the curve of ink {ink} does not begin with 0, or it falls")]
    Curve { ink: u8 },
}

// The greatest common divisor, as the definition of a profile's faults has it.
fn gcd(a: u8, b: u8) -> u8
    requires { 0 < a }
    ensures { result ≡ gcd_of a b }
{
    greatest_common_divisor(a, b)
}

fn is_resolution(dpi: u16) -> bool
    ensures { result ≡ is_resolution_of dpi }
{
    dpi == 360 || dpi == 720
}

// Whether a curve begins with 0 and does not fall.
fn is_curve(curve: &[u16; 17]) -> bool
    ensures { result ≡ is_curve_of curve.now }
{
    if curve[0] != 0 {
        return false;
    }
    'points: for place in 1..17 {
        if curve[place] < curve[place - 1] {
            return false;
        }
    }
    true
}

// The place of the first curve that does not begin with 0, or that falls.
fn broken_curve(curves: &[[u16; 17]; 4]) -> Option<usize>
    ensures { result ≡ position (λ curve. not (is_curve_of curve)) curves.now }
{
    curves.iter().position(|curve| !is_curve(curve))
}

fn check_curves(curves: &[[u16; 17]; 4]) -> Result<(), ProfileFault>
    ensures { result ≡ first_profile_fault (curve_tests curves.now) }
{
    match broken_curve(curves) {
        None => Ok(()),
        Some(ink) => Err(ProfileFault::Curve { ink: ink as u8 }),
    }
}

impl Profile {
    ghost use Rattle.printer_profile.specs.Validity.{check as check_of};

    /// Checks whether the fields make sense together. `Err` has the first fault in the order of `ProfileFault`.
    pub fn check(&self) -> Result<(), ProfileFault>
        ensures { result ≡ check_of self.now }
    {
        if !is_resolution(self.hdpi) || !is_resolution(self.vdpi) {
            return Err(ProfileFault::Resolution);
        }
        if self.nozzles == 0 {
            return Err(ProfileFault::Nozzles);
        }
        if self.pitch == 0 {
            return Err(ProfileFault::Pitch);
        }
        let gcd = gcd(self.nozzles, self.pitch);
        if gcd > 1 {
            return Err(ProfileFault::NotCoprime { gcd });
        }
        if u32::from(self.pitch) * 3600 / u32::from(self.vdpi) > 255 {
            return Err(ProfileFault::RowStep);
        }
        let needs = (u32::from(self.nozzles) - 1) * u32::from(self.pitch);
        if u32::from(self.top) < needs {
            return Err(ProfileFault::TopMargin { needs });
        }
        if self.black_start == 255 {
            return Err(ProfileFault::BlackStart);
        }
        check_curves(&self.curves)
    }
}
