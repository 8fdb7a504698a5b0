//! Laws of all profiles.
ghost use Rattle.separation_definitions.specs.CanPrint.{CanPrint};
ghost use Rattle.printer_profile.specs.Text.{VersionsAgree, profile_text, profile_text_of};
ghost use Rattle.printer_profile.specs.Validity.{check};
ghost use Rattle.std.specs.Int.{IsGcd};
ghost use Rattle.std.specs.Prelude.{IsOk, List, ℕ, ◌≡◌, ◌≤◌, length, slice_index};

use crate::fields::Profile;

fn are_bytes(limits: &[u8])
    ensures { (k : ℕ) → slice_index limits.now k ≤ 255 }
{}

fn are_four(curves: &[[u16; 17]; 4])
    ensures { length curves.now ≡ 4 }
{}

fn has_17_points(curve: &[u16; 17])
    ensures { length curve.now ≡ 17 }
{}

/// A printed profile is read back.
pub fn printed_is_read(p: Profile)
    ensures { profile_text (profile_text_of p) ≡ Ok p }
{
    are_bytes(&p.limits);
    are_four(&p.curves);
    has_17_points(&p.curves[0]);
    has_17_points(&p.curves[1]);
    has_17_points(&p.curves[2]);
    has_17_points(&p.curves[3]);
}

/// Take two texts whose first lines are `escp2-profile 1` and `escp2-profile 2`, and whose other lines are equal. Both
/// are read with the same result, or the text of version 1 has an unknown key in a line with the key of a curve.
#[tactic(auto, using(crate::proofs::TwoHeads::versions_agree))]
pub fn versions_agree()
    ensures { (a b : List ℕ) → VersionsAgree a b }
{}

/// A printer that passes its checks can print: it meets the conditions of the laws of the page.
pub fn checked_can_print(p: Profile)
    ensures { IsOk (check p) → CanPrint p }
{}

/// If a printer passes its checks, its number of nozzles and its pitch are coprime, so its passes fire each row once.
pub fn checked_is_coprime(p: Profile)
    ensures { IsOk (check p) → IsGcd p.nozzles p.pitch 1 }
{}
