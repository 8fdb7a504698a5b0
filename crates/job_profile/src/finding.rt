//! Finding a profile by its name.
ghost use Rattle.job_profile.specs.Named.{IsJobProfile, checked_result, named_result, text_result};
ghost use Rattle.job_profile.specs.Stops.{OnRefused};
ghost use Rattle.job_profile.specs.declared.stops.ProfileStop.TheVariants as stop;
ghost use Rattle.printer_profile.specs.Profiles.{built_in as built_in_of};
ghost use Rattle.printer_profile.specs.Validity.{check};
ghost use Rattle.std.specs.Prelude.{Err, IfOk, IfSome, IsErrOf, IsOk, IsSome, None, Ok, Option, List, ℕ, ◌≡◌, ◌≤◌};
ghost use Rattle.weave_base.specs.Causes.{Rose};
ghost use Rattle.weave_base.specs.Shelf.{text_named};

use crate::stops::{ProfileCause, ProfileStop};
use printer_profile::{Profile, built_in, read};
use std::alloc::Global;
use weave_base::{Found, Shelf};

// The most bytes of a profile's text.
const MOST_TEXT: usize = 65536;

// The profile of a text.
fn read_profile(text: &[u8]) -> Result<Profile, ProfileStop>
    ensures ok { IfOk result (λ p. text_result text.now ≡ Ok p) }
    ensures refused { OnRefused result (λ refusal. text_result text.now ≡ Err refusal) }
    ensures failed { IsErrOf result stop.Failed → ⊥ }
    ensures memory { IsErrOf result stop.Memory → ⊥ }
{
    Ok(read(text)?)
}

// The profile of a text on the shelf.
fn shelf_profile<F: Shelf>(alloc: Global, shelf: &mut F, name: &str) -> Result<Profile, ProfileStop>
    ensures ok { IfOk result (λ p. (held : Option (List ℕ))
        × IfSome (F.files shelf.old) (λ files. held ≡ text_named name.now files)
        × (named_result None held ≡ Ok p)) }
    ensures refused { OnRefused result (λ refusal. (held : Option (List ℕ))
        × IfSome (F.files shelf.old) (λ files. held ≡ text_named name.now files)
        × (named_result None held ≡ Err refusal)) }
    ensures failed { IsErrOf result stop.Failed → Rose (F.faults shelf.old) (F.faults shelf.new) }
    ensures later { F.faults shelf.old ≤ F.faults shelf.new }
    ensures stay { F.files shelf.new ≡ F.files shelf.old }
{
    match shelf.read_text(alloc, name, MOST_TEXT)? {
        Found::Text(text) => read_profile(&text),
        Found::Absent => Err(ProfileCause::Absent.into()),
        Found::TooLong => Err(ProfileCause::TooLong.into()),
    }
}

// A profile, if it passes its checks.
fn use_profile(profile: Profile) -> Result<Profile, ProfileStop>
    ensures ok { IfOk result (λ p. checked_result profile ≡ Ok p) }
    ensures checked { IfOk result (λ p. IsOk (check p)) }
    ensures refused { OnRefused result (λ refusal. checked_result profile ≡ Err refusal) }
    ensures failed { IsErrOf result stop.Failed → ⊥ }
    ensures memory { IsErrOf result stop.Memory → ⊥ }
{
    profile.check()?;
    Ok(profile)
}

/// The profile of a name: the built-in one if there is one, else the one that the shelf's text of this name describes.
/// The text must have at most 65,536 bytes.
pub fn find_profile<F: Shelf>(
    alloc: Global,
    shelf: &mut F,
    name: &str,
) -> Result<Profile, ProfileStop>
    ensures found { IfOk result (λ p. IsJobProfile (F.files shelf.old) name.now (Ok p)) }
    ensures checked { IfOk result (λ p. IsOk (check p)) }
    ensures refused { OnRefused result (λ refusal. IsJobProfile (F.files shelf.old) name.now (Err refusal)) }
    ensures failed { IsErrOf result stop.Failed → Rose (F.faults shelf.old) (F.faults shelf.new) }
    // The shelf is not asked for a built-in profile.
    ensures built_in { IsSome (built_in_of name.now) → (shelf.new ≡ shelf.old) }
    ensures unasked { IsSome (built_in_of name.now) → IsErrOf result stop.Failed → ⊥ }
    ensures no_memory { IsSome (built_in_of name.now) → IsErrOf result stop.Memory → ⊥ }
    ensures later { F.faults shelf.old ≤ F.faults shelf.new }
    ensures stay { F.files shelf.new ≡ F.files shelf.old }
{
    match built_in(name) {
        Some(profile) => use_profile(profile),
        None => use_profile(shelf_profile(alloc, shelf, name)?),
    }
}
