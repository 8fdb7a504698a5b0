//! The way of the head that a job asks for, and whether a head can go that way.
ghost use Rattle.driver_core.specs.Runs.Fitting.{IsRisingWay, RefusesWay, way_of};
ghost use Rattle.job_profile.specs.declared.stops.ProfileCause.TheVariants as cause;
ghost use Rattle.page_definitions.specs.Ways.{CanGo};
ghost use Rattle.printer_profile.specs.Validity.{check};
ghost use Rattle.shingle_plan.specs.Fits.{Shingles};
ghost use Rattle.shingle_plan.specs.Shingles.{half};
ghost use Rattle.std.specs.Int.{IsGcd};
ghost use Rattle.std.specs.Prelude.{IfErr, IsOk, OnErr, OnOk, ℕ, ◌≡◌};

use base_definitions::greatest_common_divisor;
use dead_nozzles::check_dead;
use job_profile::ProfileCause;
use job_words::Job;
use page_definitions::Way;
use printer_profile::Profile;
use shingle_plan::shingle_fits;

// Whether a head of these nozzles can shingle.
fn check_shingles(nozzles: u8, pitch: u8) -> Result<(), ProfileCause>
    ensures ok { OnOk result (Shingles nozzles pitch) }
    ensures unfit { OnErr result (Shingles nozzles pitch → ⊥) }
    ensures err { IfErr result (λ why. (gcd : ℕ) × IsGcd (half nozzles) pitch gcd × (why ≡ cause.NoShingle (half nozzles) gcd)) }
{
    if shingle_fits(nozzles, pitch) {
        return Ok(());
    }
    let half = nozzles / 2;
    Err(ProfileCause::NoShingle {
        half,
        gcd: greatest_common_divisor(half, pitch),
    })
}

/// The way of the head that a job asks for: shingled passes if the job wants them, strokes around dead nozzles if the
/// job names some, else interleaved passes.
pub fn job_way(job: &Job) -> Way
    ensures { result ≡ way_of job.now }
{
    if job.shingle {
        Way::Shingled
    } else if job.dead.is_empty() {
        Way::Woven
    } else {
        Way::around(&job.dead)
    }
}

/// Whether the head of a profile can go over a page this way. For shingled passes the head must be able to shingle.
/// Dead nozzles must be nozzles of the head, and not all of them.
pub fn check_way(way: &Way, profile: &Profile) -> Result<(), ProfileCause>
    requires checked { IsOk (check profile.now) }
    requires rising { IsRisingWay way.now }
    ensures ok { OnOk result (CanGo way.now profile.now) }
    ensures err { IfErr result (RefusesWay way.now profile.now) }
{
    prove!(profile.nozzles <= 255);
    match way {
        Way::Woven => Ok(()),
        Way::Shingled => check_shingles(profile.nozzles, profile.pitch),
        Way::Healed(dead) => match check_dead(profile.nozzles, dead) {
            Ok(()) => Ok(()),
            Err(fault) => Err(ProfileCause::Dead(fault)),
        },
    }
}
