//! How the pages of a stream are printed.
ghost use Rattle.driver_core.specs.Printing.Setup.{setup_of};
ghost use Rattle.std.specs.Prelude.{◌≡◌};

use crate::fitting::job_way;
use diffusion_kernel::Kernel;
use job_words::Job;
use page_definitions::Way;
use printer_profile::Profile;

/// How the pages of a stream are printed.
#[derive(Clone, Debug, PartialEq, Eq, Drop)]
pub struct PrintSetup {
    /// The printer.
    pub profile: Profile,
    /// The kernel of error diffusion.
    pub kernel: Kernel,
    /// The grain that is applied to amounts before diffusion; 0 for none.
    pub grain: u8,
    /// How the head goes over a page.
    pub way: Way,
    /// The number of workers: 1 to 64.
    pub workers: u8,
}

/// The setup with which a job prints by a profile.
pub fn job_setup(job: &Job, profile: &Profile) -> PrintSetup
    ensures { result ≡ setup_of job.now profile.now }
{
    PrintSetup {
        profile: *profile,
        kernel: job.kernel,
        grain: job.grain,
        way: job_way(job),
        workers: job.workers,
    }
}
