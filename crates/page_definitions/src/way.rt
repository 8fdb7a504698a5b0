//! The ways of a head over a page.
ghost use Rattle.page_definitions.specs.declared.way.Way.TheVariants.{Healed as HealedWay};
ghost use Rattle.std.specs.Prelude.{length, ◌≡◌, ◌≤◌};

use dead_nozzles::DeadNozzles;

/// How a head goes over a page. `specs/Ways.antt` defines the bytes of each way, and what these bytes promise.
#[derive(Clone, Debug, PartialEq, Eq, Drop)]
pub enum Way {
    /// In interleaved passes.
    Woven,
    /// In shingled passes, which fire each row twice: once at its even and once at its odd columns.
    Shingled,
    /// In strokes that make up for these dead nozzles.
    Healed(DeadNozzles),
}

impl Way {
    /// The way around the dead nozzles of a list.
    pub fn around(dead: &[u8]) -> Way
        requires { length dead.now ≤ 255 }
        ensures { result ≡ HealedWay (record { items = dead.now }) }
    {
        let Ok(nozzles) = DeadNozzles::try_from(dead) else {
            unreachable!()
        };
        Way::Healed(nozzles)
    }
}
