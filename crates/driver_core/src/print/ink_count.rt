//! One ink of a page, which one worker counts.
use dot_planes::Planes;
use worker_team::Share;

/// An ink by its place in the planes, and the number of its dots once it is counted.
#[derive(Drop)]
pub struct InkCount<'a> {
    pub planes: &'a Planes,
    pub place: u8,
    pub dots: u64,
}

impl<'a> InkCount<'a> {
    ghost use Rattle.std.specs.Prelude.{◌≡◌};

    /// An ink that is not counted yet.
    pub fn of(planes: &'a Planes, place: u8) -> InkCount<'a>
        ensures planes { result.planes.now ≡ planes.now }
        ensures place { result.place ≡ place }
    {
        InkCount {
            planes,
            place,
            dots: 0,
        }
    }
}

impl<'a> Share for InkCount<'a> {
    ghost use Rattle.driver_core.specs.Printing.Counting.{CountsInk};
    ghost use Rattle.std.specs.Prelude.{◌<◌};

    ghost ready = { λ ink. ink.place < ink.planes.now.inks };

    ghost does = { λ before after. CountsInk before.planes.now before.place after.dots };

    /// Counts its dots.
    fn work(&mut self) {
        self.dots = self.planes.count(self.place);
    }
}
