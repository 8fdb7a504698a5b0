//! Amounts as contracts see them.
ghost use Rattle.dot_planes.specs.Tables.{AmountTable};
ghost use Rattle.std.specs.Prelude.{◌≡◌};
ghost use base.Fml.{ftrue};

use crate::amounts::TileRows;
use std::marker::{Model, PhantomData};

/// The amounts of rows as contracts see them, without the rows and without their type. It has no bytes.
pub struct Seen {
    marker: PhantomData<u8>,
    pub ghost value: { AmountTable },
}

impl Model for Seen {
    ghost also_owns = { λ _. ftrue };
}

impl Seen {
    /// The amounts of these rows.
    pub fn of<A: TileRows>(rows: &A) -> Seen
        ensures { result.value ≡ A.table rows.now }
    {
        let _ = rows;
        Seen {
            marker: PhantomData,
        }
    }
}

impl Drop for Seen {
    fn drop(self) {
        let Self { marker: _ } = self;
    }
}
