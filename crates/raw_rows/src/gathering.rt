//! Tiles gathered from raw lines.
ghost use Rattle.raw_rows.specs.Raw.{table_of};

use crate::kept::RawRows;
use dot_planes::{GatherRoom, TileAmounts, TileRows};
use tile_shape::{Place, Shape};

impl TileRows for RawRows {
    ghost table = { table_of };

    fn shape(&self) -> Shape {
        Shape {
            width: self.separator.window().width,
            height: self.rows,
        }
    }

    fn inks(&self) -> u8 {
        self.separator.inks().count()
    }

    fn gather(&self, place: Place, room: &mut GatherRoom, out: &mut TileAmounts) -> bool {
        if self.white_is_free && self.is_blank(place) {
            return false;
        }
        self.put_pixels(place, room);
        self.separator.separate_columns(&room.columns, out);
        true
    }
}
