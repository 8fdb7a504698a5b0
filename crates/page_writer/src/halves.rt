//! Every other dot of a packed row.
ghost use Rattle.base_definitions.specs.Packed.{packed};
ghost use Rattle.page_definitions.specs.Shingled.{every_other};
ghost use Rattle.std.specs.Prelude.{Bool, List, length, ◌≡◌};

// The bits of a byte whose places are even, counted from its highest bit.
const EVEN: u8 = 0b1010_1010;

// The bits of a byte whose places are odd.
const ODD: u8 = 0b0101_0101;

/// Puts a packed row into the room without its odd columns if `even` is set, else without its even columns.
#[inline]
pub fn put_every_other(row: &[u8], even: bool, room: &mut [u8])
    requires { length room.old ≡ length row.now }
    ensures { (dots : List Bool) → row.now ≡ packed dots → room.new ≡ packed (every_other even dots) }
{
    let mask = if even { EVEN } else { ODD };
    room.copy_from_slice(row);
    for byte in room.iter_mut() {
        *byte &= mask;
    }
}
