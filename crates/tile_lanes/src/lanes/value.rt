//! The value of a pixel, in 16 bits: 16 times its amount and what the errors near it give. Errors are held with 2040
//! added, from 0 to 4079.
ghost use Rattle.diffusion_definitions.specs.Diffusion.{error_of, floyd, is_dot, jarvis, stucki, value};
ghost use Rattle.diffusion_kernel.specs.Tables.{table_of};
ghost use Rattle.std.specs.Prelude.{◌≡◌, ◌≤◌};
ghost use Rattle.tile_lanes.specs.Held.{IsHeld, error_held, same_of, up1_of, up2_of};

use diffusion_kernel::Kernel;

/// The errors near a pixel: of its own row, of the row above it (`up`) and of the one above that (`top`).
#[derive(Clone, Copy)]
pub(crate) struct Around {
    pub(crate) left: u16,
    pub(crate) left2: u16,
    pub(crate) up_left2: u16,
    pub(crate) up_left: u16,
    pub(crate) up: u16,
    pub(crate) up_right: u16,
    pub(crate) up_right2: u16,
    pub(crate) top_left2: u16,
    pub(crate) top_left: u16,
    pub(crate) top: u16,
    pub(crate) top_right: u16,
    pub(crate) top_right2: u16,
}

// The value by the shares of Floyd and Steinberg. With 2040 added to each error, a sixteenth of the weighted sum has
// 2040 added too. The shares (7, 3, 5, 1) are 4 (2, 1, 1, 0) - (1, 1, 0, 0) + (0, 0, 1, 1), which takes no products.
#[inline(always)]
fn floyd_value(amount: u8, near: Around) -> u16
    requires { IsHeld near }
    ensures most { result ≤ 8159 }
    ensures value { error_held result ≡ value floyd amount (same_of near) (up1_of near) (up2_of near) }
{
    let both = near.left + near.up_right;
    let sum = 4 * (both + near.left + near.up) - both + (near.up + near.up_left);
    16 * u16::from(amount) + sum / 16
}

// The value by the shares of Jarvis, Judice and Ninke. (7, 5, 3, 1) / 48 is ((2, 1, 1, 0) + (-1, 1, -1, 1) / 4) / 12,
// which keeps all numbers below 65,536.
#[inline(always)]
fn jarvis_value(amount: u8, near: Around) -> u16
    requires { IsHeld near }
    ensures most { result ≤ 8159 }
    ensures value { error_held result ≡ value jarvis amount (same_of near) (up1_of near) (up2_of near) }
{
    let sevens = near.left + near.up;
    let fives = near.left2 + near.up_left + near.up_right + near.top;
    let threes = near.up_left2 + near.up_right2 + near.top_left + near.top_right;
    let ones = near.top_left2 + near.top_right2;
    let rest = fives + ones + (24476 - (sevens + threes));
    16 * u16::from(amount) + (2 * sevens + fives + threes + rest / 4 - 6119) / 12
}

// The value by Stucki's shares. A 42nd is twice a 21st of a quarter, and one more where the remainders make one up.
#[inline(always)]
fn stucki_value(amount: u8, near: Around) -> u16
    requires { IsHeld near }
    ensures most { result ≤ 8159 }
    ensures value { error_held result ≡ value stucki amount (same_of near) (up1_of near) (up2_of near) }
{
    let eights = near.left + near.up;
    let fours = near.left2 + near.up_left + near.up_right + near.top;
    let twos = near.up_left2 + near.up_right2 + near.top_left + near.top_right;
    let low = 2 * twos + (near.top_left2 + near.top_right2);
    let quarter = 2 * eights + fours + low / 4;
    let whole = quarter / 21;
    let left = 2 * (quarter - 21 * whole) + low / 2 % 2;
    16 * u16::from(amount) + 2 * whole + u16::from(left >= 21)
}

/// The value of a pixel, with 2040 added.
#[inline(always)]
pub(crate) fn held_value(kernel: Kernel, amount: u8, near: Around) -> u16
    requires { IsHeld near }
    ensures most { result ≤ 8159 }
    ensures value { error_held result ≡ value (table_of kernel) amount (same_of near) (up1_of near) (up2_of near) }
{
    match kernel {
        Kernel::Floyd => floyd_value(amount, near),
        Kernel::Jarvis => jarvis_value(amount, near),
        Kernel::Stucki => stucki_value(amount, near),
    }
}

/// The error that a value leaves, with 2040 added.
#[inline(always)]
pub(crate) fn held_error(value: u16) -> u16
    requires { value ≤ 8159 }
    ensures most { result ≤ 4079 }
    ensures error { error_held result ≡ error_of (error_held value) }
{
    if value >= 4080 { value - 4080 } else { value }
}

/// Whether a value shows a dot.
#[inline(always)]
pub(crate) fn shows_dot(value: u16) -> bool
    ensures { result ≡ is_dot (error_held value) }
{
    value >= 4080
}
