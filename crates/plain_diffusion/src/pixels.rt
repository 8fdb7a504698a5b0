//! The pixels of a window, row by row and in each row from the left.
ghost use Rattle.diffusion_definitions.specs.Diffusion.{InRange, IsParts, divisor, error_of, is_dot, weighted_from};
ghost use Rattle.diffusion_definitions.specs.Diffusion.{value_at as value_of};
ghost use Rattle.diffusion_kernel.specs.Tables.{table_of};
ghost use Rattle.plain_diffusion.specs.Known.{AreDots, AreErrors, GivesInRange, IsReached, errors_of, given_of};
ghost use Rattle.plain_diffusion.specs.Known.{plane_of};
ghost use Rattle.std.specs.Int.{int_div_euclid};
ghost use Rattle.std.specs.Prelude.{IfSome, [], length, negsuc, pos, ℕ, ◌*ℤ◌, ◌*◌, ◌++◌, ◌+◌, ◌-◌, ◌<◌, ◌∷◌, ◌≡◌, ◌≤ℤ◌, ◌≤◌};

use crate::fills::{InkWindow, amount_at, error_above};
use diffusion_kernel::{Dot, Kernel};

// The error at column x and row y, beside the window too.
fn pixel_error(window: &InkWindow, errors: &[i16], x: usize, y: usize) -> i16
    requires known { AreErrors window.now errors.now }
    requires reached { x < window.now.width → y * window.now.width + x < length errors.now }
    requires row { y < window.now.height }
    ensures is { result ≡ errors_of window.now (y + 2) (x + 4) }
    ensures in_range { InRange result }
{
    let width = window.width as usize;
    if width <= x {
        return 0;
    }
    errors[y * width + x]
}

// The error at column n - 4 and row t - 2, above or beside the window too.
fn error_at(window: &InkWindow, errors: &[i16], t: usize, n: usize) -> i16
    requires known { AreErrors window.now errors.now }
    requires width { window.now.width ≤ 65535 }
    requires reached { IsReached window.now (length errors.now) t n }
    requires near { n < 131072 }
    ensures is { result ≡ errors_of window.now t n }
    ensures in_range { InRange result }
{
    if t < 2 {
        error_above(window.above, window.width, n as i64 - 4, t as i64 - 2)
    } else if n < 4 {
        0
    } else {
        pixel_error(window, errors, n - 4, t - 2)
    }
}

// A share of an error, in parts.
fn part(share: u8, error: i16) -> i32
    requires { InRange error }
    ensures is { result ≡ pos share *ℤ error }
    ensures in_range { IsParts 255 result }
{
    i32::from(share) * i32::from(error)
}

// What a row of errors gives to a pixel, in parts: its errors from column n - 4 on to the left, each times a share.
fn row_parts(shares: &[u8], window: &InkWindow, errors: &[i16], t: usize, n: usize) -> i32
    requires few { length shares.now ≤ 5 }
    requires near { n < 131072 }
    requires room { length shares.now ≤ n }
    requires known { AreErrors window.now errors.now }
    requires width { window.now.width ≤ 65535 }
    requires reached { (i : ℕ) → i < length shares.now → IsReached window.now (length errors.now) t (n - i) }
    ensures is { result ≡ weighted_from 0 shares.now (λ i. errors_of window.now t (n - i)) }
    ensures fits { (i : ℕ) → i < length shares.now → InRange (errors_of window.now t (n - i)) }
    ensures few_parts { IsParts 1275 result }
{
    let mut parts = 0i32;
    for i in 0..shares.len() {
        parts += part(shares[i], error_at(window, errors, t, n - i));
    }
    parts
}

// What the errors near the pixel at column x and row y give to it, in parts.
fn given(window: &InkWindow, errors: &[i16], x: u32, y: u32) -> i32
    requires known { AreErrors window.now errors.now }
    requires x { x < window.now.width }
    requires width { window.now.width ≤ 65535 }
    requires row { y < window.now.height }
    requires height { window.now.height ≤ 65535 }
    requires len { length errors.now ≡ y * window.now.width + x }
    ensures is { result ≡ given_of window.now y x }
    ensures fits { GivesInRange window.now y x }
    ensures few_parts { IsParts 3825 result }
{
    let shares = window.kernel.shares();
    let (n, t) = (x as usize, y as usize);
    row_parts(&shares.right, window, errors, t + 2, n + 3)
        + row_parts(&shares.below, window, errors, t + 1, n + 6)
        + row_parts(&shares.below2, window, errors, t, n + 6)
}

// Parts of errors divided by the sum of a kernel's shares, rounded down.
fn mean(kernel: Kernel, parts: i32) -> i32
    ensures { result ≡ int_div_euclid parts (pos (divisor (table_of kernel))) }
{
    parts.div_euclid(i32::from(kernel.shares().divisor))
}

// What the pixel at column x and row y has to show, in sixteenths of an amount.
fn value_at(window: &InkWindow, errors: &[i16], x: u32, y: u32) -> i32
    requires known { AreErrors window.now errors.now }
    requires x { x < window.now.width }
    requires width { window.now.width ≤ 65535 }
    requires row { y < window.now.height }
    requires height { window.now.height ≤ 65535 }
    requires len { length errors.now ≡ y * window.now.width + x }
    ensures is { result ≡ value_of (table_of window.now.kernel) (plane_of window.now) (errors_of window.now) y x }
    ensures low { negsuc 2039 ≤ℤ result }
    ensures high { result ≤ℤ pos 6119 }
{
    let carried = mean(window.kernel, given(window, errors, x, y));
    16 * i32::from(amount_at(window.fill, x, y)) + carried
}

// The dot of a value in sixteenths of an amount.
fn dot_of(value: i32) -> Dot
    requires low { negsuc 2039 ≤ℤ value }
    requires high { value ≤ℤ pos 6119 }
    ensures on { result.on ≡ is_dot value }
    ensures err { result.err ≡ error_of value }
    ensures in_range { InRange result.err }
{
    if value >= 2040 {
        Dot {
            on: true,
            err: (value - 4080) as i16,
        }
    } else {
        Dot {
            on: false,
            err: value as i16,
        }
    }
}

// Puts a dot behind all others. `None` where there is no memory.
fn push_dot(errors: &mut Vec<i16>, dots: &mut Vec<bool>, dot: Dot) -> Option<()>
    ensures errors { IfSome result (λ _. errors.new.items ≡ errors.old.items ++ dot.err ∷ []) }
    ensures dots { IfSome result (λ _. dots.new.items ≡ dots.old.items ++ dot.on ∷ []) }
{
    errors.push(dot.err).ok()?;
    dots.push(dot.on).ok()?;
    Some(())
}

/// Diffuses row y. Returns `None` if memory runs out.
pub(crate) fn diffuse_row(
    window: &InkWindow,
    y: u32,
    errors: &mut Vec<i16>,
    dots: &mut Vec<bool>,
) -> Option<()>
    requires width { window.now.width ≤ 65535 }
    requires row { y < window.now.height }
    requires height { window.now.height ≤ 65535 }
    requires known { AreErrors window.now errors.old.items }
    requires dots { AreDots window.now dots.old.items }
    requires errors_len { length errors.old.items ≡ y * window.now.width }
    requires dots_len { length dots.old.items ≡ y * window.now.width }
    ensures known { IfSome result (λ _. AreErrors window.now errors.new.items) }
    ensures dots { IfSome result (λ _. AreDots window.now dots.new.items) }
    ensures errors_len { IfSome result (λ _. length errors.new.items ≡ (y + 1) * window.now.width) }
    ensures dots_len { IfSome result (λ _. length dots.new.items ≡ (y + 1) * window.now.width) }
{
    for x in 0..window.width {
        let dot = dot_of(value_at(window, errors.as_slice(), x, y));
        push_dot(errors, dots, dot)?;
    }
    Some(())
}
