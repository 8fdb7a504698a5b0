//! The errors and dots of a window.
ghost use Rattle.diffusion_definitions.specs.Diffusion.{on};
ghost use Rattle.diffusion_kernel.specs.Tables.{table_of};
ghost use Rattle.plain_diffusion.specs.Fills.{AboveInRange};
ghost use Rattle.plain_diffusion.specs.Known.{IsIndex, IsOutside, errors_of, plane_of};
ghost use Rattle.std.specs.Prelude.{IfNone, IfSome, IsTrue, false, negsuc, pos, ℕ, ◌+ℤ◌, ◌≡◌, ◌≤ℤ◌, ◌≤◌};

use crate::fills::{Above, Amounts, InkWindow, error_above};
use crate::pixels::diffuse_row;
use diffusion_kernel::Kernel;
use std::alloc::Global;
use std::marker::Model;

/// The errors and dots of one ink of a window. Contracts see the window.
#[derive(Drop)]
pub struct Definition {
    window: InkWindow,
    errors: Vec<i16>,
    dots: Vec<bool>,
}

impl Model for Definition {
    ghost use Rattle.plain_diffusion.specs.declared.fills.InkWindow.{InkWindow};

    ghost Value = { InkWindow };

    ghost use Rattle.plain_diffusion.specs.Whole.{IsWhole, window_of};

    ghost view = { window_of };

    ghost invariant = { IsWhole };
}

// The most columns and rows of a window.
const MOST: u32 = 65535;

// The least and the greatest error.
const LEAST_ERROR: i16 = -2040;

const MOST_ERROR: i16 = 2039;

// The number of a pixel, by row and then column.
fn index_of(window: &InkWindow, x: i64, y: i64) -> Option<usize>
    requires width { window.now.width ≤ 65535 }
    requires height { window.now.height ≤ 65535 }
    ensures inside { IfSome result (IsIndex window.now x y) }
    ensures outside { IfNone result (IsOutside window.now x y) }
{
    if x < 0 || y < 0 || i64::from(window.width) <= x || i64::from(window.height) <= y {
        return None;
    }
    Some(y as usize * window.width as usize + x as usize)
}

// Whether the error that the edges above have is in range.
fn is_in_range(above: Above) -> bool
    ensures { IsTrue result → AboveInRange above }
{
    match above {
        Above::Edges(error) => LEAST_ERROR <= error && error <= MOST_ERROR,
        Above::Mixed => true,
    }
}

impl Definition {
    /// Diffuses an ink of a window of this size. Returns `None` if memory runs out, if the window has more than 65,535
    /// columns or rows, or if an error above it is not from -2040 to 2039.
    pub fn make(
        alloc: Global,
        kernel: Kernel,
        fill: Amounts,
        above: Above,
        width: u32,
        height: u32,
    ) -> Option<Definition>
        ensures { IfSome result (λ known. known ≡ record {
          kernel = kernel;
          fill = fill;
          above = above;
          width = width;
          height = height;
        }) }
    {
        if MOST < width || MOST < height || !is_in_range(above) {
            return None;
        }
        let window = InkWindow {
            kernel,
            fill,
            above,
            width,
            height,
        };
        let mut errors = Vec::new(alloc);
        let mut dots = Vec::new(alloc);
        for y in 0..height {
            diffuse_row(&window, y, &mut errors, &mut dots)?;
        }
        Some(Definition {
            window,
            errors,
            dots,
        })
    }

    /// The error at column x and row y; the rows above the window are -2 and -1, and above these there is none.
    pub fn error(&self, x: i64, y: i64) -> i32
        ensures known { (t n : ℕ) → pos t ≡ y +ℤ pos 2 → pos n ≡ x +ℤ pos 4 → result ≡ errors_of self.now t n }
        ensures left { pos 0 ≤ℤ y → x ≤ℤ negsuc 0 → result ≡ pos 0 }
    {
        if y < -2 {
            return 0;
        }
        if y < 0 {
            return i32::from(error_above(self.window.above, self.window.width, x, y));
        }
        match index_of(&self.window, x, y) {
            Some(index) => i32::from(self.errors[index]),
            None => 0,
        }
    }

    /// Whether there is a dot at column x and row y.
    pub fn dot(&self, x: i64, y: i64) -> bool
        ensures known { (n t : ℕ) → pos t ≡ y → pos n ≡ x
            → result ≡ on (table_of self.now.kernel) (plane_of self.now) (errors_of self.now) t n }
        ensures left { x ≤ℤ negsuc 0 → result ≡ false }
        ensures above { y ≤ℤ negsuc 0 → result ≡ false }
    {
        match index_of(&self.window, x, y) {
            Some(index) => self.dots[index],
            None => false,
        }
    }
}
