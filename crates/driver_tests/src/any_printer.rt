//! Printers with any heads.
use std::alloc::Global;
use std::test::Fail;
use weave_base::{Ink, InkSet};

/// A printer as its profile's text describes it: dots an inch, its head, its inks, and margins in pixels.
#[derive(Clone, Copy)]
pub struct Printer {
    pub hdpi: u16,
    pub vdpi: u16,
    pub nozzles: u8,
    pub pitch: u8,
    pub inks: InkSet,
    pub black_start: u8,
    /// Of black, cyan, magenta and yellow.
    pub limits: (u8, u8, u8, u8),
    /// The tone curves of black, cyan, magenta and yellow; those of none are straight, and its text has no keys of
    /// them.
    pub curves: Option<&'static [[u16; 17]; 4]>,
    pub left: u16,
    pub right: u16,
    pub top: u16,
    pub bottom: u16,
}

/// The simplest printer.
pub const PLAINEST: Printer = Printer {
    hdpi: 360,
    vdpi: 360,
    nozzles: 1,
    pitch: 1,
    inks: InkSet::K,
    black_start: 0,
    limits: (255, 255, 255, 255),
    curves: None,
    left: 0,
    right: 0,
    top: 0,
    bottom: 0,
};

// Appends the line of an ink's curve.
fn push_curve(alloc: Global, ink: &str, curve: &[u16; 17], text: &mut String) -> Result<(), Fail> {
    text.push_str(&format!(in alloc; "curve_{}=", ink)?)?;
    for (place, point) in curve.iter().enumerate() {
        let end = if place == 16 { "\n" } else { "," };
        text.push_str(&format!(in alloc; "{}{}", point, end)?)?;
    }
    Ok(())
}

impl Printer {
    /// The text of its profile.
    pub fn text(&self, alloc: Global) -> Result<String, Fail> {
        let inks = match self.inks {
            InkSet::K => "k",
            InkSet::Cmy => "cmy",
            InkSet::Cmyk => "cmyk",
        };
        let (k, c, m, y) = self.limits;
        let version = if self.curves.is_some() { 2 } else { 1 };
        let head = format!(in alloc;
            "escp2-profile {}\nhdpi={}\nvdpi={}\nnozzles={}\npitch={}\n",
            version, self.hdpi, self.vdpi, self.nozzles, self.pitch
        )?;
        let colours = format!(in alloc;
            "inks={}\nblack_start={}\nlimit_k={}\nlimit_c={}\nlimit_m={}\nlimit_y={}\n",
            inks, self.black_start, k, c, m, y
        )?;
        let margins = format!(in alloc;
            "left={}\nright={}\ntop={}\nbottom={}\n",
            self.left, self.right, self.top, self.bottom
        )?;
        let mut text = format!(in alloc; "{}{}{}", head, colours, margins)?;
        if let Some(curves) = self.curves {
            for (ink, curve) in ["k", "c", "m", "y"].iter().zip(curves) {
                push_curve(alloc, ink, curve, &mut text)?;
            }
        }
        Ok(text)
    }

    /// The tone of an amount of an ink.
    pub fn tone(&self, ink: Ink, amount: u8) -> u8 {
        let Some([black, cyan, magenta, yellow]) = self.curves else {
            return amount;
        };
        let curve = match ink {
            Ink::Black => black,
            Ink::Cyan => cyan,
            Ink::Magenta => magenta,
            Ink::Yellow => yellow,
        };
        let before = curve[usize::from(amount / 16)];
        let behind = curve[usize::from(amount / 16) + 1];
        let step = u32::from(behind.saturating_sub(before)).wrapping_mul(u32::from(amount % 16));
        u8::try_from(u32::from(before).wrapping_add(step / 16)).unwrap_or(255)
    }

    /// The limit of an ink.
    pub fn limit(&self, ink: Ink) -> u8 {
        let (k, c, m, y) = self.limits;
        match ink {
            Ink::Black => k,
            Ink::Cyan => c,
            Ink::Magenta => m,
            Ink::Yellow => y,
        }
    }

    /// The columns and rows of a page of this size inside the margins.
    pub fn window(&self, width: u32, height: u32) -> (i64, i64) {
        let beside = i64::from(self.left).wrapping_add(i64::from(self.right));
        let above_and_below = i64::from(self.top).wrapping_add(i64::from(self.bottom));
        (
            i64::from(width).wrapping_sub(beside),
            i64::from(height).wrapping_sub(above_and_below),
        )
    }
}
