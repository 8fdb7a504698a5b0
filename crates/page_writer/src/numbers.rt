//! The numbers of a page's commands.
ghost use Rattle.page_definitions.specs.PageBytes.{page_coding};
ghost use Rattle.page_definitions.specs.Strokes.{raster_header as raster_header_of};
ghost use Rattle.printer_definitions.specs.Printer.{row_units as row_units_of};
ghost use Rattle.pwg_definitions.specs.Header.{IsWanted};
ghost use Rattle.separation_definitions.specs.CanPrint.{CanPrint};
ghost use Rattle.separation_definitions.specs.Windows.{wanted_by, window_of};
ghost use Rattle.std.specs.Prelude.{◌*◌, ◌+◌, ◌-◌, ◌≡◌, ◌≤◌};

use escp2_writer::RasterHead;
use printer_profile::{PageForm, Profile};

// How many units of a sheet an inch has, each of 5/3600 inch.
const SHEET_UNITS: u16 = 720;

// How many units of a raster's header an inch has.
const HEADER_UNITS: u16 = 3600;

/// Positions on a sheet, measured from its top in units of 5/3600 inch.
#[derive(Clone, Copy)]
pub struct SheetPlaces {
    /// The length of the sheet.
    pub length: u16,
    /// The row on which the first nozzle begins.
    pub top: u16,
    /// The end of the last row that is printed.
    pub bottom: u16,
}

/// The height of a row of dots in units.
pub fn row_units(profile: &Profile) -> u16
    requires { CanPrint profile.now }
    ensures is { result ≡ row_units_of profile.now }
    ensures most { result ≤ 2 }
{
    SHEET_UNITS / profile.vdpi
}

/// The header of rasters of this many columns, with coded rows.
pub fn raster_header(profile: &Profile, width: u16) -> RasterHead
    requires { CanPrint profile.now }
    ensures { result ≡ raster_header_of profile.now width page_coding.c }
{
    RasterHead {
        c: 1,
        v: (u32::from(profile.pitch) * u32::from(HEADER_UNITS) / u32::from(profile.vdpi)) as u8,
        h: (HEADER_UNITS / profile.hdpi) as u8,
        m: profile.nozzles,
        n: width,
    }
}

/// The positions on the sheet of a page. The head begins `above` rows above the window.
pub fn sheet_of(profile: &Profile, form: PageForm, above: u32) -> SheetPlaces
    requires can { CanPrint profile.now }
    requires wanted { IsWanted (wanted_by profile.now) form }
    requires room { above ≤ profile.now.top }
    ensures length { result.length ≡ form.height * row_units_of profile.now }
    ensures top { result.top ≡ (profile.now.top - above) * row_units_of profile.now }
    ensures bottom { result.bottom ≡
        (profile.now.top + (window_of form profile.now).height) * row_units_of profile.now }
{
    let units = row_units(profile);
    let height = form.height as u16;
    SheetPlaces {
        length: height * units,
        top: (profile.top - above as u16) * units,
        bottom: (height - profile.bottom) * units,
    }
}
