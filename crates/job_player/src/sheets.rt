//! The images of a sheet.
ghost use Rattle.job_player.specs.Pictures.{table_images};
ghost use Rattle.std.specs.Io.KnownBytes.{Appends};
ghost use Rattle.std.specs.Prelude.{OnErr, OnOk};
ghost use Rattle.weave_base.specs.Causes.{HasCause};
ghost use Rattle.weave_base.specs.Parts.{AppendsPart};

use crate::image::write_plane;
use dot_emulator::Sheet;
use weave_base::{Failed, Sink};

/// Writes the images of a sheet: black, cyan, magenta and yellow.
pub(crate) fn write_sheet<K: Sink>(sheet: &Sheet, out: &mut K) -> Result<(), Failed>
    ensures ok { OnOk result
        (Appends (K.held out.old) (K.held out.new) (table_images sheet.now.columns sheet.now.rows sheet.now.planes)) }
    ensures part { OnErr result (AppendsPart
        (K.held out.old) (K.held out.new) (table_images sheet.now.columns sheet.now.rows sheet.now.planes)) }
    ensures cause { HasCause (K.faults out.old) (K.faults out.new) result }
{
    'inks: for ink in 0..4 {
        write_plane(sheet, ink, out)?;
    }
    Ok(())
}
