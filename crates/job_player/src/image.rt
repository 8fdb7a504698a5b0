//! The image of one ink.
ghost use Rattle.job_player.specs.Images.{image, image_header};
ghost use Rattle.buffered_bytes.specs.Gathering.{gathered};
ghost use Rattle.std.specs.Io.KnownBytes.{Appends};
ghost use Rattle.std.specs.Prelude.{OnErr, OnOk, ◌<◌, ◌≡◌};
ghost use Rattle.weave_base.specs.Causes.{HasCause};
ghost use Rattle.weave_base.specs.Parts.{AppendsPart};

use buffered_bytes::Gathered;
use dot_emulator::Sheet;
use itoa::Buffer;
use weave_base::{Failed, Sink};

/// Writes the image of an ink of the sheet, with each dot as a black pixel. Inks are 0 for black, 1 cyan, 2 magenta and
/// 3 yellow. Allocates no memory.
///
/// On `Err` a write of the sink failed, the sink's count of faults rose, and the sink took a proper prefix of the
/// image.
pub fn write_plane<K: Sink>(sheet: &Sheet, ink: u8, out: &mut K) -> Result<(), Failed>
    requires { ink < 4 }
    ensures ok { OnOk result
        (Appends (K.held out.old) (K.held out.new) (image sheet.now.columns sheet.now.rows sheet.now.planes ink)) }
    ensures part { OnErr result
        (AppendsPart (K.held out.old) (K.held out.new) (image sheet.now.columns sheet.now.rows sheet.now.planes ink)) }
    ensures cause { HasCause (K.faults out.old) (K.faults out.new) result }
{
    let mut bytes = header(sheet.columns, sheet.rows);
    let len = (sheet.columns as usize + 7) / 8;
    'rows: for y in 0..sheet.rows {
        bytes.write(&sheet.planes.row(ink, y)[..len], out)?;
    }
    bytes.put(out)
}

// The header of an image.
fn header(columns: u32, rows: u32) -> Gathered
    ensures { gathered result ≡ image_header columns rows }
{
    let mut buffer = Buffer::new();
    let mut bytes = Gathered::new();
    bytes.push(b"P4\n");
    bytes.push(buffer.format(columns).as_bytes());
    bytes.push(b" ");
    bytes.push(buffer.format(rows).as_bytes());
    bytes.push(b"\n");
    bytes
}
