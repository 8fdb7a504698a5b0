//! The bytes of commands, without the rows of rasters.
ghost use Rattle.arrayvec.specs.ArrayVec.{array_vec_len};
ghost use Rattle.escp2_definitions.specs.Commands.{command_bytes, row_bytes as row_bytes_of, two_bytes};
ghost use Rattle.std.specs.Prelude.{[], length, ◌%◌, ◌++◌, ◌/◌, ◌∷◌, ◌≡◌, ◌≤◌};

use crate::{Command, RasterHead};
use arrayvec::ArrayVec;
use escp2_definitions::colour_code;

/// The bytes of a command without the rows of a raster.
pub type HeaderBytes = ArrayVec<u8, 9>;

const ESC: u8 = 0x1B;

// A number in two bytes, the low one first.
fn two(n: u16) -> [u8; 2]
    ensures { result ≡ two_bytes n }
{
    [(n % 256) as u8, (n / 256) as u8]
}

// A command of one byte.
fn single(byte: u8) -> HeaderBytes
    ensures { result.items ≡ byte ∷ [] }
{
    let mut bytes = HeaderBytes::new();
    bytes.push(byte);
    bytes
}

// `ESC`, a letter, and numbers.
fn escaped(letter: u8, numbers: &[u8]) -> HeaderBytes
    requires { length numbers.now ≤ 6 }
    ensures items { result.items ≡ 0x1B ∷ letter ∷ numbers.now }
{
    let mut bytes = HeaderBytes::new();
    bytes.push(ESC);
    bytes.push(letter);
    bytes.try_extend_from_slice(numbers).unwrap();
    bytes
}

// `ESC (`, a letter, the number of bytes that follow, and these.
fn sized(letter: u8, numbers: &[u8]) -> HeaderBytes
    requires { length numbers.now ≤ 4 }
    ensures { result.items ≡ 0x1B ∷ 0x28 ∷ letter ∷ length numbers.now ∷ 0 ∷ numbers.now }
{
    let mut bytes = escaped(b'(', &[letter, numbers.len() as u8, 0]);
    bytes.try_extend_from_slice(numbers).unwrap();
    bytes
}

/// The bytes of one row of a raster.
pub(crate) fn row_bytes(header: RasterHead) -> usize
    ensures is { result ≡ row_bytes_of header }
    ensures most { result ≤ 8192 }
{
    (usize::from(header.n) + 7) / 8
}

/// The bytes of a command (ESC/P Reference Manual, graphics commands), for a raster without its rows. This is the only
/// place where commands are spelled.
pub fn header_bytes(command: &Command) -> HeaderBytes
    ensures { result.items ≡ command_bytes command.now }
{
    match *command {
        Command::Init => escaped(b'@', &[]),
        Command::Graphics => sized(b'G', &[1]),
        Command::Unit { m } => sized(b'U', &[m]),
        Command::MicroWeave { n } => sized(b'i', &[n]),
        Command::OneWay { n } => escaped(b'U', &[n]),
        Command::Length { n } => sized(b'C', &two(n)),
        Command::Margins { top, bottom } => {
            let [top_low, top_high] = two(top);
            let [bottom_low, bottom_high] = two(bottom);
            sized(b'c', &[top_low, top_high, bottom_low, bottom_high])
        }
        Command::DownTo { n } => sized(b'V', &two(n)),
        Command::DownBy { n } => sized(b'v', &two(n)),
        Command::Across { n } => escaped(b'$', &two(n)),
        Command::Return => single(b'\r'),
        Command::Eject => single(0x0C),
        Command::Colour { ink } => escaped(b'r', &[colour_code(ink)]),
        Command::Raster {
            head: RasterHead { c, v, h, m, n },
        } => {
            let [low, high] = two(n);
            escaped(b'.', &[c, v, h, m, low, high])
        }
    }
}
