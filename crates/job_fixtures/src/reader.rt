//! A slow reader of print jobs: the command table, byte by byte, independent of the driver.
use std::alloc::{AllocError, Global};

/// Why bytes are not a command.
#[derive(Clone, Copy)]
pub enum PlainJobStop {
    /// The job ends inside a command.
    Cut,
    /// The byte at this offset of the job is refused for this cause.
    Fault { at: u64, cause: &'static str },
    /// Memory ran out.
    Memory,
}

impl From<AllocError> for PlainJobStop {
    fn from(_error: AllocError) -> PlainJobStop {
        PlainJobStop::Memory
    }
}

/// The name of a command, as it is listed.
#[derive(Clone, Copy, PartialEq, Eq)]
pub enum Name {
    Init,
    Graphics,
    Unit,
    MicroWeave,
    OneWay,
    Length,
    Margins,
    DownTo,
    DownBy,
    Across,
    Return,
    Eject,
    Colour,
    Raster,
}

impl Name {
    /// The word that begins its line.
    pub fn word(self) -> &'static str {
        match self {
            Name::Init => "INIT",
            Name::Graphics => "GRAPHICS",
            Name::Unit => "UNIT",
            Name::MicroWeave => "MICROWEAVE",
            Name::OneWay => "ONEWAY",
            Name::Length => "LENGTH",
            Name::Margins => "MARGINS",
            Name::DownTo => "DOWNTO",
            Name::DownBy => "DOWNBY",
            Name::Across => "ACROSS",
            Name::Return => "RETURN",
            Name::Eject => "EJECT",
            Name::Colour => "COLOUR",
            Name::Raster => "RASTER",
        }
    }
}

/// A command, the offset of its first byte in the job, its numbers in their order, and the rows of a raster.
#[derive(Drop)]
pub struct Said {
    pub at: u64,
    pub name: Name,
    pub numbers: Vec<u16>,
    pub rows: Vec<u8>,
}

impl Said {
    /// Its i-th number, or 0.
    pub fn number(&self, i: usize) -> i64 {
        i64::from(self.numbers.get(i).copied().unwrap_or(0))
    }
}

/// A job, and the offsets of its first unread byte and of the last command.
#[derive(Clone, Copy)]
pub struct JobBytesLeft<'a> {
    pub job: &'a [u8],
    pub at: usize,
    pub last: usize,
    pub alloc: Global,
}

impl JobBytesLeft<'_> {
    fn byte(&mut self) -> Result<u8, PlainJobStop> {
        let byte = self.job.get(self.at).copied();
        self.at = self.at.saturating_add(1);
        byte.ok_or(PlainJobStop::Cut)
    }

    // Refuses a byte that was read, `back` bytes before the last one.
    fn refuse<T>(&self, back: u64, cause: &'static str) -> Result<T, PlainJobStop> {
        Err(PlainJobStop::Fault {
            at: (self.at as u64).wrapping_sub(back).wrapping_sub(1),
            cause,
        })
    }

    fn said(&self, name: Name, numbers: &[u16]) -> Result<Said, PlainJobStop> {
        Ok(Said {
            at: self.last as u64,
            name,
            numbers: numbers.to_vec(self.alloc)?,
            rows: Vec::new(self.alloc),
        })
    }

    // A number of one byte, from `least` to `most`.
    fn number(&mut self, least: u8, most: u8) -> Result<u16, PlainJobStop> {
        let number = self.byte()?;
        if number < least || number > most {
            return self.refuse(0, "BadValue");
        }
        Ok(u16::from(number))
    }

    // A number of two bytes, the low byte first, from `least` to `most`.
    fn wide(&mut self, least: u16, most: u16) -> Result<u16, PlainJobStop> {
        let low = self.byte()?;
        let high = self.byte()?;
        let number = u16::from_le_bytes([low, high]);
        if number < least || number > most {
            return self.refuse(1, "BadValue");
        }
        Ok(number)
    }

    // A byte of a length.
    fn length_byte(&mut self, wanted: u8) -> Result<(), PlainJobStop> {
        if self.byte()? == wanted {
            Ok(())
        } else {
            self.refuse(0, "BadLength")
        }
    }

    // The two bytes of a length.
    fn length(&mut self, length: u8) -> Result<(), PlainJobStop> {
        self.length_byte(length)?;
        self.length_byte(0)
    }

    /// The next command.
    pub fn command(&mut self) -> Result<Said, PlainJobStop> {
        self.last = self.at;
        match self.byte()? {
            0x1B => self.escape(),
            0x0D => self.said(Name::Return, &[]),
            0x0C => self.said(Name::Eject, &[]),
            _ => self.refuse(0, "Unknown"),
        }
    }

    fn escape(&mut self) -> Result<Said, PlainJobStop> {
        match self.byte()? {
            b'@' => self.said(Name::Init, &[]),
            b'U' => {
                let n = self.number(0, 1)?;
                self.said(Name::OneWay, &[n])
            }
            b'$' => {
                let n = self.wide(0, 32_767)?;
                self.said(Name::Across, &[n])
            }
            b'r' => {
                let colour = self.number(0, 4)?;
                if colour == 3 {
                    return self.refuse(0, "BadValue");
                }
                self.said(Name::Colour, &[colour])
            }
            b'.' => self.raster(),
            b'(' => self.sized(),
            _ => self.refuse(0, "Unknown"),
        }
    }

    fn sized(&mut self) -> Result<Said, PlainJobStop> {
        let (name, length) = match self.byte()? {
            b'G' => (Name::Graphics, 1),
            b'U' => (Name::Unit, 1),
            b'i' => (Name::MicroWeave, 1),
            b'C' => (Name::Length, 2),
            b'c' => (Name::Margins, 4),
            b'V' => (Name::DownTo, 2),
            b'v' => (Name::DownBy, 2),
            _ => return self.refuse(0, "Unknown"),
        };
        self.length(length)?;
        match name {
            Name::Graphics => {
                self.number(1, 1)?;
                self.said(name, &[])
            }
            Name::Margins => {
                let top = self.wide(0, 32_767)?;
                let bottom = self.wide(top.saturating_add(1), 32_767)?;
                self.said(name, &[top, bottom])
            }
            _ => {
                let number = match name {
                    Name::Unit => self.number(1, 255)?,
                    Name::MicroWeave => self.number(0, 0)?,
                    Name::Length => self.wide(1, 32_767)?,
                    _ => self.wide(0, 32_767)?,
                };
                self.said(name, &[number])
            }
        }
    }

    fn raster(&mut self) -> Result<Said, PlainJobStop> {
        let c = self.number(0, 1)?;
        let v = self.number(1, 255)?;
        let h = self.number(1, 255)?;
        let m = self.number(1, 255)?;
        let n = self.wide(1, 8191)?;
        let mut said = self.said(Name::Raster, &[c, v, h, m, n])?;
        let width = (usize::from(n) + 7) / 8;
        for _ in 0..m {
            if c == 0 {
                self.copy(width, &mut said.rows)?;
            } else {
                self.coded_row(width, &mut said.rows)?;
            }
        }
        Ok(said)
    }

    // Appends `count` bytes as they are.
    fn copy(&mut self, count: usize, rows: &mut Vec<u8>) -> Result<(), PlainJobStop> {
        let end = self.at.saturating_add(count);
        let Some(bytes) = self.job.get(self.at..end) else {
            return Err(PlainJobStop::Cut);
        };
        self.at = end;
        rows.extend_from_slice(bytes)?;
        Ok(())
    }

    // Appends a packet, of which the row takes at most `left` bytes, and gives their number.
    fn packet(&mut self, left: usize, rows: &mut Vec<u8>) -> Result<usize, PlainJobStop> {
        let control = usize::from(self.byte()?);
        let count = match control {
            0..=127 => control + 1,
            128 => usize::MAX,
            _ => 257 - control,
        };
        if count > left {
            return self.refuse(0, "RunCode");
        }
        if control < 128 {
            self.copy(count, rows)?;
        } else {
            let byte = self.byte()?;
            rows.resize(rows.len().saturating_add(count), byte)?;
        }
        Ok(count)
    }

    // Appends a row of `width` bytes, by its packets.
    fn coded_row(&mut self, width: usize, rows: &mut Vec<u8>) -> Result<(), PlainJobStop> {
        let mut left = width;
        for _ in 0..width {
            if left > 0 {
                left = left.saturating_sub(self.packet(left, rows)?);
            }
        }
        Ok(())
    }
}
