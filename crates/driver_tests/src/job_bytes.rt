//! Reading the bytes of a job: numbers, and rows of rasters by their codes.
use std::alloc::Global;
use weave_base::Memory;

/// Why a job is not one that this printer can print.
#[derive(Clone, Copy, Debug)]
pub enum JobFault {
    /// It ends inside a command.
    Cut,
    /// Its bytes are not a command.
    Unknown,
    /// A number of a command is out of range.
    Number,
    /// A packet goes past the end of its row, or its control byte is 128.
    RowCode,
    /// A command comes before the sheet is set up, or after its end.
    NoSheet,
    /// A raster has other steps or rows than the printer, or begins between the printer's columns or rows.
    OffGrid,
    /// A dot is outside the window, or at or below the bottom margin.
    OffWindow,
    /// A dot is fired a second time.
    FiredTwice,
    /// Memory ran out.
    Memory,
}

impl From<Memory> for JobFault {
    fn from(_memory: Memory) -> JobFault {
        JobFault::Memory
    }
}

/// The unread bytes of a job.
#[derive(Drop)]
pub struct JobBytes<'a> {
    pub rest: &'a [u8],
}

impl JobBytes<'_> {
    /// The next byte.
    pub fn byte(&mut self) -> Result<u8, JobFault> {
        let Some((byte, rest)) = self.rest.split_first() else {
            return Err(JobFault::Cut);
        };
        self.rest = rest;
        Ok(*byte)
    }

    /// A number of two bytes, the low byte first.
    pub fn wide(&mut self) -> Result<u16, JobFault> {
        let low = self.byte()?;
        let high = self.byte()?;
        Ok(u16::from_le_bytes([low, high]))
    }

    /// A byte that must have one of these values.
    pub fn one_of(&mut self, values: &[u8]) -> Result<u8, JobFault> {
        let byte = self.byte()?;
        if values.contains(&byte) {
            Ok(byte)
        } else {
            Err(JobFault::Number)
        }
    }

    /// A row of `width` bytes, not coded.
    pub fn plain_row(&mut self, alloc: Global, width: usize) -> Result<Vec<u8>, JobFault> {
        let mut row = Vec::new(alloc);
        self.copy(width, &mut row)?;
        Ok(row)
    }

    /// A coded row of `width` bytes.
    pub fn coded_row(&mut self, alloc: Global, width: usize) -> Result<Vec<u8>, JobFault> {
        let mut row = Vec::new(alloc);
        for _ in 0..width {
            if row.len() < width {
                self.packet(width, &mut row)?;
            }
        }
        Ok(row)
    }

    // A packet of a row: bytes as they are, or one byte repeated.
    fn packet(&mut self, width: usize, row: &mut Vec<u8>) -> Result<(), JobFault> {
        let control = usize::from(self.byte()?);
        let count = match control {
            0..=127 => control + 1,
            128 => return Err(JobFault::RowCode),
            _ => 257 - control,
        };
        if count > width.saturating_sub(row.len()) {
            return Err(JobFault::RowCode);
        }
        if control < 128 {
            return self.copy(count, row);
        }
        let byte = self.byte()?;
        match row.resize(row.len().saturating_add(count), byte) {
            Ok(()) => Ok(()),
            Err(_) => Err(JobFault::Memory),
        }
    }

    // Appends `count` bytes as they are.
    fn copy(&mut self, count: usize, row: &mut Vec<u8>) -> Result<(), JobFault> {
        let Some((bytes, rest)) = self.rest.split_at_checked(count) else {
            return Err(JobFault::Cut);
        };
        self.rest = rest;
        match row.extend_from_slice(bytes) {
            Ok(()) => Ok(()),
            Err(_) => Err(JobFault::Memory),
        }
    }
}
