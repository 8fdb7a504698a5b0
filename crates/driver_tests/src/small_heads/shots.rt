//! What the nozzles of a head fire in a job of one ink and eight columns, at 360 dots an inch.
use std::alloc::{AllocError, Global};

/// A row of dots that a nozzle fired: the row of the paper from 0, the nozzle, and the dots, the leftmost in the
/// highest bit.
#[derive(Clone, Copy)]
pub struct Shot {
    pub row: usize,
    pub nozzle: usize,
    pub dots: u8,
}

// The bytes of a job that are left. Behind its end there are noughts.
#[derive(Drop)]
struct Job<'a> {
    rest: &'a [u8],
}

impl Job<'_> {
    fn byte(&mut self) -> u8 {
        let Some((byte, rest)) = self.rest.split_first() else {
            return 0;
        };
        self.rest = rest;
        *byte
    }

    fn wide(&mut self) -> usize {
        let low = self.byte();
        let high = self.byte();
        usize::from(u16::from_le_bytes([low, high]))
    }

    fn skip(&mut self, count: usize) {
        for _ in 0..count {
            self.byte();
        }
    }
}

// Where the head is, in rows; there are two units to a row.
#[derive(Drop)]
struct Head {
    top: usize,
    down: usize,
    pitch: usize,
    shots: Vec<Shot>,
}

impl Head {
    // A command with a length.
    fn sized(&mut self, job: &mut Job<'_>) {
        let name = job.byte();
        let length = job.wide();
        match name {
            b'c' => {
                self.top = job.wide() / 2;
                job.skip(2);
            }
            b'V' => self.down = job.wide() / 2,
            b'v' => self.down = self.down.wrapping_add(job.wide() / 2),
            _ => job.skip(length),
        }
    }

    // A raster: of each nozzle a byte of dots, coded as a literal.
    fn raster(&mut self, job: &mut Job<'_>) -> Result<(), AllocError> {
        job.skip(3);
        let nozzles = usize::from(job.byte());
        job.skip(2);
        for nozzle in 0..nozzles {
            job.skip(1);
            let dots = job.byte();
            let below = nozzle.wrapping_mul(self.pitch);
            let row = self.top.wrapping_add(self.down).wrapping_add(below);
            if dots != 0 {
                self.shots.push(Shot { row, nozzle, dots })?;
            }
        }
        Ok(())
    }

    // A command that begins with ESC.
    fn escape(&mut self, job: &mut Job<'_>) -> Result<(), AllocError> {
        match job.byte() {
            b'(' => self.sized(job),
            b'.' => self.raster(job)?,
            b'U' | b'r' => job.skip(1),
            _ => {}
        }
        Ok(())
    }
}

/// All shots of a job, by a head whose nozzles are `pitch` rows apart.
pub fn shots_of(alloc: Global, bytes: &[u8], pitch: usize) -> Result<Vec<Shot>, AllocError> {
    let mut job = Job { rest: bytes };
    let mut head = Head {
        top: 0,
        down: 0,
        pitch,
        shots: Vec::new(alloc),
    };
    for _ in 0..bytes.len() {
        if job.byte() == 0x1B {
            head.escape(&mut job)?;
        }
    }
    Ok(head.shots)
}
