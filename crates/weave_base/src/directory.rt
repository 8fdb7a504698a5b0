//! The files of the current folder as a shelf, which does not show what it holds.
ghost use Rattle.std.specs.IoError.{error_kind, raw_os_error};
ghost use Rattle.std.specs.Prelude.{IfOk, IsTrue, None, ◌↔◌, ◌≡◌};
ghost use Rattle.weave_base.specs.Shelf.{IsWithin, is_file_name};

use crate::{Found, Shelf, ShelfStop};
use std::alloc::Global;
use std::io::{ErrorKind, Read};
use std::marker::Model;
use std::rt::Files;
use std::{fs, io};

/// The files of the current folder by their names. Contracts see the count of faults.
#[derive(Drop)]
pub struct DirShelf<R: Files> {
    rt: R,
    faults: u64,
}

impl<R: Files> Model for DirShelf<R> {
    ghost use Rattle.std.specs.Prelude.{ℕ};

    ghost Value = { ℕ };

    ghost view = { λ s. s.faults };
}

impl<R: Files> DirShelf<R> {
    ghost use Rattle.std.specs.Prelude.{◌≡◌};

    /// A shelf of the current folder. A file is read at each call, as it is then.
    pub fn make(rt: R) -> DirShelf<R>
        ensures { result ≡ 0 }
    {
        DirShelf { rt, faults: 0 }
    }
}

impl<R: Files> Shelf for DirShelf<R> {
    ghost use Rattle.std.specs.Prelude.{IfOk, None, Ok, false, if◌then◌else◌, ◌≡◌};
    ghost use Rattle.weave_base.specs.Causes.{next_count};
    ghost use Rattle.weave_base.specs.Shelf.{Finds, IsWithin, StopHasCause, is_failed, is_file_name};
    ghost use Rattle.weave_base.specs.declared.shelf.Found.TheVariants as found;

    ghost files = { λ s. None };

    ghost faults = { λ s. s };

    /// A name that is empty, `.` or `..` or has a `/` is absent, and so is a file that is not found. `Memory` means
    /// that the program itself is out of memory. Each other error is a fault, also if the system is out of memory.
    fn read_text(&mut self, alloc: Global, name: &str, most: usize) -> Result<Found, ShelfStop>
        ensures within { IfOk result (IsWithin most) }
        ensures found { IfOk result (Finds None name.now most) }
        ensures cause { StopHasCause self.old self.new result }
        ensures absent { is_file_name name.now ≡ false → result ≡ Ok found.Absent }
        ensures faults { self.new ≡ (if is_failed result then next_count self.old else self.old) }
    {
        if !is_file_name(name) {
            return Ok(Found::Absent);
        }
        match read_file(&self.rt, alloc, name, most) {
            Ok(found) => Ok(found),
            Err(error) if is_out_of_memory(&error) => Err(ShelfStop::Memory),
            Err(_) => {
                self.faults = self.faults.saturating_add(1);
                Err(ShelfStop::Failed)
            }
        }
    }
}

// Whether a name may be that of a file of the folder.
fn is_file_name(name: &str) -> bool
    ensures { result ≡ is_file_name name.now }
{
    !name.is_empty() && name != "." && name != ".." && !name.as_bytes().contains(&b'/')
}

// Whether the program's own allocator refused memory. An error of the system has a number, also where it lacks memory.
fn is_out_of_memory(error: &io::Error) -> bool
    ensures { IsTrue result ↔ ((error_kind error.now ≡ ErrorKind.OutOfMemory) × (raw_os_error error.now ≡ None)) }
{
    error.kind() == ErrorKind::OutOfMemory && error.raw_os_error().is_none()
}

// Reads a file, or its first `most` + 1 bytes where it is longer than `most`.
fn read_file<R: Files>(rt: &R, alloc: Global, name: &str, most: usize) -> io::Result<Found>
    ensures { IfOk result (IsWithin most) }
{
    let file = match fs::open(rt, name) {
        Ok(file) => file,
        Err(error) if error.kind() == ErrorKind::NotFound => return Ok(Found::Absent),
        Err(error) => return Err(error),
    };
    let mut text = Vec::new(alloc);
    let limit = (most as u64).saturating_add(1);
    file.take(limit).read_to_end(&mut text)?;
    Ok(if text.len() > most {
        Found::TooLong
    } else {
        Found::Text(text)
    })
}
