//! A shelf in memory, which fails exactly at the listed reads.
ghost use Rattle.std.specs.Option.{option_copied};
ghost use Rattle.std.specs.Prelude.{find, string_bytes, ◌≡◌};
ghost use Rattle.std.specs.Str.{bytes_eq};

use crate::bounds::is_listed;
use crate::{Found, Shelf, ShelfStop};
use std::alloc::Global;
use std::marker::Model;

/// A file of a shelf in memory.
#[derive(Drop)]
pub struct ShelfFile {
    pub name: String,
    pub bytes: Vec<u8>,
}

/// A shelf in memory. Contracts see its texts, the reads so far, the faults, and the list of reads that fail.
#[derive(Drop)]
pub struct MemShelf {
    files: Vec<ShelfFile>,
    fails: Vec<u32>,
    calls: u64,
    faults: u64,
}

impl Model for MemShelf {
    ghost use Rattle.std.specs.Prelude.{map};
    ghost use Rattle.weave_base.specs.Shelved.{MemoryTexts, named_text};

    ghost Value = { MemoryTexts };

    ghost view = { λ s. record {
      files = map named_text s.files.items;
      calls = s.calls;
      faults = s.faults;
      fails = s.fails.items;
    } };
}

impl MemShelf {
    ghost use Rattle.std.specs.Prelude.{map, ◌≡◌};
    ghost use Rattle.weave_base.specs.Shelved.{named_text};

    /// A shelf of these files. If two files have one name, the first counts. Read `k`, counted from 1, fails if `fails`
    /// has `k`.
    pub fn make(files: Vec<ShelfFile>, fails: Vec<u32>) -> MemShelf
        ensures { result ≡ record {
          files = map named_text files.items;
          calls = 0;
          faults = 0;
          fails = fails.items;
        } }
    {
        MemShelf {
            files,
            fails,
            calls: 0,
            faults: 0,
        }
    }
}

impl Shelf for MemShelf {
    ghost use Rattle.std.specs.Prelude.{Contains, IfOk, Some, if◌then◌else◌, ◌↔◌, ◌≡◌};
    ghost use Rattle.weave_base.specs.Causes.{next_count};
    ghost use Rattle.weave_base.specs.Shelf.{Finds, IsWithin, StopHasCause, is_failed};

    ghost files = { λ s. Some s.files };

    ghost faults = { λ s. s.faults };

    fn read_text(&mut self, alloc: Global, name: &str, most: usize) -> Result<Found, ShelfStop>
        ensures within { IfOk result (IsWithin most) }
        ensures found { IfOk result (Finds (Some self.old.files) name.now most) }
        ensures cause { StopHasCause self.old.faults self.new.faults result }
        ensures stay { self.new.files ≡ self.old.files }

        // exactly the listed calls fail
        ensures fails { (result ≡ Err ShelfStop.Failed) ↔ Contains self.old.fails self.new.calls }

        // the counts, and what stays
        ensures calls { self.new.calls ≡ next_count self.old.calls }
        ensures faults { self.new.faults ≡
            (if is_failed result then next_count self.old.faults else self.old.faults) }
        ensures fails_stay { self.new.fails ≡ self.old.fails }
    {
        self.calls = self.calls.saturating_add(1);
        if is_listed(self.calls, &self.fails) {
            self.faults = self.faults.saturating_add(1);
            return Err(ShelfStop::Failed);
        }
        let Some(file) = first_named(&self.files, name) else {
            return Ok(Found::Absent);
        };
        if most < file.bytes.len() {
            return Ok(Found::TooLong);
        }
        let Ok(text) = Vec::from_slice(alloc, &file.bytes) else {
            return Err(ShelfStop::Memory);
        };
        Ok(Found::Text(text))
    }
}

// The first file of this name.
fn first_named<'a>(files: &'a [ShelfFile], name: &str) -> Option<&'a ShelfFile>
    ensures { option_copied result ≡ find (λ f. bytes_eq (string_bytes f.name) name.now) files.now }
{
    files.iter().find(|file| file.name.as_str() == name)
}
