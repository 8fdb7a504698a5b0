//! Shelves in memory and of a folder.
use std::alloc::Global;
use std::fs;
use std::process::Abort;
use std::test::Fail;
use weave_base::{DirShelf, Found, MemShelf, Shelf, ShelfFile, ShelfStop};

// What a shelf is to answer.
#[derive(Clone, Copy)]
enum Wanted {
    Text(&'static [u8]),
    TooLong,
    Absent,
    Failed,
}

// A name, the most bytes that its text may have, and the answer.
type Row = (&'static str, usize, Wanted);

// Asks a shelf for each name.
fn asks<S: Shelf>(rt: &impl Abort, alloc: Global, shelf: &mut S, rows: &[Row]) {
    for (name, most, wanted) in rows {
        let is_wanted = match (shelf.read_text(alloc, name, *most), wanted) {
            (Ok(Found::Text(text)), Wanted::Text(bytes)) => text.as_slice() == *bytes,
            (Ok(Found::TooLong), Wanted::TooLong) => true,
            (Ok(Found::Absent), Wanted::Absent) => true,
            (Err(ShelfStop::Failed), Wanted::Failed) => true,
            _ => false,
        };
        assert!(rt; is_wanted, "another answer at {name}");
    }
}

// A shelf in memory of a file `a` and two files `b`: whether its second call fails.
fn shelf(alloc: Global, fails: bool) -> Result<MemShelf, Fail> {
    let files: [(&str, &[u8]); 3] = [("a", &[1]), ("b", &[7, 8]), ("b", &[9])];
    let mut held = Vec::new(alloc);
    for (name, bytes) in files {
        let name = String::from_str(alloc, name)?;
        let bytes = Vec::from_slice(alloc, bytes)?;
        held.push(ShelfFile { name, bytes })?;
    }
    let mut failing = Vec::new(alloc);
    if fails {
        failing.push(2)?;
    }
    Ok(MemShelf::make(held, failing))
}

#[test]
fn a_shelf_gives_the_first_text_of_a_name(rt: HostRuntime) -> Result<(), Fail> {
    const ROWS: [Row; 3] = [
        ("b", 2, Wanted::Text(&[7, 8])),
        ("b", 1, Wanted::TooLong),
        ("c", 2, Wanted::Absent),
    ];
    asks(&rt, rt.alloc(), &mut shelf(rt.alloc(), false)?, &ROWS);
    Ok(())
}

#[test]
fn a_shelf_fails_its_second_call(rt: HostRuntime) -> Result<(), Fail> {
    const ROWS: [Row; 3] = [
        ("a", 1, Wanted::Text(&[1])),
        ("a", 1, Wanted::Failed),
        ("a", 1, Wanted::Text(&[1])),
    ];
    asks(&rt, rt.alloc(), &mut shelf(rt.alloc(), true)?, &ROWS);
    Ok(())
}

#[test]
fn a_folder_gives_its_files(rt: HostRuntime) -> Result<(), Fail> {
    const NAME: &str = "shelf_test_file";
    const ROWS: [Row; 3] = [
        (NAME, 2, Wanted::Text(&[7, 8])),
        (NAME, 1, Wanted::TooLong),
        ("./shelf_test_file", 2, Wanted::Absent),
    ];
    let mut shelf = DirShelf::make(&rt);
    fs::write(&rt, NAME, [7u8, 8].as_slice())?;
    asks(&rt, rt.alloc(), &mut shelf, &ROWS);
    fs::remove_file(&rt, NAME)?;
    asks(&rt, rt.alloc(), &mut shelf, &[(NAME, 2, Wanted::Absent)]);
    Ok(())
}

#[test]
fn a_folder_in_the_place_of_a_file_is_a_fault(rt: HostRuntime) -> Result<(), Fail> {
    const NAME: &str = "shelf_test_folder";
    const ROWS: [Row; 1] = [(NAME, 2, Wanted::Failed)];
    fs::create_dir(&rt, NAME)?;
    asks(&rt, rt.alloc(), &mut DirShelf::make(&rt), &ROWS);
    fs::remove_dir(&rt, NAME)?;
    Ok(())
}

#[test]
fn names_that_leave_the_folder_are_absent(rt: HostRuntime) {
    const ROWS: [Row; 4] = [
        ("", 2, Wanted::Absent),
        (".", 2, Wanted::Absent),
        ("..", 2, Wanted::Absent),
        ("/dev/null", 2, Wanted::Absent),
    ];
    asks(&rt, rt.alloc(), &mut DirShelf::make(&rt), &ROWS);
}
