//! Pages and their headers.
ghost use Rattle.std.specs.List.{AllByRecursion};
ghost use Rattle.std.specs.Prelude.{List, Ok, ℕ, ◌++◌, ◌<◌, ◌^◌, ◌≡◌};
ghost use Rattle.pwg_definitions.specs.Groups.{IsBytes};
ghost use Rattle.pwg_definitions.specs.Header.{IsWanted, check, header_bytes, header_of};
ghost use Rattle.pwg_definitions.specs.Spelling.{SpellsPage, SpellsStream};
ghost use Rattle.pwg_definitions.specs.Stream.PageRead.{Whole};
ghost use Rattle.pwg_definitions.specs.Stream.StreamEnd.{Done};
ghost use Rattle.pwg_definitions.specs.Stream.{IsPage, Page, page_at, stream};
ghost use Rattle.pwg_definitions.specs.declared.pages.PageForm.{PageForm};
ghost use Rattle.pwg_definitions.specs.declared.pages.Wanted.{Wanted};

/// Each page of a stream is a wanted page. It has as many lines as its height, each as long as its width takes.
pub fn pages_are_wanted()
    ensures { (want : Wanted) (bytes : List ℕ) → AllByRecursion (IsPage want) (stream want bytes).pages }
{}

/// A page that is spelled is read, whatever follows.
pub fn spelled_page_is_read()
    ensures { (want : Wanted) (bytes : List ℕ) (page : Page) (rest : List ℕ) → SpellsPage want bytes page
        → page_at want (bytes ++ rest) ≡ Whole page rest }
{}

/// A stream that is spelled is read to its end without a fault.
pub fn spelled_stream_is_read()
    ensures { (want : Wanted) (bytes : List ℕ) (pages : List Page) → SpellsStream want bytes pages
        → stream want bytes ≡ record { pages = pages; end = Done } }
{}

/// A page that is read was spelled by the bytes before the rest.
pub fn read_page_is_spelled()
    ensures { (want : Wanted) (bytes : List ℕ) (page : Page) (rest : List ℕ)
        → IsBytes bytes → page_at want bytes ≡ Whole page rest
        → (front : List ℕ) × (bytes ≡ front ++ rest) × SpellsPage want front page }
{}

/// A stream that is read to its end without a fault was spelled.
pub fn read_stream_is_spelled()
    ensures { (want : Wanted) (bytes : List ℕ) (pages : List Page)
        → IsBytes bytes → stream want bytes ≡ record { pages = pages; end = Done } → SpellsStream want bytes pages }
{}

/// A written header is accepted, and `check` returns the form that was written.
pub fn written_is_accepted()
    ensures { (want : Wanted) (form : PageForm) → IsWanted want form
        → form.width < 2 ^ 32 → form.height < 2 ^ 32 → form.bytes_per_line < 2 ^ 32 → want.hdpi < 2 ^ 32
        → want.vdpi < 2 ^ 32
        → check want (header_of (header_bytes form want.hdpi want.vdpi)) ≡ Ok form }
{}
