//! The laws of made streams. Their functions have no code: each is a contract with its proof.
ghost use Rattle.page_maker.specs.Made.{made_pages, made_stream};
ghost use Rattle.pwg_definitions.specs.Header.{IsWanted, check, header_bytes, header_of, is_outside, line_bytes};
ghost use Rattle.pwg_definitions.specs.Header.{row_of};
ghost use Rattle.pwg_definitions.specs.Limits.{most_pages};
ghost use Rattle.pwg_definitions.specs.Stream.StreamEnd.{Done, Fault};
ghost use Rattle.pwg_definitions.specs.Stream.{IsPage, stream};
ghost use Rattle.pwg_definitions.specs.declared.faults.HeaderFault.TheVariants as fault;
ghost use Rattle.pwg_definitions.specs.declared.faults.HeaderFault.{HeaderFault};
ghost use Rattle.pwg_definitions.specs.declared.faults.InputCause.TheVariants as cause;
ghost use Rattle.pwg_definitions.specs.declared.pages.PageForm.{PageForm};
ghost use Rattle.pwg_definitions.specs.declared.pages.Wanted.{Wanted};
ghost use Rattle.std.specs.List.{AllByRecursion};
ghost use Rattle.std.specs.Prelude.{Err, Ok, [], if◌then◌else◌, length, ℕ, ◌<◌, ◌^◌, ◌≡◌, ◌≤◌};

/// A made stream is read back. A reader that wants its resolution and a page of its form reads exactly the pages that
/// were made, to the end of the stream.
pub fn made_stream_is_read()
    ensures read { (want : Wanted) (seed pages : ℕ) (form : PageForm) → pages ≤ most_pages → IsWanted want form
        → form.width < 2 ^ 32 → form.height < 2 ^ 32 → form.bytes_per_line < 2 ^ 32 → want.hdpi < 2 ^ 32
        → want.vdpi < 2 ^ 32
        → stream want (made_stream seed pages form want.hdpi want.vdpi)
        ≡ record { pages = made_pages seed pages form; end = Done } }
    ensures wanted { (want : Wanted) (seed pages : ℕ) (form : PageForm) → pages ≤ most_pages → IsWanted want form
        → form.width < 2 ^ 32 → form.height < 2 ^ 32 → form.bytes_per_line < 2 ^ 32 → want.hdpi < 2 ^ 32
        → want.vdpi < 2 ^ 32 → AllByRecursion (IsPage want) (made_pages seed pages form) }
    ensures many { (seed pages : ℕ) (form : PageForm) → length (made_pages seed pages form) ≡ pages }
{}

/// A reader that wants a made stream's resolution refuses its header only for the size of its pages: first for their
/// width, then for their height.
pub fn a_made_header_is_checked_by_its_size()
    ensures { (want : Wanted) (form : PageForm) → form.width < 2 ^ 32 → form.height < 2 ^ 32
        → form.bytes_per_line < 2 ^ 32 → want.hdpi < 2 ^ 32 → want.vdpi < 2 ^ 32
        → form.bytes_per_line ≡ line_bytes form.width (row_of form.kind).bits_per_pixel
        → check want (header_of (header_bytes form want.hdpi want.vdpi))
        ≡ (if is_outside want.least_width want.most_width form.width then Err fault.Width
        else if is_outside want.least_height want.most_height form.height then Err fault.Height
        else Ok form) }
{}

/// If the header of a made stream is refused, the stream ends before its first page with the header's fault.
pub fn a_made_header_is_refused()
    ensures { (want : Wanted) (seed pages : ℕ) (form : PageForm) (hdpi vdpi : ℕ) (why : HeaderFault)
        → 1 ≤ pages → check want (header_of (header_bytes form hdpi vdpi)) ≡ Err why
        → stream want (made_stream seed pages form hdpi vdpi)
        ≡ record { pages = []; end = Fault 1 0 (cause.Header why) } }
{}
