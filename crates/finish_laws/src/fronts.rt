//! What a printer makes of the finished front of a job. Each function does nothing; its contract is a law.
#![tactic(auto)]

ghost use Rattle.finish_laws.specs.Sheets.{PrintsFront, PrintsPages, left_at, printed};
ghost use Rattle.page_definitions.specs.Dots.{Screening};
ghost use Rattle.page_definitions.specs.Printing.{Prints};
ghost use Rattle.page_definitions.specs.Ways.{CanGo, page_bytes_by};
ghost use Rattle.page_definitions.specs.declared.way.Way.{Way};
ghost use Rattle.printer_definitions.specs.Printer.{Printer};
ghost use Rattle.pwg_definitions.specs.Stream.{Page};
ghost use Rattle.separation_definitions.specs.CanPrint.{ArePages, CanPrint};
ghost use Rattle.std.specs.List.{flat_map};
ghost use Rattle.std.specs.Prelude.{List, None, [], ℕ, ◌++◌, ◌≡◌};

/// If a printer takes a job that leaves no dot on the next sheet, it takes each front of the job when that is finished.
/// The first sheets are those of the job, and a page that was cut behind its margins gives one more.
pub fn a_cut_job_prints_its_front()
    ensures { (p : Printer) (front rest : List ℕ) → (printed p (front ++ rest)).refused ≡ None
        → (left_at p (front ++ rest)).dots ≡ [] → PrintsFront p (front ++ rest) front }
{}

/// If the job prints pages, the first sheets have exactly the dots of the first pages.
pub fn a_cut_job_prints_its_pages()
    ensures { (p : Printer) (s : Screening) (pages : List Page) (front rest : List ℕ) → Prints p s pages (front ++ rest)
        → (left_at p (front ++ rest)).dots ≡ [] → PrintsPages p s pages (front ++ rest) front }
{}

/// The job of pages, by each way of which the head is capable, cut anywhere and finished.
pub fn a_cut_print_ends_its_page()
    ensures { (way : Way) (p : Printer) (s : Screening) (pages : List Page) (front rest : List ℕ)
        → CanPrint p → CanGo way p → ArePages p pages
        → front ++ rest ≡ flat_map (λ page. page_bytes_by way page p s) pages
        → PrintsPages p s pages (front ++ rest) front }
{}
