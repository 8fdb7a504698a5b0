//! What finishing does to the commands of a job. Each function does nothing; its contract is a law.
#![tactic(auto)]

ghost use Rattle.escp2_definitions.specs.Commands.ListEnd.{Whole};
ghost use Rattle.escp2_definitions.specs.Commands.{commands};
ghost use Rattle.finish_definitions.specs.Finished.{finished, page_state, whole_commands};
ghost use Rattle.finish_definitions.specs.declared.state.PageState.TheVariants.{Between};
ghost use Rattle.page_definitions.specs.Dots.{Screening};
ghost use Rattle.page_definitions.specs.Ways.{CanGo, page_bytes_by};
ghost use Rattle.page_definitions.specs.declared.way.Way.{Way};
ghost use Rattle.printer_definitions.specs.Printer.{Printer};
ghost use Rattle.pwg_definitions.specs.Stream.{Page};
ghost use Rattle.separation_definitions.specs.CanPrint.{ArePages, CanPrint};
ghost use Rattle.std.specs.List.{flat_map};
ghost use Rattle.std.specs.Prelude.{List, length, take, ℕ, ◌≡◌};

/// A job of whole commands that ends between pages stays as it is.
pub fn a_whole_job_stays()
    ensures { (bytes : List ℕ) → (commands bytes).end ≡ Whole → page_state bytes ≡ Between → finished bytes ≡ bytes }
{}

/// A finished job has whole commands alone and ends between pages.
pub fn a_finished_job_is_whole()
    ensures whole { (bytes : List ℕ) → (commands (finished bytes)).end ≡ Whole }
    ensures between { (bytes : List ℕ) → page_state (finished bytes) ≡ Between }
{}

/// Finishing a finished job changes nothing.
pub fn finishing_again_changes_nothing()
    ensures { (bytes : List ℕ) → finished (finished bytes) ≡ finished bytes }
{}

/// The whole commands of bytes are the first of these bytes, and they are read as the commands of the bytes.
pub fn nothing_of_a_front_is_lost()
    ensures first { (bytes : List ℕ) → whole_commands bytes ≡ take (length (whole_commands bytes)) bytes }
    ensures read { (bytes : List ℕ) → (commands (whole_commands bytes)).entries ≡ (commands bytes).entries }
{}

/// The job of pages stays as it is, by each way of which the head is capable.
pub fn a_printed_job_stays()
    ensures { (way : Way) (p : Printer) (s : Screening) (pages : List Page) → CanPrint p → CanGo way p → ArePages p pages
        → finished (flat_map (λ page. page_bytes_by way page p s) pages)
        ≡ flat_map (λ page. page_bytes_by way page p s) pages }
{}
