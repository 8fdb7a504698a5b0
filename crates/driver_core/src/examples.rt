//! A trial worked by hand: each function does nothing, and the checker computes its contract.
#![tactic(auto, unfolding(diffusion_definitions::specs::Diffusion::errors, diffusion_definitions::specs::Diffusion::row_errors, diffusion_definitions::specs::Diffusion::value, escp2_definitions::specs::Commands::command_at, escp2_definitions::specs::Commands::commands_from, escp2_definitions::specs::Least::cost_from, escp2_definitions::specs::Least::costs, escp2_definitions::specs::Least::equal_at, escp2_definitions::specs::Least::least, escp2_definitions::specs::Least::least_packet, escp2_definitions::specs::Least::least_row, escp2_definitions::specs::Least::literals, escp2_definitions::specs::Least::packets_at, escp2_definitions::specs::Least::packets_from, escp2_definitions::specs::Least::runs, escp2_definitions::specs::Machine::execute_from, escp2_definitions::specs::Machine::rows_dots, escp2_definitions::specs::RowCode::row_at, escp2_definitions::specs::RowCode::rows_at, ink_meter::specs::Counts::page_dots, job_words::specs::Meaning::job_meaning, job_words::specs::Meaning::refused, job_words::specs::Meaning::word_fault, key_values::specs::Numbers::number_within, page_definitions::specs::PageBytes::halftone_bytes, page_definitions::specs::PageBytes::page_bytes, page_definitions::specs::Ways::page_bytes_by, page_maker::specs::Made::draw, page_maker::specs::Made::drawn, page_maker::specs::Made::groups_of_pages, page_maker::specs::Made::line_repeats, page_maker::specs::Made::made_groups, page_maker::specs::Made::made_line, page_maker::specs::Made::made_pages, page_maker::specs::Made::next_state, page_maker::specs::Made::run_length, page_maker::specs::Made::state_after, pwg_definitions::specs::Header::header_bytes))]

ghost use Rattle.driver_core.specs.Trying.Examples.{small_trial, small_words};
ghost use Rattle.driver_core.specs.Trying.Outcome.{TakesMade, job_pages, job_summary, made_bytes, made_sheets};
ghost use Rattle.driver_core.specs.Trying.Summary.{dots_of_sheets, rasters_of, totals_line};
ghost use Rattle.job_words.specs.Meaning.{job_meaning, profile_named};
ghost use Rattle.page_laws.specs.Examples.{black_dot, small_page, small_page_bytes};
ghost use Rattle.printer_definitions.specs.Printer.{tiny1};
ghost use Rattle.printer_profile.specs.Profiles.{built_in};
ghost use Rattle.std.specs.Prelude.{Ok, Some, [], codes, length, ◌∷◌, ◌≡◌};

/// What `trial profile=tiny1 seed=0 width=4 height=2` means: the job and the printer, the page that is made, its bytes
/// and its sheet, and the line of the summary.
pub fn a_small_trial()
    ensures words { job_meaning small_words ≡ Ok small_trial }
    ensures profile { built_in (profile_named small_words) ≡ Some tiny1 }
    ensures taken { TakesMade small_trial tiny1 }
    ensures pages { job_pages small_trial ≡ small_page ∷ [] }
    ensures bytes { made_bytes small_trial tiny1 ≡ small_page_bytes }
    ensures sheets { made_sheets small_trial tiny1
        ≡ record { rows = 2; columns = 4; dots = black_dot 10 10 ∷ black_dot 30 10 ∷ [] } ∷ [] }
    ensures line { job_summary small_trial tiny1
        ≡ codes "pages=1 sheets=1 bytes=70 rasters=1 k=2 c=0 m=0 y=0\n" }
{}

/// The numbers of the line of this summary, and where each number stands in a line.
pub fn parts_of_a_line()
    ensures bytes { length small_page_bytes ≡ 70 }
    ensures rasters { rasters_of small_page_bytes ≡ 1 }
    ensures dots { dots_of_sheets (made_sheets small_trial tiny1) ≡ record { k = 2; c = 0; m = 0; y = 0 } }
    ensures places { totals_line (record {
      pages = 1;
      sheets = 23;
      bytes = 456;
      rasters = 7890;
      dots = record { k = 0; c = 12; m = 345; y = 6789 };
    }) ≡ codes "pages=1 sheets=23 bytes=456 rasters=7890 k=0 c=12 m=345 y=6789\n" }
{}
