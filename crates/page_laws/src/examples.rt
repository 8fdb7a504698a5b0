//! Worked pages: each function does nothing, and the checker computes its contract. They compare the definitions with
//! results worked by hand.
#![tactic(auto, unfolding(diffusion_definitions::specs::Diffusion::errors, diffusion_definitions::specs::Diffusion::row_errors, diffusion_definitions::specs::Diffusion::value, escp2_definitions::specs::Commands::command_at, escp2_definitions::specs::Commands::commands_from, escp2_definitions::specs::Least::cost_from, escp2_definitions::specs::Least::costs, escp2_definitions::specs::Least::equal_at, escp2_definitions::specs::Least::least, escp2_definitions::specs::Least::least_packet, escp2_definitions::specs::Least::least_row, escp2_definitions::specs::Least::literals, escp2_definitions::specs::Least::packets_at, escp2_definitions::specs::Least::packets_from, escp2_definitions::specs::Least::runs, escp2_definitions::specs::Machine::execute_from, escp2_definitions::specs::Machine::rows_dots, escp2_definitions::specs::RowCode::row_at, escp2_definitions::specs::RowCode::rows_at, page_definitions::specs::PageBytes::halftone_bytes, page_definitions::specs::PageBytes::page_bytes))]

ghost use Rattle.base_definitions.specs.Limits.{most_columns, most_rows};
ghost use Rattle.escp2_definitions.specs.Commands.{commands};
ghost use Rattle.escp2_definitions.specs.Machine.{execute};
ghost use Rattle.escp2_definitions.specs.Rasters.{ink_rasters};
ghost use Rattle.escp2_laws.specs.Examples.{listing, three_nozzles};
ghost use Rattle.page_definitions.specs.Dots.{wanted};
ghost use Rattle.page_definitions.specs.PageBytes.{page_bytes};
ghost use Rattle.page_laws.specs.Examples.{amounts_of, amounts_of_128, black_column, black_column_bytes, black_dot};
ghost use Rattle.page_laws.specs.Examples.{black_line, black_page, black_page_bytes, black_pixel_bytes, by_floyd};
ghost use Rattle.page_laws.specs.Examples.{fine_across, fine_across_bytes, fine_down, fine_down_bytes, fires_row};
ghost use Rattle.page_laws.specs.Examples.{grey, pixel};
ghost use Rattle.page_laws.specs.Examples.{red_pixel_bytes, six_rows, small_page, small_page_bytes, white_page};
ghost use Rattle.page_laws.specs.Examples.{white_page_bytes, with_black_start, with_inks, with_limits, with_margins};
ghost use Rattle.printer_definitions.specs.Printer.{tiny1};
ghost use Rattle.printer_definitions.specs.declared.inks.Ink.TheVariants.{Black, Cyan, Magenta, Yellow};
ghost use Rattle.printer_definitions.specs.declared.inks.InkSet.TheVariants.{Cmy, Cmyk, K};
ghost use Rattle.separation_definitions.specs.Windows.{wanted_by, window_of};
ghost use Rattle.std.specs.Prelude.{None, [], length, ◌∷◌, ◌≡◌};
ghost use Rattle.weave_definitions.specs.Weave.{pass_count, passes};

/// The dots of a page of four columns and two rows.
pub fn small_page_wants_two_dots()
    ensures { wanted small_page tiny1 by_floyd ≡ black_dot 10 10 ∷ black_dot 30 10 ∷ [] }
{}

/// The bytes of the job of this page.
pub fn small_page_has_its_bytes()
    ensures len { length small_page_bytes ≡ 70 }
    ensures bytes { page_bytes small_page tiny1 by_floyd ≡ small_page_bytes }
{}

/// The printer prints the page from these bytes.
pub fn small_page_is_printed()
    ensures { execute tiny1 (commands small_page_bytes).entries ≡ record {
      sheets = record { rows = 2; columns = 4; dots = black_dot 10 10 ∷ black_dot 30 10 ∷ [] } ∷ [];
      refused = None;
    } }
{}

/// The job of a page without dots has 49 bytes.
pub fn white_page_takes_no_stroke()
    ensures len { length white_page_bytes ≡ 49 }
    ensures bytes { page_bytes white_page tiny1 by_floyd ≡ white_page_bytes }
{}

/// A black page with margins: its window, and the bytes of its job.
pub fn black_page_with_margins()
    ensures window { window_of black_page.form with_margins ≡ record { left = 1; top = 1; width = 3; height = 1 } }
    ensures len { length black_page_bytes ≡ 63 }
    ensures bytes { page_bytes black_page with_margins by_floyd ≡ black_page_bytes }
{}

/// One nozzle takes three rasters for three black rows of one column.
pub fn one_nozzle_prints_three_rasters()
    ensures len { length black_column_bytes ≡ 105 }
    ensures bytes { page_bytes black_column tiny1 by_floyd ≡ black_column_bytes }
    ensures rasters { ink_rasters Black (commands black_column_bytes).entries ≡ 3 }
{}

/// Six black rows of eight columns, of which two are in the window of a head with three nozzles two rows apart: 92
/// bytes, with two rasters.
pub fn tiny_prints_ninety_two_bytes()
    ensures bytes { page_bytes six_rows three_nozzles by_floyd ≡ listing }
    ensures rasters { ink_rasters Black (commands listing).entries ≡ 2 }
{}

/// The inks of a pass come in the order of their set. A black pixel uses black alone, and a red one magenta and yellow.
pub fn inks_go_in_the_order_of_their_set()
    ensures black_len { length black_pixel_bytes ≡ 63 }
    ensures black { page_bytes (pixel 0 0 0) (with_inks Cmyk) by_floyd ≡ black_pixel_bytes }
    ensures red_len { length red_pixel_bytes ≡ 77 }
    ensures red { page_bytes (pixel 255 0 0) (with_inks Cmyk) by_floyd ≡ red_pixel_bytes }
    ensures no_black { ink_rasters Black (commands red_pixel_bytes).entries ≡ 0 }
    ensures no_cyan { ink_rasters Cyan (commands red_pixel_bytes).entries ≡ 0 }
    ensures one_magenta { ink_rasters Magenta (commands red_pixel_bytes).entries ≡ 1 }
    ensures one_yellow { ink_rasters Yellow (commands red_pixel_bytes).entries ≡ 1 }
{}

/// A black line at 720 dots an inch across the page or down it: the steps of its raster, and the units of its sheet.
pub fn resolutions_differ_across_and_down()
    ensures across_dots { wanted black_line fine_across by_floyd
        ≡ black_dot 0 0 ∷ black_dot 5 0 ∷ black_dot 10 0 ∷ black_dot 15 0 ∷ [] }
    ensures across { page_bytes black_line fine_across by_floyd ≡ fine_across_bytes }
    ensures down_dots { wanted black_line fine_down by_floyd
        ≡ black_dot 0 0 ∷ black_dot 10 0 ∷ black_dot 20 0 ∷ black_dot 30 0 ∷ [] }
    ensures down { page_bytes black_line fine_down by_floyd ≡ fine_down_bytes }
{}

/// Which nozzles fire two rows, with 15 nozzles four rows apart and with three nozzles two rows apart.
pub fn two_rows_are_fired()
    ensures fifteen { passes 15 4 2 ≡ fires_row 0 14 0 ∷ fires_row 3 3 1 ∷ [] }
    ensures fifteen_count { pass_count 15 4 2 ≡ 4 }
    ensures three { passes 3 2 2 ≡ fires_row 0 2 0 ∷ fires_row 1 1 1 ∷ [] }
    ensures three_count { pass_count 3 2 2 ≡ 2 }
{}

/// The amounts of each ink for a grey of 128.
pub fn grey_128_has_its_amounts()
    ensures black { amounts_of_128 (with_inks K) ≡ 127 ∷ [] }
    // black alone; without black, the three colours equally
    ensures four_inks { amounts_of_128 (with_inks Cmyk) ≡ 127 ∷ 0 ∷ 0 ∷ 0 ∷ [] }
    ensures three_inks { amounts_of_128 (with_inks Cmy) ≡ 127 ∷ 127 ∷ 127 ∷ [] }
    // 12,700 / 255, rounded down
    ensures limited { amounts_of_128 (with_limits 100) ≡ 49 ∷ [] }
{}

/// The amounts of each ink for colours.
pub fn colours_have_their_amounts()
    // the shared darkness of 155 goes to black whole, or in part if black starts at 128
    ensures whole { amounts_of (with_black_start 0) 100 100 100 ≡ 155 ∷ 0 ∷ 0 ∷ 0 ∷ [] }
    ensures part { amounts_of (with_black_start 128) 100 100 100 ≡ 54 ∷ 101 ∷ 101 ∷ 101 ∷ [] }
    // a darkness above 0 but below 128 stays in the colours
    ensures light { amounts_of (with_black_start 128) 200 200 200 ≡ 0 ∷ 55 ∷ 55 ∷ 55 ∷ [] }
    ensures red { amounts_of (with_inks Cmy) 255 0 0 ≡ 0 ∷ 255 ∷ 255 ∷ [] }
    // red as a grey; then the weights of green and blue
    ensures grey_red { amounts_of tiny1 255 0 0 ≡ 179 ∷ [] }
    ensures grey_green { amounts_of tiny1 0 255 0 ≡ 106 ∷ [] }
    ensures grey_blue { amounts_of tiny1 0 0 255 ≡ 227 ∷ [] }
    // 101 * 224 / 255, rounded down
    ensures limited { amounts_of (record (with_inks Cmy) { limits = 224 ∷ 224 ∷ 224 ∷ 224 ∷ [] }) 154 154 154
        ≡ 88 ∷ 88 ∷ 88 ∷ [] }
{}

/// The window inside four different margins.
pub fn window_inside_margins()
    ensures { window_of (grey 10 20) (record tiny1 { left = 1; right = 2; top = 3; bottom = 4 })
        ≡ record { left = 1; top = 3; width = 7; height = 13 } }
{}

/// The pages that a printer accepts: at most 22 inches long.
pub fn pages_that_are_taken()
    ensures tiny1 { wanted_by tiny1 ≡ record {
      hdpi = 360;
      vdpi = 360;
      least_width = 1;
      most_width = most_columns;
      least_height = 1;
      most_height = 7920;
    } }
    ensures at_720 { (wanted_by (record tiny1 { vdpi = 720 })).most_height ≡ most_rows }
{}
