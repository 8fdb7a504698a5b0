//! Examples of streams, headers and groups, and how each is read.
#![tactic(auto, unfolding(pwg_definitions::specs::Groups::line_at, pwg_definitions::specs::Header::header_bytes, pwg_definitions::specs::Stream::lines_at, pwg_definitions::specs::Stream::pages_from, pwg_definitions::specs::Stream::stream))]

ghost use Rattle.std.specs.Prelude.{Err, Ok, [], drop, false, length, replicate, take, ◌++◌, ◌∷◌, ◌≡◌};
ghost use Rattle.pwg_definitions.specs.Groups.GroupRead.{Group, Part, Wrong};
ghost use Rattle.pwg_definitions.specs.Header.{header_of};
ghost use Rattle.pwg_definitions.specs.Stream.StreamEnd.{Done, Fault};
ghost use Rattle.pwg_definitions.specs.Stream.{pages_from, stream};
ghost use Rattle.pwg_definitions.specs.declared.faults.HeaderFault.TheVariants as fault;
ghost use Rattle.pwg_definitions.specs.declared.faults.InputCause.TheVariants as cause;
ghost use Rattle.pwg_definitions.specs.declared.faults.LineFault.TheVariants.{GroupPastPage, RunPastLine};
ghost use Rattle.pwg_definitions.specs.declared.pages.Kind.TheVariants.{Black1, Black8, Cmyk8, Rgb8};
ghost use Rattle.pwg_laws.specs.Examples.{checked, form_sized, good, grey_group, group_of, header_sized, of_kind};
ghost use Rattle.pwg_laws.specs.Examples.{bits_bytes, bits_page, inks_bytes, inks_header, inks_page, wants};
ghost use Rattle.pwg_laws.specs.Examples.{pages_then, read, small_bytes, small_form, small_prefix, small_header};
ghost use Rattle.pwg_laws.specs.Examples.{small_page};

/// The bytes of a written header, by offset.
pub fn header_layout()
    ensures len { length small_header ≡ 1796 }
    ensures text { take 10 small_header
        ≡ 0x50 ∷ 0x77 ∷ 0x67 ∷ 0x52 ∷ 0x61 ∷ 0x73 ∷ 0x74 ∷ 0x65 ∷ 0x72 ∷ 0x00 ∷ [] }
    ensures resolution { take 8 (drop 276 small_header) ≡ 0 ∷ 0 ∷ 0x01 ∷ 0x68 ∷ 0 ∷ 0 ∷ 0x01 ∷ 0x68 ∷ [] }
    ensures copies { take 4 (drop 340 small_header) ≡ 0 ∷ 0 ∷ 0 ∷ 1 ∷ [] }
    ensures size { take 8 (drop 372 small_header) ≡ 0 ∷ 0 ∷ 0 ∷ 4 ∷ 0 ∷ 0 ∷ 0 ∷ 2 ∷ [] }
    ensures bits { take 8 (drop 384 small_header) ≡ 0 ∷ 0 ∷ 0 ∷ 8 ∷ 0 ∷ 0 ∷ 0 ∷ 8 ∷ [] }
    ensures line { take 4 (drop 392 small_header) ≡ 0 ∷ 0 ∷ 0 ∷ 4 ∷ [] }
    ensures colour { take 8 (drop 396 small_header) ≡ 0 ∷ 0 ∷ 0 ∷ 0 ∷ 0 ∷ 0 ∷ 0 ∷ 18 ∷ [] }
    ensures colours { take 20 (drop 404 small_header) ≡ replicate 16 0 ++ (0 ∷ 0 ∷ 0 ∷ 1 ∷ []) }
    ensures transforms { drop 456 small_header ≡ 0 ∷ 0 ∷ 0 ∷ 1 ∷ 0 ∷ 0 ∷ 0 ∷ 1 ∷ replicate 1332 0 }
    ensures fields { header_of small_header ≡ good }
{}

/// Streams of a page of 4 by 2 pixels, and streams with a fault or without a page.
pub fn small_streams()
    ensures whole { read small_bytes ≡ pages_then (small_page ∷ []) Done }
    ensures twice { read (small_bytes ++ small_bytes) ≡ pages_then (small_page ∷ small_page ∷ []) Done }
    ensures no_page { read [] ≡ pages_then [] Done }
    ensures cut { read small_prefix ≡ pages_then [] (Fault 1 2 cause.Truncated) }
    ensures cut_header { read (take 1795 small_header) ≡ pages_then [] (Fault 1 0 cause.Truncated) }
    ensures cut_second { read (small_bytes ++ 0x50 ∷ []) ≡ pages_then (small_page ∷ []) (Fault 2 0 cause.Truncated) }
    ensures no_lines { read small_header ≡ pages_then [] (Fault 1 1 cause.Truncated) }
    ensures no_sync { stream wants (0x52 ∷ 0x61 ∷ 0x53 ∷ []) ≡ pages_then [] (Fault 0 0 cause.BadSync) }
    ensures other_sync { stream wants (0x52 ∷ 0x61 ∷ 0x53 ∷ 0x33 ∷ small_bytes)
        ≡ pages_then [] (Fault 0 0 cause.BadSync) }
    ensures nothing { stream wants [] ≡ pages_then [] (Fault 0 0 cause.BadSync) }
    ensures refused { read (replicate 1796 0) ≡ pages_then [] (Fault 1 0 (cause.Header fault.NotPwg)) }
    ensures long_group { read (small_header ++ 0x02 ∷ []) ≡ pages_then [] (Fault 1 1 (cause.Line GroupPastPage)) }
    ensures long_run { read (small_header ++ (0x00 ∷ 0x80 ∷ 0x00 ∷ 0x04 ∷ []))
        ≡ pages_then [] (Fault 1 2 (cause.Line RunPastLine)) }
{}

/// Streams of pixels of one bit, eight in a byte, and of pixels of four inks.
pub fn streams_of_bits_and_inks()
    ensures bits { read bits_bytes ≡ pages_then (bits_page ∷ []) Done }
    ensures inks { read inks_bytes ≡ pages_then (inks_page ∷ []) Done }
    ensures both { read (bits_bytes ++ inks_bytes) ≡ pages_then (bits_page ∷ inks_page ∷ []) Done }
    ensures cut { read (bits_bytes ++ inks_header ++ (0x00 ∷ 0x01 ∷ 0x01 ∷ 0x02 ∷ 0x03 ∷ []))
        ≡ pages_then (bits_page ∷ []) (Fault 2 1 cause.Truncated) }
    ensures long_run { read (inks_header ++ (0x00 ∷ 0x80 ∷ 0x00 ∷ 0x02 ∷ []))
        ≡ pages_then [] (Fault 1 2 (cause.Line RunPastLine)) }
    ensures ink_colours { take 4 (drop 420 inks_header) ≡ 0 ∷ 0 ∷ 0 ∷ 4 ∷ [] }
    ensures bit_colours { take 4 (drop 420 bits_bytes) ≡ 0 ∷ 0 ∷ 0 ∷ 1 ∷ [] }
{}

/// A page's number is at most 9,999.
pub fn last_page()
    ensures last { pages_from wants 1 9999 small_bytes ≡ pages_then (small_page ∷ []) Done }
    ensures more { pages_from wants 1 9999 (small_bytes ++ 0x00 ∷ [])
        ≡ pages_then (small_page ∷ []) (Fault 10000 0 cause.TooManyPages) }
{}

/// Sizes at the bounds, and the transforms.
pub fn header_bounds()
    ensures small { checked good ≡ Ok small_form }
    ensures narrow { checked (header_sized 1 2) ≡ Ok (form_sized 1 2) }
    ensures too_narrow { checked (header_sized 0 2) ≡ Err fault.Width }
    ensures wide { checked (header_sized 8191 2) ≡ Ok (form_sized 8191 2) }
    ensures too_wide { checked (header_sized 8192 2) ≡ Err fault.Width }
    ensures widest { checked (header_sized 4294967295 2) ≡ Err fault.Width }
    ensures low { checked (header_sized 4 1) ≡ Ok (form_sized 4 1) }
    ensures too_low { checked (header_sized 4 0) ≡ Err fault.Height }
    ensures tall { checked (header_sized 4 7920) ≡ Ok (form_sized 4 7920) }
    ensures too_tall { checked (header_sized 4 7921) ≡ Err fault.Height }
    ensures upright { checked (record good { cross_transform = 0; feed_transform = 0 }) ≡ Ok small_form }
    ensures cross { checked (record good { cross_transform = 2 }) ≡ Err fault.Transform }
    ensures feed { checked (record good { feed_transform = 2 }) ≡ Err fault.Transform }
{}

/// The kinds of pixel: the numbers of one kind are not those of another.
pub fn header_kinds()
    ensures black { checked (of_kind 3 8 8 4) ≡ Ok (record small_form { kind = Black8 }) }
    ensures colours { checked (of_kind 19 8 24 12) ≡ Ok (record small_form { kind = Rgb8; bytes_per_line = 12 }) }
    ensures bits { checked (of_kind 3 1 1 1) ≡ Ok (record small_form { kind = Black1; bytes_per_line = 1 }) }
    ensures inks { checked (of_kind 6 8 32 16) ≡ Ok (record small_form { kind = Cmyk8; bytes_per_line = 16 }) }
    ensures grey_bits { checked (of_kind 18 1 1 1) ≡ Err fault.Kind }
    ensures inks_of_three_bytes { checked (of_kind 6 8 24 12) ≡ Err fault.Kind }
    ensures long_bits { checked (of_kind 3 1 1 4) ≡ Err fault.BytesPerLine }
    ensures short_inks { checked (of_kind 6 8 32 15) ≡ Err fault.BytesPerLine }
    ensures colours_in_a_byte { checked (of_kind 19 8 8 4) ≡ Err fault.Kind }
    ensures deep_colours { checked (of_kind 19 16 48 24) ≡ Err fault.Kind }
    ensures deep_black { checked (of_kind 3 16 16 8) ≡ Err fault.Kind }
    ensures short_colours { checked (of_kind 19 8 24 4) ≡ Err fault.BytesPerLine }
    ensures grey_of_colours { checked (of_kind 18 8 24 12) ≡ Err fault.Kind }
    ensures no_space { checked (of_kind 0 8 8 4) ≡ Err fault.Kind }
{}

/// Each fault of a header alone.
pub fn header_faults()
    ensures text { checked (record good { is_pwg = false }) ≡ Err fault.NotPwg }
    ensures across { checked (record good { hres = 300 }) ≡ Err fault.Resolution }
    ensures down { checked (record good { vres = 300 }) ≡ Err fault.Resolution }
    ensures space { checked (record good { color_space = 19 }) ≡ Err fault.Kind }
    ensures depth { checked (record good { bits_per_color = 16 }) ≡ Err fault.Kind }
    ensures pixel { checked (record good { bits_per_pixel = 24 }) ≡ Err fault.Kind }
    ensures long_line { checked (record good { bytes_per_line = 5 }) ≡ Err fault.BytesPerLine }
    ensures short_line { checked (record good { bytes_per_line = 3 }) ≡ Err fault.BytesPerLine }
    ensures planes { checked (record good { color_order = 1 }) ≡ Err fault.Order }
{}

/// If a header has two faults, the result is the one that is checked first.
pub fn header_fault_order()
    ensures text { checked (record good { is_pwg = false; hres = 300 }) ≡ Err fault.NotPwg }
    ensures resolution { checked (record good { hres = 300; width = 0 }) ≡ Err fault.Resolution }
    ensures width { checked (record good { width = 0; height = 0 }) ≡ Err fault.Width }
    ensures height { checked (record good { height = 0; color_space = 19 }) ≡ Err fault.Height }
    ensures kind { checked (record good { color_space = 19; bytes_per_line = 5 }) ≡ Err fault.Kind }
    ensures line { checked (record good { bytes_per_line = 5; color_order = 1 }) ≡ Err fault.BytesPerLine }
    ensures order { checked (record good { color_order = 1; cross_transform = 2 }) ≡ Err fault.Order }
{}

/// Groups of a page in grey: the pixels of a line, the lines left, and the bytes.
pub fn groups()
    ensures white { grey_group 8 1 (0x00 ∷ 0x80 ∷ []) ≡ Group 1 (replicate 8 0xFF) [] }
    ensures run_then_white { grey_group 8 1 (0x00 ∷ 0x02 ∷ 0x05 ∷ 0x80 ∷ 0x01 ∷ [])
        ≡ Group 1 (0x05 ∷ 0x05 ∷ 0x05 ∷ replicate 5 0xFF) (0x01 ∷ []) }
    ensures longest_run { grey_group 128 1 (0x00 ∷ 0x7F ∷ 0x11 ∷ []) ≡ Group 1 (replicate 128 0x11) [] }
    ensures longest_literal { grey_group 128 1 (0x00 ∷ 0x81 ∷ replicate 128 0x11) ≡ Group 1 (replicate 128 0x11) [] }
    ensures literal { grey_group 4 2 (0x01 ∷ 0xFD ∷ 0x01 ∷ 0x02 ∷ 0x03 ∷ 0x04 ∷ [])
        ≡ Group 2 (0x01 ∷ 0x02 ∷ 0x03 ∷ 0x04 ∷ []) [] }
    ensures literal_past_line { grey_group 3 2 (0x01 ∷ 0xFD ∷ []) ≡ Wrong 1 RunPastLine }
    ensures most_repeats { grey_group 8 256 (0xFF ∷ 0x07 ∷ 0x00 ∷ []) ≡ Group 256 (replicate 8 0x00) [] }
    ensures past_page { grey_group 8 255 (0xFF ∷ 0x07 ∷ 0x00 ∷ []) ≡ Wrong 0 GroupPastPage }
    ensures past_line { grey_group 8 1 (0x00 ∷ 0x08 ∷ []) ≡ Wrong 1 RunPastLine }
    ensures past_line_later { grey_group 8 1 (0x00 ∷ 0x05 ∷ 0x05 ∷ 0x02 ∷ 0x05 ∷ []) ≡ Wrong 3 RunPastLine }
    ensures no_unit { grey_group 8 1 (0x00 ∷ 0x07 ∷ []) ≡ Part }
    ensures no_packet { grey_group 8 1 (0x00 ∷ []) ≡ Part }
    ensures nothing { grey_group 8 1 [] ≡ Part }
{}

/// Groups of pages of other kinds: pixels of three bytes and of four, and bytes of eight pixels.
pub fn groups_of_kinds()
    ensures black_white { group_of Black8 8 1 (0x00 ∷ 0x80 ∷ []) ≡ Group 1 (replicate 8 0x00) [] }
    ensures colour_white { group_of Rgb8 2 1 (0x00 ∷ 0x80 ∷ []) ≡ Group 1 (replicate 6 0xFF) [] }
    ensures bit_white { group_of Black1 2 1 (0x00 ∷ 0x80 ∷ []) ≡ Group 1 (0x00 ∷ 0x00 ∷ []) [] }
    ensures bit_run { group_of Black1 2 1 (0x00 ∷ 0x01 ∷ 0xA5 ∷ []) ≡ Group 1 (0xA5 ∷ 0xA5 ∷ []) [] }
    ensures ink_white { group_of Cmyk8 1 1 (0x00 ∷ 0x80 ∷ []) ≡ Group 1 (replicate 4 0x00) [] }
    ensures ink_run { group_of Cmyk8 2 1 (0x00 ∷ 0x01 ∷ 0x01 ∷ 0x02 ∷ 0x03 ∷ 0x04 ∷ [])
        ≡ Group 1 (0x01 ∷ 0x02 ∷ 0x03 ∷ 0x04 ∷ 0x01 ∷ 0x02 ∷ 0x03 ∷ 0x04 ∷ []) [] }
    ensures ink_past_line { group_of Cmyk8 1 1 (0x00 ∷ 0x01 ∷ []) ≡ Wrong 1 RunPastLine }
    ensures run { group_of Rgb8 2 1 (0x00 ∷ 0x01 ∷ 0x01 ∷ 0x02 ∷ 0x03 ∷ [])
        ≡ Group 1 (0x01 ∷ 0x02 ∷ 0x03 ∷ 0x01 ∷ 0x02 ∷ 0x03 ∷ []) [] }
    ensures literal { group_of Rgb8 2 1 (0x00 ∷ 0xFF ∷ 0x01 ∷ 0x02 ∷ 0x03 ∷ 0x04 ∷ 0x05 ∷ 0x06 ∷ 0x99 ∷ [])
        ≡ Group 1 (0x01 ∷ 0x02 ∷ 0x03 ∷ 0x04 ∷ 0x05 ∷ 0x06 ∷ []) (0x99 ∷ []) }
    ensures cut_unit { group_of Rgb8 2 1 (0x00 ∷ 0x01 ∷ 0x01 ∷ 0x02 ∷ []) ≡ Part }
    ensures past_line { group_of Rgb8 2 1 (0x00 ∷ 0x02 ∷ []) ≡ Wrong 1 RunPastLine }
    ensures past_page { group_of Rgb8 2 1 (0x01 ∷ []) ≡ Wrong 0 GroupPastPage }
{}
