//! An example from seed 0, which the check computes.
#![tactic(auto, unfolding(crate::specs::Made::draw, crate::specs::Made::drawn, crate::specs::Made::groups_of_pages, crate::specs::Made::line_repeats, crate::specs::Made::made_groups, crate::specs::Made::made_line, crate::specs::Made::made_pages, crate::specs::Made::made_stream, crate::specs::Made::next_state, crate::specs::Made::run_length, crate::specs::Made::state_after, pwg_lines::specs::Canonical::copies_at, pwg_lines::specs::Canonical::packets_from, pwg_lines::specs::Canonical::unequal_at))]

ghost use Rattle.page_maker.specs.Made.{drawn, made_form, made_pages, made_stream};
ghost use Rattle.pwg_definitions.specs.Stream.{sync_word};
ghost use Rattle.pwg_definitions.specs.declared.pages.Kind.TheVariants.{Gray8};
ghost use Rattle.pwg_laws.specs.Examples.{small_bytes, small_form, small_page};
ghost use Rattle.std.specs.Prelude.{[], ◌++◌, ◌∷◌, ◌≡◌};

/// The draws from seed 0, and a page of 4 by 2 pixels in grey with its stream.
pub fn seed_zero_is_worked()
    ensures draws { drawn 11 0
        ≡ 0x3C ∷ 0x47 ∷ 0xD1 ∷ 0xAA ∷ 0x62 ∷ 0x9F ∷ 0x57 ∷ 0xA3 ∷ 0x81 ∷ 0x94 ∷ 0xCB ∷ [] }
    ensures form { made_form 4 2 Gray8 ≡ small_form }
    ensures page { made_pages 0 1 small_form ≡ small_page ∷ [] }
    ensures stream { made_stream 0 1 small_form 360 360 ≡ sync_word ++ small_bytes }
{}
