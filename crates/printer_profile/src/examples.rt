//! Texts and checks of profiles worked by hand: each function does nothing, and the checker computes its contract.
#![tactic(auto, unfolding(crate::specs::Text::profile_text, crate::specs::Text::with_line, crate::specs::Text::with_lines, crate::specs::Validity::greatest_divisor, crate::specs::Values::curve_written, key_values::specs::Numbers::number_within))]

ghost use Rattle.printer_definitions.specs.Printer.{straight_curve};
ghost use Rattle.printer_profile.specs.Examples.{light_curve, light_line, tiny_lines, tiny_one, tiny_two};
ghost use Rattle.printer_profile.specs.Profiles.{tiny};
ghost use Rattle.printer_profile.specs.Text.{fault_at, profile_text};
ghost use Rattle.printer_profile.specs.Validity.{check};
ghost use Rattle.printer_profile.specs.declared.reading.TextCause.TheVariants.{BadHead, BadValue, Missing, NoEquals, RepeatedKey, UnknownKey};
ghost use Rattle.printer_profile.specs.declared.validity.ProfileFault.TheVariants as fault;
ghost use Rattle.std.specs.Prelude.{Err, Ok, [], codes, ◌++◌, ◌∷◌, ◌≡◌};

/// A text of each version. Version 1 has no curves.
pub fn both_versions()
    ensures one { profile_text tiny_one ≡ Ok tiny }
    ensures two { profile_text tiny_two ≡ Ok tiny }
    ensures curve { profile_text (tiny_two ++ light_line)
        ≡ Ok (record tiny { curves = light_curve ∷ straight_curve ∷ straight_curve ∷ straight_curve ∷ [] }) }
    ensures no_curve { profile_text (tiny_one ++ light_line) ≡ Err (fault_at 8 UnknownKey) }
    ensures no_version { profile_text (codes "escp2-profile 3\n" ++ tiny_lines) ≡ Err (fault_at 1 BadHead) }
{}

/// Refused texts: the first line that has a fault counts, and a missing key comes last.
pub fn refused_texts()
    ensures missing { profile_text (codes "escp2-profile 1\nhdpi=360\nnozzles=3\npitch=2\ninks=k\n")
        ≡ Err (fault_at 0 (Missing 2)) }
    ensures repeated { profile_text (tiny_one ++ codes "top=5\n") ≡ Err (fault_at 8 RepeatedKey) }
    ensures value { profile_text (codes "escp2-profile 2\n# a head\n\nnozzles=256\nx\n") ≡ Err (fault_at 4 BadValue) }
    ensures no_equals { profile_text (codes "escp2-profile 2\nx\nnozzles=256\n") ≡ Err (fault_at 2 NoEquals) }
{}

/// If a profile has two faults, the one that is checked first is returned.
pub fn fault_order()
    ensures none { check tiny ≡ Ok tt }
    ensures resolution { check (record tiny { hdpi = 300; nozzles = 0 }) ≡ Err fault.Resolution }
    ensures nozzles { check (record tiny { nozzles = 0; pitch = 0 }) ≡ Err fault.Nozzles }
    ensures pitch { check (record tiny { pitch = 0; top = 0 }) ≡ Err fault.Pitch }
    ensures coprime { check (record tiny { nozzles = 4; pitch = 30 }) ≡ Err (fault.NotCoprime 2) }
    ensures row_step { check (record tiny { pitch = 28; top = 0 }) ≡ Err fault.RowStep }
    ensures top { check (record tiny { top = 3; black_start = 255 }) ≡ Err (fault.TopMargin 4) }
    ensures black { check (record tiny { black_start = 255; curves = [] ∷ [] }) ≡ Err fault.BlackStart }
    ensures curve { check (record tiny { curves = straight_curve ∷ (1 ∷ []) ∷ (2 ∷ []) ∷ straight_curve ∷ [] })
        ≡ Err (fault.Curve 1) }
{}
