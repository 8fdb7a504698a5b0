//! Places and amounts worked by hand: the function does nothing, and the checker computes its contract.
ghost use Rattle.printer_definitions.specs.declared.inks.Ink.TheVariants.{Black, Cyan, Yellow};
ghost use Rattle.separation_definitions.specs.Grain.{grain_place, grained};
ghost use Rattle.std.specs.Prelude.{◌≡◌};

/// The first places of a row and of a column, a place of another ink, and a place far to the right and down. Grain
/// moves an amount in the middle by up to the grain, and an amount near white or near the limit by less. White and the
/// limit do not move.
pub fn amounts_at_places()
    ensures first { grain_place Black 0 0 ≡ 0 }
    ensures right { grain_place Black 1 0 ≡ 49471 }
    ensures down { grain_place Black 0 1 ≡ 37344 }
    ensures ink { grain_place Cyan 0 0 ≡ 16384 }
    ensures round { grain_place Yellow 2 1 ≡ 54366 }
    ensures far { grain_place Black 8190 15839 ≡ 53154 }
    ensures least { grained 16 255 0 128 ≡ 112 }
    ensures more { grained 16 255 49471 128 ≡ 136 }
    ensures less { grained 16 255 16384 128 ≡ 120 }
    ensures most { grained 16 255 65535 128 ≡ 144 }
    ensures light { grained 16 255 49471 3 ≡ 5 }
    ensures dark { grained 16 224 0 220 ≡ 216 }
    ensures white { grained 16 224 49471 0 ≡ 0 }
    ensures full { grained 16 224 49471 224 ≡ 224 }
    ensures none { grained 0 255 49471 128 ≡ 128 }
{}
