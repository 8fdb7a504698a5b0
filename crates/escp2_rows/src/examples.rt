//! A worked row of ten bytes, `7 8 8 9 9 9 9 9 1 2`: each function does nothing, and its contract compares a definition
//! with results worked by hand. The least code of the row has 9 bytes: a literal of 3, a run of 5, and a literal of 2.
#![tactic(auto, unfolding(escp2_definitions::specs::Least::cost_from, escp2_definitions::specs::Least::costs, escp2_definitions::specs::Least::equal_at, escp2_definitions::specs::Least::least, escp2_definitions::specs::Least::least_packet, escp2_definitions::specs::Least::literals, escp2_definitions::specs::Least::packets_at, escp2_definitions::specs::Least::runs))]

ghost use Rattle.base_definitions.specs.Counting.{count_from};
ghost use Rattle.escp2_definitions.specs.Least.{costs, least_packet};
ghost use Rattle.escp2_definitions.specs.RowCode.RowPacket.{Bytes};
ghost use Rattle.escp2_rows.specs.Ends.{IsEnd};
ghost use Rattle.escp2_rows.specs.Examples.{ten};
ghost use Rattle.escp2_rows.specs.Literals.{IsLongest, WritesFirst};
ghost use Rattle.escp2_rows.specs.Passing.{EndsAt, GoesOn, IsLevel, are_three, first_of_sixteen, run_of, upto};
ghost use Rattle.std.specs.Prelude.{[], drop, false, map, true, ◌∷◌, ◌≡◌};

/// No bit of a mask, three equal bytes, and runs.
pub fn bytes_of_ten()
    ensures no_bit { first_of_sixteen 0 ≡ 16 }
    ensures three { are_three ten 3 ≡ true }
    ensures two { are_three ten 1 ≡ false }
    ensures alone { run_of ten ≡ 1 }
    ensures five { run_of (drop 3 ten) ≡ 5 }
{}

/// The cost of each place of the row, and where a literal from the front may end: the literal costs least up to the
/// pair at place 1, and up to the run at place 3.
pub fn costs_of_ten()
    ensures costs { costs ten ≡ 9 ∷ 7 ∷ 7 ∷ 5 ∷ 5 ∷ 5 ∷ 5 ∷ 4 ∷ 3 ∷ 2 ∷ 0 ∷ [] }
    ensures upto { map (upto ten) (count_from 0 11) ≡ 9 ∷ 8 ∷ 9 ∷ 8 ∷ 9 ∷ 10 ∷ 11 ∷ 11 ∷ 11 ∷ 11 ∷ 10 ∷ [] }
    ensures first { least_packet ten ≡ Bytes (7 ∷ 8 ∷ 8 ∷ []) }
{}

/// A literal that comes to the pair costs the same if it ends before the pair or behind it, so the literal goes on up
/// to the run, and must end there. The longest literal that costs least has three bytes, and is the first packet: a
/// control byte of 2, and the three bytes.
pub fn literal_of_ten()
    ensures level { IsLevel ten 1 3 }
    ensures goes_on { GoesOn ten 3 }
    ensures ends { EndsAt 1 ten 3 }
    ensures nearest { IsEnd 128 ten 0 1 }
    ensures longest { IsLongest ten 3 }
    ensures written { WritesFirst ten 3 4 (2 ∷ 7 ∷ 8 ∷ 8 ∷ []) }
{}
