//! The words and slots of a board: how they are made, and what is left of them.
ghost use Rattle.std.specs.Prelude.{[], IfOk, None, ℕ, replicate, ◌*◌, ◌+◌, ◌<◌, ◌≡◌, ◌≤◌};
ghost use Rattle.std.specs.Slots.{slots_filled, slots_items, slots_len};
ghost use Rattle.std.specs.Slots.Ownership.{Filled};
ghost use lib.ListN.{get_elem?};
ghost use mathlib.Core.Option.{some};
ghost use Rattle.board_steps.specs.Rule.{first_view, setting_of, times};
ghost use Rattle.board_steps.specs.Steps.{fresh_slots};

use crate::rule::{Cell, Seated, Slab, Tiles, View};
use atomic_table::{Closed, Refused, Table};
use base_definitions::Memory;
use std::alloc::Global;

/// The words and slots of a board, with their memory.
pub type BoardTable = Table<Cell, View, Slab, Tiles, Global>;

/// Makes the words and slots of a board whose tiles all wait: words of 0, and the slots of `fresh_slots`. The seat is
/// that of the first pass, which has all 256 parts. Fails with `Memory` if there is no room for the table; the slots
/// are then dropped.
pub fn open(
    alloc: Global,
    words: &[u64],
    slots: Vec<Cell>,
    slab: &Slab,
) -> Result<(BoardTable, Seated), Memory>
    requires words { words.now ≡ replicate (setting_of slab.now).graph.tiles 0 }
    requires slots { slots.items ≡ fresh_slots (setting_of slab.now).fresh (setting_of slab.now).graph.tiles }
    ensures slab { IfOk result (λ b. b.0.shared.key ≡ slab.now) }
    ensures words { IfOk result (λ b. b.0.shared.table_id.words ≡ (setting_of slab.now).graph.tiles) }
    ensures slots { IfOk result (λ b. b.0.shared.table_id.slots ≡ 4 * (setting_of slab.now).graph.tiles) }
    ensures seat { IfOk result (λ b. b.1.table_id ≡ b.0.shared.table_id) }
    ensures view { IfOk result (λ b. b.1.me ≡ (first_view slab.now, [])) }
{
    match Table::new(alloc, words, slots, slab) {
        Ok(board) => Ok(board),
        Err(Refused { slots: _ }) => Err(Memory),
    }
}

/// The slots of a board, by a pass that has posted every tile. The slots that no tile receives have what their tiles
/// give. Every slot has a value.
pub fn close(table: BoardTable, seat: Seated) -> Closed<Cell, Global>
    requires table { seat.table_id ≡ table.shared.table_id }
    requires posted { (t : ℕ) → t < (setting_of table.shared.key).graph.tiles → 1 ≤ times t seat.me.0.mine }
    ensures once { (t : ℕ) → t < (setting_of table.shared.key).graph.tiles → times t seat.me.0.mine ≡ 1 }
    ensures slots { slots_len result.slots ≡ 4 * (setting_of table.shared.key).graph.tiles }
    ensures filled { Filled (slots_filled result.slots) 0 (slots_len result.slots) }
    ensures gives { (t d : ℕ) → t < (setting_of table.shared.key).graph.tiles → d < 4
        → (setting_of table.shared.key).graph.next t d ≡ None
        → get_elem? (slots_items result.slots) (4 * t + d) ≡ some ((setting_of table.shared.key).content t d) }
{
    table.close_with(seat)
}
