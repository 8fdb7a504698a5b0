//! The atomic steps of a pass.
ghost use Rattle.std.specs.Prelude.{◌≡◌, ◌<◌, ◌≤◌, None, [], ℕ, ◌+◌};
ghost use Rattle.board_steps.specs.Rule.{setting_of};
ghost use Rattle.board_steps.specs.Steps.{IsReadyFor, Looked, MayPost, MaySend, Posted, SentTo, Took, bit_of, index_of};
ghost use Rattle.board_steps.specs.Steps.{joined_view, kept_view, new_view};

use crate::rule::{Counts, Cuts, Joins, Looks, Posts, Seated, Sends, Takes, Words};
use tile_shape::Dir;

// The bit of a word that says that the tile is taken.
const TAKEN: u64 = 8;

// The bit that says that it is posted.
const POSTED: u64 = 16;

// The bit that says that the edge of a direction has arrived.
fn arrival_bit(dir: Dir) -> u64
    ensures { result ≡ bit_of (index_of dir) }
{
    match dir {
        Dir::Right => 1,
        Dir::Bottom => 2,
        Dir::Corner => 4,
    }
}

/// Reads the word of tile `at`: bits 1, 2 and 4 say that its edges have arrived from the left, from above and at the
/// corner, 8 that it is taken, and 16 that it is posted.
pub fn look(words: &Words, seat: &mut Seated, at: usize) -> u64
    requires table { (seat.old.table_id ≡ words.now.table_id) × (at < words.now.table_id.words) }
    requires inside { at < (setting_of words.now.key).graph.tiles }
    requires part { 1 ≤ seat.old.me.0.parts }
    ensures seat { (seat.new.table_id ≡ seat.old.table_id) × (seat.new.id ≡ seat.old.id) }
    ensures looked { Looked seat.old.me.0.board at seat.old.me result seat.new.me }
{
    words.load::<Looks>(seat, at)
}

/// Takes tile `at` if no pass has taken it, and returns the word that it found. If bit 8 of that word is clear, the
/// pass holds the tile: it has the tile's own four slots, and those of the edges that come to it.
pub fn take(words: &Words, seat: &mut Seated, at: usize) -> u64
    requires table { (seat.old.table_id ≡ words.now.table_id) × (at < words.now.table_id.words) }
    requires inside { at < (setting_of words.now.key).graph.tiles }
    requires part { 1 ≤ seat.old.me.0.parts }
    requires idle { (seat.old.me.0.held ≡ None) × (seat.old.me.1 ≡ []) }
    requires ready { IsReadyFor (setting_of words.now.key).graph at seat.old.me.0 }
    ensures seat { (seat.new.table_id ≡ seat.old.table_id) × (seat.new.id ≡ seat.old.id) }
    ensures took { Took seat.old.me.0.board at seat.old.me result seat.new.me }
{
    words.fetch_or::<Takes>(seat, at, TAKEN)
}

/// Sends an edge of the tile that the pass holds to tile `to`. The edge's slot, the first that the pass has, goes back
/// to the table. The pass that takes `to` gets it there.
pub fn send(words: &Words, seat: &mut Seated, dir: Dir, to: usize)
    requires table { (seat.old.table_id ≡ words.now.table_id) × (to < words.now.table_id.words) }
    requires part { 1 ≤ seat.old.me.0.parts }
    requires edge { MaySend (setting_of words.now.key) seat.old.me (index_of dir) to }
    ensures seat { (seat.new.table_id ≡ seat.old.table_id) × (seat.new.id ≡ seat.old.id) }
    ensures sent { SentTo (index_of dir) seat.old.me seat.new.me }
{
    words.fetch_or::<Sends>(seat, to, arrival_bit(dir));
}

/// Posts tile `at`, which the pass holds. All slots that the pass has go back to the table. No pass has posted the tile
/// before, so the pass's list has it once, also if the pass has joined another since it took the tile.
pub fn post(words: &Words, seat: &mut Seated, at: usize)
    requires table { (seat.old.table_id ≡ words.now.table_id) × (at < words.now.table_id.words) }
    requires part { 1 ≤ seat.old.me.0.parts }
    requires done { MayPost (setting_of words.now.key) seat.old.me at }
    ensures seat { (seat.new.table_id ≡ seat.old.table_id) × (seat.new.id ≡ seat.old.id) }
    ensures posted { Posted at seat.old.me seat.new.me }
{
    words.fetch_or::<Posts>(seat, at, POSTED);
}

/// Cuts a pass of one part off the first pass. The new pass holds nothing.
pub fn cut(words: &Words, seat: &mut Seated) -> Seated
    requires table { (seat.old.table_id ≡ words.now.table_id) × (0 < words.now.table_id.words) }
    requires parts { 2 ≤ seat.old.me.0.parts }
    requires first { seat.old.me.0.number ≡ 0 }
    ensures seat { (seat.new.table_id ≡ seat.old.table_id) × (seat.new.id ≡ seat.old.id) }
    ensures old { seat.new.me ≡ (kept_view seat.old.me.0, seat.old.me.1) }
    ensures new { (result.table_id ≡ seat.old.table_id) × (result.me ≡ (new_view seat.old.me.0, [])) }
{
    words.split_seat::<Cuts>(seat)
}

/// Joins `other`, which holds nothing, to a pass. The pass then also has the parts of `other` and the tiles that
/// `other` posted. Together they have at most the board's 256 parts.
pub fn unite(words: &Words, seat: &mut Seated, other: Seated)
    requires table { (seat.old.table_id ≡ words.now.table_id) × (other.table_id ≡ words.now.table_id)
        × (0 < words.now.table_id.words) }
    requires parts { (1 ≤ seat.old.me.0.parts) × (1 ≤ other.me.0.parts) }
    requires idle { (other.me.0.held ≡ None) × (other.me.1 ≡ []) }
    ensures seat { (seat.new.table_id ≡ seat.old.table_id) × (seat.new.id ≡ seat.old.id) }
    ensures joined { seat.new.me ≡ (joined_view seat.old.me.0 other.me.0, seat.old.me.1) }
    ensures parts { seat.old.me.0.parts + other.me.0.parts ≤ 256 }
{
    words.join_seat::<Joins>(seat, other);
    words.load::<Counts>(seat, 0);
}
