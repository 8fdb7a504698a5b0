//! The meaning of the rule. Each law is the contract of a function with an empty body.
ghost use Rattle.std.specs.Prelude.{[], ◌+◌, ◌≡◌, ◌<◌, ◌≤◌, ◌∷◌, ◌↔◌, None, Some, false, ℕ};
ghost use Rattle.atomic_table.specs.Table.{State};
ghost use Rattle.board_core.specs.Legal.{Legal};
ghost use Rattle.board_core.specs.Steps.{Gives};
ghost use Rattle.board_core.specs.declared.events.Event.TheVariants.{Post, Send, Take};
ghost use Rattle.tile_lanes.specs.Done.{window_of};
ghost use Rattle.tile_shape.specs.Geometry.{IsTile};
ghost use Rattle.tile_shape.specs.declared.tiles.Dir.{Dir};
ghost use Rattle.tile_shape.specs.declared.tiles.Place.{Place};
ghost use Rattle.tile_shape.specs.declared.tiles.Shape.{Shape};
ghost use Rattle.board_steps.specs.Clauses.{Clauses};
ghost use Rattle.board_steps.specs.Examples.{holder, poster};
ghost use Rattle.board_steps.specs.Graph.{IsGraph, graph_of};
ghost use Rattle.board_core.specs.Numbers.{number_of, place_of};
ghost use Rattle.board_steps.specs.Rule.{Ruled, has, setting_of, spent};
ghost use Rattle.board_steps.specs.Shown.{IsEvent, Joins, Moves, Splits, shown};
ghost use Rattle.board_steps.specs.Steps.{AllSent, index_of, joined_view, kept_view, looked, new_view, posted_view};
ghost use Rattle.board_steps.specs.Steps.{HasPostedOnce, posts_of, sent_view, taken};
ghost use Rattle.board_steps.specs.declared.rule.Cell.{Cell};
ghost use Rattle.board_steps.specs.declared.rule.Slab.{Slab};
ghost use Rattle.board_steps.specs.declared.rule.View.{View};

/// The tiles of a window are a graph by their numbers. Each number below the graph's count is that of a tile, and the
/// graph's edges are those that one tile gives to another.
pub fn the_tiles_of_a_window_are_a_graph()
    ensures graph { (s : Shape) → IsGraph (graph_of s) }
    ensures number { (s : Shape) (p : Place) → IsTile s p → number_of s p < (graph_of s).tiles }
    ensures place { (s : Shape) (t : ℕ) → t < (graph_of s).tiles
        → IsTile s (place_of s t) × (number_of s (place_of s t) ≡ t) }
    ensures gives { (s : Shape) (p q : Place) (d : Dir) → IsTile s p → IsTile s q
        → (Gives s p d q ↔ ((graph_of s).next (number_of s p) (index_of d) ≡ Some (number_of s q))) }
{}

/// The rule implies the clauses of `specs/Clauses.antt`, which say in plain words what its counts mean.
pub fn the_rule_in_plain_words()
    ensures { (b : Slab) (s : State Cell View) → Ruled (setting_of b) s → Clauses (setting_of b) s }
{}

/// A state that meets the rule shows a legal state of `board_core`.
pub fn what_is_shown_is_legal()
    ensures { (b : Slab) (s : State Cell View) → Ruled (setting_of b) s → Legal (shown b s) }
{}

/// When a pass takes a tile, sends an edge or posts a tile, the shown state changes as by that event of `board_core`,
/// which the core accepts.
pub fn steps_are_events()
    ensures take { (b : Slab) (s : State Cell View) (s' : State Cell View) (id : ℕ) (v : View) (p : Place)
        → IsTile (window_of b.rows.value) p → v.held ≡ None
        → Moves b s s' id v (taken v (number_of (window_of b.rows.value) p)) → IsEvent b s s' (Take p v.number) }
    ensures send { (b : Slab) (s : State Cell View) (s' : State Cell View) (id : ℕ) (v : View) (p : Place) (q : Place)
        (d : Dir) → Gives (window_of b.rows.value) p d q → v.held ≡ Some (number_of (window_of b.rows.value) p)
        → has (index_of d) v.sent ≡ false
        → Moves b s s' id v (sent_view v (index_of d)) → IsEvent b s s' (Send p d v.number) }
    ensures post { (b : Slab) (s : State Cell View) (s' : State Cell View) (id : ℕ) (v : View) (p : Place)
        → IsTile (window_of b.rows.value) p → v.held ≡ Some (number_of (window_of b.rows.value) p)
        → AllSent (setting_of b).graph (number_of (window_of b.rows.value) p) v
        → Moves b s s' id v (posted_view v (number_of (window_of b.rows.value) p)) → IsEvent b s s' (Post p v.number) }
{}

/// A join adds the parts of the two passes: together they have no more than the board's 256.
pub fn a_join_adds_the_parts()
    ensures { (b : Slab) (s : State Cell View) (s' : State Cell View) (id : ℕ) (other : ℕ) (v : View) (u : View)
        → Joins b s s' id other v u (joined_view v u) spent
        → ((joined_view v u).parts ≡ v.parts + u.parts) × (v.parts + u.parts ≤ 256) }
{}

/// A pass's list has each tile that the pass posts once, also if the pass joins another while it holds a tile. Here
/// pass 0, which has posted tiles 0 and 1, holds tile 4, joins pass 2, which has posted 2 and 3, and posts tile 4.
pub fn a_post_after_a_join()
    ensures joined { (b : Slab) → (joined_view (holder b) (poster b)).mine
        ≡ (1, 0) ∷ (0, 0) ∷ (3, 2) ∷ (2, 2) ∷ [] }
    ensures posted { (b : Slab) → HasPostedOnce 4 (posted_view (joined_view (holder b) (poster b)) 4) }
    ensures others { (b : Slab) → posts_of 2 (posted_view (joined_view (holder b) (poster b)) 4) ≡ (2, 2) ∷ [] }
    ensures twice { (b : Slab) → HasPostedOnce 1 (posted_view (holder b) 1) → ⊥ }
{}

/// A look, a split and a join leave the shown state unchanged.
pub fn other_steps_show_nothing()
    ensures look { (b : Slab) (s : State Cell View) (s' : State Cell View) (id : ℕ) (v : View) (t : ℕ) (word : ℕ)
        → Moves b s s' id v (looked v t word) → shown b s' ≡ shown b s }
    ensures split { (b : Slab) (s : State Cell View) (s' : State Cell View) (id : ℕ) (v : View)
        → Splits b s s' id v (kept_view v) (new_view v) → shown b s' ≡ shown b s }
    ensures join { (b : Slab) (s : State Cell View) (s' : State Cell View) (id : ℕ) (other : ℕ) (v : View) (u : View)
        → u.held ≡ None → Joins b s s' id other v u (joined_view v u) spent → shown b s' ≡ shown b s }
{}
