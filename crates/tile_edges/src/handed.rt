//! What a tile is handed by the tiles before it.
ghost use Rattle.std.specs.Prelude.{List, ℤ};
ghost use Rattle.diffusion_definitions.specs.Diffusion.{Errors, Plane, Solves, Table};
ghost use Rattle.tile_edges.specs.Edges.{IsGiven, IsPlaneOf, IsTaken};
ghost use Rattle.tile_edges.specs.Handed.{IsHanded};
ghost use Rattle.tile_edges.specs.Tops.{IsBelow};
ghost use Rattle.tile_shape.specs.Geometry.{IsReceiver, IsTile};
ghost use Rattle.tile_shape.specs.declared.tiles.Dir.{Dir};
ghost use Rattle.tile_shape.specs.declared.tiles.Place.{Place};
ghost use Rattle.tile_shape.specs.declared.tiles.Shape.{Shape};

/// If the edges that the tiles before it gave are right, the edges that a tile is handed are right.
pub fn what_is_handed_is_right()
    ensures { (k : Table) (plane : Plane) (e : Errors) (s : Shape) (top : List (List ℤ)) (edges : Dir → Place → List ℤ)
        (d : Dir) (to : Place) (xs : List ℤ)
        → Solves k plane e → IsPlaneOf s plane → IsBelow top e → IsTile s to → IsHanded s top edges d to xs
        → ((from : Place) → IsTile s from → IsReceiver d from to → IsGiven e d from (edges d from))
        → IsTaken e d to xs }
{}
