//! Laws of routes: how large the numbers are that their cuts, pieces and turns have in a sound plan.
//!
//! ```text
//!        ╲   ╱
//!   ──────●─●──────     256 routes cut each other at most 255 times each, so there are at most 256 pieces of each.
//!        ╱   ╲          A cut is a quotient of cross products of vectors between points in range.
//! ```
//!
//! Code that cuts routes and walks along their pieces counts in machine words; these laws say that it may. A law is a
//! function without parameters and with an empty body, whose contract states it.
//!
//! | law | what it says | breaks if .. changes |
//! |---|---|---|
//! | [`crossings_have_small_parts`] | where the lines of two routes cross, the parts are as small as those of a stop | `crossing_at` |
//! | [`cuts_lie_between_the_ends`] | a cut lies strictly between its route's ends, and its parts are as small as those of a stop | `cuts_of` |
//! | [`a_route_has_fewer_cuts_than_there_are_routes`] | no route cuts itself, and each other one cuts it once at most | `cuts_of` |
//! | [`pieces_are_in_range`] | the ends of pieces are in lowest terms and can be compared, and their directions lead somewhere | `pieces_of` |
//! | [`there_are_few_pieces`] | at most 65,536 | `pieces_of` |
//! | [`a_turn_is_at_most_sixteen`] | straight back | `turn_of` |
//! | [`a_turn_depth_is_bounded`] | at most 16 for each further piece of a walk that takes none twice in a heading | `turn_depths_of` |
//! | [`the_table_of_turns_stays_in_64_bits`] | what a direction is compared with the table by | `turn_table` |
//!
//! Definitions: `Bounds`. Proofs cite the laws by the lemmas in `proofs/`: `Lists`, `Cuts`, `Pieces` and `Turns`.
#![tactic(auto)]

ghost use Rattle.std.specs.Prelude.{List, None, Some, length, get_or, pos, true, ℕ, ◌*◌, ◌-◌, ◌<◌, ◌≡◌, ◌≤◌};
ghost use Rattle.std.specs.List.{All, Contains, enumerate_from};
ghost use Rattle.plane_spec.specs.declared.Point.{Point};
ghost use Rattle.plane_spec.specs.Vectors.{cross_of, IsDirection, IsWithin};
ghost use Rattle.plan_spec.specs.declared.item.Route.{Route};
ghost use Rattle.plan_spec.specs.Accepted.{is_sound};
ghost use Rattle.plan_spec.specs.Plan.{Plan};
ghost use Rattle.exact_geom.specs.Parts.{HasStopParts};
ghost use Rattle.exact_geom.specs.declared.limits.TheConstants.{MAX_CROSS};
ghost use Rattle.route_spec.specs.Routes.{
  crossing_at,
  cuts_of,
  IsTurnDepth,
  Piece,
  pieces_of,
  relative_direction,
  turn_depths_of,
  turn_of,
  turn_table,
};
ghost use Rattle.route_laws.specs.Bounds.{IsCut, IsPieceInRange};

/// The `t` at which the line of one route of a sound plan crosses that of another has a numerator and a denominator of
/// at most [`MAX_STOP_PART`](exact_geom::MAX_STOP_PART) in size, whether the routes meet there or not.
pub fn crossings_have_small_parts()
    ensures { (plan : Plan) → is_sound plan ≡ true → (r q : Route) → Contains plan.routes r → Contains plan.routes q
        → HasStopParts (crossing_at r q) }
{}

/// Each cut of a sound plan's routes lies strictly between the ends of its route, and its numerator and denominator
/// are at most [`MAX_STOP_PART`](exact_geom::MAX_STOP_PART) in size.
pub fn cuts_lie_between_the_ends()
    ensures { (plan : Plan) → is_sound plan ≡ true → All (λ r. All IsCut (cuts_of plan.routes r)) plan.routes }
{}

/// A route is cut fewer times than there are routes.
pub fn a_route_has_fewer_cuts_than_there_are_routes()
    ensures { (routes : List Route) (r : Route) → Contains routes r → length (cuts_of routes r) < length routes }
{}

/// The ends of a sound plan's pieces are in lowest terms, with parts of at most
/// [`MAX_COORDINATE_PART`](exact_geom::MAX_COORDINATE_PART) in size, and each has a direction that leads somewhere.
pub fn pieces_are_in_range()
    ensures { (plan : Plan) → is_sound plan ≡ true → All IsPieceInRange (pieces_of plan) }
{}

/// There are at most as many pieces as the square of the number of routes, and so at most 65,536 in a sound plan.
pub fn there_are_few_pieces()
    ensures by_routes { (plan : Plan) → length (pieces_of plan) ≤ length plan.routes * length plan.routes }
    ensures at_most { (plan : Plan) → is_sound plan ≡ true → length (pieces_of plan) ≤ 65536 }
{}

/// A turn is at most 16, whatever the directions.
pub fn a_turn_is_at_most_sixteen()
    ensures { (d e : Point) → turn_of d e ≤ 16 }
{}

/// A turn depth is at most 16 for each of the further pieces of a walk that takes no piece twice in one heading, and
/// there are fewer of these than twice the pieces. So in a sound plan it is less than 2,097,152.
pub fn a_turn_depth_is_bounded()
    ensures depth { (pieces : List Piece) (source : ℕ) (e : ℕ × Piece) (depth : ℕ)
        → IsTurnDepth pieces source e (Some depth) → depth ≤ 16 * (2 * length pieces - 1) }
    ensures listed { (pieces : List Piece) (source : ℕ) (e : ℕ × Piece) (depth : ℕ)
        → Contains (enumerate_from 0 pieces) e → get_or (turn_depths_of pieces source) e.0 None ≡ Some depth
        → depth ≤ 16 * (2 * length pieces - 1) }
{}

/// Between directions of routes, the direction that is compared with the table of turns has components of at most
/// [`MAX_CROSS`](exact_geom::MAX_CROSS) in size, and its cross products with those of the table are within 64 bits.
pub fn the_table_of_turns_stays_in_64_bits()
    ensures across { (d e : Point) → IsDirection d → IsDirection e → IsWithin MAX_CROSS (relative_direction d e).x }
    ensures up { (d e : Point) → IsDirection d → IsDirection e → IsWithin MAX_CROSS (relative_direction d e).y }
    ensures products { (d e : Point) → IsDirection d → IsDirection e
        → All (λ t. IsWithin (pos 640000000000000) (cross_of t (relative_direction d e))) turn_table }
{}
