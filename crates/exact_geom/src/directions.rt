//! The order of directions, counterclockwise from (1,0).

ghost use Rattle.std.specs.Prelude.{ℤ, pos, ◌≡◌, ◌↔◌, ◌≢◌, ◌<ℤ◌};
ghost use Rattle.std.specs.Ordering.{ordering_reverse};
ghost use Rattle.std.specs.declared.cmp.Ordering.TheVariants.{Less, Equal};
ghost use Rattle.exact_geom.specs.Directions.{PointAlike, turned_order};
ghost use Rattle.plane_spec.specs.Vectors.{IsDirected, IsDirection, cross_of, dot_of, is_upper, point, turn_order_of};

use crate::products::cross;
use plane_spec::Point;
use std::cmp::Ordering;

/// Whether `d` leads up, or straight to the right.
fn upper(d: Point) -> bool
    ensures { result ≡ is_upper d }
{
    0 < d.y || (d.y == 0 && 0 < d.x)
}

/// The order within a half turn: `Less` where `e` is left of `d`, and `Greater` where it is right of it.
fn order_by_turn(d: Point, e: Point) -> Ordering
    requires d_in { IsDirection d }
    requires e_in { IsDirection e }
    ensures { result ≡ turned_order d e }
{
    let turn = cross(d, e);
    if 0 < turn {
        Ordering::Less
    } else if turn < 0 {
        Ordering::Greater
    } else {
        Ordering::Equal
    }
}

/// The order of two directions counterclockwise from (1,0), equal where they point the same way. It is an order of the
/// directions that aren't (0,0), as [`turn_order_laws`] says.
///
/// Cost: one cross product where both are in one half turn, and none otherwise.
pub fn turn_order(d: Point, e: Point) -> Ordering
    requires d_in { IsDirection d }
    requires e_in { IsDirection e }
    ensures { result ≡ turn_order_of d e }
{
    match (upper(d), upper(e)) {
        (true, false) => Ordering::Less,
        (false, true) => Ordering::Greater,
        (true, true) => order_by_turn(d, e),
        (false, false) => order_by_turn(d, e),
    }
}

/// The order of directions, of any size, that aren't (0,0): none comes before (1,0), it is a strict weak order, and
/// equal are exactly those of which a positive multiple of one is a positive multiple of the other.
///
/// Proofs cite these laws from `proofs/TurnLaws.antt`.
pub fn turn_order_laws()
    ensures first { (d : Point) → turn_order_of d (point (pos 1) (pos 0)) ≢ Less }
    ensures reversed { (d e : Point) → turn_order_of e d ≡ ordering_reverse (turn_order_of d e) }
    ensures transitive { (a b c : Point) → IsDirected a → IsDirected b → IsDirected c → turn_order_of a b ≡ Less → turn_order_of b c ≡ Less → turn_order_of a c ≡ Less }
    ensures equal_compare_alike { (a b c : Point) → IsDirected a → IsDirected b → IsDirected c → turn_order_of a b ≡ Equal → turn_order_of a c ≡ turn_order_of b c }
    ensures equal_point_alike { (d e : Point) → IsDirected d → IsDirected e → (turn_order_of d e ≡ Equal) ↔ PointAlike d e }
    ensures equal_in_line { (d e : Point) → IsDirected d → IsDirected e → (turn_order_of d e ≡ Equal) ↔ ((cross_of d e ≡ pos 0) × (pos 0 <ℤ dot_of d e)) }
{}
