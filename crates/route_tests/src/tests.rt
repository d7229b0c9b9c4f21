//! Worked turns, and worked nets of routes with the neighbours and the turn depths of their pieces.

ghost use Rattle.plane_spec.specs.Vectors.{IsWithin};
ghost use Rattle.plane_spec.specs.declared.TheConstants.{MAX_COMPONENT};

use exact_geom::Point;
use plan_check::{Item, Items, Name, Plan, PlanData, Points, check};
use segment_core::{neighbours, pieces, turn, turn_depths};
use std::alloc::Global;
use std::process::Abort;

fn at(x: i64, y: i64) -> Point {
    Point { x, y }
}

/// The turn from the first axis to a direction.
fn turn_to(x: i64, y: i64) -> u8
    requires x_in { IsWithin MAX_COMPONENT x }
    requires y_in { IsWithin MAX_COMPONENT y }
{
    turn(Point { x: 1, y: 0 }, Point { x, y })
}

/// Straight on, a sixteenth, a quarter, a half and three quarters of a half turn to either side, nearly all of it, and
/// straight back.
#[test]
fn worked_turns(rt: HostRuntime) {
    assert!(rt; turn_to(2, 0) == 0);
    assert!(rt; turn_to(5, 1) == 1);
    assert!(rt; turn_to(1, 1) == 4 && turn_to(1, -1) == 4);
    assert!(rt; turn_to(0, 1) == 8 && turn_to(0, -3) == 8);
    assert!(rt; turn_to(-1, 1) == 12 && turn_to(-1, -1) == 12);
    assert!(rt; turn_to(-1000, 1) == 15);
    assert!(rt; turn_to(-1, 0) == 16);
}

fn push(rt: &impl Abort, items: &mut Items, item: Item) {
    assert!(rt; items.push(item).is_ok());
}

/// The plan of routes, each given by its two points, in a box of side 40.
fn plan_of(rt: &impl Abort, alloc: Global, routes: &[(i64, i64, i64, i64)]) -> Plan {
    let mut outer = Points::new(alloc);
    for (x, y) in [(-20, -20), (20, -20), (20, 20), (-20, 20)] {
        assert!(rt; outer.push(at(x, y)).is_ok());
    }
    let mut items = Items::new(alloc);
    push(rt, &mut items, Item::Outer(outer));
    let mut letter = b'a';
    for (from_x, from_y, to_x, to_y) in routes {
        match Name::of(&[letter]) {
            Some(name) => push(
                rt,
                &mut items,
                Item::Route(name, at(*from_x, *from_y), at(*to_x, *to_y)),
            ),
            None => panic!(rt; "a letter is a name"),
        }
        letter = letter.wrapping_add(1);
    }
    match check(alloc, &PlanData { items }) {
        Ok(plan) => plan,
        Err(_) => panic!(rt; "the plan is accepted"),
    }
}

/// The routes' pieces have so many neighbours, and these turn depths from the first piece; `None` is where no walk
/// leads.
fn has_net(
    rt: &impl Abort,
    alloc: Global,
    routes: &[(i64, i64, i64, i64)],
    shared: &[u32],
    turns: &[Option<u32>],
) {
    let plan = plan_of(rt, alloc, routes);
    let pieces = match pieces(alloc, &plan) {
        Ok(pieces) => pieces,
        Err(_) => panic!(rt; "there is memory"),
    };
    assert!(rt; !pieces.is_empty());
    let counts = match neighbours(alloc, &pieces) {
        Ok(counts) => counts,
        Err(_) => panic!(rt; "there is memory"),
    };
    assert!(rt; counts.as_slice() == shared);
    let depths = match turn_depths(alloc, &pieces, 0) {
        Ok(depths) => depths,
        Err(_) => panic!(rt; "there is memory"),
    };
    assert!(rt; depths.as_slice() == turns);
}

/// A route alone, one cut by another, two that share an end, one that ends on another's middle, two that don't meet, a
/// star of three, and two upright ones that cross two level ones.
#[test]
fn worked_nets(rt: HostRuntime) {
    let alloc = rt.alloc();
    has_net(&rt, alloc, &[(0, 0, 10, 0)], &[0], &[Some(0)]);
    has_net(
        &rt,
        alloc,
        &[(0, 0, 10, 0), (5, -5, 5, 5)],
        &[3, 3, 3, 3],
        &[Some(0), Some(0), Some(8), Some(8)],
    );
    has_net(
        &rt,
        alloc,
        &[(0, 0, 10, 0), (10, 0, 10, 10)],
        &[1, 1],
        &[Some(0), Some(8)],
    );
    has_net(
        &rt,
        alloc,
        &[(0, 0, 10, 0), (5, 0, 5, 5)],
        &[2, 2, 2],
        &[Some(0), Some(0), Some(8)],
    );
    has_net(
        &rt,
        alloc,
        &[(0, 0, 10, 0), (0, 5, 10, 5)],
        &[0, 0],
        &[Some(0), None],
    );
    has_net(
        &rt,
        alloc,
        &[(-9, 0, 9, 0), (0, -9, 0, 9), (-9, -9, 9, 9)],
        &[5, 5, 5, 5, 5, 5],
        &[Some(0), Some(0), Some(8), Some(8), Some(12), Some(4)],
    );
    has_net(
        &rt,
        alloc,
        &[(0, 3, 9, 3), (0, 6, 9, 6), (3, 0, 3, 9), (6, 0, 6, 9)],
        &[3, 6, 3, 3, 6, 3, 3, 6, 3, 3, 6, 3],
        &[
            Some(0),
            Some(0),
            Some(0),
            Some(16),
            Some(16),
            Some(16),
            Some(8),
            Some(8),
            Some(8),
            Some(8),
            Some(8),
            Some(8),
        ],
    );
}

/// The pieces of the routes end at these points, each coordinate with its denominator.
fn has_ends(
    rt: &impl Abort,
    alloc: Global,
    routes: &[(i64, i64, i64, i64)],
    ends: &[(i128, i128, i128, i128)],
) {
    let plan = plan_of(rt, alloc, routes);
    let pieces = match pieces(alloc, &plan) {
        Ok(pieces) => pieces,
        Err(_) => panic!(rt; "there is memory"),
    };
    assert!(rt; pieces.len() == ends.len());
    for (piece, (x, x_den, y, y_den)) in pieces.iter().zip(ends.iter()) {
        assert!(rt; piece.to.x.num() == *x && piece.to.x.den() == *x_den);
        assert!(rt; piece.to.y.num() == *y && piece.to.y.den() == *y_den);
    }
}

/// Two routes that cross at a point with fractions; one that two others cut, the later cut first in the plan; and one
/// that two others cut at one point.
#[test]
fn worked_ends(rt: HostRuntime) {
    let alloc = rt.alloc();
    has_ends(
        &rt,
        alloc,
        &[(0, 0, 3, 1), (0, 1, 2, 0)],
        &[(6, 5, 2, 5), (3, 1, 1, 1), (6, 5, 2, 5), (2, 1, 0, 1)],
    );
    has_ends(
        &rt,
        alloc,
        &[(0, 0, 9, 0), (6, 0, 6, 1), (3, 0, 3, 1)],
        &[
            (3, 1, 0, 1),
            (6, 1, 0, 1),
            (9, 1, 0, 1),
            (6, 1, 1, 1),
            (3, 1, 1, 1),
        ],
    );
    has_ends(
        &rt,
        alloc,
        &[(0, 0, 8, 0), (4, 0, 8, 9), (4, 0, 0, 9)],
        &[(4, 1, 0, 1), (8, 1, 0, 1), (8, 1, 9, 1), (0, 1, 9, 1)],
    );
}
