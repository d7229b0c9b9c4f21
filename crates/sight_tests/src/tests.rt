//! Small plans, with what plane geometry says is seen in them.

ghost use Rattle.std.specs.Prelude.{◌≡◌};
ghost use Rattle.plane_spec.specs.Vectors.{InRange, IsDirected, IsDirection};

use exact_geom::{in_range, same_point};
use plan_check::{Item, Items, Name, Plan, PlanData, Points, check};
use plane_spec::Point;
use sight_core::{Corner, Scene, free, in_cone, is_open, scene_of, stop};
use std::alloc::Global;
use std::process::Abort;

fn at(x: i64, y: i64) -> Point
    ensures { result ≡ record { x = x; y = y } }
{
    Point { x, y }
}

/// The point, which the test knows to be in range.
fn known(rt: &impl Abort, p: Point) -> Point
    ensures { InRange result }
{
    assert!(rt; in_range(p));
    p
}

/// The direction, which the test knows to lead somewhere.
fn heading(rt: &impl Abort, d: Point) -> Point
    ensures direction { IsDirection result }
    ensures directed { IsDirected result }
{
    assert!(rt; in_range(d));
    assert!(rt; !same_point(d, at(0, 0)));
    d
}

/// The corners of a box, counterclockwise or clockwise.
fn box_points(rt: &impl Abort, alloc: Global, low: Point, high: Point, clockwise: bool) -> Points {
    let (right, left) = (at(high.x, low.y), at(low.x, high.y));
    let points = if clockwise {
        [low, left, high, right]
    } else {
        [low, right, high, left]
    };
    let mut list = Points::new(alloc);
    for p in points {
        assert!(rt; list.push(p).is_ok());
    }
    list
}

fn push(rt: &impl Abort, items: &mut Items, item: Item) {
    assert!(rt; items.push(item).is_ok());
}

fn name(rt: &impl Abort, letter: u8) -> Name {
    match Name::of(&[letter]) {
        Some(name) => name,
        None => panic!(rt; "a letter is a name"),
    }
}

/// The plan of a box of side 10 with boxes and screens in it.
fn plan_of(
    rt: &impl Abort,
    alloc: Global,
    clockwise: bool,
    boxes: &[(Point, Point)],
    screens: &[(Point, Point)],
) -> Plan {
    let mut items = Items::new(alloc);
    let outer = box_points(rt, alloc, at(0, 0), at(10, 10), clockwise);
    push(rt, &mut items, Item::Outer(outer));
    let mut letter = b'A';
    for (low, high) in boxes {
        let points = box_points(rt, alloc, *low, *high, clockwise);
        push(rt, &mut items, Item::Obstacle(name(rt, letter), points));
        letter = letter.wrapping_add(1);
    }
    for (from, to) in screens {
        push(rt, &mut items, Item::Screen(name(rt, letter), *from, *to));
        letter = letter.wrapping_add(1);
    }
    match check(alloc, &PlanData { items }) {
        Ok(plan) => plan,
        Err(_) => panic!(rt; "the plan is accepted"),
    }
}

fn scene(rt: &impl Abort, alloc: Global, plan: &Plan) -> Scene {
    match scene_of(alloc, plan) {
        Ok(scene) => scene,
        Err(_) => panic!(rt; "there is memory"),
    }
}

/// Each pair of points, and whether they see each other, from either end.
fn sees(rt: &impl Abort, scene: &Scene, pairs: &[(Point, Point, bool)]) {
    for (p, q, expected) in pairs {
        let (p, q) = (known(rt, *p), known(rt, *q));
        assert!(rt; free(scene, p, q) == *expected, "from ({}, {})", p.x, p.y);
        assert!(rt; free(scene, q, p) == *expected, "to ({}, {})", p.x, p.y);
    }
}

/// Each ray, and where it is stopped.
fn stops(rt: &impl Abort, scene: &Scene, rays: &[(Point, Point, Option<(i128, i128)>)]) {
    for (p, d, expected) in rays {
        let found = stop(scene, known(rt, *p), heading(rt, *d));
        let parts = match found {
            Some(t) => Some((t.num(), t.den())),
            None => None,
        };
        assert!(rt; parts == *expected, "from ({}, {})", p.x, p.y);
    }
}

/// Each point, and whether it is open.
fn opens(rt: &impl Abort, plan: &Plan, points: &[(Point, bool)]) {
    for (x, expected) in points {
        let x = known(rt, *x);
        assert!(rt; is_open(plan, x) == *expected, "at ({}, {})", x.x, x.y);
    }
}

fn is_seen_beside_a_box(rt: &impl Abort, scene: &Scene) {
    let pairs = [
        (at(8, 0), at(0, 8), true),
        (at(0, 0), at(8, 8), false),
        (at(0, 0), at(8, 0), true),
        (at(5, 0), at(5, 10), false),
        (at(4, 0), at(4, 10), true),
        (at(4, 5), at(6, 5), false),
        (at(4, 5), at(0, 5), true),
        (at(4, 4), at(6, 4), true),
        (at(4, 4), at(6, 6), false),
        (at(3, 3), at(3, 3), false),
        (at(0, 5), at(-5, 5), false),
        (at(-5, 0), at(-5, 10), true),
    ];
    sees(rt, scene, &pairs);
}

fn is_stopped_beside_a_box(rt: &impl Abort, scene: &Scene) {
    let rays = [
        (at(4, 4), at(4, 4), Some((0, 1))),
        (at(6, 4), at(6, 4), Some((2, 3))),
        (at(4, 4), at(-2, 0), Some((2, 1))),
        (at(6, 4), at(2, 0), Some((2, 1))),
        (at(0, 0), at(4, 4), Some((1, 1))),
        (at(4, 5), at(1, 0), Some((0, 1))),
        (at(4, 5), at(-1, 0), Some((4, 1))),
        (at(0, 0), at(3, 6), Some((5, 3))),
        (at(-5, 5), at(-1, 0), None),
    ];
    stops(rt, scene, &rays);
}

fn is_open_beside_a_box(rt: &impl Abort, plan: &Plan) {
    let points = [
        (at(5, 5), false),
        (at(4, 5), true),
        (at(4, 4), true),
        (at(0, 5), true),
        (at(10, 10), true),
        (at(1, 1), true),
        (at(11, 5), false),
    ];
    opens(rt, plan, &points);
}

fn beside_a_box(rt: &impl Abort, alloc: Global, clockwise: bool) {
    let plan = plan_of(rt, alloc, clockwise, &[(at(4, 4), at(6, 6))], &[]);
    let scene = scene(rt, alloc, &plan);
    assert!(rt; scene.walls().len() == 8 && scene.corners().len() == 8);
    is_seen_beside_a_box(rt, &scene);
    is_stopped_beside_a_box(rt, &scene);
    is_open_beside_a_box(rt, &plan);
}

fn between_boxes(rt: &impl Abort, alloc: Global, clockwise: bool) {
    let pinched = [(at(2, 2), at(4, 4)), (at(6, 4), at(8, 6))];
    let plan = plan_of(rt, alloc, clockwise, &pinched, &[]);
    sees(rt, &scene(rt, alloc, &plan), &[(at(0, 4), at(10, 4), true)]);
    let diagonal = [
        (at(1, 2), at(2, 3)),
        (at(3, 2), at(4, 3)),
        (at(4, 5), at(5, 6)),
        (at(6, 6), at(7, 7)),
    ];
    let plan = plan_of(rt, alloc, clockwise, &diagonal[..3], &[]);
    sees(
        rt,
        &scene(rt, alloc, &plan),
        &[(at(0, 0), at(10, 10), true), (at(10, 0), at(0, 10), false)],
    );
    let plan = plan_of(rt, alloc, clockwise, &diagonal, &[]);
    sees(
        rt,
        &scene(rt, alloc, &plan),
        &[
            (at(0, 0), at(10, 10), false),
            (at(10, 0), at(0, 10), false),
            (at(0, 0), at(10, 0), true),
            (at(10, 0), at(10, 10), true),
        ],
    );
}

fn beside_a_screen(rt: &impl Abort, alloc: Global, clockwise: bool) {
    let plan = plan_of(rt, alloc, clockwise, &[], &[(at(5, 2), at(5, 8))]);
    let scene = scene(rt, alloc, &plan);
    assert!(rt; scene.screens().len() == 1 && scene.corners().len() == 6);
    sees(
        rt,
        &scene,
        &[
            (at(0, 0), at(10, 5), false),
            (at(0, 0), at(10, 10), false),
            (at(0, 0), at(10, 4), true),
            (at(5, 0), at(5, 10), true),
            (at(0, 5), at(5, 5), true),
            (at(5, 5), at(10, 5), true),
            (at(0, 5), at(10, 5), false),
            (at(0, 0), at(5, 10), true),
        ],
    );
    stops(
        rt,
        &scene,
        &[
            (at(0, 5), at(5, 0), Some((1, 1))),
            (at(5, 5), at(1, 0), Some((5, 1))),
            (at(5, 0), at(0, 1), Some((10, 1))),
            (at(0, 2), at(1, 0), Some((10, 1))),
        ],
    );
}

fn cones(rt: &impl Abort) {
    // the points of a corner, a direction, and whether it leads into what is blocked
    let corners = [
        (at(0, 0), at(1, 0), at(1, 1), at(-1, 1), true),
        (at(0, 0), at(1, 0), at(1, 1), at(1, 1), false),
        (at(0, 0), at(1, 0), at(1, 1), at(-1, 0), false),
        (at(0, 0), at(1, 0), at(1, -1), at(0, 1), true),
        (at(0, 0), at(1, 0), at(1, -1), at(0, -1), false),
        (at(0, 0), at(1, 0), at(2, 0), at(5, 1), true),
        (at(0, 0), at(1, 0), at(2, 0), at(1, 0), false),
        (at(1, 0), at(1, 0), at(1, 0), at(0, 1), false),
    ];
    for (prev, here, next, d, expected) in corners {
        let corner = Corner {
            prev: known(rt, prev),
            here: known(rt, here),
            next: known(rt, next),
        };
        assert!(rt; in_cone(corner, heading(rt, d)) == expected);
    }
}

#[test]
fn small_plans_have_the_answers_of_plane_geometry(rt: HostRuntime) {
    for clockwise in [false, true] {
        beside_a_box(&rt, rt.alloc(), clockwise);
        between_boxes(&rt, rt.alloc(), clockwise);
        beside_a_screen(&rt, rt.alloc(), clockwise);
    }
    cones(&rt);
}
