//! Small plans, with the triangles that are seen in them.

ghost use Rattle.std.specs.Prelude.{◌≡◌};
ghost use Rattle.plane_spec.specs.Vectors.{InRange};
ghost use Rattle.sight_spec.specs.Scene as scenes;

use exact_geom::in_range;
use isovist_core::{IsovistFault, Triangle, isovist, isovist_totals};
use plan_check::{Item, Items, Name, Plan, PlanData, Points, check};
use plane_spec::Point;
use sight_core::{Scene, scene_of};
use std::alloc::Global;
use std::process::Abort;

fn at(x: i64, y: i64) -> Point
    ensures { result ≡ record { x = x; y = y } }
{
    Point { x, y }
}

/// The point, which the test knows to be in range.
fn known(rt: &impl Abort, p: Point) -> Point
    ensures { InRange result }
{
    assert!(rt; in_range(p));
    p
}

/// The corners of a box, counterclockwise.
fn box_points(rt: &impl Abort, alloc: Global, low: Point, high: Point) -> Points {
    let mut list = Points::new(alloc);
    for p in [low, at(high.x, low.y), high, at(low.x, high.y)] {
        assert!(rt; list.push(p).is_ok());
    }
    list
}

fn push(rt: &impl Abort, items: &mut Items, item: Item) {
    assert!(rt; items.push(item).is_ok());
}

fn name(rt: &impl Abort, letter: u8) -> Name {
    match Name::of(&[letter]) {
        Some(name) => name,
        None => panic!(rt; "a letter is a name"),
    }
}

/// The plan of a box, with boxes and screens in it.
fn plan_of(
    rt: &impl Abort,
    alloc: Global,
    room: (Point, Point),
    boxes: &[(Point, Point)],
    screens: &[(Point, Point)],
) -> Plan {
    let mut items = Items::new(alloc);
    let outer = box_points(rt, alloc, room.0, room.1);
    push(rt, &mut items, Item::Outer(outer));
    for (low, high) in boxes {
        let points = box_points(rt, alloc, *low, *high);
        push(rt, &mut items, Item::Obstacle(name(rt, b'A'), points));
    }
    for (from, to) in screens {
        push(rt, &mut items, Item::Screen(name(rt, b'B'), *from, *to));
    }
    match check(alloc, &PlanData { items }) {
        Ok(plan) => plan,
        Err(_) => panic!(rt; "the plan is accepted"),
    }
}

fn scene(rt: &impl Abort, alloc: Global, plan: &Plan) -> Scene
    ensures { result ≡ scenes.scene_of plan.now }
{
    match scene_of(alloc, plan) {
        Ok(scene) => scene,
        Err(_) => panic!(rt; "there is memory"),
    }
}

/// The numerators and denominators of both ends and of the doubled area.
fn parts(t: &Triangle) -> [i128; 10] {
    let (from, to) = (t.from, t.to);
    [
        from.x.num(),
        from.x.den(),
        from.y.num(),
        from.y.den(),
        to.x.num(),
        to.x.den(),
        to.y.num(),
        to.y.den(),
        t.doubled_area.num(),
        t.doubled_area.den(),
    ]
}

/// Whether these are the triangles and the sums of the isovist of `p`, and its totals.
fn sees(
    rt: &impl Abort,
    alloc: Global,
    plan: &Plan,
    p: Point,
    expected: &[([i128; 10], u32)],
    floor: i128,
    ceil: i128,
) {
    let (scene, p) = (scene(rt, alloc, plan), known(rt, p));
    let Ok(seen) = isovist(alloc, plan, &scene, p) else {
        panic!(rt; "the point is open")
    };
    assert!(rt;
        seen.triangles().len() == expected.len(),
        "from ({}, {})",
        p.x,
        p.y
    );
    for (triangle, (numbers, wall)) in seen.triangles().iter().zip(expected) {
        assert!(rt;
            parts(triangle) == *numbers && triangle.wall == *wall,
            "from ({}, {})",
            p.x,
            p.y
        );
    }
    assert!(rt; seen.floor() == floor && seen.ceil() == ceil);
    let Ok(totals) = isovist_totals(alloc, plan, &scene, p) else {
        panic!(rt; "the point is open")
    };
    assert!(rt; totals.triangles == expected.len() && totals.floor == floor && totals.ceil == ceil);
}

/// Whether the isovist of `p` is refused, and the totals too.
fn is_closed(rt: &impl Abort, alloc: Global, plan: &Plan, p: Point) {
    let (scene, p) = (scene(rt, alloc, plan), known(rt, p));
    match isovist(alloc, plan, &scene, p) {
        Err(IsovistFault::Closed) => {}
        _ => panic!(rt; "the point is closed"),
    }
    match isovist_totals(alloc, plan, &scene, p) {
        Err(IsovistFault::Closed) => {}
        _ => panic!(rt; "the point is closed"),
    }
}

#[test]
fn isovists_by_hand(rt: HostRuntime) {
    let alloc = rt.alloc();
    let room = (at(0, 0), at(10, 10));
    let empty = plan_of(&rt, alloc, room, &[], &[]);
    let four = [
        ([10, 1, 10, 1, 0, 1, 10, 1, 50, 1], 2),
        ([0, 1, 10, 1, 0, 1, 0, 1, 50, 1], 3),
        ([0, 1, 0, 1, 10, 1, 0, 1, 50, 1], 0),
        ([10, 1, 0, 1, 10, 1, 10, 1, 50, 1], 1),
    ];
    sees(&rt, alloc, &empty, at(5, 5), &four, 200, 200);
    let two = [
        ([10, 1, 0, 1, 10, 1, 10, 1, 100, 1], 1),
        ([10, 1, 10, 1, 0, 1, 10, 1, 100, 1], 2),
    ];
    sees(&rt, alloc, &empty, at(0, 0), &two, 200, 200);
    let pillar = plan_of(&rt, alloc, room, &[(at(4, 4), at(6, 6))], &[]);
    let below = [
        ([10, 1, 0, 1, 10, 1, 10, 1, 50, 1], 1),
        ([10, 1, 10, 1, 15, 2, 10, 1, 25, 1], 2),
        ([6, 1, 4, 1, 4, 1, 4, 1, 8, 1], 4),
        ([5, 2, 10, 1, 0, 1, 10, 1, 25, 1], 2),
        ([0, 1, 10, 1, 0, 1, 0, 1, 50, 1], 3),
    ];
    sees(&rt, alloc, &pillar, at(5, 0), &below, 158, 158);
    let aside = [
        ([10, 1, 0, 1, 10, 1, 28, 3, 196, 3], 1),
        ([6, 1, 4, 1, 4, 1, 4, 1, 8, 1], 4),
        ([4, 1, 4, 1, 4, 1, 6, 1, 2, 1], 7),
        ([14, 3, 10, 1, 0, 1, 10, 1, 140, 3], 2),
        ([0, 1, 10, 1, 0, 1, 0, 1, 30, 1], 3),
    ];
    sees(&rt, alloc, &pillar, at(3, 0), &aside, 151, 153);
    is_closed(&rt, alloc, &pillar, at(5, 5));
    is_closed(&rt, alloc, &pillar, at(11, 5));
    let screened = plan_of(&rt, alloc, room, &[], &[(at(2, 5), at(8, 5))]);
    let under = [
        ([8, 1, 5, 1, 2, 1, 5, 1, 18, 1], 4),
        ([0, 1, 7, 1, 0, 1, 0, 1, 35, 1], 3),
        ([0, 1, 0, 1, 10, 1, 0, 1, 20, 1], 0),
        ([10, 1, 0, 1, 10, 1, 7, 1, 35, 1], 1),
    ];
    sees(&rt, alloc, &screened, at(5, 2), &under, 108, 108);
}

#[test]
fn the_largest_numbers(rt: HostRuntime) {
    let alloc = rt.alloc();
    let room = (at(-100000, -100000), at(100000, 100000));
    let plan = plan_of(
        &rt,
        alloc,
        room,
        &[(at(-99999, 99998), at(-99998, 99999))],
        &[],
    );
    let expected = [
        (
            [100000, 1, -100000, 1, 100000, 1, 100000, 1, 40000000000, 1],
            1,
        ),
        (
            [
                100000,
                1,
                100000,
                1,
                -9999700000,
                99999,
                100000,
                1,
                3999920000000000,
                99999,
            ],
            2,
        ),
        ([-99998, 1, 99998, 1, -99999, 1, 99998, 1, 199998, 1], 4),
        ([-99999, 1, 99998, 1, -99999, 1, 99999, 1, 1, 1], 7),
        (
            [
                -19999700000,
                199999,
                100000,
                1,
                -100000,
                1,
                100000,
                1,
                40000000000,
                199999,
            ],
            2,
        ),
    ];
    sees(
        &rt,
        alloc,
        &plan,
        at(-100000, -100000),
        &expected,
        79999999995,
        79999999997,
    );
}
