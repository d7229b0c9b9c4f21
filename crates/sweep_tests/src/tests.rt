//! Small plans: worked answers, and scenes in which the plain calls answer the same from stations anywhere.

ghost use Rattle.std.specs.Prelude.{◌≡◌};
ghost use Rattle.plane_spec.specs.Vectors.{InRange, IsDirected, IsDirection};
ghost use Rattle.sight_sweep.specs.Answers.{MayBeAsked};

use exact_geom::{Frac, in_range, same_point};
use plan_check::{Item, Items, Name, Plan, PlanData, Points, check};
use plane_spec::Point;
use sight_core::{Scene, free, near_wall, scene_of, stop};
use sight_sweep::{Answer, Steps, Target, sweep};
use std::alloc::Global;
use std::process::Abort;

fn at(x: i64, y: i64) -> Point
    ensures { result ≡ record { x = x; y = y } }
{
    Point { x, y }
}

/// The point, which the test knows to be in range.
fn known(rt: &impl Abort, p: Point) -> Point
    ensures { InRange result }
{
    assert!(rt; in_range(p));
    p
}

/// The direction, which the test knows to lead somewhere.
fn heading(rt: &impl Abort, d: Point) -> Point
    ensures direction { IsDirection result }
    ensures directed { IsDirected result }
{
    assert!(rt; in_range(d));
    assert!(rt; !same_point(d, at(0, 0)));
    d
}

fn push(rt: &impl Abort, items: &mut Items, item: Item) {
    assert!(rt; items.push(item).is_ok());
}

fn name(rt: &impl Abort, letter: u8) -> Name {
    match Name::of(&[letter]) {
        Some(name) => name,
        None => panic!(rt; "a letter is a name"),
    }
}

fn points_of(rt: &impl Abort, alloc: Global, corners: &[Point]) -> Points {
    let mut points = Points::new(alloc);
    for p in corners {
        assert!(rt; points.push(*p).is_ok());
    }
    points
}

/// The scene of accepted items.
fn scene_of_items(rt: &impl Abort, alloc: Global, items: Items) -> Scene {
    let plan = match check(alloc, &PlanData { items }) {
        Ok(plan) => plan,
        Err(_) => panic!(rt; "the plan is accepted"),
    };
    match scene_of(alloc, &plan) {
        Ok(scene) => scene,
        Err(_) => panic!(rt; "there is memory"),
    }
}

/// The corners of the box.
fn box_points(rt: &impl Abort, alloc: Global, low: Point, high: Point) -> Points {
    points_of(
        rt,
        alloc,
        &[low, at(high.x, low.y), high, at(low.x, high.y)],
    )
}

/// The scene of a box of side 10 with boxes and screens in it.
fn scene(
    rt: &impl Abort,
    alloc: Global,
    boxes: &[(Point, Point)],
    screens: &[(Point, Point)],
) -> Scene {
    let mut items = Items::new(alloc);
    let outer = box_points(rt, alloc, at(0, 0), at(10, 10));
    push(rt, &mut items, Item::Outer(outer));
    let mut letter = b'A';
    for (low, high) in boxes {
        let points = box_points(rt, alloc, *low, *high);
        push(rt, &mut items, Item::Obstacle(name(rt, letter), points));
        letter = letter.wrapping_add(1);
    }
    for (from, to) in screens {
        push(rt, &mut items, Item::Screen(name(rt, letter), *from, *to));
        letter = letter.wrapping_add(1);
    }
    scene_of_items(rt, alloc, items)
}

/// The answer to one target.
fn asked(rt: &impl Abort, alloc: Global, scene: &Scene, p: Point, target: Target) -> Answer
    requires p_in { InRange p }
    requires askable { MayBeAsked p target }
{
    let mut steps = Steps::new();
    let Ok(answers) = sweep(alloc, scene, p, &[target], &mut steps) else {
        panic!(rt; "there is memory");
    };
    assert!(rt; answers.len() == 1 && steps.sweeps() == 1);
    answers[0]
}

/// Whether the other point is seen.
fn sees(rt: &impl Abort, alloc: Global, scene: &Scene, p: Point, q: Point) -> bool {
    let (p, q) = (known(rt, p), known(rt, q));
    assert!(rt; !same_point(p, q));
    match asked(rt, alloc, scene, p, Target::Point(q)) {
        Answer::Seen(seen) => seen,
        Answer::Reach { stop: _, wall: _ } => panic!(rt; "a point is seen or not"),
    }
}

/// Whether it is the number `num / den`.
fn is(t: Option<Frac>, parts: Option<(i128, i128)>) -> bool {
    match (t, parts) {
        (None, None) => true,
        (Some(t), Some(parts)) => t.num() == parts.0 && t.den() == parts.1,
        _ => false,
    }
}

/// A ray is stopped here, and meets this wall or screen first.
fn reaches(
    rt: &impl Abort,
    alloc: Global,
    scene: &Scene,
    p: Point,
    d: Point,
    parts: Option<(i128, i128)>,
    number: Option<u32>,
)
    requires p_in { InRange p }
    requires direction { IsDirection d }
    requires directed { IsDirected d }
{
    match asked(rt, alloc, scene, p, Target::Ray(d)) {
        Answer::Reach { stop, wall } => {
            assert!(rt;
                is(stop, parts) && wall == number,
                "({}, {}) to ({}, {})",
                p.x,
                p.y,
                d.x,
                d.y
            );
        }
        Answer::Seen(_) => panic!(rt; "a ray has a reach"),
    }
}

/// Rays that are stopped, and by which wall or screen.
fn all_reach(
    rt: &impl Abort,
    alloc: Global,
    scene: &Scene,
    rays: &[(Point, Point, (i128, i128), u32)],
) {
    for (p, d, parts, number) in rays {
        let (p, d) = (known(rt, *p), heading(rt, *d));
        reaches(rt, alloc, scene, p, d, Some(*parts), Some(*number));
    }
}

/// Each point of the box, from each of the stations, is seen where the plain call says so.
fn sees_as_plain(rt: &impl Abort, alloc: Global, scene: &Scene, stations: &[Point]) {
    for p in stations {
        let p = known(rt, *p);
        for x in -1..12 {
            for y in -1..12 {
                let q = known(rt, at(x, y));
                if !same_point(p, q) {
                    assert!(rt;
                        sees(rt, alloc, scene, p, q) == free(scene, p, q),
                        "({}, {}) ({x}, {y})",
                        p.x,
                        p.y
                    );
                }
            }
        }
    }
}

/// How far the plain call says that the ray reaches.
fn plain_stop(scene: &Scene, p: Point, d: Point) -> Option<(i128, i128)>
    requires p_in { InRange p }
    requires direction { IsDirection d }
    requires directed { IsDirected d }
{
    match stop(scene, p, d) {
        None => None,
        Some(t) => Some((t.num(), t.den())),
    }
}

/// Rays all round, from each of the stations, reach as far as the plain calls say.
fn reaches_as_plain(rt: &impl Abort, alloc: Global, scene: &Scene, stations: &[Point]) {
    for p in stations {
        let p = known(rt, *p);
        for x in -3..4 {
            for y in -3..4 {
                if x != 0 || y != 0 {
                    let d = heading(rt, at(x, y));
                    let number = near_wall(scene, p, d);
                    reaches(rt, alloc, scene, p, d, plain_stop(scene, p, d), number);
                }
            }
        }
    }
}

/// Between two boxes that pinch a sight line, and beside one of two boxes and without it.
#[test]
fn rays_reach_where_worked_rows_say(rt: HostRuntime) {
    let alloc = rt.alloc();
    let pinched = scene(
        &rt,
        alloc,
        &[(at(2, 2), at(4, 4)), (at(6, 4), at(8, 6))],
        &[],
    );
    let rays = [
        (at(0, 4), at(1, 0), (10, 1), 1),
        (at(0, 4), at(8, 1), (3, 4), 11),
    ];
    all_reach(&rt, alloc, &pinched, &rays);
    assert!(rt; sees(&rt, alloc, &pinched, at(0, 4), at(10, 4)));
    let both = scene(
        &rt,
        alloc,
        &[(at(2, 2), at(4, 4)), (at(5, 2), at(7, 4))],
        &[],
    );
    all_reach(&rt, alloc, &both, &[(at(0, 3), at(1, 0), (2, 1), 7)]);
    let one = scene(&rt, alloc, &[(at(5, 2), at(7, 4))], &[]);
    all_reach(&rt, alloc, &one, &[(at(0, 3), at(1, 0), (5, 1), 7)]);
    let screened = scene(&rt, alloc, &[], &[(at(3, 4), at(7, 4))]);
    let rays = [
        (at(5, 0), at(0, 1), (4, 1), 4),
        (at(3, 0), at(0, 1), (10, 1), 2),
        (at(0, 4), at(1, 0), (10, 1), 1),
        (at(0, 0), at(1, 1), (4, 1), 4),
    ];
    all_reach(&rt, alloc, &screened, &rays);
}

/// Stations on walls, at corners, on screens and at their ends, in boxes and outside.
#[test]
fn answers_are_those_of_the_plain_calls(rt: HostRuntime) {
    let alloc = rt.alloc();
    let boxes = [
        (at(2, 2), at(4, 4)),
        (at(6, 4), at(8, 6)),
        (at(1, 6), at(3, 9)),
    ];
    let screens = [(at(5, 1), at(9, 3)), (at(4, 6), at(4, 9))];
    let mixed = scene(&rt, alloc, &boxes, &screens);
    let stations = [
        at(0, 4),
        at(2, 2),
        at(3, 4),
        at(3, 3),
        at(7, 2),
        at(5, 1),
        at(4, 7),
        at(5, 5),
        at(0, 0),
        at(10, 10),
        at(-1, 4),
        at(7, 5),
    ];
    sees_as_plain(&rt, alloc, &mixed, &stations);
    reaches_as_plain(&rt, alloc, &mixed, &stations);
}

/// Boxes and a screen that a long box hides, whole or in part, from stations near it and round it.
#[test]
fn what_a_box_hides_changes_no_answer(rt: HostRuntime) {
    let alloc = rt.alloc();
    let boxes = [
        (at(1, 3), at(9, 4)),
        (at(4, 6), at(6, 8)),
        (at(2, 5), at(3, 9)),
    ];
    let behind = scene(&rt, alloc, &boxes, &[(at(7, 6), at(8, 8))]);
    let stations = [
        at(5, 2),
        at(5, 1),
        at(1, 3),
        at(0, 2),
        at(9, 9),
        at(5, 4),
        at(5, 7),
    ];
    sees_as_plain(&rt, alloc, &behind, &stations);
    reaches_as_plain(&rt, alloc, &behind, &stations);
}

/// The corners of a comb of 254 teeth, 1020 in all: at every second number two of them, one above the other.
fn comb_points(rt: &impl Abort, alloc: Global) -> Points {
    let mut points = Points::new(alloc);
    for k in 0..510i64 {
        let low = if k == 0 || k == 509 { 0 } else { 2 };
        let (first, second) = if k % 2 == 0 { (low, 6) } else { (6, low) };
        let x = k.wrapping_mul(2);
        assert!(rt; points.push(at(x, first)).is_ok());
        assert!(rt; points.push(at(x, second)).is_ok());
    }
    points
}

/// The ray reaches as far as the plain call says, and its first point is seen where the other plain call says so.
fn answers_as_plain(rt: &impl Abort, alloc: Global, scene: &Scene, p: Point, d: Point) {
    let (p, d) = (known(rt, p), heading(rt, d));
    let number = near_wall(scene, p, d);
    reaches(rt, alloc, scene, p, d, plain_stop(scene, p, d), number);
    let q = known(rt, at(p.x.wrapping_add(d.x), p.y.wrapping_add(d.y)));
    assert!(rt;
        sees(rt, alloc, scene, p, q) == free(scene, p, q),
        "({}, {}) ({}, {})",
        p.x,
        p.y,
        d.x,
        d.y
    );
}

/// The most corners that a plan may have, in one comb, from the top of a tooth and from between two, in 512 directions.
#[test]
fn a_comb_of_all_corners_answers_as_the_plain_calls(rt: HostRuntime) {
    let alloc = rt.alloc();
    let mut items = Items::new(alloc);
    push(
        &rt,
        &mut items,
        Item::Outer(box_points(&rt, alloc, at(-10, -10), at(1030, 10))),
    );
    push(
        &rt,
        &mut items,
        Item::Obstacle(name(&rt, b'A'), comb_points(&rt, alloc)),
    );
    let comb = scene_of_items(&rt, alloc, items);
    assert!(&rt; comb.corners().len() == 1024);
    for p in [at(509, 6), at(510, 4)] {
        for k in -64..64i64 {
            for d in [at(64, k), at(-64, k), at(k, 64), at(k, -64)] {
                answers_as_plain(&rt, alloc, &comb, p, d);
            }
        }
    }
}

/// A name for each number below 256.
fn numbered(rt: &impl Abort, k: u8) -> Name {
    let first = b'a'.wrapping_add(k / 16);
    let second = b'a'.wrapping_add(k % 16);
    match Name::of(&[first, second]) {
        Some(name) => name,
        None => panic!(rt; "two letters are a name"),
    }
}

/// The scene of 255 boxes of many sizes in a box.
fn scene_of_boxes(rt: &impl Abort, alloc: Global) -> Scene {
    let mut items = Items::new(alloc);
    push(
        rt,
        &mut items,
        Item::Outer(box_points(rt, alloc, at(0, 0), at(160, 160))),
    );
    for number in 0..255u8 {
        let k = i64::from(number);
        let (x, y) = (10 * (k % 16), 10 * (k / 16));
        let high = at(x + 4 + k % 5, y + 5 + k % 4);
        let points = box_points(rt, alloc, at(x + 1 + k % 3, y + 2), high);
        push(rt, &mut items, Item::Obstacle(numbered(rt, number), points));
    }
    scene_of_items(rt, alloc, items)
}

/// A plan of 1024 corners, from each tenth of them.
#[test]
fn each_tenth_corner_of_the_largest_plan_answers_as_the_plain_calls(rt: HostRuntime) {
    let alloc = rt.alloc();
    let boxes = scene_of_boxes(&rt, alloc);
    let corners = boxes.corners();
    assert!(&rt; corners.len() == 1024);
    for k in 0..103usize {
        if 10 * k < corners.len() {
            let p = corners[10 * k].here;
            for d in [
                at(1, 0),
                at(0, 1),
                at(-1, 0),
                at(0, -1),
                at(7, 4),
                at(-9, 5),
                at(-3, -8),
                at(6, -6),
            ] {
                answers_as_plain(&rt, alloc, &boxes, p, d);
            }
        }
    }
}
