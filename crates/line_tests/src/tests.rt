//! The axial lines of small plans, and those after edits of them.

ghost use Rattle.std.specs.Prelude.{◌≡◌};
ghost use Rattle.plan_spec.specs.Edits.{HasShift};
ghost use Rattle.sight_spec.specs.Axial.{axial_lines};
ghost use Rattle.sight_spec.specs.Scene as scenes;

use axial_lines::{AxialLine, Steps, all_lines, update_lines};
use exact_geom::RPoint;
use plan_check::{Edit, Item, Items, Name, Plan, PlanData, Points, check};
use plane_spec::Point;
use sight_core::{Scene, scene_of};
use std::alloc::Global;
use std::process::Abort;

fn at(x: i64, y: i64) -> Point {
    Point { x, y }
}

fn name(rt: &impl Abort, letter: u8) -> Name {
    match Name::of(&[letter]) {
        Some(name) => name,
        None => panic!(rt; "a letter is a name"),
    }
}

/// The corners of a box.
fn box_points(rt: &impl Abort, alloc: Global, low: Point, high: Point) -> Points {
    let mut list = Points::new(alloc);
    for p in [low, at(high.x, low.y), high, at(low.x, high.y)] {
        assert!(rt; list.push(p).is_ok());
    }
    list
}

/// The plan of a box of side 10 with boxes and screens in it, each named by a letter.
fn room(
    rt: &impl Abort,
    alloc: Global,
    boxes: &[(u8, Point, Point)],
    screens: &[(u8, Point, Point)],
) -> Plan {
    let outer = box_points(rt, alloc, at(0, 0), at(10, 10));
    let mut items = Items::new(alloc);
    assert!(rt; items.push(Item::Outer(outer)).is_ok());
    for (letter, low, high) in boxes {
        let points = box_points(rt, alloc, *low, *high);
        assert!(rt;
            items
                .push(Item::Obstacle(name(rt, *letter), points))
                .is_ok()
        );
    }
    for (letter, from, to) in screens {
        assert!(rt;
            items
                .push(Item::Screen(name(rt, *letter), *from, *to))
                .is_ok()
        );
    }
    match check(alloc, &PlanData { items }) {
        Ok(plan) => plan,
        Err(_) => panic!(rt; "the plan is accepted"),
    }
}

fn scene(rt: &impl Abort, alloc: Global, plan: &Plan) -> Scene
    ensures { result ≡ scenes.scene_of plan.now }
{
    match scene_of(alloc, plan) {
        Ok(scene) => scene,
        Err(_) => panic!(rt; "there is memory"),
    }
}

fn lines(rt: &impl Abort, alloc: Global, scene: &Scene, steps: &mut Steps) -> Vec<AxialLine>
    ensures { result.items ≡ axial_lines scene.now }
{
    match all_lines(alloc, scene, steps) {
        Ok(lines) => lines,
        Err(_) => panic!(rt; "there is memory, and there are few lines"),
    }
}

fn lines_of(rt: &impl Abort, alloc: Global, plan: &Plan) -> Vec<AxialLine> {
    lines(rt, alloc, &scene(rt, alloc, plan), &mut Steps::new())
}

/// The lines after an edit, from those before it. Only the sweeps of the former are counted.
#[tactic(auto, using(axial_lines::proofs::Edits::edited_plan))]
fn after_edit(
    rt: &impl Abort,
    alloc: Global,
    plan: &Plan,
    edit: &Edit,
    steps: &mut Steps,
) -> Vec<AxialLine>
    requires { HasShift edit.now }
{
    // a plan says that it is sound where its outer polygon is read
    let _outer = plan.outer();
    let Ok(edited) = plan.with(alloc, edit) else {
        panic!(rt; "the edit is accepted");
    };
    let (before, after) = (scene(rt, alloc, plan), scene(rt, alloc, &edited));
    let old = lines(rt, alloc, &before, &mut Steps::new());
    match update_lines(alloc, &old, &before, &after, plan.changed(edit), steps) {
        Ok(lines) => lines,
        Err(_) => panic!(rt; "there is memory, and there are few lines"),
    }
}

/// The numerators and denominators of x and y.
type Parts = (i128, i128, i128, i128);

fn parts(p: &RPoint) -> Parts {
    (p.x.num(), p.x.den(), p.y.num(), p.y.den())
}

/// The line of a number has these corners and ends.
fn has_line(
    rt: &impl Abort,
    found: &[AxialLine],
    k: usize,
    corners: (u32, u32),
    from: Parts,
    to: Parts,
) {
    match found.get(k) {
        None => panic!(rt; "there are as many lines"),
        Some(line) => {
            assert!(rt; (line.first, line.second) == corners, "line {k}");
            assert!(rt;
                parts(&line.from) == from && parts(&line.to) == to,
                "line {k}"
            );
        }
    }
}

/// The lines are those of the empty room.
fn is_empty_room(rt: &impl Abort, found: &[AxialLine]) {
    assert!(rt; found.len() == 6);
    has_line(rt, found, 0, (0, 1), (0, 1, 0, 1), (10, 1, 0, 1));
    has_line(rt, found, 1, (0, 2), (0, 1, 0, 1), (10, 1, 10, 1));
    has_line(rt, found, 2, (0, 3), (0, 1, 0, 1), (0, 1, 10, 1));
    has_line(rt, found, 3, (1, 2), (10, 1, 0, 1), (10, 1, 10, 1));
    has_line(rt, found, 4, (1, 3), (10, 1, 0, 1), (0, 1, 10, 1));
    has_line(rt, found, 5, (2, 3), (10, 1, 10, 1), (0, 1, 10, 1));
}

/// The lines are those of the room with a box in its middle.
fn is_room_with_box(rt: &impl Abort, found: &[AxialLine]) {
    assert!(rt; found.len() == 20);
    has_line(rt, found, 2, (0, 4), (0, 1, 0, 1), (4, 1, 4, 1));
    has_line(rt, found, 3, (0, 5), (0, 1, 0, 1), (10, 1, 20, 3));
    has_line(rt, found, 16, (4, 5), (0, 1, 4, 1), (10, 1, 4, 1));
}

/// The lines are those of the room with a screen in it.
fn is_room_with_screen(rt: &impl Abort, found: &[AxialLine]) {
    assert!(rt; found.len() == 13);
    has_line(rt, found, 2, (0, 4), (0, 1, 0, 1), (15, 2, 10, 1));
    has_line(rt, found, 3, (0, 5), (0, 1, 0, 1), (10, 1, 40, 7));
    has_line(rt, found, 12, (4, 5), (0, 1, 4, 1), (10, 1, 4, 1));
}

/// Whether the line runs between the two points.
fn is_between(line: &AxialLine, p: Parts, q: Parts) -> bool {
    let (from, to) = (parts(&line.from), parts(&line.to));
    (from == p && to == q) || (from == q && to == p)
}

/// How many lines run between the two points.
fn count_between(lines: &[AxialLine], p: Parts, q: Parts) -> usize {
    let mut count = 0usize;
    for line in lines {
        if is_between(line, p, q) {
            count = count.wrapping_add(1);
        }
    }
    count
}

/// Six pairs of corners have one line through two boxes of one height, which is that of the first.
fn equal_lines(rt: &impl Abort, alloc: Global) {
    let boxes = [(b'A', at(2, 4), at(4, 6)), (b'B', at(6, 4), at(8, 6))];
    let found = lines_of(rt, alloc, &room(rt, alloc, &boxes, &[]));
    let (p, q) = ((0, 1, 4, 1), (10, 1, 4, 1));
    assert!(rt; count_between(&found, p, q) == 1);
    for line in &found {
        assert!(rt; !is_between(line, p, q) || (line.first, line.second) == (4, 5));
    }
}

fn after_removal(rt: &impl Abort, alloc: Global, plan: &Plan, letter: u8) -> Vec<AxialLine> {
    let edit = Edit::Remove(name(rt, letter));
    after_edit(rt, alloc, plan, &edit, &mut Steps::new())
}

fn after_screen_removal(rt: &impl Abort, alloc: Global, plan: &Plan, letter: u8) -> Vec<AxialLine> {
    let edit = Edit::RemoveScreen(name(rt, letter));
    after_edit(rt, alloc, plan, &edit, &mut Steps::new())
}

/// A box is added to the empty room.
fn box_added(rt: &impl Abort, alloc: Global, room: &Plan) {
    let points = box_points(rt, alloc, at(4, 4), at(6, 6));
    let edit = Edit::Add(name(rt, b'A'), points);
    let mut steps = Steps::new();
    is_room_with_box(rt, &after_edit(rt, alloc, room, &edit, &mut steps));
    assert!(rt; steps.sweeps() == 8);
}

/// Lines that stay change their numbers, and those that were hidden come between them.
fn one_of_three_removed(rt: &impl Abort, alloc: Global) {
    let boxes = [(b'A', at(4, 4), at(6, 6)), (b'B', at(7, 1), at(8, 2))];
    let plan = room(rt, alloc, &boxes, &[(b'S', at(2, 7), at(3, 9))]);
    assert!(rt; after_removal(rt, alloc, &plan, b'A').len() == 32);
    assert!(rt; after_removal(rt, alloc, &plan, b'B').len() == 29);
    assert!(rt; after_screen_removal(rt, alloc, &plan, b'S').len() == 39);
}

/// How many sweeps are counted when the box of a letter is taken out.
fn sweeps_of_removal(rt: &impl Abort, alloc: Global, plan: &Plan, letter: u8) -> u64 {
    let mut steps = Steps::new();
    let edit = Edit::Remove(name(rt, letter));
    let _lines = after_edit(rt, alloc, plan, &edit, &mut steps);
    steps.sweeps()
}

/// One sweep a corner for all lines, and one for each dirty corner after a removal: the four corners below a wide box are
/// clean where a small box above it is taken out.
fn sweeps_are_counted(rt: &impl Abort, alloc: Global) {
    let boxes = [(b'A', at(1, 5), at(9, 6)), (b'B', at(4, 8), at(5, 9))];
    let plan = room(rt, alloc, &boxes, &[]);
    let mut steps = Steps::new();
    let _lines = lines(rt, alloc, &scene(rt, alloc, &plan), &mut steps);
    assert!(rt; steps.sweeps() == 12);
    assert!(rt; sweeps_of_removal(rt, alloc, &plan, b'B') == 4);
    assert!(rt; sweeps_of_removal(rt, alloc, &plan, b'A') == 8);
}

#[test]
fn rooms_have_these_axial_lines(rt: HostRuntime) {
    let alloc = rt.alloc();
    let empty = room(&rt, alloc, &[], &[]);
    let boxed = room(&rt, alloc, &[(b'A', at(4, 4), at(6, 6))], &[]);
    let screened = room(&rt, alloc, &[], &[(b'S', at(3, 4), at(7, 4))]);
    is_empty_room(&rt, &lines_of(&rt, alloc, &empty));
    is_room_with_box(&rt, &lines_of(&rt, alloc, &boxed));
    is_room_with_screen(&rt, &lines_of(&rt, alloc, &screened));
    equal_lines(&rt, alloc);
    sweeps_are_counted(&rt, alloc);
}

#[test]
fn edits_have_the_lines_of_the_plan_after_them(rt: HostRuntime) {
    let alloc = rt.alloc();
    let boxed = room(&rt, alloc, &[(b'A', at(4, 4), at(6, 6))], &[]);
    let screened = room(&rt, alloc, &[], &[(b'S', at(3, 4), at(7, 4))]);
    is_empty_room(&rt, &after_removal(&rt, alloc, &boxed, b'A'));
    is_empty_room(&rt, &after_screen_removal(&rt, alloc, &screened, b'S'));
    box_added(&rt, alloc, &room(&rt, alloc, &[], &[]));
    one_of_three_removed(&rt, alloc);
}
