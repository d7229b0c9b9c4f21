//! The lines of small plans: how many others each of them meets, and which pairs do.

ghost use Rattle.std.specs.Prelude.{◌≡◌, ◌≤◌, length};
ghost use Rattle.plan_spec.specs.declared.limits.TheConstants.{MAX_AXIAL_LINES};
ghost use Rattle.sight_spec.specs.Axial.{IsLineOf, axial_lines as lines_of};

use axial_lines::{AxialLine, Steps, all_lines};
use line_graph::{crossing_graph, meet};
use plan_check::{Item, Items, Name, PlanData, Points, check};
use plane_spec::Point;
use sight_core::{Scene, scene_of};
use std::alloc::Global;
use std::process::Abort;
use vga_grid::BitGraph;

fn push(rt: &impl Abort, items: &mut Items, item: Item) {
    assert!(rt; items.push(item).is_ok());
}

fn points_of(rt: &impl Abort, alloc: Global, corners: &[(i64, i64)]) -> Points {
    let mut points = Points::new(alloc);
    for (x, y) in corners {
        assert!(rt; points.push(Point { x: *x, y: *y }).is_ok());
    }
    points
}

fn name(rt: &impl Abort, bytes: &[u8]) -> Name {
    match Name::of(bytes) {
        Some(name) => name,
        None => panic!(rt; "a word is a name"),
    }
}

fn bounded(rt: &impl Abort, alloc: Global, outer: &[(i64, i64)]) -> Items {
    let mut items = Items::new(alloc);
    push(rt, &mut items, Item::Outer(points_of(rt, alloc, outer)));
    items
}

fn square(rt: &impl Abort, alloc: Global) -> Items {
    bounded(rt, alloc, &[(0, 0), (10, 0), (10, 10), (0, 10)])
}

fn with_box(
    rt: &impl Abort,
    alloc: Global,
    items: Items,
    word: &[u8],
    low: (i64, i64),
    high: (i64, i64),
) -> Items {
    let mut all = items;
    let corners = [low, (high.0, low.1), high, (low.0, high.1)];
    push(
        rt,
        &mut all,
        Item::Obstacle(name(rt, word), points_of(rt, alloc, &corners)),
    );
    all
}

fn with_screen(rt: &impl Abort, items: Items, from: (i64, i64), to: (i64, i64)) -> Items {
    let mut all = items;
    let (a, b) = (
        Point {
            x: from.0,
            y: from.1,
        },
        Point { x: to.0, y: to.1 },
    );
    push(rt, &mut all, Item::Screen(name(rt, b"screen"), a, b));
    all
}

fn scene_in(rt: &impl Abort, alloc: Global, items: Items) -> Scene {
    match check(alloc, &PlanData { items }) {
        Ok(plan) => match scene_of(alloc, &plan) {
            Ok(scene) => scene,
            Err(_) => panic!(rt; "there is memory"),
        },
        Err(_) => panic!(rt; "the plan is accepted"),
    }
}

fn lines_in(rt: &impl Abort, alloc: Global, scene: &Scene) -> Vec<AxialLine>
    ensures lines { result.items ≡ lines_of scene.now }
    ensures at_most { length result.items ≤ MAX_AXIAL_LINES }
{
    match all_lines(alloc, scene, &mut Steps::new()) {
        Ok(lines) => lines,
        Err(_) => panic!(rt; "there is memory, and there are few lines"),
    }
}

fn graph_in(rt: &impl Abort, alloc: Global, scene: &Scene, lines: &[AxialLine]) -> BitGraph
    requires lines { lines.now ≡ lines_of scene.now }
    requires at_most { length lines.now ≤ MAX_AXIAL_LINES }
{
    match crossing_graph(alloc, scene, lines) {
        Ok(graph) => graph,
        Err(_) => panic!(rt; "there is memory"),
    }
}

/// Each line of the plan meets so many others.
fn have_degrees(rt: &impl Abort, alloc: Global, items: Items, expected: &[u32]) {
    let scene = scene_in(rt, alloc, items);
    let lines = lines_in(rt, alloc, &scene);
    let graph = graph_in(rt, alloc, &scene, &lines);
    assert!(rt; expected.len() == graph.len() as usize);
    for i in 0..graph.len() {
        let mut degree = 0u32;
        for j in 0..graph.len() {
            if graph.has(i, j) {
                degree = degree.wrapping_add(1);
            }
        }
        assert!(rt; degree == expected[i as usize], "line {i}");
    }
}

fn line_at(rt: &impl Abort, scene: &Scene, lines: &[AxialLine], i: usize) -> AxialLine
    requires { lines.now ≡ lines_of scene.now }
    ensures { IsLineOf scene.now result }
{
    assert!(rt; i < lines.len());
    lines[i]
}

/// Each pair of lines meets, or doesn't, whichever comes first.
fn do_meet(rt: &impl Abort, alloc: Global, items: Items, pairs: &[(usize, usize, bool)]) {
    let scene = scene_in(rt, alloc, items);
    let lines = lines_in(rt, alloc, &scene);
    for (i, j, expected) in pairs {
        let l = line_at(rt, &scene, &lines, *i);
        let m = line_at(rt, &scene, &lines, *j);
        assert!(rt; meet(&scene, &l, &m) == *expected, "{i} {j}");
        assert!(rt; meet(&scene, &m, &l) == *expected, "{j} {i}");
    }
}

/// In an empty square only opposite sides don't meet. With a box in it, lines end at the box, and with a screen at ends
/// that are fractions; the degrees are those of another program.
#[test]
fn each_line_meets_so_many_others(rt: HostRuntime) {
    let alloc = rt.alloc();
    let empty = square(&rt, alloc);
    have_degrees(&rt, alloc, empty, &[4, 5, 4, 4, 5, 4]);
    let one = with_box(&rt, alloc, square(&rt, alloc), b"a", (4, 4), (6, 6));
    have_degrees(
        &rt,
        alloc,
        one,
        &[
            12, 12, 8, 15, 15, 12, 15, 8, 15, 12, 15, 8, 15, 15, 15, 8, 14, 14, 14, 14,
        ],
    );
    let a = with_box(&rt, alloc, square(&rt, alloc), b"a", (2, 4), (4, 6));
    let both = with_box(&rt, alloc, a, b"b", (6, 4), (8, 6));
    have_degrees(
        &rt,
        alloc,
        both,
        &[
            18, 25, 16, 10, 17, 14, 20, 16, 25, 20, 14, 10, 17, 18, 14, 20, 17, 10, 17, 10, 20, 14,
            18, 16, 14, 18, 14, 16,
        ],
    );
    let screen = with_screen(&rt, square(&rt, alloc), (3, 4), (7, 4));
    have_degrees(
        &rt,
        alloc,
        screen,
        &[8, 9, 10, 10, 9, 10, 10, 8, 10, 10, 10, 10, 10],
    );
    let bend = [(0, 0), (12, 0), (12, 4), (4, 4), (4, 12), (0, 12)];
    have_degrees(
        &rt,
        alloc,
        bounded(&rt, alloc, &bend),
        &[8, 9, 8, 9, 8, 4, 9, 8, 8, 9, 4],
    );
}

/// Lines that cross, that share an end, that touch at an end of one, that are parallel, that lie in line with the box
/// between them, and a line with itself.
#[test]
fn pairs_of_lines_meet_or_not(rt: HostRuntime) {
    let alloc = rt.alloc();
    let items = with_box(&rt, alloc, square(&rt, alloc), b"a", (4, 4), (6, 6));
    do_meet(
        &rt,
        alloc,
        items,
        &[
            (16, 17, true),
            (3, 4, true),
            (0, 5, true),
            (2, 16, true),
            (7, 7, true),
            (0, 9, false),
            (3, 12, false),
            (2, 11, false),
            (2, 12, false),
            (2, 15, false),
        ],
    );
}
