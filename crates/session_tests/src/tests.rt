//! A session of one worker and of two over some edits of a small room, with and without questions in between, and two
//! workers that meet over one.

ghost use Rattle.std.specs.Prelude.{◌≡◌, ◌≤◌};
ghost use Rattle.plan_spec.specs.Edits.{HasShift};

use dm_io::NoGate;
use meeting_gate::MeetingGate;
use plan_check::{Edit, GridSpec, Item, Items, Name, Plan, PlanData, Points, check};
use plan_edit::Session;
use plane_spec::Point;
use std::alloc::Global;
use std::process::Abort;
use std::thread::Threads;

fn at(x: i64, y: i64) -> Point {
    Point { x, y }
}

fn name(rt: &impl Abort, letter: u8) -> Name {
    match Name::of(&[letter]) {
        Some(name) => name,
        None => panic!(rt; "a letter is a name"),
    }
}

/// The corners of a box.
fn box_points(rt: &impl Abort, alloc: Global, low: Point, high: Point) -> Points {
    let mut list = Points::new(alloc);
    for p in [low, at(high.x, low.y), high, at(low.x, high.y)] {
        assert!(rt; list.push(p).is_ok());
    }
    list
}

/// 3 by 3 points, from one on and so far apart.
fn grid(from: i64, step: i64) -> GridSpec {
    GridSpec {
        step,
        x0: from,
        y0: from,
        cols: 3,
        rows: 3,
    }
}

/// The empty plan of a box of side 10, with a grid.
fn room(rt: &impl Abort, alloc: Global, grid: GridSpec) -> Plan {
    let outer = box_points(rt, alloc, at(0, 0), at(10, 10));
    let mut items = Items::new(alloc);
    assert!(rt; items.push(Item::Outer(outer)).is_ok());
    assert!(rt; items.push(Item::Grid(grid)).is_ok());
    match check(alloc, &PlanData { items }) {
        Ok(plan) => plan,
        Err(_) => panic!(rt; "the plan is accepted"),
    }
}

/// A session of so many workers on such a plan.
fn begun(rt: &impl Abort, alloc: Global, grid: GridSpec, workers: u32) -> Session
    requires some { 1 ≤ workers }
    requires few { workers ≤ 64 }
{
    match Session::begin(alloc, room(rt, alloc, grid), workers) {
        Ok(session) => session,
        Err(_) => panic!(rt; "there is memory"),
    }
}

fn edge_count(rt: &(impl Threads + Sync + Abort), alloc: Global, session: &mut Session) -> usize {
    assert!(rt; session.make_graph(rt, alloc, &NoGate).is_ok());
    let mut count = 0usize;
    for i in 0..9 {
        for j in i..9 {
            if session.graph().has(i, j) {
                count = count.wrapping_add(1);
            }
        }
    }
    count
}

fn line_count(rt: &impl Abort, alloc: Global, session: &mut Session) -> usize {
    assert!(rt; session.make_lines(alloc).is_ok());
    session.lines().len()
}

/// What an edit is answered, and how many lines and edges there are after it.
fn leaves(
    rt: &(impl Threads + Sync + Abort),
    alloc: Global,
    session: &mut Session,
    edit: &Edit,
    expected: (bool, usize, usize),
)
    requires { HasShift edit.now }
{
    assert!(rt; session.apply(alloc, edit).is_ok() == expected.0);
    assert!(rt; line_count(rt, alloc, session) == expected.1);
    assert!(rt; edge_count(rt, alloc, session) == expected.2);
}

/// A box comes, is moved to where it stands, isn't crossed by a screen, isn't hidden by a route, and goes once.
fn a_box_comes_and_goes(rt: &(impl Threads + Sync + Abort), alloc: Global, session: &mut Session) {
    let (a, r, s) = (name(rt, b'A'), name(rt, b'R'), name(rt, b'S'));
    let add = Edit::Add(a.copy(), box_points(rt, alloc, at(4, 4), at(6, 6)));
    leaves(rt, alloc, session, &add, (true, 20, 24));
    let stay = Edit::Move(a.copy(), 0, 0);
    leaves(rt, alloc, session, &stay, (true, 20, 24));
    let cross = Edit::AddScreen(s, at(3, 5), at(5, 5));
    leaves(rt, alloc, session, &cross, (false, 20, 24));
    let route = Edit::AddRoute(r, at(1, 1), at(3, 1));
    leaves(rt, alloc, session, &route, (true, 20, 24));
    let remove = Edit::Remove(a);
    leaves(rt, alloc, session, &remove, (true, 6, 36));
    leaves(rt, alloc, session, &remove, (false, 6, 36));
}

/// A box comes and is moved to where it stands; it goes, and a route comes: what is asked for after two edits each.
fn two_edits_between_questions(
    rt: &(impl Threads + Sync + Abort),
    alloc: Global,
    session: &mut Session,
) {
    let (a, r) = (name(rt, b'B'), name(rt, b'Q'));
    let add = Edit::Add(a.copy(), box_points(rt, alloc, at(4, 4), at(6, 6)));
    assert!(rt; session.apply(alloc, &add).is_ok());
    let stay = Edit::Move(a.copy(), 0, 0);
    leaves(rt, alloc, session, &stay, (true, 20, 24));
    assert!(rt; session.apply(alloc, &Edit::Remove(a)).is_ok());
    let route = Edit::AddRoute(r, at(1, 9), at(3, 9));
    leaves(rt, alloc, session, &route, (true, 6, 36));
}

/// What so many workers find after each edit.
fn edits_leave(rt: &(impl Threads + Sync + Abort), alloc: Global, workers: u32)
    requires some { 1 ≤ workers }
    requires few { workers ≤ 64 }
{
    let mut session = begun(rt, alloc, grid(1, 4), workers);
    assert!(rt; line_count(rt, alloc, &mut session) == 6);
    assert!(rt; edge_count(rt, alloc, &mut session) == 36);
    a_box_comes_and_goes(rt, alloc, &mut session);
    two_edits_between_questions(rt, alloc, &mut session);
    let screen = Edit::AddScreen(name(rt, b'S'), at(3, 4), at(7, 4));
    leaves(rt, alloc, &mut session, &screen, (true, 13, 28));
}

#[test]
fn graph_and_lines_are_those_of_the_plan_after_each_edit(rt: HostRuntime) {
    edits_leave(&rt, rt.alloc(), 1);
    edits_leave(&rt, rt.alloc(), 2);
}

/// The edges between the points of a grid over the whole room, of which a box hides the middle one.
const ROUND_THE_BOX: [(u32, u32); 24] = [
    (0, 1),
    (0, 2),
    (0, 3),
    (0, 5),
    (0, 6),
    (0, 7),
    (1, 2),
    (1, 3),
    (1, 5),
    (1, 6),
    (1, 8),
    (2, 3),
    (2, 5),
    (2, 7),
    (2, 8),
    (3, 6),
    (3, 7),
    (3, 8),
    (5, 6),
    (5, 7),
    (5, 8),
    (6, 7),
    (6, 8),
    (7, 8),
];

/// That the graph has these edges and no others.
fn has_edges_round_the_box(
    rt: &(impl Threads + Sync + Abort),
    alloc: Global,
    session: &mut Session,
) {
    assert!(rt; edge_count(rt, alloc, session) == 24);
    assert!(rt; session.make_graph(rt, alloc, &NoGate).is_ok());
    for (i, j) in ROUND_THE_BOX {
        assert!(rt; session.graph().has(i, j), "{i} {j}");
    }
}

#[test]
fn two_workers_meet_over_an_edit(rt: HostRuntime) {
    let alloc = rt.alloc();
    let mut session = begun(&rt, alloc, grid(0, 5), 2);
    assert!(&rt; session.make_graph(&rt, alloc, &NoGate).is_ok());
    let gate = MeetingGate::new();
    let add = Edit::Add(name(&rt, b'A'), box_points(&rt, alloc, at(4, 4), at(6, 6)));
    assert!(&rt; session.apply(alloc, &add).is_ok());
    assert!(&rt; session.make_graph(&rt, alloc, &gate).is_ok());
    assert!(&rt; gate.have_two_met());
    has_edges_round_the_box(&rt, alloc, &mut session);
}
