//! Worked tables and replies in both forms, into sinks that fail at each of their bytes.

ghost use Rattle.plane_spec.specs.Vectors.{InRange};

use axial_lines::AxialLine;
use dm_io::MemSink;
use exact_geom::{Frac, RPoint, in_range};
use isovist_core::{IsovistParts, isovist};
use options_spec::Form;
use plan_check::{Plan, PlanData, check};
use plan_spec::{GridSpec, Item, Items, Limit, Points, Why};
use plane_spec::Point;
use report_spec::Reason;
use reports::*;
use segment_core::{neighbours, pieces};
use sight_core::scene_of;
use std::alloc::Global;
use std::process::Abort;
use std::test::Fail;
use step_depth::Measure;
use text_spec::Name;
use vga_grid::BitGraph;

/// What is printed.
#[derive(Clone, Copy)]
enum Given<'a> {
    Done(u64),
    Refused(u64, &'a Reason),
    Trial(u64),
    Edges(&'a BitGraph),
    Points(&'a [(u32, Point)], &'a [Measure]),
    Depth(&'a [Option<u32>]),
    Isovist(&'a IsovistParts),
    Isovists(&'a Plan),
    Axial(&'a [AxialLine]),
    Lines(&'a [Measure]),
    Segments(&'a Plan),
    Turns(&'a [Option<u32>; 4]),
    Plan(&'a [Item]),
}

/// Two open points; point 1 between them is closed.
const OPEN: [(u32, Point); 2] = [(0, Point { x: 250, y: 50 }), (2, Point { x: -250, y: 550 })];

fn put_isovists_of(
    alloc: Global,
    out: &mut MemSink,
    form: Form,
    plan: &Plan,
) -> Result<(), ReportFault> {
    match scene_of(alloc, plan) {
        Ok(scene) => put_isovists(alloc, out, form, plan, &scene),
        Err(_) => Err(ReportFault::NoMemory),
    }
}

fn put_segments_of(
    alloc: Global,
    out: &mut MemSink,
    form: Form,
    plan: &Plan,
) -> Result<(), ReportFault> {
    let pieces = pieces(alloc, plan)?;
    let counts = neighbours(alloc, &pieces)?;
    put_segments(alloc, out, form, plan, &pieces, &counts)
}

fn put(alloc: Global, out: &mut MemSink, form: Form, given: &Given) -> Result<(), ReportFault> {
    match given {
        Given::Done(line) => put_ok(alloc, out, form, *line),
        Given::Refused(line, reason) => put_refused(alloc, out, form, *line, reason),
        Given::Trial(edges) => put_trial(alloc, out, form, 1, 4, 3, *edges, 6),
        Given::Edges(graph) => put_edges(alloc, out, form, graph),
        Given::Points(points, measures) => put_points(alloc, out, form, points, measures),
        Given::Depth(depths) => put_depth(alloc, out, form, &OPEN, depths),
        Given::Isovist(seen) => put_isovist(alloc, out, form, seen),
        Given::Isovists(plan) => put_isovists_of(alloc, out, form, plan),
        Given::Axial(lines) => put_axial(alloc, out, form, lines),
        Given::Lines(measures) => put_lines(alloc, out, form, measures),
        Given::Segments(plan) => put_segments_of(alloc, out, form, plan),
        Given::Turns(depths) => put_turns(alloc, out, form, *depths),
        Given::Plan(items) => put_plan(alloc, out, form, items),
    }
}

/// The byte that stands in a form for one of the text form: none of these tables has a space or a comma in a field.
fn in_form(form: Form, byte: u8) -> u8 {
    if form == Form::Csv && byte == b' ' {
        b','
    } else {
        byte
    }
}

/// The bytes are the first of the text, in a form.
fn has(rt: &impl Abort, form: Form, bytes: &[u8], text: &str) {
    for (byte, wanted) in bytes.iter().zip(text.as_bytes()) {
        assert!(rt; *byte == in_form(form, *wanted), "{text}");
    }
}

/// Into a sink that takes a byte a call and has so much room: just the text is put where the room is enough, and else as
/// much of it as there is room for.
fn fits(
    rt: &impl Abort,
    alloc: Global,
    form: Form,
    given: &Given,
    text: &str,
    room: usize,
) -> Result<(), Fail> {
    let mut out = MemSink::new(alloc, room, 1, Vec::new(alloc))?;
    let answer = put(alloc, &mut out, form, given);
    let wanted = if room < text.len() {
        Err(ReportFault::Write)
    } else {
        Ok(())
    };
    assert!(rt; answer == wanted, "{text}");
    assert!(rt; out.bytes().len() == room.min(text.len()), "{text}");
    has(rt, form, out.bytes(), text);
    Ok(())
}

/// The text is put in both forms, and as much of it as goes before the call that fails.
fn prints(rt: &impl Abort, alloc: Global, given: &Given, text: &str) -> Result<(), Fail> {
    for form in [Form::Text, Form::Csv] {
        for room in 0..=text.len() {
            fits(rt, alloc, form, given, text, room)?;
        }
    }
    Ok(())
}

fn named(rt: &impl Abort, text: &str) -> Name {
    match Name::of(text.as_bytes()) {
        Some(name) => name,
        None => panic!(rt; "a name"),
    }
}

/// Also of the largest numbers, and of a name.
#[test]
fn replies_and_trials(rt: HostRuntime) -> Result<(), Fail> {
    let alloc = rt.alloc();
    let full = Reason::Edit(Why::Full(Limit::Corners));
    let touch = Reason::Edit(Why::Touch(named(&rt, "A-1")));
    for (given, text) in [
        (Given::Done(u64::MAX), "ok 18446744073709551615\n"),
        (Given::Refused(0, &Reason::Lines), "refused 0 lines\n"),
        (Given::Refused(22, &full), "refused 22 full corners\n"),
        (Given::Refused(3, &touch), "refused 3 touch A-1\n"),
        (Given::Trial(3), "trial 1 points 4 open 3 edges 3 depth 6\n"),
        (
            Given::Trial(u64::MAX),
            "trial 1 points 4 open 3 edges 18446744073709551615 depth 6\n",
        ),
    ] {
        prints(&rt, alloc, &given, text)?;
    }
    Ok(())
}

/// A point that isn't reached has no depth; a lone piece has no mean.
#[test]
fn tables_of_depths(rt: HostRuntime) -> Result<(), Fail> {
    let alloc = rt.alloc();
    for (given, text) in [
        (
            Given::Depth(&[Some(7), Some(1), None]),
            "table depth\n0 7\n2 -\nend 2\n",
        ),
        (
            Given::Turns(&[Some(0), Some(0), Some(8), Some(8)]),
            "table turns\n0 0\n1 0\n2 8\n3 8\ntotal 4 16 16/3\nend 4\n",
        ),
        (
            Given::Turns(&[Some(0), None, None, None]),
            "table turns\n0 0\n1 -\n2 -\n3 -\ntotal 1 0 -\nend 4\n",
        ),
    ] {
        prints(&rt, alloc, &given, text)?;
    }
    Ok(())
}

/// The measures of a node that is alone.
fn alone() -> Measure {
    Measure {
        connectivity: 0,
        reached: 1,
        total: 0,
        mean: None,
        ra: None,
    }
}

/// The measures of a node that sees another one, and a third over it.
fn seen() -> Measure {
    Measure {
        connectivity: 1,
        reached: 3,
        total: 3,
        mean: Some(Frac::new(3, 2)),
        ra: Some(Frac::whole(1)),
    }
}

/// A point that sees a closed one's neighbours, and one that is alone; the same of lines.
#[test]
fn tables_of_measures(rt: HostRuntime) -> Result<(), Fail> {
    let alloc = rt.alloc();
    let measures = [seen(), alone(), alone()];
    for (given, text) in [
        (
            Given::Points(&OPEN, &measures),
            "table points\n0 250 50 1 3 3 3/2 1/1\n2 -250 550 0 1 0 - -\nend 2\n",
        ),
        (
            Given::Lines(&measures),
            "table lines\n0 1 3 3 3/2 1/1\n1 0 1 0 - -\n2 0 1 0 - -\nend 3\n",
        ),
    ] {
        prints(&rt, alloc, &given, text)?;
    }
    Ok(())
}

/// The largest numbers that a point's record can have, but for fractions.
#[test]
fn record_of_the_largest_numbers(rt: HostRuntime) -> Result<(), Fail> {
    let corner = Point {
        x: i64::MIN,
        y: i64::MAX,
    };
    let largest = Measure {
        connectivity: u32::MAX,
        reached: u32::MAX,
        total: u64::MAX,
        mean: Some(Frac::new(-1_000_000_000_000_000_000, 999_999_999_999_999_999)),
        ra: Some(Frac::whole(i64::MIN)),
    };
    let text =
        "table points\n0 -9223372036854775808 9223372036854775807 4294967295 4294967295 18446744073709551615 \
        -1000000000000000000/999999999999999999 -9223372036854775808/1\nend 1\n";
    prints(
        &rt,
        rt.alloc(),
        &Given::Points(&[(0, corner)], &[largest]),
        text,
    )
}

/// An edge is told once, from its smaller node.
#[test]
fn table_of_edges(rt: HostRuntime) -> Result<(), Fail> {
    let alloc = rt.alloc();
    let mut graph = BitGraph::empty(alloc, 4)?;
    prints(&rt, alloc, &Given::Edges(&graph), "table edges\nend 0\n")?;
    graph.join_pair(3, 2);
    graph.join_pair(0, 1);
    graph.join_pair(0, 2);
    prints(
        &rt,
        alloc,
        &Given::Edges(&graph),
        "table edges\n0 1\n0 2\n2 3\nend 3\n",
    )
}

/// With a screen the plan is of version 2.
#[test]
fn table_of_a_plan(rt: HostRuntime) -> Result<(), Fail> {
    let alloc = rt.alloc();
    let mut points = Points::new(alloc);
    points.push(Point { x: 0, y: 0 })?;
    points.push(Point { x: -100000, y: 0 })?;
    let mut items = Items::new(alloc);
    items.push(Item::Outer(points))?;
    let text = "table plan\nplan 1\nouter 0 0 -100000 0\nend 2\n";
    prints(&rt, alloc, &Given::Plan(items.as_slice()), text)?;
    let (from, to) = (Point { x: 1, y: 2 }, Point { x: 3, y: -4 });
    items.push(Item::Screen(named(&rt, "S_1"), from, to))?;
    let text = "table plan\nplan 2\nouter 0 0 -100000 0\nscreen S_1 1 2 3 -4\nend 3\n";
    prints(&rt, alloc, &Given::Plan(items.as_slice()), text)
}

/// A line that ends at a corner, and one that passes both.
#[test]
fn table_of_axial_lines(rt: HostRuntime) -> Result<(), Fail> {
    let (low, high) = (Frac::whole(0), Frac::whole(10));
    let from = RPoint {
        x: low,
        y: Frac::new(25, 3),
    };
    let first = AxialLine {
        first: 0,
        second: 1,
        from: RPoint { x: low, y: low },
        to: RPoint { x: high, y: low },
    };
    let second = AxialLine {
        first: 1,
        second: 6,
        from: first.to,
        to: from,
    };
    let text = "table axial\n0 0 1 0/1 0/1 10/1 0/1\n1 1 6 10/1 0/1 0/1 25/3\nend 2\n";
    prints(&rt, rt.alloc(), &Given::Axial(&[first, second]), text)
}

/// The items of a room with a box, three grid points, the middle one of them in the box, and two routes that cross.
fn room_with_box(rt: &impl Abort, alloc: Global) -> Result<Items, Fail> {
    let mut items = Items::new(alloc);
    items.push(Item::Outer(corners(alloc, 0, 10, 0, 10)?))?;
    items.push(Item::Obstacle(named(rt, "A"), corners(alloc, 2, 4, 2, 5)?))?;
    items.push(Item::Grid(GridSpec {
        step: 3,
        x0: 0,
        y0: 4,
        cols: 3,
        rows: 1,
    }))?;
    let (low, high) = (Point { x: 0, y: 0 }, Point { x: 10, y: 1 });
    items.push(Item::Route(named(rt, "R"), low, high))?;
    let (left, right) = (Point { x: 1, y: 1 }, Point { x: 9, y: 0 });
    items.push(Item::Route(named(rt, "S-2"), left, right))?;
    Ok(items)
}

fn corners(alloc: Global, left: i64, right: i64, low: i64, high: i64) -> Result<Points, Fail> {
    let mut points = Points::new(alloc);
    for (x, y) in [(left, low), (right, low), (right, high), (left, high)] {
        points.push(Point { x, y })?;
    }
    Ok(points)
}

/// The point, which the test knows to be in range.
fn known(rt: &impl Abort, p: Point) -> Point
    ensures { InRange result }
{
    assert!(rt; in_range(p));
    p
}

/// The isovists of its open points, and its routes' pieces.
#[test]
fn tables_of_a_room(rt: HostRuntime) -> Result<(), Fail> {
    let alloc = rt.alloc();
    let items = room_with_box(&rt, alloc)?;
    let Ok(plan) = check(alloc, &PlanData { items }) else {
        panic!(&rt; "the plan is accepted")
    };
    let text = "table isovists\n0 5 92 92\n2 5 156 156\nend 2\n";
    prints(&rt, alloc, &Given::Isovists(&plan), text)?;
    let text =
        "table segments\n0 R 0/1 0/1 5/1 1/2 3\n1 R 5/1 1/2 10/1 1/1 3\n2 S-2 1/1 1/1 5/1 1/2 3\n\
        3 S-2 5/1 1/2 9/1 0/1 3\nend 4\n";
    prints(&rt, alloc, &Given::Segments(&plan), text)?;
    let scene = scene_of(alloc, &plan)?;
    let Ok(seen) = isovist(alloc, &plan, &scene, known(&rt, Point { x: 0, y: 4 })) else {
        panic!(&rt; "the point is open")
    };
    let text =
        "table isovist\n2/1 9/2 2/1 5/1 1/1\n10/1 9/1 10/1 10/1 10/1\n10/1 10/1 0/1 10/1 60/1\n\
        0/1 0/1 4/1 0/1 16/1\n2/1 2/1 2/1 9/2 5/1\ntotal 92 92\nend 5\n";
    prints(&rt, alloc, &Given::Isovist(&seen), text)
}
