//! Plans, edits and limits whose answers are known from worked examples.

ghost use Rattle.std.specs.Prelude.{◌<◌, IfOk};
ghost use Rattle.plan_spec.specs.Edits.{HasShift};

use plan_check::*;
use plane_spec::{PlanBox, Point};
use std::alloc::Global;
use std::test::Fail;
use text_spec::Name;

type Pair = (i64, i64);

/// A row of a table: an item, an edit, or both. Those with a name begin with it; a box has its low and its high corner,
/// a line its ends, a move its shift, and a grid its step, its first point, and its columns beside its rows.
#[derive(Clone, Copy)]
enum Row {
    Outer(&'static [Pair]),
    Grid(i64, Pair, Pair),
    Polygon(&'static str, &'static [Pair]),
    Box(&'static str, Pair, Pair),
    Move(&'static str, i64, i64),
    Remove(&'static str),
    Screen(&'static str, Pair, Pair),
    RemoveScreen(&'static str),
    Route(&'static str, Pair, Pair),
    RemoveRoute(&'static str),
}

fn name(text: &str) -> Result<Name, Fail> {
    Ok(Name::of(text.as_bytes()).ok_or("a row has no name")?)
}

fn points(alloc: Global, pairs: &[Pair]) -> Result<Points, Fail> {
    let mut points = Points::new(alloc);
    for (x, y) in pairs {
        points.push(Point { x: *x, y: *y })?;
    }
    Ok(points)
}

fn box_points(alloc: Global, low: Pair, high: Pair) -> Result<Points, Fail> {
    points(alloc, &[low, (high.0, low.1), high, (low.0, high.1)])
}

fn point(pair: Pair) -> Point {
    Point {
        x: pair.0,
        y: pair.1,
    }
}

fn item(alloc: Global, row: Row) -> Result<Item, Fail> {
    match row {
        Row::Outer(pairs) => Ok(Item::Outer(points(alloc, pairs)?)),
        Row::Grid(step, (x0, y0), (cols, rows)) => Ok(Item::Grid(GridSpec {
            step,
            x0,
            y0,
            cols,
            rows,
        })),
        Row::Polygon(text, pairs) => Ok(Item::Obstacle(name(text)?, points(alloc, pairs)?)),
        Row::Box(text, low, high) => Ok(Item::Obstacle(name(text)?, box_points(alloc, low, high)?)),
        Row::Screen(text, from, to) => Ok(Item::Screen(name(text)?, point(from), point(to))),
        Row::Route(text, from, to) => Ok(Item::Route(name(text)?, point(from), point(to))),
        _ => Err("the row is no item")?,
    }
}

fn edit(alloc: Global, row: Row) -> Result<Edit, Fail>
    ensures shift { IfOk result HasShift }
{
    match row {
        Row::Polygon(text, pairs) => Ok(Edit::Add(name(text)?, points(alloc, pairs)?)),
        Row::Box(text, low, high) => Ok(Edit::Add(name(text)?, box_points(alloc, low, high)?)),
        Row::Remove(text) => Ok(Edit::Remove(name(text)?)),
        Row::Move(text, dx, dy) => moved(name(text)?, dx, dy),
        Row::Screen(text, from, to) => Ok(Edit::AddScreen(name(text)?, point(from), point(to))),
        Row::RemoveScreen(text) => Ok(Edit::RemoveScreen(name(text)?)),
        Row::Route(text, from, to) => Ok(Edit::AddRoute(name(text)?, point(from), point(to))),
        Row::RemoveRoute(text) => Ok(Edit::RemoveRoute(name(text)?)),
        _ => Err("the row is no edit")?,
    }
}

fn moved(name: Name, dx: i64, dy: i64) -> Result<Edit, Fail>
    ensures shift { IfOk result HasShift }
{
    if -999_999_999 <= dx && dx <= 999_999_999 && -999_999_999 <= dy && dy <= 999_999_999 {
        Ok(Edit::Move(name, dx, dy))
    } else {
        Err("the shift is too far")?
    }
}

fn listed(alloc: Global, rows: &[Row]) -> Result<PlanData, Fail> {
    let mut items = Items::new(alloc);
    for row in rows {
        items.push(item(alloc, *row)?)?;
    }
    Ok(PlanData { items })
}

fn plan(alloc: Global, rows: &[Row]) -> Result<Plan, Fail> {
    match check(alloc, &listed(alloc, rows)?) {
        Ok(plan) => Ok(plan),
        Err(_fault) => Err("the plan is refused")?,
    }
}

/// Why an edit is refused, if it is.
fn edit_refusal(answer: Result<Plan, EditFault>) -> Result<Option<Why>, NoMemory> {
    match answer {
        Ok(_plan) => Ok(None),
        Err(fault) => match fault {
            EditFault::Refused(why) => Ok(Some(why)),
            EditFault::NoMemory => Err(NoMemory),
        },
    }
}

/// Which item is refused and why, if one is.
fn item_refusal(answer: Result<Plan, CheckFault>) -> Result<(u32, Option<Why>), NoMemory> {
    match answer {
        Ok(_plan) => Ok((0, None)),
        Err(fault) => match fault {
            CheckFault::Bad { item, why } => Ok((item, Some(why))),
            CheckFault::NoMemory => Err(NoMemory),
        },
    }
}

/// The word of a cause, as it is printed.
fn word(why: &Option<Why>) -> &'static str {
    match why {
        None => "ok",
        Some(Why::Order) => "order",
        Some(Why::Count) => "count",
        Some(Why::Range) => "range",
        Some(Why::Repeat) => "repeat",
        Some(Why::Cross) => "cross",
        Some(Why::Outside) => "outside",
        Some(Why::Touch(_)) => "touch",
        Some(Why::Screen(_)) => "screen",
        Some(Why::NameTaken) => "taken",
        Some(Why::Missing) => "missing",
        Some(Why::Full(Limit::Obstacles)) => "full obstacles",
        Some(Why::Full(Limit::Corners)) => "full corners",
        Some(Why::Full(Limit::Screens)) => "full screens",
        Some(Why::Full(Limit::Routes)) => "full routes",
        Some(Why::Full(Limit::Points)) => "full points",
        Some(Why::Overlap(_)) => "overlap",
    }
}

/// The name that a cause carries, or nothing.
fn carried(why: &Option<Why>) -> &[u8] {
    match why {
        Some(Why::Touch(name)) => name.bytes(),
        Some(Why::Screen(name)) => name.bytes(),
        Some(Why::Overlap(name)) => name.bytes(),
        _ => b"",
    }
}

/// Whether the cause has this word and carries this name, where "" stands for none.
fn says(why: &Option<Why>, expected: &str, name: &str) -> bool {
    word(why) == expected && carried(why) == name.as_bytes()
}

/// What is asked after these rows, and the word and the name of the answer.
type Case = (&'static [Row], Row, &'static str, &'static str);

const OUTER: Row = Row::Outer(&[(0, 0), (10, 0), (10, 10), (0, 10)]);

const APART: &[Row] = &[
    OUTER,
    Row::Box("A", (1, 1), (3, 3)),
    Row::Box("B", (5, 5), (7, 7)),
];

const ONE: &[Row] = &[OUTER, Row::Box("A", (2, 2), (4, 4))];

const SCREENED: &[Row] = &[
    OUTER,
    Row::Box("A", (4, 4), (6, 6)),
    Row::Screen("S", (1, 1), (1, 9)),
];

const GRIDDED: &[Row] = &[OUTER, Row::Grid(5, (0, 0), (3, 2))];

const ROUTED: &[Row] = &[OUTER, Row::Route("A", (0, 0), (10, 0))];

/// Its corners lie on edges of the box that stands there.
const INSCRIBED: Row = Row::Polygon("B", &[(3, 2), (4, 3), (3, 4)]);

/// A corner is out of range.
const FAR: Row = Row::Polygon("P", &[(2, 2), (6, 2), (100_001, 6)]);

/// Two neighbouring corners are equal.
const TWICE: Row = Row::Polygon("P", &[(2, 2), (4, 2), (4, 2), (3, 4)]);

/// Two edges cross.
const CROSSED: Row = Row::Polygon("P", &[(2, 2), (6, 6), (6, 2), (2, 6)]);

/// All edges lie on one line.
const FOLDED: Row = Row::Polygon("P", &[(2, 2), (6, 2), (4, 2)]);

/// A corner lies between its neighbours, in line with them.
const IN_LINE: Row = Row::Polygon("P", &[(2, 2), (4, 2), (6, 2), (4, 6)]);

/// An edit of the plan of these rows, and the words of its refusal.
const EDITS: &[Case] = &[
    (APART, Row::Move("A", 3, 3), "touch", "B"),
    (APART, Row::Move("A", 6, 0), "ok", ""),
    (APART, Row::Move("A", -1, 0), "outside", ""),
    (APART, Row::Move("A", 100_000, 0), "range", ""),
    (APART, Row::Move("C", 999_999_999, 0), "missing", ""),
    (ONE, Row::Box("B", (4, 4), (6, 6)), "touch", "A"),
    (ONE, Row::Box("B", (1, 1), (5, 5)), "touch", "A"),
    (ONE, INSCRIBED, "touch", "A"),
    (APART, Row::Box("C", (2, 2), (6, 6)), "touch", "A"),
    (ONE, Row::Box("A", (2, 2), (4, 4)), "touch", "A"),
    (ONE, Row::Box("B", (0, 6), (2, 8)), "outside", ""),
    (ONE, Row::Box("A", (6, 6), (8, 8)), "taken", ""),
    (ONE, Row::Remove("Z"), "missing", ""),
    (ONE, Row::Remove("A"), "ok", ""),
    (ONE, Row::Polygon("P", &[(2, 2), (4, 4)]), "count", ""),
    (ONE, FAR, "range", ""),
    (ONE, TWICE, "repeat", ""),
    (ONE, CROSSED, "cross", ""),
    (ONE, FOLDED, "cross", ""),
    (ONE, Row::Box("P", (6, 6), (6, 8)), "repeat", ""),
    (&[OUTER], IN_LINE, "ok", ""),
    (SCREENED, Row::Screen("T", (0, 5), (2, 5)), "outside", ""),
    (SCREENED, Row::Screen("T", (3, 5), (5, 5)), "touch", "A"),
    (SCREENED, Row::Screen("T", (1, 5), (3, 5)), "screen", "S"),
    (SCREENED, Row::Screen("S", (2, 2), (2, 8)), "taken", ""),
    (SCREENED, Row::Screen("T", (3, 3), (3, 3)), "repeat", ""),
    (SCREENED, Row::RemoveScreen("Z"), "missing", ""),
    (SCREENED, Row::RemoveScreen("A"), "missing", ""),
    (SCREENED, Row::RemoveScreen("S"), "ok", ""),
    (SCREENED, Row::Box("B", (1, 2), (3, 3)), "screen", "S"),
    (SCREENED, Row::Box("A", (1, 2), (3, 3)), "screen", "S"),
    (SCREENED, Row::Move("A", -3, 0), "screen", "S"),
    (SCREENED, Row::Move("A", -4, 0), "outside", ""),
    (ROUTED, Row::Route("C", (2, 0), (4, 0)), "overlap", "A"),
    (ROUTED, Row::Route("A", (2, 0), (4, 0)), "taken", ""),
    (ROUTED, Row::Route("C", (10, 0), (12, 0)), "ok", ""),
    (ROUTED, Row::Route("C", (5, -5), (5, 5)), "ok", ""),
    (ROUTED, Row::Route("C", (5, 5), (5, 5)), "repeat", ""),
    (ROUTED, Row::RemoveRoute("B"), "missing", ""),
    (ROUTED, Row::RemoveRoute("A"), "ok", ""),
];

#[test]
fn edits_are_answered_by_their_first_cause(rt: HostRuntime) -> Result<(), Fail> {
    let alloc = rt.alloc();
    for (rows, last, word, carried) in EDITS {
        let before = plan(alloc, rows)?;
        let asked = edit(alloc, *last)?;
        let why = edit_refusal(before.with(alloc, &asked))?;
        assert!(rt; says(&why, word, carried), "{} {}", *word, *carried);
    }
    Ok(())
}

/// The last corner has the least and the greatest number that there is.
const OUTER_FAR: Row = Row::Outer(&[(0, 0), (9, 0), (i64::MIN, i64::MAX)]);

/// The first corner is told again as the last.
const OUTER_CLOSED: Row = Row::Outer(&[(0, 0), (9, 0), (0, 9), (0, 0)]);

/// Two edges cross.
const OUTER_CROSSED: Row = Row::Outer(&[(0, 0), (9, 9), (9, 0), (0, 9)]);

/// The most rows that there are, as far apart as they may be.
const TALL: Row = Row::Grid(999_999_999, (0, 0), (1, i64::MAX));

/// An item after these rows, and the words of its refusal.
const ITEMS: &[Case] = &[
    (&[], Row::Box("A", (2, 2), (4, 4)), "order", ""),
    (&[], Row::Grid(1, (0, 0), (2, 2)), "order", ""),
    (&[OUTER], OUTER, "order", ""),
    (GRIDDED, Row::Grid(1, (0, 0), (2, 2)), "order", ""),
    (&[], Row::Outer(&[(0, 0), (9, 0)]), "count", ""),
    (&[], OUTER_FAR, "range", ""),
    (&[], OUTER_CLOSED, "repeat", ""),
    (&[], OUTER_CROSSED, "cross", ""),
    (&[OUTER], Row::Grid(0, (0, 0), (2, 2)), "range", ""),
    (&[OUTER], TALL, "range", ""),
    (&[OUTER], Row::Grid(1, (0, 0), (65, 64)), "full points", ""),
    (ONE, Row::Box("B", (4, 4), (6, 6)), "touch", "A"),
    (SCREENED, Row::Box("A", (1, 2), (3, 3)), "screen", "S"),
    (ROUTED, Row::Route("C", (20, 0), (9, 0)), "overlap", "A"),
];

#[test]
fn the_first_refused_item_is_told(rt: HostRuntime) -> Result<(), Fail> {
    let alloc = rt.alloc();
    for (rows, last, word, carried) in ITEMS {
        let mut given = listed(alloc, rows)?;
        given.items.push(item(alloc, *last)?)?;
        // A second outer polygon is refused too, and isn't told.
        given.items.push(item(alloc, OUTER)?)?;
        let (number, why) = item_refusal(check(alloc, &given))?;
        assert_eq!(rt; number as usize, rows.len(), "{}", *word);
        assert!(rt; says(&why, word, carried), "{} {}", *word, *carried);
    }
    let (number, why) = item_refusal(check(alloc, &listed(alloc, &[])?))?;
    assert!(rt; number == 0 && says(&why, "order", ""));
    Ok(())
}

fn digit(k: usize) -> u8 {
    b'0' + (k % 10) as u8
}

/// A name of its own for each number below 1000.
fn numbered(k: usize) -> Result<Name, Fail> {
    let digits = [digit(k / 100), digit(k / 10), digit(k)];
    Ok(Name::of(&digits).ok_or("a number has no name")?)
}

/// Box or triangle `k` of a field of 16 by 17 cells.
fn part(alloc: Global, k: usize, corners: usize) -> Result<Item, Fail>
    requires { k < 1000 }
{
    let (x, y) = ((k % 16) as i64 * 10 + 2, (k / 16) as i64 * 10 + 2);
    let all = [(x, y), (x + 4, y), (x + 4, y + 4), (x, y + 4)];
    let mut points = Points::new(alloc);
    for pair in all.iter().take(corners) {
        points.push(point(*pair))?;
    }
    Ok(Item::Obstacle(numbered(k)?, points))
}

/// Line `k` of such a field: a screen or a route.
fn line(k: usize, is_screen: bool) -> Result<Item, Fail>
    requires { k < 1000 }
{
    let from = Point {
        x: (k % 16) as i64 * 10 + 2,
        y: (k / 16) as i64 * 10 + 2,
    };
    let to = Point {
        x: from.x + 4,
        y: from.y,
    };
    if is_screen {
        Ok(Item::Screen(numbered(k)?, from, to))
    } else {
        Ok(Item::Route(numbered(k)?, from, to))
    }
}

#[derive(Clone, Copy)]
enum Kind {
    Box,
    Triangle,
    Screen,
    Route,
}

fn field(alloc: Global, kind: Kind, count: usize) -> Result<PlanData, Fail>
    requires { count < 1000 }
{
    let mut items = Items::new(alloc);
    items.push(Item::Outer(box_points(alloc, (0, 0), (200, 200))?))?;
    for k in 0..count {
        let item = match kind {
            Kind::Box => part(alloc, k, 4)?,
            Kind::Triangle => part(alloc, k, 3)?,
            Kind::Screen => line(k, true)?,
            Kind::Route => line(k, false)?,
        };
        items.push(item)?;
    }
    Ok(PlanData { items })
}

fn is_full_after(alloc: Global, kind: Kind, most: usize, expected: &str) -> Result<bool, Fail>
    requires { most < 999 }
{
    let (_, accepted) = item_refusal(check(alloc, &field(alloc, kind, most)?))?;
    let (number, refused) = item_refusal(check(alloc, &field(alloc, kind, most + 1)?))?;
    Ok(says(&accepted, "ok", "") && says(&refused, expected, "") && number as usize == most + 1)
}

#[test]
fn limits_are_kept(rt: HostRuntime) -> Result<(), Fail> {
    let alloc = rt.alloc();
    assert!(rt; is_full_after(alloc, Kind::Box, 255, "full corners")?);
    assert!(rt; is_full_after(alloc, Kind::Triangle, 256, "full obstacles")?);
    assert!(rt; is_full_after(alloc, Kind::Screen, 256, "full screens")?);
    assert!(rt; is_full_after(alloc, Kind::Route, 256, "full routes")?);
    Ok(())
}

const WHOLE: &[Row] = &[
    OUTER,
    Row::Grid(5, (0, 0), (3, 2)),
    Row::Box("A", (1, 1), (3, 3)),
    Row::Box("B", (5, 5), (7, 7)),
    Row::Screen("S", (1, 9), (4, 9)),
    Row::Route("R", (0, 0), (10, 0)),
    Row::Route("Q", (0, 1), (10, 1)),
];

fn is_whole(plan: &Plan) -> bool {
    plan.outer().len() == 4
        && plan.grid().is_some()
        && plan.obstacles() == 2
        && plan.obstacle_name(1).bytes() == b"B".as_slice()
        && plan.obstacle(1).first() == Some(&Point { x: 5, y: 5 })
        && plan.screens() == 1
        && plan.screen(0).to == Point { x: 4, y: 9 }
        && plan.routes() == 2
        && plan.route(1).name.bytes() == b"Q".as_slice()
}

#[test]
fn a_plan_is_read_and_listed(rt: HostRuntime) -> Result<(), Fail> {
    let alloc = rt.alloc();
    let first = plan(alloc, WHOLE)?;
    assert!(rt; is_whole(&first));
    assert_eq!(rt; first.route_named(&name("Q")?), Some(1));
    assert_eq!(rt; first.route_named(&name("A")?), None);
    match check(alloc, &first.items(alloc)?) {
        Ok(again) => assert!(rt; is_whole(&again)),
        Err(_fault) => Err("a plan isn't accepted again")?,
    }
    Ok(())
}

#[test]
fn an_edit_changes_two_boxes(rt: HostRuntime) -> Result<(), Fail> {
    let alloc = rt.alloc();
    let asked = edit(alloc, Row::Move("B", -2, 1))?;
    let changed = plan(alloc, WHOLE)?.changed(&asked);
    let before = PlanBox {
        low: Point { x: 5, y: 5 },
        high: Point { x: 7, y: 7 },
    };
    let after = PlanBox {
        low: Point { x: 3, y: 6 },
        high: Point { x: 5, y: 8 },
    };
    assert_eq!(rt; changed.first, Some(before));
    assert_eq!(rt; changed.second, Some(after));
    Ok(())
}
