//! Small figures, with the answers of plain geometry.

ghost use Rattle.plane_spec.specs.Vectors.{InRange};

use exact_geom::{
    box_of, cross, cross_properly, dot, edge, in_range, inside, meets_box, on_border, on_segment,
    orient, touch, turn_order,
};
use plane_spec::{PlanBox, Point};
use std::cmp::Ordering;
use std::process::Abort;

fn at(x: i64, y: i64) -> Point {
    Point { x, y }
}

/// The point, which the test knows to be in range.
fn known(rt: &impl Abort, p: Point) -> Point
    ensures { InRange result }
{
    assert!(rt; in_range(p));
    p
}

fn segments(rt: &impl Abort) {
    // a point, the ends of a segment, and whether the point lies on it
    let on_it = [
        (at(4, 2), at(0, 0), at(4, 2), true),
        (at(2, 1), at(4, 2), at(0, 0), true),
        (at(6, 3), at(0, 0), at(4, 2), false),
        (at(2, 2), at(0, 0), at(4, 2), false),
        (at(3, 3), at(3, 3), at(3, 3), true),
        (at(0, 0), at(-100_000, -100_000), at(100_000, 100_000), true),
        (
            at(1, 0),
            at(-100_000, -100_000),
            at(100_000, 100_000),
            false,
        ),
    ];
    for (x, a, b, expected) in on_it {
        let (x, a, b) = (known(rt, x), known(rt, a), known(rt, b));
        assert!(rt; on_segment(x, a, b) == expected);
    }
    let (low, corner, high) = (
        at(-100_000, -100_000),
        at(100_000, -100_000),
        at(100_000, 100_000),
    );
    assert!(rt; orient(known(rt, low), known(rt, corner), known(rt, high)) == 40_000_000_000);
    // the ends of two segments, whether they cross properly, and whether they touch
    let pairs = [
        (at(0, 0), at(4, 4), at(0, 4), at(4, 0), true, true),
        (at(0, 0), at(4, 0), at(2, 0), at(2, 3), false, true),
        (at(0, 0), at(2, 0), at(2, 0), at(5, 0), false, true),
        (at(0, 0), at(4, 0), at(1, 0), at(3, 0), false, true),
        (at(0, 0), at(1, 0), at(2, 0), at(5, 0), false, false),
        (at(0, 0), at(4, 0), at(0, 1), at(4, 1), false, false),
        (at(0, 0), at(1, 1), at(3, 1), at(1, 3), false, false),
    ];
    for (a, b, c, d, proper, touching) in pairs {
        let (a, b, c, d) = (known(rt, a), known(rt, b), known(rt, c), known(rt, d));
        assert!(rt; cross_properly(a, b, c, d) == proper);
        assert!(rt; touch(a, b, c, d) == touching);
    }
}

fn polygons(rt: &impl Abort) {
    let diamond = [
        Point { x: 5, y: 0 },
        Point { x: 10, y: 5 },
        Point { x: 5, y: 10 },
        Point { x: 0, y: 5 },
    ];
    // a point, whether it lies inside the diamond, and whether it lies on its border
    let points = [
        (at(5, 5), true, false),
        (at(2, 5), true, false),
        (at(0, 0), false, false),
        (at(0, 5), false, true),
        (at(7, 2), false, true),
        (at(8, 2), false, false),
        (at(-1, 5), false, false),
        (at(0, 10), false, false),
    ];
    for (x, is_inside, is_on_border) in points {
        let x = known(rt, x);
        assert!(rt; inside(x, &diamond) == is_inside);
        assert!(rt; on_border(x, &diamond) == is_on_border);
    }
    let last = edge(&diamond, 3);
    assert!(rt; last.a == at(0, 5) && last.b == at(5, 0));
    let area = box_of(&diamond);
    assert!(rt; area.low == at(0, 0) && area.high == at(10, 10));
}

fn directions(rt: &impl Abort) {
    assert!(rt; cross(known(rt, at(1, 2)), known(rt, at(3, 4))) == -2);
    assert!(rt; dot(known(rt, at(1, 2)), known(rt, at(3, 4))) == 11);
    // two directions, and how they compare round the circle from (1,0)
    let pairs = [
        (at(1, 0), at(5, 1), Ordering::Less),
        (at(-1, 0), at(0, -3), Ordering::Less),
        (at(-1, 0), at(1, 0), Ordering::Greater),
        (at(-2, 4), at(-1, 2), Ordering::Equal),
        (at(0, -1), at(0, 1), Ordering::Greater),
        (at(1, -1), at(1, 0), Ordering::Greater),
        (at(99_999, 100_000), at(99_998, 99_999), Ordering::Less),
    ];
    for (d, e, expected) in pairs {
        assert!(rt; turn_order(known(rt, d), known(rt, e)) == expected);
    }
}

fn boxes(rt: &impl Abort) {
    let area = PlanBox {
        low: Point { x: 4, y: 4 },
        high: Point { x: 6, y: 6 },
    };
    // the ends of a segment, and whether it meets the box
    let segments = [
        (at(0, 0), at(10, 10), true),
        (at(0, 0), at(10, 5), false),
        (at(0, 4), at(4, 4), true),
        (at(0, 0), at(3, 3), false),
        (at(0, 10), at(10, 0), true),
        (at(0, 8), at(8, 0), true),
        (at(0, 7), at(7, 0), false),
        (at(5, 5), at(5, 5), true),
    ];
    for (p, q, expected) in segments {
        assert!(rt; meets_box(known(rt, p), known(rt, q), area) == expected);
    }
}

#[test]
fn small_figures_have_the_answers_of_plain_geometry(rt: HostRuntime) {
    segments(&rt);
    polygons(&rt);
    directions(&rt);
    boxes(&rt);
}
