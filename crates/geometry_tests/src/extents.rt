//! Intervals of a line, and whether they meet a box.

ghost use Rattle.std.specs.Prelude.{◌≢◌, pos};
ghost use Rattle.plane_spec.specs.Vectors.{IsWithin};
ghost use Rattle.exact_geom.specs.Parts.{HasRPointParts};
ghost use Rattle.exact_geom.specs.declared.limits.TheConstants.{MAX_STOP_PART};

use exact_geom::{Frac, PlanBox, Point, RPoint, extent_meets_box};

/// The place after `num / den` steps from (1,0) by (3,1).
fn place(num: i128, den: i128) -> RPoint
    requires num_in { IsWithin MAX_STOP_PART num }
    requires den_in { IsWithin MAX_STOP_PART den }
    requires nonzero { den ≢ pos 0 }
    ensures { HasRPointParts result }
{
    RPoint::along(
        Point { x: 1, y: 0 },
        Point { x: 3, y: 1 },
        &Frac::new(num, den),
    )
}

/// Whether the interval from `from` to `to` meets the box from (2,0) to (4,2) moved by `shift` to the right.
fn meets(from: &RPoint, to: &RPoint, shift: i64) -> bool
    requires from_in { HasRPointParts from.now }
    requires to_in { HasRPointParts to.now }
    requires shift_in { IsWithin (pos 100) shift }
{
    let area = PlanBox {
        low: Point { x: 2 + shift, y: 0 },
        high: Point { x: 4 + shift, y: 2 },
    };
    extent_meets_box(Point { x: 1, y: 0 }, Point { x: 4, y: 1 }, from, to, area)
}

#[test]
fn stretches_and_boxes(rt: HostRuntime) {
    let start = place(0, 1);
    let before = place(1, 4);
    let border = place(2, 6);
    let after = place(-2, -3);
    assert!(rt; border.x == Frac::new(2, 1) && border.y == Frac::new(1, 3));
    assert!(rt; border == place(1, 3) && border != after);
    assert!(rt; !meets(&start, &before, 0));
    assert!(rt; meets(&start, &border, 0));
    assert!(rt; meets(&border, &after, 0));
    assert!(rt; meets(&after, &start, 0));
    assert!(rt; meets(&start, &before, -3));
    assert!(rt; !meets(&border, &after, 2));
}
