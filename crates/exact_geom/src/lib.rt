//! Exact predicates on points with whole coordinates, fractions in lowest terms, and points with fractions.
//!
//! | item | what it is |
//! |---|---|
//! | [`Point`], [`Segment`], [`Corner`], [`PlanBox`] | the data of the plane |
//! | [`Name`], [`NoMemory`] | a name; the answer for out of memory |
//! | [`is_coordinate`], [`in_range`] | whether a number is a coordinate, and whether both of a point are |
//! | [`MAX_COORDINATE`], [`MAX_COMPONENT`] | how large coordinates and the components of directions are |
//! | [`MAX_DIFFERENCE`], [`MAX_PRODUCT`], [`MAX_CROSS`], [`MAX_ORIENTATION`] | how large what is computed of them is |
//! | [`MAX_STOP_PART`], [`MAX_COORDINATE_PART`], [`MAX_FRACTION_PART`] | how large the parts of fractions are |
//! | [`orient`], [`cross`], [`dot`] | which way three points or two directions turn |
//! | [`same_point`], [`vector`] | whether two points are one; the direction from one to another |
//! | [`turns_left`], [`is_left_of_line`] | what is strictly left of a direction or of a line |
//! | [`is_zero`], [`is_positive`], [`is_at_least_zero`], [`are_opposite`], [`is_less`] | comparisons |
//! | [`wide_product`] | a product of two parts of fractions |
//! | [`orient_laws`] | how three points turn in another order |
//! | [`on_segment`], [`cross_properly`], [`touch`] | what lies on a segment, and what two of them share |
//! | [`edge`], [`on_border`], [`inside`] | an edge of a polygon; what lies on its border and inside |
//! | [`turn_order`], [`turn_order_laws`] | the order of directions counterclockwise from (1,0), and that it is one |
//! | [`box_of`], [`meets_box`] | the least box round points, and which segments meet a box |
//! | [`Frac`], [`RPoint`] | a fraction in lowest terms, and a point whose coordinates are fractions |
//! | [`lowest_terms`] | the laws of lowest terms: one form for each value |
//! | [`rpoints_are_small`], [`along_is_by_value`] | how large the parts of a point on a ray are, and what it depends on |
//! | [`rpoint_order_laws`] | the order of points whose coordinates are fractions is one |
//! | [`extent_meets_box`], [`on_extent`] | whether a part of a line meets a box, and what lies on it |
//! | [`types_are_shared`] | every type here may be moved to a thread and shared between threads |
#![tactic(auto)]

mod arithmetic;
mod boxes;
mod compare;
mod directions;
mod extents;
mod fractions;
mod limits;
mod polygons;
mod products;
mod rpoints;
mod segments;
mod vectors;

pub use arithmetic::wide_product;
pub use boxes::{box_of, meets_box};
pub use compare::{are_opposite, is_at_least_zero, is_less, is_positive, is_zero};
pub use directions::{turn_order, turn_order_laws};
pub use extents::{extent_meets_box, on_extent};
pub use fractions::{Frac, lowest_terms};
pub use limits::{
    MAX_COORDINATE_PART, MAX_CROSS, MAX_DIFFERENCE, MAX_FRACTION_PART, MAX_ORIENTATION,
    MAX_PRODUCT, MAX_STOP_PART,
};
pub use plane_spec::{Corner, MAX_COMPONENT, MAX_COORDINATE, PlanBox, Point, Segment};
pub use polygons::{edge, inside, on_border};
pub use products::{cross, dot, orient, orient_laws};
pub use rpoints::{RPoint, along_is_by_value, rpoint_order_laws, rpoints_are_small};
pub use segments::{cross_properly, on_segment, touch};
pub use text_spec::{Name, NoMemory};
pub use vectors::{in_range, is_coordinate, is_left_of_line, same_point, turns_left, vector};

fn is_shared<T: Send + Sync>() {}

/// Every type that this crate offers may be moved to another thread and shared between threads.
pub fn types_are_shared() {
    is_shared::<Point>();
    is_shared::<Segment>();
    is_shared::<Corner>();
    is_shared::<PlanBox>();
    is_shared::<Frac>();
    is_shared::<RPoint>();
    is_shared::<Name>();
    is_shared::<NoMemory>();
}
