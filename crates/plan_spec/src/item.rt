//! What a plan is made of.

use crate::lists::{Items, Points};
use plane_spec::Point;
use text_spec::Name;

/// The grid points `(x0 + step * col, y0 + step * row)`, numbered row by row from 0.
#[derive(Clone, Copy, Debug, PartialEq, Eq)]
pub struct GridSpec {
    /// The distance of neighbouring points, in the plan's unit.
    pub step: i64,
    /// The least coordinate to the right.
    pub x0: i64,
    /// The least coordinate upwards.
    pub y0: i64,
    /// How many points a row has.
    pub cols: i64,
    /// How many rows there are.
    pub rows: i64,
}

/// A line without thickness that touches nothing and blocks what crosses it properly.
#[derive(Drop)]
pub struct Screen {
    /// What it is called; no other screen is called so.
    pub name: Name,
    /// One end.
    pub from: Point,
    /// The other end.
    pub to: Point,
}

/// A straight route between two points, which isn't compared with walls.
#[derive(Drop)]
pub struct Route {
    /// What it is called; no other route is called so.
    pub name: Name,
    /// Where it begins.
    pub from: Point,
    /// Where it ends.
    pub to: Point,
}

/// A part of a plan, as it is given. Its numbers may be out of range.
#[derive(Drop)]
pub enum Item {
    /// The grid; a plan has at most one.
    Grid(GridSpec),
    /// The polygon around the plan.
    Outer(Points),
    /// A polygon that blocks sight and walking, and its name.
    Obstacle(Name, Points),
    /// A screen between two points.
    Screen(Name, Point, Point),
    /// A route from one point to another.
    Route(Name, Point, Point),
}

/// The items of a plan, in the order in which they are given.
#[derive(Drop)]
pub struct PlanData {
    /// In the order in which they are given.
    pub items: Items,
}
