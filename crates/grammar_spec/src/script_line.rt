//! What a line of a script says.

use plan_spec::Edit;
use plane_spec::Point;
use text_spec::Name;

/// The word that begins a line; `show` stands apart.
#[derive(Clone, Copy, Debug, PartialEq, Eq)]
pub enum ScriptWord {
    /// Adds an obstacle by its points.
    Add,
    /// Adds an obstacle as a box.
    Addbox,
    /// Removes an obstacle.
    Remove,
    /// Moves an obstacle.
    Move,
    /// Adds a screen.
    Addscreen,
    /// Removes a screen.
    Removescreen,
    /// Adds a route.
    Addroute,
    /// Removes a route.
    Removeroute,
    /// Asks for the depths from a grid point.
    Depth,
    /// Asks for the isovist of a point.
    Isovist,
    /// Asks for the turns from a route.
    Turns,
}

/// A question of a script. Points may be out of range.
#[derive(Drop)]
pub enum Query {
    /// The edges of the visibility graph.
    Edges,
    /// The measures of the open grid points.
    Points,
    /// The axial lines.
    Axial,
    /// The measures of the axial lines.
    Lines,
    /// The pieces of the routes.
    Segments,
    /// The plan itself.
    Plan,
    /// The depth of each open grid point from this one.
    Depth(Point),
    /// The isovist of this point.
    Isovist(Point),
    /// The least turns from the route of this name to each piece.
    Turns(Name),
}

/// A line of a script.
#[derive(Drop)]
pub enum Line {
    /// No words, or a comment.
    Blank,
    /// A change of the plan.
    Edit(Edit),
    /// A question on the plan as it stands.
    Query(Query),
}
