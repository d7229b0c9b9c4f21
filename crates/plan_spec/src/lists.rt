//! The lists that items and plans are made of. Contracts see them as lists.

use crate::item::Item;
use plane_spec::Point;
use text_spec::Sequence;

/// A list of points.
pub type Points = Sequence<Point>;

/// A list of items.
pub type Items = Sequence<Item>;
