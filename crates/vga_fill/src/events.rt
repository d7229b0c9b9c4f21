//! What a seat knows, and the events of a fill. All of it is for contracts: at run time there is nothing of it.

ghost use Rattle.std.specs.Prelude.{◌≡◌};

use atomic_table::{Join, Play, Split, TableRule};
use plan_check::Plan;
use std::collections::LinkedList;
use std::snapshot::Snapshot;
use vga_grid::BitGraph;

/// What a fill is to do: it makes the visibility graph of the plan after an edit out of the graph before it.
#[derive(Drop)]
pub struct Task {
    /// How many nodes both have.
    pub count: u32,
    /// The graph that the fill begins with.
    pub old: Snapshot<BitGraph>,
    /// The plan whose visibility graph it makes.
    pub after: Snapshot<Plan>,
}

/// What a seat knows. No value of it is made.
pub struct View {
    /// What the fill is to do. A seat that was joined into another knows nothing.
    pub task: Option<Task>,
    /// How many rows there are.
    pub count: u32,
    /// The rows that it claimed.
    pub rows: LinkedList<u32>,
    /// Where it set bits, each as a word and a mask of ones.
    pub ones: LinkedList<(u64, u64)>,
    /// Where it cleared bits, each as a word and a mask of zeros.
    pub zeros: LinkedList<(u64, u64)>,
    /// Whether it was told that no row is left.
    pub told: bool,
    /// How often it was told so.
    pub tellings: u64,
    /// How often it may be told so.
    pub passes: u64,
}

/// Each bit is old or new, each row is claimed once, and what a seat wrote stays.
pub struct FillRule;

impl TableRule<(), View, Task> for FillRule {
    ghost use Rattle.vga_fill.specs.Graphs.{Rule};
    ghost use Rattle.vga_fill.specs.Views.{first_view};

    ghost holds = { Rule };

    ghost first = { first_view };
}

/// A row is claimed, or all were.
pub struct Claims;

impl Play<(), View> for Claims {
    ghost use Rattle.vga_fill.specs.Filling.{Claimed};

    ghost then = { Claimed };
}

/// Places of a word are set.
pub struct Sets;

impl Play<(), View> for Sets {
    ghost use Rattle.vga_fill.specs.Filling.{Set};

    ghost then = { Set };
}

/// Places of a word are cleared.
pub struct Clears;

impl Play<(), View> for Clears {
    ghost use Rattle.vga_fill.specs.Filling.{Cleared};

    ghost then = { Cleared };
}

/// A seat is split in two, and two are joined.
pub struct Halves;

impl Split<View> for Halves {
    ghost use Rattle.vga_fill.specs.Views.{left_of, right_of};

    ghost left = { left_of };

    ghost right = { right_of };
}

impl Join<View> for Halves {
    ghost use Rattle.vga_fill.specs.Views.{both_of, spent};

    ghost both = { both_of };

    ghost spent = { spent };
}
