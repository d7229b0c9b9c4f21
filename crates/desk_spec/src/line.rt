//! What a line of a script at a desk says.

use plan_spec::Edit;

/// A line of a script at a desk.
#[derive(Drop)]
pub enum DeskLine {
    /// No words, or a comment.
    Blank,
    /// A change of the plan.
    Edit(Edit),
    /// The last change is taken back.
    Undo,
    /// The last change that was taken back is made again.
    Redo,
    /// The plan as it stands is asked for.
    ShowPlan,
    /// The notes are asked for that the watcher of this number keeps, counted from 0.
    ShowWatch(i64),
    /// The watcher of this number goes, counted from 0.
    Unwatch(i64),
}
