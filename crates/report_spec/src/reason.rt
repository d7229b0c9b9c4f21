//! Why a line of a plan or of a script is refused.

use grammar_spec::TextWhy;
use plan_spec::Why;

/// Why a line of a plan or of a script is refused.
#[derive(Drop)]
pub enum Reason {
    /// It is outside the grammar.
    Text(TextWhy),
    /// Its item, its edit or its question is refused for a cause of plans.
    Edit(Why),
    /// No grid point stands there.
    NoPoint,
    /// The point isn't open.
    Closed,
    /// There are more than [`MAX_AXIAL_LINES`](plan_spec::MAX_AXIAL_LINES) axial lines.
    Lines,
}
