//! Laws of isovists: the directions of corners, the gaps between them, what is seen in a gap, and that no two
//! triangles overlap.
//!
//! ```text
//!   b ______________________ a        The ray in the direction of the sum of e and f meets the wall from a to b. Both its
//!      f\        |        /e           ends are corners, so neither lies strictly between e and f: the wall spans the gap.
//!        \       |sum    /
//!         \      |      /
//!          `-----p-----'
//! ```
//!
//! A law is a function without parameters and with an empty body, whose contract states it. Plans may be any, sound or
//! not; coordinates are any whole numbers.
//!
//! | law | what it says | breaks if .. changes |
//! |---|---|---|
//! | [`a_wall_spans_its_run`] | no end of a run's wall lies strictly between the run's directions, and the rays in both meet the wall's line ahead | `corner_directions`, `wall_between`, `runs_of`, `corners_of` |
//! | [`runs_go_round_once`] | no direction lies strictly between the directions of two different runs | `corner_directions`, `gaps_of`, `turns_before`, `runs_of` |
//! | [`triangles_overlap_nowhere`] | no place lies strictly inside two triangles of an isovist, so no area is counted twice | the same, `wall_parameter`, `along`, `triangle_of` |
//!
//! Proofs cite the laws in `proofs/`, each file with its argument at its head: `Firsts` (the first of those that
//! tie, in order, are what a stable sort leaves without repeats), `Between` and `Gaps` (no direction of a list in
//! order lies strictly in a gap of it), `Places` (where a wall ends a corner stands), `Directions` (the directions
//! of corners), `Wedge` and `Spanning` (a wall spans its gap, and its run), `Meetings` (where the rays meet it),
//! `Areas` (floors and ceilings of the areas, which are at most 8 * 10^10), `Rounds` (the runs go round once) and
//! `Inside` (what is inside a triangle lies between the directions of its run). `Examples` has the triangles of a
//! point below a column.
#![tactic(auto)]

mod runs;
mod triangles;

pub use runs::{a_wall_spans_its_run, runs_go_round_once};
pub use triangles::triangles_overlap_nowhere;
