//! Laws of spots: the points p + t d of a line, for fractions t, over one denominator; and of extents between two
//! spots.
//!
//! A point with two fractions in lowest terms says little of where it is on a line. Over the one denominator of t,
//! spots are compared, and lie in boxes, by products alone. These are laws for the proofs above, which cite the
//! lemmas:
//!
//! | file | what its laws say |
//! |---|---|
//! | `Factors` | a positive factor on both sides keeps the order |
//! | `Spots` | a wall or a corner in a box is hit there, and an extent that ends in a box meets it |
//! | `Spans` | what lies between the ends of an extent, so that it meets the boxes that hold a spot of it |
//! | `SameSpots` | extents with the same ends, over whatever denominators, meet the same boxes |
//!
//! They rest on sides of lines (`plane_spec`, `Vectors`) and on when an extent meets a box (`Boxes`).
#![tactic(auto)]
