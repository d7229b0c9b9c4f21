//! Routes cut into pieces where they meet, the turns from piece to piece, and the least turns from one piece to all
//! others.
//!
//! ```text
//!          3          two routes that cut each other: four pieces, each with three neighbours;
//!     0 ───●─── 1     from piece 0 straight on to 1 costs nothing, and the square turn to 2 or 3 costs 8
//!          2
//! ```
//!
//! | item | what it is |
//! |---|---|
//! | [`Piece`] | a part of a route between two cuts or ends |
//! | [`pieces`] | the pieces of the routes of a plan |
//! | [`neighbours`] | how many other pieces share an end with each piece |
//! | [`turn`] | the turn from one direction to another, 0 straight on to 16 straight back |
//! | [`turn_depths`] | the least sum of turns of a walk from one piece to each |
//!
//! A piece is walked with its route or against it: in this crate a *step* is a piece in a heading, by number. Steps
//! begin at *nodes*, the points where pieces end. All that is compared or counted is exact.
#![tactic(auto)]

mod cut_routes;
mod cuts;
mod depths;
mod ends;
mod limits;
mod narrowing;
mod nodes;
mod piece;
mod queue;
mod sharing;
mod turning;

pub use cut_routes::pieces;
pub use depths::turn_depths;
pub use piece::Piece;
pub use sharing::neighbours;
pub use turning::turn;
