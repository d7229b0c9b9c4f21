//! Routes: the pieces into which they cut each other, and the turns on the way from one piece to another. Definitions
//! alone.
//!
//! `specs/Routes.antt` says what pieces, turns and turn depths are.
#![tactic(auto)]
