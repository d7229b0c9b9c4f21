//! Tests of exact geometry, in a crate of their own: within `exact_geom` each function there would be proved a second
//! time with them.
#![tactic(auto)]

#[cfg(test)]
mod extents;
#[cfg(test)]
mod fractions;
#[cfg(test)]
mod tests;
