//! Tests of the shared fill, in a crate of their own: within `vga_fill` each function there would be proved a second
//! time with them.
#![tactic(auto)]

#[cfg(test)]
mod by_hand;
#[cfg(test)]
mod plans;
#[cfg(test)]
mod workers;
