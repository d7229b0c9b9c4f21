//! Laws of the integers that the geometry cites: products and their signs, identities, divisors.
//!
//! The laws stand in `proofs/`, each once: `Ring` (identities over the integers, by differences of naturals), `Signs`
//! (signs of products and sums), `Tests` (what passes a test), `Multiples` (a positive factor on both sides changes no
//! test) and `Divisors` (greatest common divisors, lowest terms).
#![tactic(auto)]
