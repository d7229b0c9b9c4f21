//! Laws of lists: with some elements dropped, with a part gone from the middle, first elements, least elements, merges.
//!
//! A contract can't speak of lists of all types, so the laws are the lemmas in `proofs/`, each said once:
//!
//! | file | what its laws say |
//! |---|---|
//! | `Conditions` | laws of `&&`, `||` and `not`, by which conditions are put in order |
//! | `Tests` | tests of all elements and of any, over lists joined, mapped and filtered |
//! | `Elements` | what holds of all elements, of lists joined, mapped and filtered |
//! | `Dropped` | a list without some elements: what a function gives of it, and which tests are passed as before |
//! | `Least` | the least stays when others are dropped, and comes back when greater ones are added |
//! | `Gaps` | where a part is gone, the numbered pairs are those of which both stay, with their numbers closed up |
//! | `Firsts` | the first elements that pass a test are the first ones of those that pass, where like ones pass alike |
//! | `Numbers` | what is known of numbered elements and of their pairs, and that the pairs are in order |
//! | `Single` | where one element passes a test, what stands before it and after it |
//! | `Merged` | a list in order is those that pass a test, merged with the others |
//!
//! They rest on std's lists and on `pairs`, `distinct_by` and `min_by` of `plane_spec` (`Lists`), and break if those
//! change. Their own words (`Dropped`, `IsRising`, `IsWeakOrder`, `merged`, `closed_up`) stand in `specs/`.
#![tactic(auto)]
