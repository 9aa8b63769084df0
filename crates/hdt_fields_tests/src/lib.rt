//! The number of `u64` values that a graph and its parts keep in memory, for the sample file v1.hdt.
//!
//! Each `held` destructures its value by a pattern that names every field, so a new field doesn't compile until it is
//! counted. These tests call each `held` once, in a crate of their own, so that the libraries are proved only once.
#![tactic(auto)]

#[cfg(test)]
mod fields;
