//! The laws of the definitions of values and of the pager's steps: each law is a clause of a
//! function that does nothing. Other crates cite this one's definitions and proofs.
#![tactic(auto)]

pub mod runs;
pub mod values;
