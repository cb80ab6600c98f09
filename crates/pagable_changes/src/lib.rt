//! Page-out at the cost of what changed: a cell that has a key isn't walked, its key is used.
#![tactic(auto)]

mod calls;
mod changed;
mod keys;
mod nodes;
mod turns;

pub use changed::page_out_changed;
