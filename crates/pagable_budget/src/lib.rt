//! Bounds on the memory of a pager: a budget of pins that a program wants kept, which evicts the
//! least recently used first; and a page-out made only if more than a number of cells wait for it.
#![tactic(auto)]

mod bound;
mod evictions;
mod waiting;

pub use bound::{Budget, BudgetStats};
pub use evictions::KeptPin;
pub use waiting::page_out_above;
